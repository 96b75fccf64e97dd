//! Power is cut at each device write of some commands, or a call of the flash fails, and nothing is lost.

use crate::bench::Bench;
use crate::lists::Step;
use ft_base::Outcome;
use std::alloc::Global;

const OUTCOMES: [Outcome; 4] = [
    Outcome::Blank,
    Outcome::Whole,
    Outcome::Torn,
    Outcome::Mixed,
];

/// Commands, some of which are not carried out.
#[derive(Clone, Copy)]
struct Story {
    /// The commands that are carried out.
    begun: &'static [Step],
    /// The commands in which a device write is cut, or a call fails.
    stopped: &'static [Step],
    /// Whether the second device write of a first opening is cut as well.
    is_opening_cut: bool,
    /// Whether clean groups may give way.
    gives_way: bool,
}

/// The stop of a story.
#[derive(Clone, Copy)]
enum Stop {
    /// The device write of a number is cut, counted from the first command that may not be carried out.
    Cut(u64, Outcome),
    /// The call of the flash with a number fails, counted from the very first call.
    Fault(u64),
}

/// The outcome of a story.
#[derive(Clone, Copy, PartialEq, Eq)]
enum Became {
    /// The stop isn't within the commands that are looked at.
    Untouched,
    /// Nothing is lost.
    Kept,
    /// Something is lost.
    Lost,
}

/// An empty cache with such a stop before it.
fn bench_for(alloc: Global, stop: Stop) -> Option<Bench> {
    match stop {
        Stop::Cut(_, _) => Bench::new(alloc),
        Stop::Fault(number) => Bench::failing(alloc, number),
    }
}

/// Opens the flash after a stop. The opening may be cut as the commands were.
fn opens_after(bench: &mut Bench, story: &Story, stop: Stop) -> bool {
    match stop {
        Stop::Cut(_, outcome) if story.is_opening_cut => bench.cut_opening(2, outcome)
            && bench.open(),
        _ => bench.open(),
    }
}

/// Arms the stop before the commands that are looked at, unless it is armed already.
fn armed(bench: &mut Bench, stop: Stop) -> bool {
    match stop {
        Stop::Cut(number, outcome) => bench.arm(number, outcome),
        Stop::Fault(_) => true,
    }
}

/// The outcome of the commands that are looked at.
fn tried(bench: &mut Bench, story: &Story, stop: Stop) -> Became {
    if !bench.run(story.begun) || !armed(bench, stop) {
        return Became::Untouched;
    }
    let given = bench.given_until_stopped(story.stopped);
    if given == story.stopped.len() {
        return Became::Untouched;
    }
    if opens_after(bench, story, stop) && bench.is_left(story.stopped, given, story.gives_way) {
        return Became::Kept;
    }
    Became::Lost
}

/// The outcome of a story with such a stop.
fn told(alloc: Global, story: &Story, stop: Stop) -> Became {
    match bench_for(alloc, stop) {
        Some(bench) => {
            let mut bench = bench;
            tried(&mut bench, story, stop)
        }
        None => Became::Lost,
    }
}

/// The first outcome of a stop at the device write of a number with which something is lost.
fn losing(alloc: Global, story: &Story, number: u64) -> Option<Outcome> {
    for i in 0..4 {
        if told(alloc, story, Stop::Cut(number, OUTCOMES[i])) != Became::Kept {
            return Some(OUTCOMES[i]);
        }
    }
    None
}

/// The first stop, at a device write below a number, with which something is lost.
fn first_losing(alloc: Global, story: &Story, end: u64) -> Option<(u64, Outcome)> {
    for number in 1..end {
        if let Some(outcome) = losing(alloc, story, number) {
            return Some((number, outcome));
        }
    }
    None
}

/// How many calls fail within the commands that are looked at, each in turn; `None` if something is lost. The first
/// calls are the ones that make the cache.
fn count_kept(alloc: Global, story: &Story) -> Option<u32> {
    let mut kept: u32 = 0;
    for number in 15..90 {
        match told(alloc, story, Stop::Fault(number)) {
            Became::Untouched => {}
            Became::Kept => kept = kept.wrapping_add(1),
            Became::Lost => return None,
        }
    }
    Some(kept)
}

// ---- commands of two groups

/// As many dirty groups as there may be.
const TWO_GROUPS: [Step; 2] = [Step::WriteDirty(0, 1), Step::WriteDirty(4, 1)];

/// The stop may be any of their twelve device writes: the log is full when the second erase block is
/// begun, so a checkpoint is among them.
const TWELVE_WRITES: [Step; 5] = [
    Step::WriteDirty(0, 2),
    Step::Evict(4),
    Step::WriteClean(8, 3),
    Step::WriteDirty(1, 2),
    Step::Evict(0),
];

const TWELVE: Story = Story {
    begun: &TWO_GROUPS,
    stopped: &TWELVE_WRITES,
    is_opening_cut: true,
    gives_way: false,
};

#[test]
fn a_stop_at_each_device_write_loses_nothing(rt: HostRuntime) {
    assert_eq!(rt; first_losing(rt.alloc(), &TWELVE, 13), None);
}

// ---- a merge

/// Both log blocks are full of two dirty groups.
const FULL_LOG_BLOCKS: [Step; 8] = [
    Step::WriteDirty(0, 1),
    Step::WriteDirty(4, 1),
    Step::WriteDirty(1, 1),
    Step::WriteDirty(2, 1),
    Step::WriteDirty(3, 1),
    Step::WriteDirty(5, 1),
    Step::WriteDirty(6, 1),
    Step::WriteDirty(7, 1),
];

/// The first merges both groups, since the oldest log block has pages of both.
const MERGES: [Step; 2] = [Step::WriteDirty(4, 2), Step::WriteDirty(0, 2)];

const MERGE: Story = Story {
    begun: &FULL_LOG_BLOCKS,
    stopped: &MERGES,
    is_opening_cut: false,
    gives_way: false,
};

#[test]
fn a_stop_at_each_device_write_of_a_merge_loses_nothing(rt: HostRuntime) {
    assert_eq!(rt; first_losing(rt.alloc(), &MERGE, 21), None);
}

/// The calls are the device writes that are cut above, and the reads of the pages that are copied.
#[test]
fn a_failed_call_of_a_merge_loses_nothing(rt: HostRuntime) {
    assert_eq!(rt; count_kept(rt.alloc(), &MERGE), Some(28));
}

// ---- later writes

/// The first write merges both groups, and one of the others merges blocks that were only buffered.
const LATER_WRITES: [Step; 10] = [
    Step::WriteLater(4, 2),
    Step::WriteLater(4, 3),
    Step::WriteLater(0, 2),
    Step::WriteLater(1, 2),
    Step::WriteLater(0, 3),
    Step::WriteLater(5, 2),
    Step::WriteLater(6, 2),
    Step::WriteLater(4, 4),
    Step::WriteLater(2, 2),
    Step::Commit,
];

const LATER: Story = Story {
    begun: &FULL_LOG_BLOCKS,
    stopped: &LATER_WRITES,
    is_opening_cut: false,
    gives_way: false,
};

#[test]
fn a_stop_at_each_device_write_of_later_writes_loses_nothing_older(rt: HostRuntime) {
    assert_eq!(rt; first_losing(rt.alloc(), &LATER, 21), None);
}

// ---- an eviction

/// Two clean groups have a data block, and a third one lies in a log block, not in order.
const THREE_CLEAN_GROUPS: [Step; 13] = [
    Step::WriteClean(0, 1),
    Step::WriteClean(1, 1),
    Step::WriteClean(4, 1),
    Step::WriteClean(5, 1),
    Step::WriteClean(9, 1),
    Step::WriteClean(8, 1),
    Step::WriteClean(10, 1),
    Step::WriteClean(11, 1),
    Step::WriteClean(2, 1),
    Step::WriteClean(3, 1),
    Step::WriteClean(6, 1),
    Step::WriteClean(7, 1),
    Step::Commit,
];

/// It copies the third group, and one of the others gives way.
const EVICTS: [Step; 1] = [Step::WriteClean(8, 2)];

const EVICTION: Story = Story {
    begun: &THREE_CLEAN_GROUPS,
    stopped: &EVICTS,
    is_opening_cut: false,
    gives_way: true,
};

#[test]
fn a_stop_at_each_device_write_of_an_eviction_loses_nothing(rt: HostRuntime) {
    assert_eq!(rt; first_losing(rt.alloc(), &EVICTION, 11), None);
}

#[test]
fn a_failed_call_of_an_eviction_loses_nothing(rt: HostRuntime) {
    assert_eq!(rt; count_kept(rt.alloc(), &EVICTION), Some(14));
}
