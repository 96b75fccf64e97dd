//! The commands of the cache: what it holds before a cut and after it, what it refuses, what it lists, and how much
//! it writes.

use crate::bench::{Fact, Line, SIZE, first_wrong};
use crate::lists::Step;
use std::alloc::Global;

// The tags of three blocks.
const X: u64 = 1;

const Y: u64 = 2;

const Z: u64 = 3;

// ---- before and after a cut

/// A dirty block is written back and marked clean. The cut undoes the mark.
const WRITTEN_BACK: [Line; 6] = [
    Line::Do(Step::WriteDirty(6, X)),
    Line::WriteDisk(6, X),
    Line::Do(Step::Clean(6)),
    Line::HoldsAll,
    Line::Cut,
    Line::HoldsAll,
];

#[test]
fn a_cut_may_make_a_block_dirty_again(rt: HostRuntime) {
    assert_eq!(rt; first_wrong(rt.alloc(), &[], &WRITTEN_BACK), None);
}

/// The lines that follow each history. A cut leaves all but the buffered changes.
const TWO_CUTS: [Line; 6] = [
    Line::HoldsAll,
    Line::Cut,
    Line::HoldsAll,
    Line::Cut,
    Line::Do(Step::WriteClean(2, Z)),
    Line::HoldsAll,
];

/// The first history that is followed by a line that doesn't hold, and that line.
fn first_differing(alloc: Global, histories: &[&[Step]]) -> Option<(usize, usize)> {
    for i in 0..histories.len() {
        if let Some(line) = first_wrong(alloc, histories[i], &TWO_CUTS) {
            return Some((i, line));
        }
    }
    None
}

const HISTORIES: [&[Step]; 6] = [
    // A clean makes room.
    &[
        Step::WriteDirty(0, X),
        Step::WriteDirty(4, Y),
        Step::Clean(4),
        Step::WriteDirty(8, Z),
    ],
    &[Step::WriteDirty(3, X), Step::WriteClean(3, Y)],
    &[Step::WriteClean(7, Z)],
    &[Step::WriteClean(7, Z), Step::Commit],
    &[Step::WriteDirty(3, X), Step::Evict(3)],
    &[Step::WriteDirty(6, X), Step::Clean(6), Step::Checkpoint],
];

#[test]
fn a_cut_undoes_no_more_than_what_was_buffered(rt: HostRuntime) {
    assert_eq!(rt; first_differing(rt.alloc(), &HISTORIES), None);
}

// ---- full

/// As many dirty groups as there may be.
const TWO_GROUPS: [Step; 2] = [Step::WriteDirty(0, X), Step::WriteDirty(4, X)];

const THIRD_GROUP: [Line; 3] = [
    Line::HoldsAll,
    Line::Full(Step::WriteDirty(8, Z), 3, 2),
    Line::HoldsAll,
];

#[test]
fn dirty_groups_past_the_data_blocks_are_refused(rt: HostRuntime) {
    assert_eq!(rt; first_wrong(rt.alloc(), &TWO_GROUPS, &THIRD_GROUP), None);
}

const AFTER_A_REFUSED_WRITE: [Line; 11] = [
    Line::Full(Step::WriteDirty(8, Z), 3, 2),
    Line::Do(Step::WriteDirty(1, Z)),
    Line::See(Fact::DirtyGroups(2)),
    Line::See(Fact::DirtyBits(0, 0b11)),
    Line::See(Fact::DirtyBits(1, 0b1)),
    Line::See(Fact::Held(3)),
    Line::See(Fact::OpenRoom(1)),
    Line::See(Fact::Buffered(0)),
    // The least table holds three pages.
    Line::See(Fact::Buckets(32)),
    Line::Lists(0, SIZE, &[60, 0, 1, 4]),
    Line::Reserve,
];

#[test]
fn a_refused_write_leaves_the_cache_going(rt: HostRuntime) {
    assert_eq!(rt;
        first_wrong(rt.alloc(), &TWO_GROUPS, &AFTER_A_REFUSED_WRITE),
        None
    );
}

// ---- lists

const LISTED: [Line; 5] = [
    Line::Do(Step::WriteDirty(7, 1)),
    Line::Do(Step::WriteDirty(6, 1)),
    Line::Do(Step::WriteDirty(1, 1)),
    Line::Lists(1, 6, &[60, 1, 6]),
    Line::Scrubs(3),
];

#[test]
fn addresses_are_listed_ascending_and_no_page_is_strange(rt: HostRuntime) {
    assert_eq!(rt; first_wrong(rt.alloc(), &[], &LISTED), None);
}

// ---- device writes

const WRITES: [Line; 12] = [
    Line::Makes(Step::WriteDirty(0, X), 0, 4, 2, 1),
    Line::Makes(Step::WriteDirty(4, Y), 3, 3, 2, 0),
    Line::Makes(Step::Clean(4), 2, 2, 0, 0),
    Line::Makes(Step::Clean(4), 2, 2, 0, 0),
    Line::Makes(Step::Commit, 2, 2, 1, 0),
    Line::Makes(Step::Commit, 2, 1, 0, 0),
    Line::Makes(Step::Evict(9), 2, 1, 0, 0),
    Line::Makes(Step::Clean(9), 2, 1, 0, 0),
    Line::Makes(Step::WriteClean(8, Z), 2, 1, 1, 0),
    Line::Makes(Step::Checkpoint, 1, 1, 2, 2),
    Line::Makes(Step::WriteClean(8, X), 1, 4, 2, 0),
    Line::Makes(Step::Evict(8), 0, 3, 1, 0),
];

#[test]
fn each_command_makes_few_device_writes(rt: HostRuntime) {
    assert_eq!(rt; first_wrong(rt.alloc(), &[], &WRITES), None);
}
