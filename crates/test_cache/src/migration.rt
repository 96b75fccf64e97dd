//! Flash in format 1 that is opened: its blocks are held, and a checkpoint of format 2 is made. A cut within the
//! opening leaves the same blocks.

use crate::bench::{Bench, Line, SIZE, first_wrong};
use crate::lists::{Held, Step};
use ft_base::{Outcome, Place, Record};
use std::alloc::Global;
use test_plain_format::{Old, Placed};

/// Contents, the blocks that they hold, and how many device writes an opening makes.
struct Example {
    old: Old,
    held: &'static [(u64, Held)],
    writes: u64,
}

// A page has the block of its address. The tag is 256 times the number of its erase block, plus its own number.

const ONE_PAGE: Old = Old {
    region: 0,
    era: 0,
    page: 127,
    entries: &[Placed::InLog(5, 4, 0, true)],
    log: &[],
};

const HOLDS_ONE: [(u64, Held); 1] = [(5, Held::Dirty(1024))];

const PAGE_3: Record = Record::SetPage {
    lba: 3,
    place: Place { block: 4, page: 0 },
    dirty: true,
};

const PAGE_3_AGAIN: Record = Record::SetPage {
    lba: 3,
    place: Place { block: 4, page: 1 },
    dirty: true,
};

const PAGE_9: Record = Record::SetPage {
    lba: 9,
    place: Place { block: 5, page: 0 },
    dirty: false,
};

const PAGE_5: Record = Record::SetPage {
    lba: 5,
    place: Place { block: 4, page: 0 },
    dirty: true,
};

const PAGE_5_AGAIN: Record = Record::SetPage {
    lba: 5,
    place: Place { block: 4, page: 2 },
    dirty: true,
};

const PAGE_6: Record = Record::SetPage {
    lba: 6,
    place: Place { block: 4, page: 1 },
    dirty: true,
};

const PAGE_15: Record = Record::SetPage {
    lba: 15,
    place: Place { block: 6, page: 0 },
    dirty: false,
};

const GROUP_3: Record = Record::SetGroup {
    group: 3,
    block: 8,
    present: 0b11,
    dirty: 0b11,
};

const EXAMPLES: [Example; 10] = [
    Example {
        old: ONE_PAGE,
        held: &HOLDS_ONE,
        writes: 4,
    },
    Example {
        old: Old {
            region: 0,
            era: 0,
            page: 127,
            entries: &[],
            log: &[],
        },
        held: &[],
        writes: 3,
    },
    // A data block.
    Example {
        old: Old {
            region: 1,
            era: 1,
            page: 127,
            entries: &[Placed::InData(4, 6, false), Placed::InData(7, 6, true)],
            log: &[],
        },
        held: &[(4, Held::Clean(1536)), (7, Held::Dirty(1539))],
        writes: 4,
    },
    // A log that takes out and cleans.
    Example {
        old: Old {
            region: 0,
            era: 2,
            page: 127,
            entries: &[Placed::InLog(1, 4, 0, false), Placed::InLog(2, 4, 1, true)],
            log: &[Record::Remove { lba: 1 }, Record::Clean { lba: 2 }],
        },
        held: &[(2, Held::Clean(1025))],
        writes: 4,
    },
    // A log alone, of a page for each record.
    Example {
        old: Old {
            region: 1,
            era: 0,
            page: 1,
            entries: &[],
            log: &[PAGE_3, PAGE_3_AGAIN, PAGE_9],
        },
        held: &[(3, Held::Dirty(1025)), (9, Held::Clean(1280))],
        writes: 4,
    },
    // Two map pages, and a group that goes.
    Example {
        old: Old {
            region: 0,
            era: 1,
            page: 1,
            entries: &[
                Placed::InData(0, 5, false),
                Placed::InData(1, 5, false),
                Placed::InData(2, 5, false),
                Placed::InData(3, 5, false),
                Placed::InData(8, 6, true),
            ],
            log: &[Record::RemoveGroup { group: 0 }],
        },
        held: &[(8, Held::Dirty(1536))],
        writes: 4,
    },
    // A group that moves.
    Example {
        old: Old {
            region: 1,
            era: 2,
            page: 2,
            entries: &[
                Placed::InData(12, 7, true),
                Placed::InLog(13, 4, 0, true),
                Placed::InLog(0, 4, 1, false),
            ],
            log: &[GROUP_3],
        },
        held: &[
            (0, Held::Clean(1025)),
            (12, Held::Dirty(2048)),
            (13, Held::Dirty(2049)),
        ],
        writes: 4,
    },
    // A full log.
    Example {
        old: Old {
            region: 0,
            era: 0,
            page: 1,
            entries: &[],
            log: &[PAGE_5, Record::Clean { lba: 5 }, PAGE_6, PAGE_5_AGAIN],
        },
        held: &[(5, Held::Dirty(1026)), (6, Held::Dirty(1025))],
        writes: 4,
    },
    // As many map pages as a region has room for beside its seal.
    Example {
        old: Old {
            region: 1,
            era: 1,
            page: 1,
            entries: &[
                Placed::InData(4, 5, true),
                Placed::InLog(5, 4, 3, false),
                Placed::InLog(14, 4, 2, true),
            ],
            log: &[
                Record::Remove { lba: 14 },
                Record::Remove { lba: 5 },
                PAGE_15,
            ],
        },
        held: &[(4, Held::Dirty(1280)), (15, Held::Clean(1536))],
        writes: 4,
    },
    // As many log blocks and dirty groups as there may be.
    Example {
        old: Old {
            region: 0,
            era: 2,
            page: 127,
            entries: &[
                Placed::InLog(0, 4, 0, true),
                Placed::InLog(4, 5, 0, true),
                Placed::InLog(8, 5, 1, false),
                Placed::InData(9, 6, false),
            ],
            log: &[],
        },
        held: &[
            (0, Held::Dirty(1024)),
            (4, Held::Dirty(1280)),
            (8, Held::Clean(1281)),
            (9, Held::Clean(1537)),
        ],
        writes: 4,
    },
];

// ---- one page

const OPENED: [Line; 8] = [
    Line::Old(&ONE_PAGE, &HOLDS_ONE),
    Line::Heads(0, 1, 0),
    Line::Open,
    Line::HoldsAll,
    Line::Lists(0, SIZE, &[60, 5]),
    // The checkpoint is of format 2 and of the next era, in the other region.
    Line::Heads(1, 2, 1),
    Line::Do(Step::WriteDirty(6, 7)),
    Line::HoldsAll,
];

#[test]
fn flash_of_format_1_is_opened(rt: HostRuntime) {
    assert_eq!(rt; first_wrong(rt.alloc(), &[], &OPENED), None);
}

const LATER: [Line; 6] = [
    Line::Old(&ONE_PAGE, &HOLDS_ONE),
    Line::Open,
    Line::Do(Step::WriteDirty(6, 7)),
    Line::Do(Step::Clean(5)),
    // The log is of format 2, and is applied.
    Line::Cut,
    Line::HoldsAll,
];

#[test]
fn its_log_goes_on_in_format_2(rt: HostRuntime) {
    assert_eq!(rt; first_wrong(rt.alloc(), &[], &LATER), None);
}

const TORN_SEAL: [Line; 6] = [
    Line::Old(&ONE_PAGE, &HOLDS_ONE),
    Line::CutOpening(4, Outcome::Torn),
    Line::Open,
    Line::HoldsAll,
    Line::Lists(0, SIZE, &[60, 5]),
    // The first checkpoint is not erased.
    Line::Heads(0, 1, 0),
];

#[test]
fn an_opening_that_is_cut_at_its_seal_is_undone(rt: HostRuntime) {
    assert_eq!(rt; first_wrong(rt.alloc(), &[], &TORN_SEAL), None);
}

// ---- cuts

/// Whether the same blocks are held after openings that are cut at these device writes and one that isn't.
fn is_kept(bench: &mut Bench, example: &Example, numbers: &[u64], outcome: Outcome) -> bool {
    if !bench.put_old(&example.old, example.held) {
        return false;
    }
    for number in numbers {
        if !bench.cut_opening(*number, outcome) {
            return false;
        }
    }
    bench.open() && bench.holds_all()
}

/// Whether no cut of an opening at one device write loses anything.
fn keeps_once(bench: &mut Bench, example: &Example, outcome: Outcome) -> bool {
    for number in 1..=example.writes {
        if !is_kept(bench, example, [number].as_slice(), outcome) {
            return false;
        }
    }
    true
}

/// The same for three openings one after another; the second is cut at this device write.
fn keeps_thrice(bench: &mut Bench, example: &Example, second: u64, outcome: Outcome) -> bool {
    for number in 1..=example.writes {
        let numbers = [number, second, number];
        if !is_kept(bench, example, numbers.as_slice(), outcome) {
            return false;
        }
    }
    true
}

/// Whether nothing is lost without a cut, with one, and with three.
fn keeps_all(bench: &mut Bench, example: &Example, outcome: Outcome) -> bool {
    if !is_kept(bench, example, &[], outcome) || !keeps_once(bench, example, outcome) {
        return false;
    }
    for second in 1..=example.writes {
        if !keeps_thrice(bench, example, second, outcome) {
            return false;
        }
    }
    true
}

/// The first example in which cuts with this outcome lose something.
fn first_lost(alloc: Global, outcome: Outcome) -> Option<usize> {
    let Some(bench) = Bench::new(alloc) else {
        return Some(0);
    };
    let mut bench = bench;
    for (i, example) in EXAMPLES.iter().enumerate() {
        if !keeps_all(&mut bench, example, outcome) {
            return Some(i);
        }
    }
    None
}

#[test]
fn cuts_that_leave_pages_blank_lose_nothing(rt: HostRuntime) {
    assert_eq!(rt; first_lost(rt.alloc(), Outcome::Blank), None);
}

#[test]
fn cuts_that_leave_pages_whole_lose_nothing(rt: HostRuntime) {
    assert_eq!(rt; first_lost(rt.alloc(), Outcome::Whole), None);
}

#[test]
fn cuts_that_leave_pages_torn_lose_nothing(rt: HostRuntime) {
    assert_eq!(rt; first_lost(rt.alloc(), Outcome::Torn), None);
}

#[test]
fn cuts_that_leave_an_erase_undone_in_part_lose_nothing(rt: HostRuntime) {
    assert_eq!(rt; first_lost(rt.alloc(), Outcome::Mixed), None);
}
