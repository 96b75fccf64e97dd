//! Merges on the parts of a cache: the places of its pages afterwards, and what a merge writes.

use crate::parts::{Fact, Line, Step, first_wrong};
use block_pool::Role;

/// Four addresses are put one after another, each committed, and a checkpoint is made.
const FOUR_IN_ORDER: [Step; 9] = [
    Step::Put(0, 1, true),
    Step::Commit,
    Step::Put(1, 1, true),
    Step::Commit,
    Step::Put(2, 1, true),
    Step::Commit,
    Step::Put(3, 1, true),
    Step::Commit,
    Step::Checkpoint,
];

const APPENDED: [Line; 13] = [
    Line::Do(Step::Put(5, 1, true)),
    Line::Do(Step::Put(6, 1, true)),
    Line::Do(Step::Put(7, 1, true)),
    Line::Do(Step::Put(8, 1, true)),
    Line::See(Fact::Lies(5, 4, 0)),
    Line::See(Fact::Lies(6, 4, 1)),
    Line::See(Fact::Lies(7, 4, 2)),
    Line::See(Fact::Lies(8, 4, 3)),
    Line::See(Fact::LogBlocks { used: 1, room: 0 }),
    Line::See(Fact::Used(4, Role::Log)),
    // The next block is opened.
    Line::Do(Step::Put(6, 2, true)),
    Line::See(Fact::Lies(6, 5, 0)),
    Line::See(Fact::Data(5, 0, 6, 2)),
];

#[test]
fn pages_are_appended_in_order(rt: HostRuntime) {
    assert_eq!(rt; first_wrong(rt.alloc(), &[], &APPENDED), None);
}

const GATHERED: [Line; 8] = [
    Line::Do(Step::Put(4, 1, true)),
    Line::Do(Step::Put(7, 1, false)),
    Line::Do(Step::Merge(1)),
    Line::See(Fact::DataBlock {
        group: 1,
        block: 5,
        present: 0b1001,
        dirty: 0b0001,
    }),
    Line::See(Fact::Pages {
        group: 1,
        held: 0b1001,
        dirty: 0b0001,
    }),
    Line::See(Fact::Data(5, 0, 4, 1)),
    Line::See(Fact::Filler(5, 2)),
    Line::See(Fact::Data(5, 3, 7, 1)),
];

#[test]
fn the_pages_of_a_group_are_gathered(rt: HostRuntime) {
    assert_eq!(rt; first_wrong(rt.alloc(), &[], &GATHERED), None);
}

const OLDER: [Line; 8] = [
    Line::Do(Step::Put(5, 1, false)),
    Line::Do(Step::Merge(1)),
    Line::Do(Step::Put(5, 2, true)),
    Line::Do(Step::Merge(1)),
    Line::See(Fact::DataBlock {
        group: 1,
        block: 6,
        present: 0b0010,
        dirty: 0b0010,
    }),
    Line::See(Fact::Data(6, 1, 5, 2)),
    Line::See(Fact::Used(5, Role::Free)),
    Line::See(Fact::Used(6, Role::Data)),
];

#[test]
fn an_older_page_stays_behind(rt: HostRuntime) {
    assert_eq!(rt; first_wrong(rt.alloc(), &[], &OLDER), None);
}

const HOLES: [Line; 7] = [
    Line::Do(Step::Put(6, 1, true)),
    Line::Count,
    Line::Do(Step::Merge(1)),
    // Three pages, and a log page before them and one after.
    Line::Wrote(1, 5),
    Line::See(Fact::Filler(5, 1)),
    Line::See(Fact::Data(5, 2, 6, 1)),
    Line::See(Fact::Blank(5, 3)),
];

#[test]
fn holes_are_filled_up_to_the_last_page(rt: HostRuntime) {
    assert_eq!(rt; first_wrong(rt.alloc(), &[], &HOLES), None);
}

const TAKEN_AGAIN: [Line; 14] = [
    Line::Do(Step::Put(4, 1, true)),
    Line::Do(Step::Merge(1)),
    Line::See(Fact::DataBlock {
        group: 1,
        block: 5,
        present: 1,
        dirty: 1,
    }),
    Line::Do(Step::Merge(1)),
    Line::See(Fact::DataBlock {
        group: 1,
        block: 6,
        present: 1,
        dirty: 1,
    }),
    Line::Do(Step::Merge(1)),
    Line::See(Fact::DataBlock {
        group: 1,
        block: 7,
        present: 1,
        dirty: 1,
    }),
    Line::Do(Step::Merge(1)),
    Line::See(Fact::DataBlock {
        group: 1,
        block: 8,
        present: 1,
        dirty: 1,
    }),
    Line::Do(Step::Merge(1)),
    Line::See(Fact::DataBlock {
        group: 1,
        block: 5,
        present: 1,
        dirty: 1,
    }),
    Line::See(Fact::Data(5, 0, 4, 1)),
    Line::See(Fact::Used(8, Role::Free)),
    Line::See(Fact::Groups {
        data_blocks: 1,
        dirty: 1,
    }),
];

#[test]
fn an_old_data_block_is_taken_again_last(rt: HostRuntime) {
    assert_eq!(rt; first_wrong(rt.alloc(), &[], &TAKEN_AGAIN), None);
}

const STAYS: [Line; 8] = [
    Line::Do(Step::Put(4, 1, true)),
    Line::Do(Step::Put(5, 1, true)),
    Line::Do(Step::Merge(1)),
    Line::Do(Step::MarkClean(4)),
    Line::See(Fact::Pages {
        group: 1,
        held: 0b0011,
        dirty: 0b0010,
    }),
    Line::Do(Step::TakeOut(5)),
    // One page is held.
    Line::See(Fact::Used(5, Role::Data)),
    Line::See(Fact::Groups {
        data_blocks: 1,
        dirty: 0,
    }),
];

#[test]
fn a_data_block_with_a_page_stays(rt: HostRuntime) {
    assert_eq!(rt; first_wrong(rt.alloc(), &[], &STAYS), None);
}

const EMPTY: [Line; 9] = [
    Line::Do(Step::Put(4, 1, true)),
    Line::Do(Step::Merge(1)),
    Line::Do(Step::TakeOut(4)),
    Line::See(Fact::Used(5, Role::Free)),
    Line::See(Fact::Buffered(1)),
    Line::Count,
    Line::Do(Step::Commit),
    Line::Wrote(0, 1),
    Line::See(Fact::Buffered(0)),
];

#[test]
fn an_empty_data_block_is_free(rt: HostRuntime) {
    assert_eq!(rt; first_wrong(rt.alloc(), &[], &EMPTY), None);
}

const SWITCHED: [Line; 6] = [
    Line::Count,
    Line::Do(Step::Merge(0)),
    // One log page.
    Line::Wrote(0, 1),
    Line::See(Fact::FirstGroup(4)),
    Line::See(Fact::Used(4, Role::Data)),
    Line::See(Fact::LogBlocks { used: 0, room: 0 }),
];

#[test]
fn a_group_in_order_is_not_copied(rt: HostRuntime) {
    assert_eq!(rt; first_wrong(rt.alloc(), &FOUR_IN_ORDER, &SWITCHED), None);
}

const COPIED: [Line; 10] = [
    Line::Do(Step::Put(0, 1, true)),
    Line::Do(Step::Put(2, 1, true)),
    Line::Do(Step::Put(1, 1, true)),
    Line::Do(Step::Put(3, 1, true)),
    Line::Do(Step::Checkpoint),
    Line::Count,
    Line::Do(Step::Merge(0)),
    // Four pages and a log page.
    Line::Wrote(1, 5),
    Line::See(Fact::FirstGroup(5)),
    Line::See(Fact::Used(4, Role::Log)),
];

#[test]
fn a_group_out_of_order_is_copied(rt: HostRuntime) {
    assert_eq!(rt; first_wrong(rt.alloc(), &[], &COPIED), None);
}

const OLDEST_SWITCHED: [Line; 11] = [
    Line::Do(Step::Put(4, 1, true)),
    Line::Do(Step::Put(5, 1, true)),
    Line::Do(Step::Put(4, 1, true)),
    Line::Do(Step::Put(5, 1, true)),
    Line::Do(Step::Checkpoint),
    Line::Count,
    Line::Do(Step::Put(6, 1, true)),
    // A block is taken; one log page, and the page.
    Line::Wrote(1, 2),
    Line::See(Fact::FirstGroup(4)),
    Line::See(Fact::Lies(6, 6, 0)),
    Line::See(Fact::Used(4, Role::Data)),
];

#[test]
fn the_oldest_log_block_becomes_a_data_block(rt: HostRuntime) {
    assert_eq!(rt;
        first_wrong(rt.alloc(), &FOUR_IN_ORDER, &OLDEST_SWITCHED),
        None
    );
}

// ---- no data block is available, and no page is copied

/// Both data blocks belong to dirty groups, so the clean group that needs a third one is dropped itself.
const DROPPED: [Line; 12] = [
    Line::Do(Step::Put(0, 1, true)),
    Line::Do(Step::Merge(0)),
    Line::Do(Step::Put(4, 1, true)),
    Line::Do(Step::Merge(1)),
    Line::Do(Step::Put(8, 1, false)),
    Line::Do(Step::Checkpoint),
    Line::Count,
    Line::Do(Step::Merge(2)),
    // One log page.
    Line::Wrote(0, 1),
    Line::See(Fact::Pages {
        group: 2,
        held: 0,
        dirty: 0,
    }),
    Line::See(Fact::Groups {
        data_blocks: 2,
        dirty: 2,
    }),
    Line::See(Fact::Buffered(0)),
];

#[test]
fn a_group_goes_itself_where_no_other_may(rt: HostRuntime) {
    assert_eq!(rt; first_wrong(rt.alloc(), &[], &DROPPED), None);
}

/// Each page of the first log block is outdated.
const WRITTEN_TWICE: [Step; 9] = [
    Step::Put(0, 1, true),
    Step::Put(1, 1, true),
    Step::Put(2, 1, true),
    Step::Put(3, 1, true),
    Step::Put(0, 2, true),
    Step::Put(1, 2, true),
    Step::Put(2, 2, true),
    Step::Put(3, 2, true),
    Step::Checkpoint,
];

const EMPTY_LOG_BLOCK: [Line; 8] = [
    Line::See(Fact::LogBlocks { used: 2, room: 0 }),
    Line::Count,
    Line::Do(Step::Put(4, 1, true)),
    // A block is taken, and its first page is programmed; no group is merged.
    Line::Wrote(1, 1),
    Line::See(Fact::Lies(4, 6, 0)),
    Line::See(Fact::Lies(0, 5, 0)),
    Line::See(Fact::Used(4, Role::Free)),
    Line::See(Fact::LogBlocks { used: 2, room: 3 }),
];

#[test]
fn an_empty_log_block_is_freed_without_a_merge(rt: HostRuntime) {
    assert_eq!(rt;
        first_wrong(rt.alloc(), &WRITTEN_TWICE, &EMPTY_LOG_BLOCK),
        None
    );
}

// ---- a log block is freed alone

const FREED_EMPTY: [Line; 5] = [
    Line::Count,
    Line::Do(Step::FreeOldest),
    Line::Wrote(0, 0),
    Line::See(Fact::Used(4, Role::Free)),
    Line::See(Fact::LogBlocks { used: 1, room: 0 }),
];

#[test]
fn a_block_in_which_nothing_stands_is_freed_without_a_write(rt: HostRuntime) {
    assert_eq!(rt; first_wrong(rt.alloc(), &WRITTEN_TWICE, &FREED_EMPTY), None);
}

const FREED: [Line; 13] = [
    Line::Do(Step::Put(4, 1, true)),
    Line::Do(Step::Put(1, 1, true)),
    Line::Do(Step::Checkpoint),
    Line::Count,
    Line::Do(Step::FreeOldest),
    // In the order of the pages: the second group has one page, the first a filler and one page.
    Line::Wrote(2, 5),
    Line::See(Fact::Used(4, Role::Free)),
    Line::See(Fact::LogBlocks { used: 0, room: 0 }),
    Line::See(Fact::DataBlock {
        group: 1,
        block: 5,
        present: 0b0001,
        dirty: 0b0001,
    }),
    Line::See(Fact::DataBlock {
        group: 0,
        block: 6,
        present: 0b0010,
        dirty: 0b0010,
    }),
    Line::See(Fact::Filler(6, 0)),
    Line::See(Fact::Data(5, 0, 4, 1)),
    Line::See(Fact::Data(6, 1, 1, 1)),
];

#[test]
fn each_group_of_a_freed_block_is_merged(rt: HostRuntime) {
    assert_eq!(rt; first_wrong(rt.alloc(), &[], &FREED), None);
}
