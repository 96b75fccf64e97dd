//! Loading of both formats: which checkpoint counts, the numbers in a seal of format 2, and a checkpoint of format 2
//! over one of format 1.

use crate::flash::{assert_none, geometry};
use crate::loads::{Answer, Line, NOT_FORMATTED, PAGE_5, assert_all, first_wrong_on};
use crate::pages::{Change, Put};
use ft_base::{Place, Record};
use mem_rig::MemRig;
use record_codec::PageKind;
use recovery::OpenError;
use std::alloc::Global;
use test_plain_format::{Old, Placed};

// ---- both formats

const MAP_5: Put = Put::One(PageKind::Map, 0, 0, PAGE_5);

const OLD_MAP_5: Put = Put::Old(PageKind::Map, 0, 0, PAGE_5);

const PAGE_6: Change = Change::Page(6, 4, 1);

const OLD_CHECKPOINT: [Line; 15] = [
    Line::Anew,
    Line::Put(4, Put::Data),
    Line::Put(4, Put::Data),
    Line::Put(0, OLD_MAP_5),
    Line::Counts(None),
    Line::Put(0, Put::OldSeal(0, 1, 1)),
    Line::OldCounts(Some((0, 0, 1))),
    Line::Loads(Answer::Loaded(0, 0, 1)),
    // Its log is of format 1, and ends before a page of format 2.
    Line::Put(2, Put::Old(PageKind::Log, 0, 0, PAGE_6)),
    Line::Loads(Answer::Loaded(0, 0, 2)),
    Line::Put(2, Put::Log(1, Change::PageOut(5))),
    Line::Loads(Answer::Loaded(0, 0, 2)),
    // A page of format 1 doesn't belong to the log of a checkpoint of format 2.
    Line::Sealed,
    Line::Put(2, Put::Old(PageKind::Log, 0, 0, PAGE_5)),
    Line::Loads(Answer::Loaded(0, 0, 0)),
];

#[test]
fn a_checkpoint_of_format_1_is_loaded_with_its_own_log(rt: HostRuntime) {
    assert_all(&rt, &OLD_CHECKPOINT);
}

const TWO_FORMATS: [Line; 15] = [
    // Old pages under a seal of format 2.
    Line::Anew,
    Line::Put(0, OLD_MAP_5),
    Line::Put(0, Put::Seal(0, 1, 1)),
    NOT_FORMATTED,
    // Pages of format 2 under an old seal.
    Line::Anew,
    Line::Put(0, MAP_5),
    Line::Put(0, Put::OldSeal(0, 1, 1)),
    NOT_FORMATTED,
    // Both kinds of pages.
    Line::Anew,
    Line::Put(0, MAP_5),
    Line::Put(0, Put::Old(PageKind::Map, 0, 1, PAGE_6)),
    Line::Put(0, Put::Seal(0, 2, 2)),
    NOT_FORMATTED,
    // An old seal alone.
    Line::Put(1, Put::OldSeal(2, 0, 0)),
    Line::Loads(Answer::Loaded(1, 2, 0)),
];

#[test]
fn a_checkpoint_has_one_format(rt: HostRuntime) {
    assert_all(&rt, &TWO_FORMATS);
}

/// Two groups with a data block, and two addresses in a log block; the log changes some of them. Each page has two
/// records.
const FOUR_RECORDS: Old = Old {
    region: 1,
    era: 2,
    page: 2,
    entries: &[
        Placed::InData(0, 5, false),
        Placed::InLog(9, 4, 0, true),
        Placed::InData(3, 5, false),
        Placed::InData(7, 6, true),
        Placed::InLog(5, 4, 1, false),
    ],
    log: &[
        Record::Clean { lba: 7 },
        Record::Remove { lba: 3 },
        Record::SetPage {
            lba: 9,
            place: Place { block: 4, page: 2 },
            dirty: true,
        },
    ],
};

const MADE: [Line; 4] = [
    Line::Old(&FOUR_RECORDS),
    Line::OldCounts(Some((1, 2, 2))),
    Line::Loads(Answer::Loaded(1, 2, 4)),
    Line::Lies(9, (4, 2)),
];

#[test]
fn contents_of_format_1_are_loaded(rt: HostRuntime) {
    assert_all(&rt, &MADE);
}

// ---- totals

const DAMAGED_SEAL: Line = Line::Loads(Answer::Refused(OpenError::Damaged { block: 0, page: 1 }));

const TOTALS: [Line; 25] = [
    Line::Anew,
    Line::Put(4, Put::Data),
    Line::Put(0, MAP_5),
    Line::Put(0, Put::Told(1, 1, 1)),
    Line::Loads(Answer::Loaded(0, 0, 1)),
    // An entry too many, and one too few.
    Line::Anew,
    Line::Put(4, Put::Data),
    Line::Put(0, MAP_5),
    Line::Put(0, Put::Told(1, 2, 1)),
    DAMAGED_SEAL,
    Line::Anew,
    Line::Put(4, Put::Data),
    Line::Put(0, MAP_5),
    Line::Put(0, Put::Told(1, 0, 1)),
    DAMAGED_SEAL,
    // A dirty one too many, and one too few.
    Line::Anew,
    Line::Put(4, Put::Data),
    Line::Put(0, MAP_5),
    Line::Put(0, Put::Told(1, 1, 2)),
    DAMAGED_SEAL,
    Line::Anew,
    Line::Put(4, Put::Data),
    Line::Put(0, MAP_5),
    Line::Put(0, Put::Told(1, 1, 0)),
    DAMAGED_SEAL,
];

#[test]
fn a_seal_tells_how_many_entries_there_are(rt: HostRuntime) {
    assert_all(&rt, &TOTALS);
}

/// Two pages of a data block are clean: two entries of one record.
const MAP_GROUP: Put = Put::One(PageKind::Map, 0, 0, Change::Group(1, 4, 3));

const GROUP_TOTALS: [Line; 12] = [
    Line::Anew,
    Line::Put(4, Put::Data),
    Line::Put(4, Put::Data),
    Line::Put(0, MAP_GROUP),
    Line::Put(0, Put::Told(1, 2, 0)),
    Line::Loads(Answer::Loaded(0, 0, 2)),
    // It counts only the addresses in log blocks.
    Line::Anew,
    Line::Put(4, Put::Data),
    Line::Put(4, Put::Data),
    Line::Put(0, MAP_GROUP),
    Line::Put(0, Put::Told(1, 0, 0)),
    DAMAGED_SEAL,
];

#[test]
fn entries_of_data_blocks_count(rt: HostRuntime) {
    assert_all(&rt, &GROUP_TOTALS);
}

const ORDER: [Line; 16] = [
    // A damaged map page comes first.
    Line::Anew,
    Line::Put(0, Put::Spoilt(PageKind::Map, 0, 0, PAGE_5, 4095)),
    Line::Put(0, Put::Told(1, 2, 1)),
    Line::Loads(Answer::Refused(OpenError::Damaged { block: 0, page: 0 })),
    // The seal comes next, before a damaged log page, and before the page of an entry that isn't whole.
    Line::Anew,
    Line::Put(0, MAP_5),
    Line::Put(0, Put::Told(1, 2, 1)),
    Line::Put(2, Put::Log(0, Change::Page(64, 4, 0))),
    DAMAGED_SEAL,
    // The totals are counted before the log.
    Line::Anew,
    Line::Put(4, Put::Data),
    Line::Put(4, Put::Data),
    Line::Put(0, MAP_5),
    Line::Put(0, Put::Told(1, 2, 2)),
    Line::Put(2, Put::Log(0, PAGE_6)),
    DAMAGED_SEAL,
];

#[test]
fn totals_are_compared_between_the_map_pages_and_the_log(rt: HostRuntime) {
    assert_all(&rt, &ORDER);
}

// ---- a checkpoint of format 2 over one of format 1

/// Old flash with two addresses, one of them in the log. Beside it are the pages that a new checkpoint has before its
/// seal.
const MIGRATION: [Line; 14] = [
    Line::Anew,
    Line::Put(4, Put::Data),
    Line::Put(4, Put::Data),
    Line::Put(0, OLD_MAP_5),
    Line::Put(0, Put::OldSeal(0, 1, 1)),
    Line::Put(2, Put::Old(PageKind::Log, 0, 0, PAGE_6)),
    Line::Loads(Answer::Loaded(0, 0, 2)),
    Line::Put(1, Put::One(PageKind::Map, 1, 0, PAGE_5)),
    Line::Loads(Answer::Loaded(0, 0, 2)),
    Line::Put(1, Put::One(PageKind::Map, 1, 1, PAGE_6)),
    Line::Loads(Answer::Loaded(0, 0, 2)),
    Line::OldCounts(Some((0, 0, 1))),
    Line::Put(1, Put::Seal(1, 2, 2)),
    Line::Counts(Some((1, 1, 2))),
];

const AFTER_THE_SEAL: [Line; 4] = [
    Line::Loads(Answer::Loaded(1, 1, 2)),
    // The old log no longer counts.
    Line::Put(2, Put::Old(PageKind::Log, 0, 1, Change::PageOut(5))),
    Line::Loads(Answer::Loaded(1, 1, 2)),
    Line::Lies(6, (4, 1)),
];

/// The same with a seal that is torn.
const TORN_SEAL: [Line; 10] = [
    Line::Anew,
    Line::Put(4, Put::Data),
    Line::Put(0, OLD_MAP_5),
    Line::Put(0, Put::OldSeal(0, 1, 1)),
    Line::Put(1, Put::One(PageKind::Map, 1, 0, PAGE_5)),
    Line::Put(1, Put::Torn),
    Line::OldCounts(Some((0, 0, 1))),
    Line::Loads(Answer::Loaded(0, 0, 1)),
    // An erase of the region that is cut leaves no checkpoint that counts.
    Line::Put(1, Put::MixedErase),
    Line::Loads(Answer::Loaded(0, 0, 1)),
];

/// Goes through both lists of lines, one after the other.
fn first_wrong_of_both(alloc: Global, first: &[Line], then: &[Line]) -> Option<usize> {
    let Some(geometry) = geometry() else {
        return Some(0);
    };
    let mut rig = MemRig::new(alloc);
    if let Some(wrong) = first_wrong_on(alloc, &mut rig, &geometry, first) {
        return Some(wrong);
    }
    first_wrong_on(alloc, &mut rig, &geometry, then)
}

#[test]
fn a_checkpoint_of_format_2_counts_with_its_seal(rt: HostRuntime) {
    assert_none(
        &rt,
        first_wrong_of_both(rt.alloc(), &MIGRATION, &AFTER_THE_SEAL),
    );
    assert_all(&rt, &TORN_SEAL);
}
