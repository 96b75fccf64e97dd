//! The result of loading flash with given pages, and which checkpoint on it counts.

use crate::flash::{At, assert_none, fit, fits_on, geometry};
use crate::pages::{Change, Counted, NUMBERS, Put, is_counted_of, make};
use checkpoint::newest;
use ft_base::{Geometry, Outcome, Page, Place, Spare, zero_block};
use ft_media::PageRead;
use mapping::Map;
use mem_rig::MemRig;
use record_codec::{PageKind, Seal};
use recovery::plain::{PlainLoad, plain_load};
use recovery::{Loaded, OpenError, load};
use std::alloc::Global;
use std::process::Abort;
use test_plain_format::{Old, made_old};

/// The answer of loading.
#[derive(Clone, Copy)]
pub(crate) enum Answer {
    /// The region and the era of the checkpoint, and how many addresses are held.
    Loaded(u32, u8, u64),
    /// Why loading fails.
    Refused(OpenError),
}

/// A line of an example.
#[derive(Clone, Copy)]
pub(crate) enum Line {
    /// The media are blank.
    Anew,
    /// The media are blank, except for an empty checkpoint of era 0 in region 0.
    Sealed,
    /// The same, and the first pool block has this many pages.
    SealedBeside(u32),
    /// The media have these contents in format 1.
    Old(&'static Old),
    /// This is put as the next page of a block, or done to the block.
    Put(u32, Put),
    /// Power goes off.
    Cut,
    /// The checkpoint that then counts, of format 2.
    Counts(Counted),
    /// The same for format 1.
    OldCounts(Counted),
    /// The answer of loading after that. The plain program answers the same.
    Loads(Answer),
    /// The same if the flash fails, so that the plain program isn't asked.
    Answers(Answer),
    /// The address is loaded with this place, dirty.
    Lies(u64, At),
}

// ---- the entries that are loaded

/// Puts all pages of the flash into a list, the pages of each erase block in turn. False if that can't be done.
fn put_pages(rig: &mut MemRig, pages: &mut Vec<Page>) -> bool {
    for block in 0..rig.flash_blocks() {
        for page in 0..rig.flash_pages() {
            if !put_page(rig, Place { block, page }, pages) {
                return false;
            }
        }
    }
    true
}

fn put_page(rig: &mut MemRig, at: Place, pages: &mut Vec<Page>) -> bool {
    match page_of(rig, at) {
        Some(page) => pages.push(page).is_ok(),
        None => false,
    }
}

fn page_of(rig: &mut MemRig, at: Place) -> Option<Page> {
    if at.block >= rig.flash_blocks() || at.page >= rig.flash_pages() {
        return None;
    }
    let mut block = zero_block();
    let mut spare = Spare([0; 32]);
    match rig.read_flash(at, &mut block, &mut spare) {
        Ok(PageRead::Blank) => Some(Page::Blank),
        Ok(PageRead::Whole) => Some(Page::Whole(block, spare)),
        Ok(PageRead::Torn) => Some(Page::Torn),
        Err(_) => None,
    }
}

pub(crate) fn is_same_map(one: &Map, other: &Map) -> bool {
    if one.held() != other.held() || one.dirty_entries() != other.dirty_entries() {
        return false;
    }
    if one.data_blocks() != other.data_blocks() {
        return false;
    }
    for i in 0..one.numbers() {
        if one.nth(i) != other.nth(i) {
            return false;
        }
    }
    true
}

/// Whether the plain program answers the same as `load`.
fn is_alike(fast: &Result<Loaded, OpenError>, plain: &PlainLoad) -> bool {
    match fast {
        Ok(loaded) => match plain {
            PlainLoad::Loaded(map) => is_same_map(&loaded.map, map),
            _ => false,
        },
        Err(OpenError::NotFormatted) => matches!(plain, PlainLoad::NotFormatted),
        Err(OpenError::OtherGeometry { found, .. }) => match plain {
            PlainLoad::OtherGeometry(seal) => seal == found,
            _ => false,
        },
        Err(OpenError::Damaged { block, page }) => match plain {
            PlainLoad::Damaged(at) => at.block == *block && at.page == *page,
            _ => false,
        },
        Err(_) => false,
    }
}

fn is_answer(told: &Result<Loaded, OpenError>, wanted: Answer) -> bool {
    match (told, wanted) {
        (Ok(loaded), Answer::Loaded(region, era, held)) => {
            loaded.region == region && loaded.era == era && loaded.map.held() == held
        }
        (Err(error), Answer::Refused(refusal)) => *error == refusal,
        _ => false,
    }
}

/// Whether the plain program answers the same for these pages.
fn is_plainly(
    alloc: Global,
    geometry: &Geometry,
    pages: &[Page],
    fast: &Result<Loaded, OpenError>,
) -> bool {
    match plain_load(alloc, geometry, pages) {
        Ok(plain) => is_alike(fast, &plain),
        Err(_) => false,
    }
}

/// The same for the pages on the flash.
pub(crate) fn is_plainly_on(
    alloc: Global,
    rig: &mut MemRig,
    geometry: &Geometry,
    fast: &Result<Loaded, OpenError>,
) -> bool {
    let mut pages = Vec::new(alloc);
    put_pages(rig, &mut pages) && is_plainly(alloc, geometry, pages.as_slice(), fast)
}

/// Whether `load` answers this, and the plain program the same, if it is asked.
fn loads(alloc: Global, rig: &mut MemRig, geometry: &Geometry, wanted: Answer, both: bool) -> bool {
    if !fits_on(rig, geometry) {
        return false;
    }
    let fast = load(alloc, rig, geometry);
    is_answer(&fast, wanted) && (!both || is_plainly_on(alloc, rig, geometry, &fast))
}

/// Whether the address is loaded with this place, dirty.
fn lies(alloc: Global, rig: &mut MemRig, geometry: &Geometry, lba: u64, at: At) -> bool {
    if !fits_on(rig, geometry) {
        return false;
    }
    match load(alloc, rig, geometry) {
        Ok(loaded) => match loaded.map.place(lba) {
            Some((place, dirty)) => (place.block, place.page) == at && dirty,
            None => false,
        },
        Err(_) => false,
    }
}

fn counts(rig: &mut MemRig, geometry: &Geometry, format: u8, wanted: Counted) -> bool {
    if !fits_on(rig, geometry) {
        return false;
    }
    match newest(rig, geometry) {
        Ok(found) => is_counted_of(format, found, wanted),
        Err(_) => false,
    }
}

// ---- the lines

/// Makes the media anew, with an empty checkpoint.
fn seal(alloc: Global, rig: &mut MemRig, geometry: &Geometry) -> bool {
    fit(rig, alloc, geometry).is_ok() && make(rig, 0, Put::Seal(0, 0, 0))
}

/// Programs this many pages of the first pool block.
fn fill(rig: &mut MemRig, pages: u32) -> bool {
    for _ in 0..pages {
        if !make(rig, 4, Put::Data) {
            return false;
        }
    }
    true
}

/// Does what the line says. Answers whether that can be done, and the facts of the line hold.
fn is_so(alloc: Global, rig: &mut MemRig, geometry: &Geometry, line: Line) -> bool {
    match line {
        Line::Anew => fit(rig, alloc, geometry).is_ok(),
        Line::Sealed => seal(alloc, rig, geometry),
        Line::SealedBeside(pages) => seal(alloc, rig, geometry) && fill(rig, pages),
        Line::Old(old) => made_old(alloc, rig, geometry, old) == Ok(true),
        Line::Put(block, what) => make(rig, block, what),
        Line::Cut => {
            rig.cut_power(Outcome::Whole);
            true
        }
        Line::Counts(wanted) => counts(rig, geometry, 2, wanted),
        Line::OldCounts(wanted) => counts(rig, geometry, 1, wanted),
        Line::Loads(wanted) => loads(alloc, rig, geometry, wanted, true),
        Line::Answers(wanted) => loads(alloc, rig, geometry, wanted, false),
        Line::Lies(lba, at) => lies(alloc, rig, geometry, lba, at),
    }
}

/// Goes through the lines on a rig. Answers the first line whose facts don't hold.
pub(crate) fn first_wrong_on(
    alloc: Global,
    rig: &mut MemRig,
    geometry: &Geometry,
    lines: &[Line],
) -> Option<usize> {
    for i in 0..lines.len() {
        if !is_so(alloc, rig, geometry, lines[i]) {
            return Some(i);
        }
    }
    None
}

/// The same on a rig of its own.
fn first_wrong(alloc: Global, lines: &[Line]) -> Option<usize> {
    let Some(geometry) = geometry() else {
        return Some(0);
    };
    let mut rig = MemRig::new(alloc);
    first_wrong_on(alloc, &mut rig, &geometry, lines)
}

/// Goes through the lines on a rig of its own. All their facts must hold.
pub(crate) fn assert_all(rt: &(impl Abort + AllocGlobal), lines: &[Line]) {
    assert_none(rt, first_wrong(rt.alloc(), lines));
}

const DAMAGED_LOG: Line = Line::Loads(Answer::Refused(OpenError::Damaged { block: 2, page: 0 }));

const DAMAGED_NEXT: Line = Line::Loads(Answer::Refused(OpenError::Damaged { block: 2, page: 1 }));

pub(crate) const NOT_FORMATTED: Line = Line::Loads(Answer::Refused(OpenError::NotFormatted));

pub(crate) const PAGE_5: Change = Change::Page(5, 4, 0);

// ---- which checkpoint counts

const REGIONS: [Line; 25] = [
    // Blank media.
    Line::Anew,
    Line::Counts(None),
    // A map page alone.
    Line::Anew,
    Line::Put(0, Put::One(PageKind::Map, 0, 0, PAGE_5)),
    Line::Counts(None),
    // A seal alone.
    Line::Anew,
    Line::Put(0, Put::Seal(0, 1, 1)),
    Line::Counts(None),
    // Both.
    Line::Anew,
    Line::Put(0, Put::One(PageKind::Map, 0, 0, PAGE_5)),
    Line::Put(0, Put::Seal(0, 1, 1)),
    Line::Counts(Some((0, 0, 1))),
    // The other region.
    Line::Anew,
    Line::Put(1, Put::One(PageKind::Map, 2, 0, PAGE_5)),
    Line::Counts(None),
    Line::Put(1, Put::Seal(2, 1, 1)),
    Line::Counts(Some((1, 2, 1))),
    // The other region is without a seal.
    Line::Anew,
    Line::Put(0, Put::Seal(0, 0, 0)),
    Line::Put(1, Put::One(PageKind::Map, 1, 0, PAGE_5)),
    Line::Counts(Some((0, 0, 0))),
    Line::Anew,
    Line::Put(0, Put::One(PageKind::Map, 2, 0, PAGE_5)),
    Line::Put(1, Put::Seal(1, 0, 0)),
    Line::Counts(Some((1, 1, 0))),
];

#[test]
fn a_region_counts_with_its_seal(rt: HostRuntime) {
    assert_all(&rt, &REGIONS);
}

const ERAS: [Line; 24] = [
    // After era 0, in the second region and in the first.
    Line::Anew,
    Line::Put(0, Put::Seal(0, 0, 0)),
    Line::Put(1, Put::Seal(1, 0, 0)),
    Line::Counts(Some((1, 1, 0))),
    Line::Anew,
    Line::Put(0, Put::Seal(1, 0, 0)),
    Line::Put(1, Put::Seal(0, 0, 0)),
    Line::Counts(Some((0, 1, 0))),
    // After era 1, in the second region and in the first.
    Line::Anew,
    Line::Put(0, Put::Seal(1, 0, 0)),
    Line::Put(1, Put::Seal(2, 0, 0)),
    Line::Counts(Some((1, 2, 0))),
    Line::Anew,
    Line::Put(0, Put::Seal(2, 0, 0)),
    Line::Put(1, Put::Seal(1, 0, 0)),
    Line::Counts(Some((0, 2, 0))),
    // After era 2, in the second region and in the first.
    Line::Anew,
    Line::Put(0, Put::Seal(2, 0, 0)),
    Line::Put(1, Put::Seal(0, 0, 0)),
    Line::Counts(Some((1, 0, 0))),
    Line::Anew,
    Line::Put(0, Put::Seal(0, 0, 0)),
    Line::Put(1, Put::Seal(2, 0, 0)),
    Line::Counts(Some((0, 0, 0))),
];

#[test]
fn the_next_era_is_chosen(rt: HostRuntime) {
    assert_all(&rt, &ERAS);
}

const LATER: [Line; 24] = [
    Line::Anew,
    Line::Put(0, Put::Seal(0, 0, 0)),
    Line::Put(1, Put::Seal(1, 0, 0)),
    Line::Loads(Answer::Loaded(1, 1, 0)),
    Line::Anew,
    Line::Put(0, Put::Seal(1, 0, 0)),
    Line::Put(1, Put::Seal(2, 0, 0)),
    Line::Loads(Answer::Loaded(1, 2, 0)),
    Line::Anew,
    Line::Put(0, Put::Seal(2, 0, 0)),
    Line::Put(1, Put::Seal(0, 0, 0)),
    Line::Loads(Answer::Loaded(1, 0, 0)),
    Line::Anew,
    Line::Put(0, Put::Seal(0, 0, 0)),
    Line::Put(1, Put::Seal(0, 0, 0)),
    Line::Loads(Answer::Loaded(0, 0, 0)),
    Line::Anew,
    Line::Put(0, Put::Seal(1, 0, 0)),
    Line::Put(1, Put::Seal(0, 0, 0)),
    Line::Loads(Answer::Loaded(0, 1, 0)),
    Line::Anew,
    Line::Put(0, Put::Seal(0, 0, 0)),
    Line::Put(1, Put::Seal(2, 0, 0)),
    Line::Loads(Answer::Loaded(0, 0, 0)),
];

#[test]
fn the_later_checkpoint_counts(rt: HostRuntime) {
    assert_all(&rt, &LATER);
}

// ---- checkpoints

const CHECKPOINTS: [Line; 45] = [
    // Good.
    Line::Anew,
    Line::Put(4, Put::Data),
    Line::Put(0, Put::One(PageKind::Map, 0, 0, PAGE_5)),
    Line::Put(0, Put::Seal(0, 1, 1)),
    Line::Loads(Answer::Loaded(0, 0, 1)),
    // A record too many.
    Line::Anew,
    Line::Put(4, Put::Data),
    Line::Put(0, Put::One(PageKind::Map, 0, 0, PAGE_5)),
    Line::Put(0, Put::Seal(0, 1, 2)),
    NOT_FORMATTED,
    // A record too few.
    Line::Anew,
    Line::Put(4, Put::Data),
    Line::Put(0, Put::One(PageKind::Map, 0, 0, PAGE_5)),
    Line::Put(0, Put::Seal(0, 1, 0)),
    NOT_FORMATTED,
    // A page too many.
    Line::Anew,
    Line::Put(4, Put::Data),
    Line::Put(0, Put::One(PageKind::Map, 0, 0, PAGE_5)),
    Line::Put(0, Put::Seal(0, 2, 1)),
    NOT_FORMATTED,
    // Another era of the seal.
    Line::Anew,
    Line::Put(4, Put::Data),
    Line::Put(0, Put::One(PageKind::Map, 0, 0, PAGE_5)),
    Line::Put(0, Put::Seal(1, 1, 1)),
    NOT_FORMATTED,
    // Another era of the page.
    Line::Anew,
    Line::Put(4, Put::Data),
    Line::Put(0, Put::One(PageKind::Map, 1, 0, PAGE_5)),
    Line::Put(0, Put::Seal(0, 1, 1)),
    NOT_FORMATTED,
    // Another place.
    Line::Anew,
    Line::Put(4, Put::Data),
    Line::Put(0, Put::One(PageKind::Map, 0, 1, PAGE_5)),
    Line::Put(0, Put::Seal(0, 1, 1)),
    NOT_FORMATTED,
    // A byte behind the record.
    Line::Anew,
    Line::Put(4, Put::Data),
    Line::Put(0, Put::Spoilt(PageKind::Map, 0, 0, PAGE_5, 4095)),
    Line::Put(0, Put::Seal(0, 1, 1)),
    Line::Loads(Answer::Refused(OpenError::Damaged { block: 0, page: 0 })),
    // A torn seal.
    Line::Anew,
    Line::Put(4, Put::Data),
    Line::Put(0, Put::One(PageKind::Map, 0, 0, PAGE_5)),
    Line::Put(0, Put::Torn),
    NOT_FORMATTED,
];

#[test]
fn damaged_checkpoints(rt: HostRuntime) {
    assert_all(&rt, &CHECKPOINTS);
}

/// Goes through the lines for a cache with one more data block.
fn first_wrong_of_three(alloc: Global, lines: &[Line]) -> Option<usize> {
    let Ok(geometry) = Geometry::new(4, 3, 2, 1, 64) else {
        return Some(0);
    };
    let mut rig = MemRig::new(alloc);
    first_wrong_on(alloc, &mut rig, &geometry, lines)
}

const OTHER_NUMBERS: OpenError = OpenError::OtherGeometry {
    found: NUMBERS,
    wanted: Seal {
        p: 4,
        c: 3,
        l: 2,
        j: 1,
        size: 64,
    },
};

const OTHERS: [Line; 4] = [
    Line::Anew,
    NOT_FORMATTED,
    Line::Put(0, Put::Seal(0, 0, 0)),
    Line::Loads(Answer::Refused(OTHER_NUMBERS)),
];

#[test]
fn seals_of_other_numbers_and_no_seals(rt: HostRuntime) {
    assert_none(&rt, first_wrong_of_three(rt.alloc(), &OTHERS));
}

// ---- the log behind an empty checkpoint

const ONE_LOG_PAGE: [Line; 9] = [
    Line::Sealed,
    Line::Put(2, Put::Log(0, PAGE_5)),
    // Its page is blank.
    Line::Loads(Answer::Refused(OpenError::Damaged { block: 4, page: 0 })),
    Line::Put(4, Put::Data),
    Line::Loads(Answer::Loaded(0, 0, 1)),
    Line::Lies(5, (4, 0)),
    // There is no checkpoint.
    Line::Anew,
    Line::Put(4, Put::Data),
    NOT_FORMATTED,
];

#[test]
fn a_log_page_over_an_empty_checkpoint(rt: HostRuntime) {
    assert_all(&rt, &ONE_LOG_PAGE);
}

const POOL_END: [Line; 4] = [
    Line::Anew,
    Line::Put(1, Put::Seal(1, 0, 0)),
    Line::Put(3, Put::One(PageKind::Log, 1, 0, Change::Page(5, 9, 0))),
    Line::Loads(Answer::Refused(OpenError::Damaged { block: 3, page: 0 })),
];

#[test]
fn a_place_before_the_pool_s_end_only(rt: HostRuntime) {
    assert_all(&rt, &POOL_END);
}

const LOG_ENDS: [Line; 40] = [
    // Three pages.
    Line::SealedBeside(3),
    Line::Put(2, Put::Log(0, Change::Page(5, 4, 0))),
    Line::Put(2, Put::Log(1, Change::Page(6, 4, 1))),
    Line::Put(2, Put::Log(2, Change::Page(7, 4, 2))),
    Line::Loads(Answer::Loaded(0, 0, 3)),
    // Another place.
    Line::SealedBeside(3),
    Line::Put(2, Put::Log(0, Change::Page(5, 4, 0))),
    Line::Put(2, Put::Log(2, Change::Page(7, 4, 2))),
    Line::Put(2, Put::Log(2, Change::Page(7, 4, 2))),
    Line::Loads(Answer::Loaded(0, 0, 1)),
    // None at its place.
    Line::SealedBeside(3),
    Line::Put(2, Put::Log(1, Change::Page(6, 4, 1))),
    Line::Put(2, Put::Log(2, Change::Page(7, 4, 2))),
    Line::Put(2, Put::Log(2, Change::Page(7, 4, 2))),
    Line::Loads(Answer::Loaded(0, 0, 0)),
    // Another era.
    Line::SealedBeside(3),
    Line::Put(2, Put::Log(0, Change::Page(5, 4, 0))),
    Line::Put(2, Put::One(PageKind::Log, 1, 1, Change::Page(6, 4, 1))),
    Line::Put(2, Put::Log(2, Change::Page(7, 4, 2))),
    Line::Loads(Answer::Loaded(0, 0, 1)),
    // A map page.
    Line::SealedBeside(3),
    Line::Put(2, Put::Log(0, Change::Page(5, 4, 0))),
    Line::Put(2, Put::One(PageKind::Map, 0, 1, Change::Page(6, 4, 1))),
    Line::Put(2, Put::Log(2, Change::Page(7, 4, 2))),
    Line::Loads(Answer::Loaded(0, 0, 1)),
    // A page of data.
    Line::SealedBeside(3),
    Line::Put(2, Put::Log(0, Change::Page(5, 4, 0))),
    Line::Put(2, Put::Data),
    Line::Put(2, Put::Log(2, Change::Page(7, 4, 2))),
    Line::Loads(Answer::Loaded(0, 0, 1)),
    // A torn page.
    Line::SealedBeside(3),
    Line::Put(2, Put::Log(0, Change::Page(5, 4, 0))),
    Line::Put(2, Put::Log(1, Change::Page(6, 4, 1))),
    Line::Put(2, Put::Torn),
    Line::Loads(Answer::Loaded(0, 0, 2)),
    // A blank page before others.
    Line::SealedBeside(3),
    Line::Put(2, Put::Log(0, Change::Page(5, 4, 0))),
    Line::Put(2, Put::Log(1, Change::Page(6, 4, 1))),
    Line::Put(2, Put::MixedErase),
    Line::Loads(Answer::Loaded(0, 0, 1)),
];

#[test]
fn a_log_ends_before_the_first_page_that_is_none(rt: HostRuntime) {
    assert_all(&rt, &LOG_ENDS);
}

const UNFIT: [Line; 33] = [
    // An address past the size.
    Line::Sealed,
    Line::Put(2, Put::Log(0, Change::Page(64, 4, 0))),
    DAMAGED_LOG,
    // A group past the size.
    Line::Sealed,
    Line::Put(2, Put::Log(0, Change::Group(16, 4, 1))),
    DAMAGED_LOG,
    // An address past the size, taken out.
    Line::Sealed,
    Line::Put(2, Put::Log(0, Change::PageOut(64))),
    DAMAGED_LOG,
    // A group past the size, taken out.
    Line::Sealed,
    Line::Put(2, Put::Log(0, Change::GroupOut(16))),
    DAMAGED_LOG,
    // A place before the pool.
    Line::Sealed,
    Line::Put(2, Put::Log(0, Change::Page(5, 3, 0))),
    DAMAGED_LOG,
    // A place behind the pool.
    Line::Sealed,
    Line::Put(2, Put::Log(0, Change::Page(5, 9, 0))),
    DAMAGED_LOG,
    // A page past the last.
    Line::Sealed,
    Line::Put(2, Put::Log(0, Change::Page(5, 4, 4))),
    DAMAGED_LOG,
    // A group's page past the last.
    Line::Sealed,
    Line::Put(2, Put::Log(0, Change::Group(0, 4, 16))),
    DAMAGED_LOG,
    // One place of two addresses.
    Line::Sealed,
    Line::Put(2, Put::Two(0, PAGE_5, Change::Page(6, 4, 0))),
    DAMAGED_LOG,
    // A data block of two groups.
    Line::Sealed,
    Line::Put(
        2,
        Put::Two(0, Change::Group(0, 4, 1), Change::Group(1, 4, 2)),
    ),
    DAMAGED_LOG,
    // A page in a data block.
    Line::Sealed,
    Line::Put(
        2,
        Put::Two(0, Change::Group(0, 4, 1), Change::Page(5, 4, 1)),
    ),
    DAMAGED_LOG,
];

#[test]
fn records_that_do_not_fit(rt: HostRuntime) {
    assert_all(&rt, &UNFIT);
}

const TOO_MANY: [Line; 12] = [
    // Data blocks.
    Line::Sealed,
    Line::Put(
        2,
        Put::Two(0, Change::Group(0, 4, 1), Change::Group(1, 5, 1)),
    ),
    Line::Put(2, Put::Log(1, Change::Group(2, 6, 1))),
    DAMAGED_NEXT,
    // Log blocks.
    Line::Sealed,
    Line::Put(2, Put::Two(0, Change::Page(0, 4, 0), Change::Page(1, 5, 0))),
    Line::Put(2, Put::Log(1, Change::Page(2, 6, 0))),
    DAMAGED_NEXT,
    // Dirty groups.
    Line::Sealed,
    Line::Put(2, Put::Two(0, Change::Page(0, 4, 0), Change::Page(4, 4, 1))),
    Line::Put(2, Put::Log(1, Change::Page(8, 4, 2))),
    DAMAGED_NEXT,
];

#[test]
fn one_record_too_many(rt: HostRuntime) {
    assert_all(&rt, &TOO_MANY);
}

const NOT_WHOLE: [Line; 30] = [
    Line::Sealed,
    Line::Put(2, Put::Two(0, Change::Page(9, 4, 1), Change::Page(5, 4, 2))),
    Line::Put(4, Put::Data),
    Line::Put(5, Put::Torn),
    Line::Loads(Answer::Refused(OpenError::Damaged { block: 4, page: 2 })),
    Line::Sealed,
    Line::Put(2, Put::Two(0, Change::Page(5, 4, 1), Change::Page(9, 4, 2))),
    Line::Put(4, Put::Data),
    Line::Put(5, Put::Torn),
    Line::Loads(Answer::Refused(OpenError::Damaged { block: 4, page: 1 })),
    Line::Sealed,
    Line::Put(2, Put::Two(0, PAGE_5, Change::Page(9, 5, 0))),
    Line::Put(4, Put::Data),
    Line::Put(5, Put::Torn),
    Line::Loads(Answer::Refused(OpenError::Damaged { block: 5, page: 0 })),
    Line::Sealed,
    Line::Put(2, Put::Two(0, Change::Page(5, 5, 0), Change::Page(9, 4, 0))),
    Line::Put(4, Put::Data),
    Line::Put(5, Put::Torn),
    Line::Loads(Answer::Refused(OpenError::Damaged { block: 5, page: 0 })),
    Line::Sealed,
    Line::Put(2, Put::Two(0, Change::Page(9, 4, 3), Change::Page(5, 5, 0))),
    Line::Put(4, Put::Data),
    Line::Put(5, Put::Torn),
    Line::Loads(Answer::Refused(OpenError::Damaged { block: 5, page: 0 })),
    Line::Sealed,
    Line::Put(2, Put::Two(0, Change::Page(5, 5, 1), Change::Page(9, 4, 1))),
    Line::Put(4, Put::Data),
    Line::Put(5, Put::Torn),
    Line::Loads(Answer::Refused(OpenError::Damaged { block: 5, page: 1 })),
];

#[test]
fn the_first_address_without_a_whole_page_is_told(rt: HostRuntime) {
    assert_all(&rt, &NOT_WHOLE);
}

// ---- how often a page is read

const FAULT: [Line; 7] = [
    Line::Anew,
    Line::Put(0, Put::One(PageKind::Map, 0, 0, PAGE_5)),
    Line::Put(0, Put::Seal(0, 1, 1)),
    Line::Put(2, Put::Log(0, Change::Page(6, 4, 1))),
    Line::Put(4, Put::Data),
    Line::Put(4, Put::Data),
    Line::Answers(Answer::Refused(OpenError::FlashFault)),
];

const NO_FAULT: [Line; 7] = [
    Line::Anew,
    Line::Put(0, Put::One(PageKind::Map, 0, 0, PAGE_5)),
    Line::Put(0, Put::Seal(0, 1, 1)),
    Line::Put(2, Put::Log(0, Change::Page(6, 4, 1))),
    Line::Put(4, Put::Data),
    Line::Put(4, Put::Data),
    Line::Answers(Answer::Loaded(0, 0, 2)),
];

const NO_POWER: [Line; 8] = [
    Line::Anew,
    Line::Put(0, Put::One(PageKind::Map, 0, 0, PAGE_5)),
    Line::Put(0, Put::Seal(0, 1, 1)),
    Line::Put(2, Put::Log(0, Change::Page(6, 4, 1))),
    Line::Put(4, Put::Data),
    Line::Put(4, Put::Data),
    Line::Cut,
    Line::Answers(Answer::Refused(OpenError::PowerLost)),
];

/// Goes through the lines on flash whose call with this number fails.
fn first_wrong_failing(
    alloc: Global,
    geometry: &Geometry,
    number: u64,
    lines: &[Line],
) -> Option<usize> {
    let Ok(failing) = [number].to_vec(alloc) else {
        return Some(0);
    };
    let mut rig = MemRig::failing(alloc, failing, Vec::new(alloc));
    first_wrong_on(alloc, &mut rig, geometry, lines)
}

/// The first call below a number, from another number on, whose failure makes the lines go otherwise.
fn first_other_call(alloc: Global, from: u64, end: u64, lines: &[Line]) -> Option<usize> {
    let Some(geometry) = geometry() else {
        return Some(0);
    };
    for number in from..end {
        if first_wrong_failing(alloc, &geometry, number, lines).is_some() {
            return Some(number as usize);
        }
    }
    None
}

// Five pages are programmed. Then `newest` reads the map page and the seal of region 0, and the first page of region 1.
// The map page is read once more for its records. The log page, the blank page behind it, and each of the two places
// are read once.
#[test]
fn each_page_is_read_twice_at_most(rt: HostRuntime) {
    assert_none(&rt, first_other_call(rt.alloc(), 6, 14, &FAULT));
    assert_none(&rt, first_other_call(rt.alloc(), 14, 16, &NO_FAULT));
    assert_all(&rt, &NO_POWER);
}
