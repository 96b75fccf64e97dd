//! The log: the pages that it writes, and how far a walk over them goes.

ghost use Rattle.std.specs.Prelude.{◌≡◌, ◌<◌};
ghost use Rattle.std.specs.Bool.{OnTrue};
ghost use Rattle.ft_media.specs.Media.{IsNextPage};
ghost use Rattle.mem_rig.specs.Rig.{state_of};

use crate::flash::{At, arm, assert_none, fit, fits_on, read};
use crate::pages::{Change, Put, make, may_be_logged, record_of};
use ft_base::{Block, Geometry, Outcome, Place, Spare, zero_block};
use ft_media::MediaError;
use mapping::Map;
use mem_rig::MemRig;
use op_log::{OpLog, OpenError, Stamp, roll};
use record_codec::PageKind;
use std::alloc::Global;
use std::process::Abort;

const LOG_LINE: [u8; 32] = *b"FTSCPAGE\x02\x03\x01\0\0\0\0\0\0\0\0\x02\0\0\0\0\0\0\0\0\0\0\0\0";

const SET_PAGE_LINE: [u8; 32] =
    *b"\x01\x01\0\0\0\0\0\x09\0\0\0\0\0\0\0\x05\0\0\0\0\0\0\0\0\0\0\0\0\0\0\0\0";

const REMOVE_LINE: [u8; 32] =
    *b"\x02\0\0\0\0\0\0\0\0\0\0\0\0\0\0\x06\0\0\0\0\0\0\0\0\0\0\0\0\0\0\0\0";

const LOG_SPARE: [u8; 32] = *b"FTSP\x03\x01\0\0\0\0\0\0\0\0\0\0\0\0\0\0\0\0\0\0\0\0\0\0\0\0\0\0";

/// The answer of a flush. `None` if the log isn't ready for one.
type Flushed = Option<Result<(), MediaError>>;

/// A fact that can be seen of a log and of its flash.
#[derive(Clone, Copy)]
enum Fact {
    /// How many changes are buffered, and how many pages the log has left.
    Log { buffered: u32, room: u32 },
    /// The region and the era of the log.
    Place(u32, u8),
    /// How many pages were programmed.
    Programs(u64),
    /// The first log page is as written by hand, with its spare bytes.
    FirstPage,
    /// No whole page is there.
    NotWhole(At),
    /// A walk over the log of region 0 and of this era applies this many pages. After it the map has this many
    /// addresses.
    Walk(u8, u32, u64),
    /// After such a walk the address lies, dirty, at this page of block 9, or isn't held.
    Lies(u8, u64, Option<u32>),
    /// Such a walk finds the first page damaged.
    Damaged(u8),
    /// A walk over the log of format 1 applies this many pages. After it the map has this many addresses.
    OldWalk(u8, u32, u64),
    /// Such a walk finds the first page damaged.
    OldDamaged(u8),
}

/// A line of an example.
#[derive(Clone, Copy)]
enum Line {
    /// The media are blank.
    Anew,
    /// A change is buffered.
    Buffer(Change),
    /// The log is flushed.
    Flush(Flushed),
    /// The log is flushed, with a stop that tears the page that is programmed.
    FlushTorn(Flushed),
    /// A change gets a page of its own.
    Note(Change),
    /// The log begins again in this region, with this era.
    Restart(u32, u8),
    /// This is put as the first page of region 0.
    Put(Put),
    /// The fact that is seen then.
    See(Fact),
}

/// Whether the page is the next one of an erase block that is ready.
fn is_ready(rig: &MemRig, at: Place) -> bool
    ensures next { OnTrue result (IsNextPage at (state_of rig.now).contents.flash) }
    ensures page { OnTrue result (at.page < (state_of rig.now).contents.shape.pages) }
{
    if at.block >= rig.flash_blocks() || at.page >= rig.flash_pages() {
        return false;
    }
    match rig.next_page(at.block) {
        Some(next) => next == at.page,
        None => false,
    }
}

/// Flushes the log, if there is room and its next page is ready.
fn flush(rig: &mut MemRig, log: &mut OpLog, geometry: &Geometry) -> Flushed
    requires { log.old.geometry ≡ geometry.now }
    ensures { log.new.geometry ≡ log.old.geometry }
{
    let left = log.room();
    if !fits_on(rig, geometry) || left == 0 {
        return None;
    }
    let at = geometry.log_at(log.region(), geometry.j * geometry.p - left);
    if !is_ready(rig, at) {
        return None;
    }
    Some(log.flush(rig))
}

/// The findings of a walk over the log.
#[derive(Clone, Copy)]
struct Walked {
    /// How many pages it applied.
    pages: Result<u32, OpenError>,
    /// How many addresses the map has after it.
    held: u64,
    /// The place of the address that was looked up, and whether it is dirty.
    place: Option<(Place, bool)>,
}

/// Walks over the log of region 0 and of this stamp, into an empty map, and looks up an address.
fn walk(
    rig: &mut MemRig,
    alloc: Global,
    geometry: &Geometry,
    stamp: Stamp,
    lba: u64,
) -> Option<Walked> {
    if !fits_on(rig, geometry) {
        return None;
    }
    let Ok(mut map) = Map::new(alloc, geometry) else {
        return None;
    };
    let pages = roll(rig, geometry, 0, stamp.era, stamp.format, &mut map);
    Some(Walked {
        pages,
        held: map.held(),
        place: map.place(lba),
    })
}

fn walks(walked: Option<Walked>, pages: Result<u32, OpenError>, held: u64) -> bool {
    match walked {
        Some(found) => found.pages == pages && found.held == held,
        None => false,
    }
}

/// Whether the address lies, dirty, at this page of block 9, or isn't held.
fn lies(walked: Option<Walked>, wanted: Option<u32>) -> bool {
    match walked {
        Some(found) => match (found.place, wanted) {
            (Some((at, dirty)), Some(page)) => dirty && at.block == 9 && at.page == page,
            (None, None) => true,
            _ => false,
        },
        None => false,
    }
}

/// Whether a page has the header, the two records, and zeros behind them.
fn is_as_written_down(page: &Block) -> bool {
    page.0[..32] == LOG_LINE[..]
        && page.0[32..64] == SET_PAGE_LINE[..]
        && page.0[64..96] == REMOVE_LINE[..]
        && page.0[96..].iter().all(|byte| *byte == 0)
}

/// Whether the first log page is as written by hand, with its spare bytes.
fn has_first_page(rig: &mut MemRig) -> bool {
    let mut page = zero_block();
    let mut spare = Spare([0; 32]);
    read(rig, (2, 0), &mut page, &mut spare) && is_as_written_down(&page) && spare.0 == LOG_SPARE
}

fn is_whole(rig: &mut MemRig, at: At) -> bool {
    read(rig, at, &mut zero_block(), &mut Spare([0; 32]))
}

fn is_damaged(walked: Option<Walked>) -> bool {
    match walked {
        Some(found) => found.pages == Err(OpenError::Damaged { block: 2, page: 0 }),
        None => false,
    }
}

/// The findings of a walk over the log of a format and an era.
fn walk_of(
    alloc: Global,
    rig: &mut MemRig,
    geometry: &Geometry,
    format: u8,
    era: u8,
) -> Option<Walked> {
    walk(rig, alloc, geometry, Stamp { format, era }, 0)
}

/// Whether the address lies there after a walk over the log of this era.
fn lies_in(
    alloc: Global,
    rig: &mut MemRig,
    geometry: &Geometry,
    era: u8,
    lba: u64,
    page: Option<u32>,
) -> bool {
    lies(
        walk(rig, alloc, geometry, Stamp { format: 2, era }, lba),
        page,
    )
}

fn holds(alloc: Global, rig: &mut MemRig, log: &OpLog, geometry: &Geometry, fact: Fact) -> bool {
    match fact {
        Fact::Log { buffered, room } => log.buffered() == buffered && log.room() == room,
        Fact::Place(region, era) => log.region() == region && log.era() == era,
        Fact::Programs(count) => rig.done().programs == count,
        Fact::FirstPage => has_first_page(rig),
        Fact::NotWhole(at) => !is_whole(rig, at),
        Fact::Walk(era, pages, held) => {
            walks(walk_of(alloc, rig, geometry, 2, era), Ok(pages), held)
        }
        Fact::OldWalk(era, pages, held) => {
            walks(walk_of(alloc, rig, geometry, 1, era), Ok(pages), held)
        }
        Fact::Lies(era, lba, page) => lies_in(alloc, rig, geometry, era, lba, page),
        Fact::Damaged(era) => is_damaged(walk_of(alloc, rig, geometry, 2, era)),
        Fact::OldDamaged(era) => is_damaged(walk_of(alloc, rig, geometry, 1, era)),
    }
}

// ---- the lines

/// Buffers a change. False if the log can't have it.
fn buffer(log: &mut OpLog, geometry: &Geometry, change: Change) -> bool
    requires { log.old.geometry ≡ geometry.now }
    ensures { log.new.geometry ≡ log.old.geometry }
{
    let change = record_of(change);
    if log.buffered() >= geometry.q() || !may_be_logged(geometry.p, &change) {
        return false;
    }
    log.push(change);
    true
}

/// Flushes the log, with a stop that tears the page that is programmed.
fn flush_torn(rig: &mut MemRig, log: &mut OpLog, geometry: &Geometry) -> Flushed
    requires { log.old.geometry ≡ geometry.now }
    ensures { log.new.geometry ≡ log.old.geometry }
{
    if !arm(rig, Outcome::Torn) {
        return None;
    }
    let flushed = flush(rig, log, geometry);
    rig.turn_on();
    flushed
}

fn restart(log: &mut OpLog, region: u32, era: u8) -> bool
    ensures { log.new.geometry ≡ log.old.geometry }
{
    if region > 1 || era > 2 {
        return false;
    }
    log.restart(region, era);
    true
}

/// Does what the line says. Answers whether that can be done, and the facts of the line hold.
fn is_so(alloc: Global, rig: &mut MemRig, log: &mut OpLog, geometry: &Geometry, line: Line) -> bool
    requires { log.old.geometry ≡ geometry.now }
    ensures { log.new.geometry ≡ log.old.geometry }
{
    match line {
        Line::Anew => fit(rig, alloc, geometry).is_ok(),
        Line::Buffer(change) => buffer(log, geometry, change),
        Line::Flush(wanted) => flush(rig, log, geometry) == wanted,
        Line::FlushTorn(wanted) => flush_torn(rig, log, geometry) == wanted,
        Line::Note(change) => buffer(log, geometry, change)
            && flush(rig, log, geometry) == Some(Ok(())),
        Line::Restart(region, era) => restart(log, region, era),
        Line::Put(what) => make(rig, 2, what),
        Line::See(fact) => holds(alloc, rig, log, geometry, fact),
    }
}

fn first_wrong_of(
    alloc: Global,
    rig: &mut MemRig,
    log: &mut OpLog,
    geometry: &Geometry,
    lines: &[Line],
) -> Option<usize>
    requires { log.old.geometry ≡ geometry.now }
{
    for i in 0..lines.len() {
        if !is_so(alloc, rig, log, geometry, lines[i]) {
            return Some(i);
        }
    }
    None
}

/// Goes through the lines on a rig, beginning with a log in region 0, of era 1. Answers the first line whose facts
/// don't hold.
fn first_wrong_on(
    alloc: Global,
    rig: &mut MemRig,
    geometry: &Geometry,
    lines: &[Line],
) -> Option<usize> {
    let Ok(mut log) = OpLog::new(alloc, geometry, 0, 1) else {
        return Some(0);
    };
    first_wrong_of(alloc, rig, &mut log, geometry, lines)
}

/// The same on blank flash. The regions of the log are the erase blocks 2 and 3, and 4 and 5.
fn first_wrong(alloc: Global, lines: &[Line]) -> Option<usize> {
    let Ok(geometry) = Geometry::new(4, 2, 2, 2, 64) else {
        return Some(0);
    };
    let mut rig = MemRig::new(alloc);
    if fit(&mut rig, alloc, &geometry).is_err() {
        return Some(0);
    }
    first_wrong_on(alloc, &mut rig, &geometry, lines)
}

/// Goes through the lines. All their facts must hold.
fn assert_all(rt: &(impl Abort + AllocGlobal), lines: &[Line]) {
    assert_none(rt, first_wrong(rt.alloc(), lines));
}

const TWO_CHANGES: [Line; 6] = [
    Line::Buffer(Change::Page(5, 9, 0)),
    Line::Buffer(Change::PageOut(6)),
    Line::Flush(Some(Ok(()))),
    Line::See(Fact::Programs(1)),
    Line::See(Fact::Log {
        buffered: 0,
        room: 7,
    }),
    Line::See(Fact::FirstPage),
];

#[test]
fn a_flush_is_one_page_as_written_down(rt: HostRuntime) {
    assert_all(&rt, &TWO_CHANGES);
}

const NOTHING: [Line; 3] = [
    Line::Flush(Some(Ok(()))),
    Line::See(Fact::Programs(0)),
    Line::See(Fact::Log {
        buffered: 0,
        room: 8,
    }),
];

#[test]
fn a_flush_of_nothing_programs_nothing(rt: HostRuntime) {
    assert_all(&rt, &NOTHING);
}

const RESTARTED: [Line; 4] = [
    Line::Note(Change::Page(5, 9, 0)),
    Line::Restart(1, 2),
    Line::See(Fact::Log {
        buffered: 0,
        room: 8,
    }),
    Line::See(Fact::Place(1, 2)),
];

#[test]
fn a_log_begins_again_in_the_other_region(rt: HostRuntime) {
    assert_all(&rt, &RESTARTED);
}

const FIVE_PAGES: [Line; 11] = [
    Line::Note(Change::Page(5, 9, 0)),
    Line::Note(Change::Page(5, 9, 1)),
    Line::Note(Change::Page(5, 9, 2)),
    Line::Note(Change::Page(5, 9, 3)),
    Line::Note(Change::Page(8, 9, 0)),
    // Into the next erase block, up to a blank page.
    Line::See(Fact::Walk(1, 5, 2)),
    Line::See(Fact::Lies(1, 5, Some(3))),
    Line::See(Fact::Lies(1, 8, Some(0))),
    // Pages of another era.
    Line::See(Fact::Walk(2, 0, 0)),
    Line::See(Fact::Lies(2, 5, None)),
    Line::See(Fact::Lies(2, 8, None)),
];

#[test]
fn a_log_is_walked_to_its_end(rt: HostRuntime) {
    assert_all(&rt, &FIVE_PAGES);
}

const PAGES: [Line; 11] = [
    Line::Put(Put::One(PageKind::Log, 1, 0, Change::Page(5, 9, 0))),
    Line::See(Fact::Walk(1, 1, 1)),
    // A byte behind the records.
    Line::Anew,
    Line::Put(Put::Spoilt(PageKind::Log, 1, 0, Change::Page(5, 9, 0), 100)),
    Line::See(Fact::Damaged(1)),
    // An address past the size.
    Line::Anew,
    Line::Put(Put::One(PageKind::Log, 1, 0, Change::Page(64, 9, 0))),
    Line::See(Fact::Damaged(1)),
    // A page of another place.
    Line::Anew,
    Line::Put(Put::One(PageKind::Log, 1, 1, Change::Page(5, 9, 0))),
    Line::See(Fact::Walk(1, 0, 0)),
];

#[test]
fn a_page_is_walked_or_damaged_or_the_end(rt: HostRuntime) {
    assert_all(&rt, &PAGES);
}

const OTHER_FORMAT: [Line; 15] = [
    Line::Put(Put::Old(PageKind::Log, 1, 0, Change::Page(5, 9, 0))),
    Line::See(Fact::OldWalk(1, 1, 1)),
    Line::See(Fact::Walk(1, 0, 0)),
    // A page of format 2 behind it ends the old log, and isn't the first of the other.
    Line::Put(Put::One(PageKind::Log, 1, 1, Change::Page(6, 9, 1))),
    Line::See(Fact::OldWalk(1, 1, 1)),
    Line::See(Fact::Walk(1, 0, 0)),
    // A page of format 1 behind one of format 2.
    Line::Anew,
    Line::Note(Change::Page(5, 9, 0)),
    Line::Put(Put::Old(PageKind::Log, 1, 1, Change::Page(6, 9, 1))),
    Line::See(Fact::Walk(1, 1, 1)),
    Line::See(Fact::OldWalk(1, 0, 0)),
    // An address past the size damages only the log of its own format.
    Line::Anew,
    Line::Put(Put::Old(PageKind::Log, 1, 0, Change::Page(64, 9, 0))),
    Line::See(Fact::OldDamaged(1)),
    Line::See(Fact::Walk(1, 0, 0)),
];

#[test]
fn a_page_of_the_other_format_ends_the_log(rt: HostRuntime) {
    assert_all(&rt, &OTHER_FORMAT);
}

const TORN: [Line; 8] = [
    Line::Note(Change::Page(5, 9, 0)),
    Line::Buffer(Change::PageOut(6)),
    Line::FlushTorn(Some(Err(MediaError::PowerLost))),
    Line::See(Fact::Log {
        buffered: 1,
        room: 7,
    }),
    Line::See(Fact::NotWhole((2, 1))),
    Line::See(Fact::Walk(1, 1, 1)),
    Line::See(Fact::Lies(1, 5, Some(0))),
    Line::See(Fact::Lies(1, 6, None)),
];

#[test]
fn a_flush_that_is_cut_ends_the_log(rt: HostRuntime) {
    assert_all(&rt, &TORN);
}
