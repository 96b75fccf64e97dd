//! A record as a line of bytes: one spelling in each width, and a reader that accepts no other line.
ghost use Rattle.std.specs.Prelude.{◌≡◌, ◌<◌, ◌^◌, ◌++◌, IsTrue, nat_lt, take, drop};
ghost use Rattle.cache_model.specs.Spelling.{has_widths, is_sound, goes_on, page_limit, record_bytes, set_limit, zeros};
ghost use Rattle.cache_model.specs.Reading.{first_set, record_in, second_set};
ghost use Rattle.record_codec.specs.Lines.{spelled_front, spelled_line, spelled_set, FitsLine, read_line as line_read};

use crate::line::{put_u32, put_u64, put_u128, u32_at, u64_at, u128_at};
use crate::width::page_limit;
use cache_model::PageKind;
use ft_base::{Place, Record};

// The first byte of a record says which record it is.
const SET_PAGE: u8 = 1;

const REMOVE: u8 = 2;

const CLEAN: u8 = 3;

const SET_GROUP: u8 = 4;

const REMOVE_GROUP: u8 = 5;

/// The line of a record without sets: a kind, a mark, a page, a block and a number.
fn front_of(kind: u8, flag: u8, page: u8, block: u32, number: u64) -> [u8; 48]
    ensures line { result ≡ spelled_front kind flag page block number ++ zeros 32 }
    ensures block { block < 2 ^ 32 }
    ensures number { number < 2 ^ 64 }
{
    let mut line = [0; 48];
    line[0] = kind;
    line[1] = flag;
    line[2] = page;
    put_u32(&mut line, 4, block);
    put_u64(&mut line, 8, number);
    line
}

/// Puts the two sets of a data block into a line.
fn put_sets(line: &mut [u8; 48], wide: bool, present: u128, dirty: u128)
    requires present { present < set_limit wide }
    requires dirty { dirty < set_limit wide }
    ensures { line.new ≡ take 16 line.old ++ spelled_set wide present ++ spelled_set wide dirty ++ drop (record_bytes wide) line.old }
{
    if wide {
        put_u128(line, 16, present);
        put_u128(line, 32, dirty);
    } else {
        put_u64(line, 16, present as u64);
        put_u64(line, 24, dirty as u64);
    }
}

/// The line of a record: its one spelling, and zero bytes behind it.
pub fn spelled_line(change: &Record, wide: bool) -> [u8; 48]
    requires { FitsLine wide change.now }
    ensures spelled { result ≡ spelled_line wide change.now }
    ensures widths { IsTrue (has_widths wide change.now) }
{
    match *change {
        Record::SetPage { lba, place, dirty } => front_of(
            SET_PAGE,
            u8::from(dirty),
            place.page as u8,
            place.block,
            lba,
        ),
        Record::Remove { lba } => front_of(REMOVE, 0, 0, 0, lba),
        Record::Clean { lba } => front_of(CLEAN, 0, 0, 0, lba),
        Record::SetGroup {
            group,
            block,
            present,
            dirty,
        } => {
            let mut line = front_of(SET_GROUP, 0, 0, block, group);
            put_sets(&mut line, wide, present, dirty);
            line
        }
        Record::RemoveGroup { group } => front_of(REMOVE_GROUP, 0, 0, 0, group),
    }
}

/// The first set of a line.
fn first_set(line: &[u8; 48], wide: bool) -> u128
    ensures found { result ≡ first_set wide line.now }
    ensures fits { result < set_limit wide }
{
    if wide {
        u128_at(line, 16)
    } else {
        u128::from(u64_at(line, 16))
    }
}

/// The second set of a line.
fn second_set(line: &[u8; 48], wide: bool) -> u128
    ensures found { result ≡ second_set wide line.now }
    ensures fits { result < set_limit wide }
{
    if wide {
        u128_at(line, 32)
    } else {
        u128::from(u64_at(line, 24))
    }
}

/// The record that a line would be. A line of no kind is taken for one of the last kind, whose spelling it isn't.
fn record_in(line: &[u8; 48], wide: bool) -> Record
    ensures found { result ≡ record_in wide line.now }
    ensures fits { FitsLine wide result }
{
    let first = u64_at(line, 8);
    let block = u32_at(line, 4);
    match line[0] {
        SET_PAGE => Record::SetPage {
            lba: first,
            place: Place {
                block,
                page: u32::from(line[2]),
            },
            dirty: line[1] == 1,
        },
        REMOVE => Record::Remove { lba: first },
        CLEAN => Record::Clean { lba: first },
        SET_GROUP => Record::SetGroup {
            group: first,
            block,
            present: first_set(line, wide),
            dirty: second_set(line, wide),
        },
        _ => Record::RemoveGroup { group: first },
    }
}

/// Whether a set of pages fits the bytes that a record has for it.
fn fits_set(pages: u128, wide: bool) -> bool
    ensures { result ≡ nat_lt pages (2 ^ page_limit wide) }
{
    wide || pages < 1 << 64
}

/// Whether the pages of a record fit an erase block, and its dirty pages are present.
fn is_sound(change: &Record, wide: bool) -> bool
    ensures { result ≡ is_sound wide change.now }
{
    match *change {
        Record::SetPage { place, .. } => place.page < page_limit(wide),
        Record::SetGroup { present, dirty, .. } => {
            present > 0 && present & dirty == dirty && fits_set(present, wide)
        }
        Record::Remove { .. } | Record::Clean { .. } | Record::RemoveGroup { .. } => true,
    }
}

/// Whether a page of this kind may have a record like this one.
pub fn goes_on(kind: PageKind, change: &Record) -> bool
    ensures { result ≡ goes_on kind change.now }
{
    match kind {
        PageKind::Log => true,
        PageKind::Map => match *change {
            Record::SetPage { .. } | Record::SetGroup { .. } => true,
            Record::Remove { .. } | Record::Clean { .. } | Record::RemoveGroup { .. } => false,
        },
        PageKind::Seal => false,
    }
}

/// The record of a line. There is one exactly when the line spells a sound record.
#[tactic(auto, using(crate::proofs::RecordLemmas::line_reads))]
pub fn read_line(line: &[u8; 48], wide: bool) -> Option<Record>
    ensures { result ≡ line_read wide line.now }
{
    let change = record_in(line, wide);
    let same = spelled_line(&change, wide) == *line;
    if !same {
        return None;
    }
    if !is_sound(&change, wide) {
        return None;
    }
    Some(change)
}
