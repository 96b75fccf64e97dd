//! Pages of records and seals of both formats, written if they may be, and read beside plain programs.

ghost use Rattle.std.specs.Prelude.{◌≡◌, ◌≤◌, IsTrue, length};
ghost use Rattle.std.specs.Bool.{OnTrue};
ghost use Rattle.std.specs.List.{list_all};
ghost use Rattle.cache_model.specs.Spelling as spelling;

use ft_base::{Block, Place, Record, is_same, zero_block};
use record_codec::{
    Header, PageKind, Seal, Totals, read_header, read_page_header, read_records, read_seal,
    write_page, write_seal,
};
use std::process::Abort;
use test_plain_format::{plain_header, plain_records, plain_seal, spelled_page, spelled_seal};

// ---- pages are written if they may be

fn is_wide(format: u8, p: u32) -> bool
    ensures { result ≡ spelling.is_wide format p }
{
    format == 2 && p > 64
}

fn is_sound(wide: bool, change: &Record) -> bool
    ensures { result ≡ spelling.is_sound wide change.now }
{
    match *change {
        Record::SetPage { place, .. } => place.page < if wide { 128 } else { 64 },
        Record::SetGroup { present, dirty, .. } => {
            present > 0 && present & dirty == dirty && (wide || present < 1 << 64)
        }
        Record::Remove { .. } | Record::Clean { .. } | Record::RemoveGroup { .. } => true,
    }
}

fn goes_on(kind: PageKind, change: &Record) -> bool
    ensures { result ≡ spelling.goes_on kind change.now }
{
    match kind {
        PageKind::Log => true,
        PageKind::Map => match *change {
            Record::SetPage { .. } | Record::SetGroup { .. } => true,
            Record::Remove { .. } | Record::Clean { .. } | Record::RemoveGroup { .. } => false,
        },
        PageKind::Seal => false,
    }
}

fn may_stand_in(wide: bool, kind: PageKind, change: &Record) -> bool
    ensures { result ≡ spelling.may_stand_in wide kind change.now }
{
    is_sound(wide, change) && goes_on(kind, change)
}

fn may_all_stand_in(wide: bool, kind: PageKind, changes: &[Record]) -> bool
    ensures { result ≡ list_all (spelling.may_stand_in wide kind) changes.now }
{
    changes
        .iter()
        .all(|change| may_stand_in(wide, kind, change))
}

fn is_format(format: u8) -> bool
    ensures { result ≡ spelling.is_format format }
{
    format == 1 || format == 2
}

fn is_log_or_map(kind: PageKind) -> bool
    ensures { result ≡ spelling.is_log_or_map kind }
{
    match kind {
        PageKind::Log | PageKind::Map => true,
        PageKind::Seal => false,
    }
}

/// Whether a page has room for this many records.
fn has_room(wide: bool, count: usize) -> bool
    ensures some { OnTrue result (1 ≤ count) }
    ensures room { OnTrue result (count ≤ spelling.most_records_of wide) }
{
    1 <= count && count <= if wide { 84 } else { 127 }
}

/// Writes a page. False if no such page may be written.
pub(crate) fn write(out: &mut Block, header: &Header, p: u32, changes: &[Record]) -> bool {
    let wide = is_wide(header.format, p);
    if !is_format(header.format) || !is_log_or_map(header.kind) || header.era > 2 {
        return false;
    }
    if header.count as usize != changes.len() || !has_room(wide, changes.len()) {
        return false;
    }
    if !may_all_stand_in(wide, header.kind, changes) {
        return false;
    }
    write_page(out, header, p, changes);
    true
}

// ---- reading

const NOTHING: [Record; 127] = [Record::Remove { lba: 0 }; 127];

/// Whether a page of records is read as the plain program reads it, and whether there is one.
pub(crate) fn reads_alike(page: &Block, p: u32) -> Option<bool> {
    let mut out = NOTHING;
    let mut plain = NOTHING;
    let header = read_header(page);
    if header != plain_header(page) {
        return None;
    }
    let Some(header) = read_page_header(page) else {
        return Some(false);
    };
    let is = read_records(page, &header, p, &mut out);
    if is != plain_records(page, &header, p, &mut plain) {
        return None;
    }
    if is && !has_same_front(&out, &plain, header.count as usize) {
        return None;
    }
    Some(is)
}

/// Whether the first records are the same.
fn has_same_front(one: &[Record; 127], other: &[Record; 127], count: usize) -> bool {
    for i in 0..127 {
        if i < count && one[i] != other[i] {
            return false;
        }
    }
    true
}

/// Whether the records of a page with this header are these.
fn has_records(page: &Block, header: &Header, p: u32, changes: &[Record]) -> bool {
    let mut out = NOTHING;
    if read_page_header(page) != Some(*header) || !read_records(page, header, p, &mut out) {
        return false;
    }
    for (i, change) in changes.iter().enumerate() {
        if i >= 127 || out[i] != *change {
            return false;
        }
    }
    true
}

/// Whether a page is written as the plain program spells it, and read as it was written, by both.
pub(crate) fn is_written(header: &Header, p: u32, changes: &[Record]) -> bool {
    let mut page = Block([1; 4096]);
    write(&mut page, header, p, changes)
        && is_same(&page, &spelled_page(header, p, changes))
        && has_records(&page, header, p, changes)
        && reads_alike(&page, p) == Some(true)
}

// ---- seals

fn is_seal(kind: PageKind) -> bool
    ensures { result ≡ spelling.is_seal kind }
{
    match kind {
        PageKind::Seal => true,
        PageKind::Log | PageKind::Map => false,
    }
}

/// Writes a seal. False if no such seal may be written.
pub(crate) fn seal(out: &mut Block, header: &Header, seal: &Seal, totals: &Totals) -> bool {
    if !is_format(header.format) || !is_seal(header.kind) || header.era > 2 {
        return false;
    }
    write_seal(out, header, seal, totals);
    true
}

/// Whether a seal is written as the plain program spells it, and read as it was written, by both.
pub(crate) fn is_sealed(header: &Header, numbers: &Seal, totals: &Totals) -> bool {
    let mut page = Block([1; 4096]);
    let told = if header.format == 2 {
        Some(*totals)
    } else {
        None
    };
    seal(&mut page, header, numbers, totals)
        && is_same(&page, &spelled_seal(header, numbers, totals))
        && read_seal(&page) == Some((*header, *numbers, told))
        && plain_seal(&page) == Some((*header, *numbers, told))
        && read_page_header(&page).is_none()
}

/// Checks that no difference was found.
pub(crate) fn assert_none(rt: &impl Abort, other: Option<usize>) {
    assert_eq!(rt; other, None);
}
