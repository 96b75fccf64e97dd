//! Headers, records and seals read from a page, field by field, each held against its range.

use crate::bytes::{are_zero, byte, u32_at, u64_at, u128_at};
use crate::spelling::{record_at, record_bytes};
use ft_base::{Block, Place, Record};
use record_codec::{Header, PageKind, Seal, Totals};

// `FTSCPAGE`, as a number.
const NAME: u64 = 0x4654_5343_5041_4745;

fn kind_of(byte: u8) -> Option<PageKind> {
    match byte {
        3 => Some(PageKind::Log),
        4 => Some(PageKind::Map),
        5 => Some(PageKind::Seal),
        _ => None,
    }
}

/// Whether a page of this kind may have `count` records, by a header that doesn't say how wide they are.
fn may_have(kind: PageKind, count: u32) -> bool {
    kind == PageKind::Seal || 1 <= count && count <= 127
}

/// The header of a page of records or of a seal, if the page begins with one.
pub fn plain_header(page: &Block) -> Option<Header> {
    let format = byte(page, 8);
    let era = byte(page, 10);
    if u64_at(page, 0) != NAME || format == 0 || format > 2 || era > 2 {
        return None;
    }
    if !are_zero(page, 11, 12) || !are_zero(page, 20, 32) {
        return None;
    }
    let kind = kind_of(byte(page, 9))?;
    let count = u32_at(page, 16);
    if !may_have(kind, count) {
        return None;
    }
    Some(Header {
        format,
        kind,
        era,
        sequence: u32_at(page, 12),
        count,
    })
}

/// The bytes of a page that are a record: the first byte, and how many bytes.
#[derive(Clone, Copy)]
struct Part {
    at: usize,
    bytes: usize,
}

impl Part {
    fn byte(&self, page: &Block, at: usize) -> u8 {
        byte(page, self.at.saturating_add(at))
    }

    /// The number in eight bytes, from byte `at` of the record on.
    fn number(&self, page: &Block, at: usize) -> u64 {
        u64_at(page, self.at.saturating_add(at))
    }

    /// The set in sixteen bytes or in eight, from byte `at` of the record on.
    fn set(&self, page: &Block, at: usize) -> u128 {
        if self.bytes == 48 {
            u128_at(page, self.at.saturating_add(at))
        } else {
            u128::from(self.number(page, at))
        }
    }

    /// Whether the bytes from `from` on and before `end` are zero.
    fn are_zero(&self, page: &Block, from: usize, end: usize) -> bool {
        are_zero(
            page,
            self.at.saturating_add(from),
            self.at.saturating_add(end),
        )
    }

    /// The bytes 4 to 7.
    fn block(&self, page: &Block) -> u32 {
        u32_at(page, self.at.saturating_add(4))
    }

    /// The address or the group in bytes 8 to 15, if all other bytes but the kind are zero.
    fn lone(&self, page: &Block) -> Option<u64> {
        if self.are_zero(page, 1, 8) && self.are_zero(page, 16, self.bytes) {
            Some(self.number(page, 8))
        } else {
            None
        }
    }

    fn set_page(&self, page: &Block) -> Option<Record> {
        let limit = if self.bytes == 48 { 128 } else { 64 };
        let number = self.byte(page, 2);
        let dirty = self.byte(page, 1);
        if dirty > 1 || number >= limit || !self.are_zero(page, 3, 4) {
            return None;
        }
        if !self.are_zero(page, 16, self.bytes) {
            return None;
        }
        Some(Record::SetPage {
            lba: self.number(page, 8),
            place: Place {
                block: self.block(page),
                page: u32::from(number),
            },
            dirty: dirty == 1,
        })
    }

    fn set_group(&self, page: &Block) -> Option<Record> {
        let present = self.set(page, 16);
        let dirty = self.set(page, if self.bytes == 48 { 32 } else { 24 });
        if present == 0 || dirty & present != dirty || !self.are_zero(page, 1, 4) {
            return None;
        }
        Some(Record::SetGroup {
            group: self.number(page, 8),
            block: self.block(page),
            present,
            dirty,
        })
    }

    /// The record, if there is one.
    fn record(&self, page: &Block) -> Option<Record> {
        match self.byte(page, 0) {
            1 => self.set_page(page),
            2 => self.lone(page).map(|lba| Record::Remove { lba }),
            3 => self.lone(page).map(|lba| Record::Clean { lba }),
            4 => self.set_group(page),
            5 => self.lone(page).map(|group| Record::RemoveGroup { group }),
            _ => None,
        }
    }
}

/// Whether a page of this kind may have a record like this one.
fn goes_on(kind: PageKind, change: &Record) -> bool {
    match *change {
        Record::SetPage { .. } | Record::SetGroup { .. } => kind != PageKind::Seal,
        _ => kind == PageKind::Log,
    }
}

/// Puts the records of a page with this header at the front of `out`, for a cache with `p` pages in an erase block.
/// False if the page has no such records.
pub fn plain_records(page: &Block, header: &Header, p: u32, out: &mut [Record; 127]) -> bool {
    let bytes = record_bytes(header.format, p);
    let count = header.count as usize;
    if count > 127 || bytes == 48 && count > 84 {
        return false;
    }
    for i in 0..count {
        let at = record_at(bytes, i);
        match (Part { at, bytes }).record(page) {
            Some(change) if goes_on(header.kind, &change) => out[i] = change,
            _ => return false,
        }
    }
    are_zero(page, record_at(bytes, count), 4096)
}

/// The numbers of a seal.
fn seal_of(page: &Block) -> Seal {
    Seal {
        p: u32_at(page, 32),
        c: u32_at(page, 36),
        l: u32_at(page, 40),
        j: u32_at(page, 44),
        size: u64_at(page, 48),
    }
}

/// The totals of a seal of format 2.
fn totals_of(page: &Block) -> Totals {
    Totals {
        entries: u64_at(page, 56),
        dirty: u64_at(page, 64),
    }
}

/// The header and the numbers of a seal, with its totals if its format is 2. `None` if the page is no seal.
pub fn plain_seal(page: &Block) -> Option<(Header, Seal, Option<Totals>)> {
    let header = plain_header(page)?;
    if header.kind != PageKind::Seal || !are_zero(page, 72, 4096) {
        return None;
    }
    if header.format == 2 {
        return Some((header, seal_of(page), Some(totals_of(page))));
    }
    if !are_zero(page, 56, 72) {
        return None;
    }
    Some((header, seal_of(page), None))
}
