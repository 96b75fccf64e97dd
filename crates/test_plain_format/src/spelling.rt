//! Headers, records and seals spelled into a page, field by field, in both formats and both widths.

use crate::bytes::put;
use ft_base::{Block, Record, zero_block};
use record_codec::{Header, PageKind, Seal, Totals};

/// How many bytes a record has, in a page of this format of a cache with `p` pages in an erase block.
pub(crate) fn record_bytes(format: u8, p: u32) -> usize {
    if format == 2 && p > 64 { 48 } else { 32 }
}

/// The byte at which record `i` begins.
pub(crate) fn record_at(bytes: usize, i: usize) -> usize {
    bytes.saturating_mul(i).saturating_add(32)
}

fn kind_byte(kind: PageKind) -> u8 {
    match kind {
        PageKind::Log => 3,
        PageKind::Map => 4,
        PageKind::Seal => 5,
    }
}

fn put_header(page: &mut Block, header: &Header) {
    put(page, 0, b"FTSCPAGE".as_slice());
    let marks = [header.format, kind_byte(header.kind), header.era];
    put(page, 8, marks.as_slice());
    put(page, 12, header.sequence.to_be_bytes().as_slice());
    put(page, 16, header.count.to_be_bytes().as_slice());
}

/// Puts bytes 0 to 15 of a record: its kind, two marks, its block, and its address or group.
fn put_front(page: &mut Block, at: usize, marks: [u8; 3], block: u32, number: u64) {
    put(page, at, marks.as_slice());
    put(page, at.saturating_add(4), block.to_be_bytes().as_slice());
    put(page, at.saturating_add(8), number.to_be_bytes().as_slice());
}

/// Puts a set into sixteen bytes of a record of 48, or into eight of another.
fn put_set(page: &mut Block, at: usize, bytes: usize, pages: u128) {
    let all = pages.to_be_bytes();
    put(page, at, if bytes == 48 { &all[..] } else { &all[8..] });
}

/// Puts the two sets of a record of `bytes` bytes.
fn put_sets(page: &mut Block, at: usize, bytes: usize, present: u128, dirty: u128) {
    let second = if bytes == 48 { 32 } else { 24 };
    put_set(page, at.saturating_add(16), bytes, present);
    put_set(page, at.saturating_add(second), bytes, dirty);
}

fn put_record(page: &mut Block, at: usize, bytes: usize, change: &Record) {
    match *change {
        Record::SetPage { lba, place, dirty } => put_front(
            page,
            at,
            [1, u8::from(dirty), place.page.to_be_bytes()[3]],
            place.block,
            lba,
        ),
        Record::Remove { lba } => put_front(page, at, [2, 0, 0], 0, lba),
        Record::Clean { lba } => put_front(page, at, [3, 0, 0], 0, lba),
        Record::SetGroup {
            group,
            block,
            present,
            dirty,
        } => {
            put_front(page, at, [4, 0, 0], block, group);
            put_sets(page, at, bytes, present, dirty);
        }
        Record::RemoveGroup { group } => put_front(page, at, [5, 0, 0], 0, group),
    }
}

/// The page of a header and its records, of a cache with `p` pages in an erase block.
pub fn spelled_page(header: &Header, p: u32, changes: &[Record]) -> Block {
    let mut page = zero_block();
    put_header(&mut page, header);
    let bytes = record_bytes(header.format, p);
    for (i, change) in changes.iter().enumerate() {
        put_record(&mut page, record_at(bytes, i), bytes, change);
    }
    page
}

/// The seal of a header and its numbers, and of the totals if the header's format is 2.
pub fn spelled_seal(header: &Header, seal: &Seal, totals: &Totals) -> Block {
    let mut page = zero_block();
    put_header(&mut page, header);
    put(&mut page, 32, seal.p.to_be_bytes().as_slice());
    put(&mut page, 36, seal.c.to_be_bytes().as_slice());
    put(&mut page, 40, seal.l.to_be_bytes().as_slice());
    put(&mut page, 44, seal.j.to_be_bytes().as_slice());
    put(&mut page, 48, seal.size.to_be_bytes().as_slice());
    if header.format == 2 {
        put(&mut page, 56, totals.entries.to_be_bytes().as_slice());
        put(&mut page, 64, totals.dirty.to_be_bytes().as_slice());
    }
    page
}
