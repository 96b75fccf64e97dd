//! Flash that somebody else wrote: which checkpoint is taken over, what is refused, and what a scrub finds strange.

use crate::bench::{SIZE, first_header, fit, geometry, opened};
use cache_model::{Seal, SpareKind};
use ft_base::{Block, Place, Record, Spare, pattern, zero_block};
use mem_rig::MemRig;
use op_log::OpenError;
use page_oob::write_spare;
use record_codec::{Header, PageKind, Totals};
use ssc::Scrub;
use std::alloc::Global;
use test_plain_format::{spelled_page, spelled_seal};

/// A line of an example. The cache has erase blocks of 4 pages, two data blocks and two log blocks. Its pool begins
/// with erase block 4.
#[derive(Clone, Copy)]
enum Line {
    /// The flash is blank.
    Blank,
    /// The next page of this erase block is a seal of this era, over so many map pages with so many records.
    Seal(u32, u8, u32, u32),
    /// The next page of erase block 0 is a map page of era 0, with address 5 in the first page of the pool.
    Map,
    /// The next page of erase block 2 is a log page of era 0 with this sequence. It puts each of these addresses,
    /// dirty, into the first page of the pool.
    Log(u32, &'static [u64]),
    /// The next page of erase block 4 has the block of address 5, with the spare bytes of this address.
    Data(u64),
    /// The flash can't be opened.
    Refused(OpenError),
    /// It is opened, holds so many addresses, and a scrub finds this.
    Opens(u64, Scrub),
    /// The first page of this erase block has a header of format 2 and this era.
    Heads(u32, u8),
}

// ---- pages

/// Programs the next page of an erase block. False if it isn't ready, or full.
fn put(rig: &mut MemRig, block: u32, bytes: &Block, spare: &Spare) -> bool {
    if block >= rig.flash_blocks() {
        return false;
    }
    let Some(page) = rig.next_page(block) else {
        return false;
    };
    if page >= rig.flash_pages() {
        return false;
    }
    rig.program_page(Place { block, page }, bytes, spare);
    true
}

fn header(kind: PageKind, era: u8, sequence: u32, count: u32) -> Header {
    Header {
        format: 2,
        kind,
        era,
        sequence,
        count,
    }
}

/// A seal that says that there are as many entries as records, all of them dirty.
fn seal_page(era: u8, pages: u32, records: u32) -> Block {
    let numbers = Seal {
        p: 4,
        c: 2,
        l: 2,
        j: 1,
        size: SIZE,
    };
    let totals = Totals {
        entries: u64::from(records),
        dirty: u64::from(records),
    };
    spelled_seal(
        &header(PageKind::Seal, era, pages, records),
        &numbers,
        &totals,
    )
}

/// The address stands in the first page of the pool, dirty.
fn first_page_of(lba: u64) -> Record {
    Record::SetPage {
        lba,
        place: Place { block: 4, page: 0 },
        dirty: true,
    }
}

fn map_page() -> Block {
    let changes = [first_page_of(5)];
    spelled_page(&header(PageKind::Map, 0, 0, 1), 4, changes.as_slice())
}

/// A log page for one address or for two.
fn log_page(sequence: u32, addresses: &[u64]) -> Block {
    match addresses {
        [one] => {
            let changes = [first_page_of(*one)];
            spelled_page(
                &header(PageKind::Log, 0, sequence, 1),
                4,
                changes.as_slice(),
            )
        }
        [one, two] => {
            let changes = [first_page_of(*one), first_page_of(*two)];
            spelled_page(
                &header(PageKind::Log, 0, sequence, 2),
                4,
                changes.as_slice(),
            )
        }
        _ => zero_block(),
    }
}

/// The block of address 5.
fn data() -> Block {
    let mut block = zero_block();
    pattern(5, 1, &mut block);
    block
}

// ---- openings

/// How many addresses are held once the flash is opened, and what a scrub finds. None if the flash can't be opened or
/// read.
fn found(alloc: Global, rig: &mut MemRig) -> Option<(u64, Scrub)> {
    match opened(alloc, rig, &geometry()) {
        Ok(cache) => {
            let mut cache = cache;
            let held = cache.held();
            match cache.scrub(rig) {
                Ok(scrub) => Some((held, scrub)),
                Err(_) => None,
            }
        }
        Err(_) => None,
    }
}

/// Why the flash can't be opened.
fn refusal(alloc: Global, rig: &mut MemRig) -> Option<OpenError> {
    opened(alloc, rig, &geometry()).err()
}

fn heads(rig: &mut MemRig, block: u32, era: u8) -> bool {
    match first_header(rig, block) {
        Some(header) => header.format == 2 && header.era == era,
        None => false,
    }
}

/// Does what the line says. Whether that can be done, and what it tells is so.
fn is_so(alloc: Global, rig: &mut MemRig, line: &Line) -> bool {
    let blank = Spare([0; 32]);
    match *line {
        Line::Blank => fit(alloc, rig, &geometry()),
        Line::Seal(block, era, pages, records) => {
            put(rig, block, &seal_page(era, pages, records), &blank)
        }
        Line::Map => put(rig, 0, &map_page(), &blank),
        Line::Log(sequence, addresses) => put(rig, 2, &log_page(sequence, addresses), &blank),
        Line::Data(lba) => put(rig, 4, &data(), &write_spare(SpareKind::Page, 0, lba)),
        Line::Refused(error) => refusal(alloc, rig) == Some(error),
        Line::Opens(held, scrub) => found(alloc, rig) == Some((held, scrub)),
        Line::Heads(block, era) => heads(rig, block, era),
    }
}

/// The first line that isn't so.
fn first_wrong(alloc: Global, lines: &[Line]) -> Option<usize> {
    let mut rig = MemRig::new(alloc);
    for i in 0..lines.len() {
        if !is_so(alloc, &mut rig, &lines[i]) {
            return Some(i);
        }
    }
    None
}

const NOTHING_READ: Scrub = Scrub {
    pages: 0,
    strange: None,
};

const ERAS: [Line; 10] = [
    // Two checkpoints of one era: the first counts, and the next one is made in the other region.
    Line::Blank,
    Line::Seal(0, 2, 0, 0),
    Line::Seal(1, 2, 0, 0),
    Line::Opens(0, NOTHING_READ),
    Line::Heads(1, 0),
    // Era 0 comes after era 2.
    Line::Blank,
    Line::Seal(0, 0, 0, 0),
    Line::Seal(1, 2, 0, 0),
    Line::Opens(0, NOTHING_READ),
    Line::Heads(1, 1),
];

#[test]
fn the_checkpoint_that_counts_is_taken_over(rt: HostRuntime) {
    assert_eq!(rt; first_wrong(rt.alloc(), &ERAS), None);
}

const REFUSED: [Line; 12] = [
    // A seal over a record too many.
    Line::Blank,
    Line::Map,
    Line::Seal(0, 0, 1, 2),
    Line::Refused(OpenError::NotFormatted),
    // The same if the other region is complete.
    Line::Seal(1, 1, 0, 0),
    Line::Opens(0, NOTHING_READ),
    Line::Heads(0, 2),
    // Two addresses in one page.
    Line::Blank,
    Line::Seal(0, 0, 0, 0),
    Line::Log(0, &[5, 6]),
    Line::Refused(OpenError::Damaged { block: 2, page: 0 }),
    // It is refused again: nothing was written.
    Line::Refused(OpenError::Damaged { block: 2, page: 0 }),
];

#[test]
fn what_is_no_cache_is_refused(rt: HostRuntime) {
    assert_eq!(rt; first_wrong(rt.alloc(), &REFUSED), None);
}

const LOGGED: [Line; 5] = [
    // A log page at another place than its own.
    Line::Blank,
    Line::Seal(0, 0, 0, 0),
    Line::Log(1, &[5]),
    Line::Opens(0, NOTHING_READ),
    Line::Heads(1, 1),
];

#[test]
fn a_log_page_at_another_place_ends_the_log(rt: HostRuntime) {
    assert_eq!(rt; first_wrong(rt.alloc(), &LOGGED), None);
}

const SPARE: [Line; 10] = [
    // The page of address 5 was written for address 6.
    Line::Blank,
    Line::Seal(0, 0, 0, 0),
    Line::Log(0, &[5]),
    Line::Data(6),
    Line::Opens(
        1,
        Scrub {
            pages: 1,
            strange: Some(Place { block: 4, page: 0 }),
        },
    ),
    // And for address 5.
    Line::Blank,
    Line::Seal(0, 0, 0, 0),
    Line::Log(0, &[5]),
    Line::Data(5),
    Line::Opens(
        1,
        Scrub {
            pages: 1,
            strange: None,
        },
    ),
];

#[test]
fn a_page_that_was_written_for_another_address_is_strange(rt: HostRuntime) {
    assert_eq!(rt; first_wrong(rt.alloc(), &SPARE), None);
}
