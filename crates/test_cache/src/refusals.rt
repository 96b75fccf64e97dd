//! Flash that can't be opened.

use crate::bench::{SIZE, fit, format, geometry, refusal};
use cache_model::{Seal, SpareKind};
use ft_base::{Block, Geometry, Place, Record, Spare, pattern, zero_block};
use mem_rig::MemRig;
use op_log::OpenError;
use page_oob::write_spare;
use record_codec::{Header, PageKind, Totals, write_page};
use std::alloc::Global;
use test_plain_format::{spelled_page, spelled_seal};

/// The same geometry with one more data block.
fn wider() -> Geometry {
    Geometry {
        p: 4,
        c: 3,
        l: 2,
        j: 1,
        size: SIZE,
    }
}

/// A line of an example. The caches have two data blocks, or three.
#[derive(Clone, Copy)]
enum Line {
    /// The flash is formatted for an empty cache of two.
    Format,
    /// The flash opens for two.
    Opens,
    /// The flash fails to open for two, with this error.
    Refused(OpenError),
    /// The flash fails to open for three, with this error.
    WiderRefused(OpenError),
    /// A log page is programmed, as the first page of a block.
    Program(u32),
    /// The flash gets a checkpoint of format 2 and era 0, which says that there are this many entries, and this many
    /// dirty ones. It has one entry, which is dirty.
    Checkpoint(u64, u64),
}

/// A log page that puts an address above the pool of a cache of two data blocks.
fn page_above_the_pool() -> Block {
    let mut page = zero_block();
    let header = Header {
        format: 2,
        kind: PageKind::Log,
        era: 1,
        sequence: 0,
        count: 1,
    };
    let change = Record::SetPage {
        lba: 5,
        place: Place { block: 9, page: 0 },
        dirty: true,
    };
    write_page(&mut page, &header, 4, [change].as_slice());
    page
}

/// The map page of a checkpoint with address 5 in the first block of the pool.
fn map_page() -> Block {
    let header = Header {
        format: 2,
        kind: PageKind::Map,
        era: 0,
        sequence: 0,
        count: 1,
    };
    let change = Record::SetPage {
        lba: 5,
        place: Place { block: 4, page: 0 },
        dirty: true,
    };
    spelled_page(&header, 4, [change].as_slice())
}

/// The seal of that checkpoint, which gives these numbers of entries.
fn seal_page(entries: u64, dirty: u64) -> Block {
    let header = Header {
        format: 2,
        kind: PageKind::Seal,
        era: 0,
        sequence: 1,
        count: 1,
    };
    let numbers = Seal {
        p: 4,
        c: 2,
        l: 2,
        j: 1,
        size: SIZE,
    };
    spelled_seal(&header, &numbers, &Totals { entries, dirty })
}

/// Programs the next page of a block. False if the block isn't ready.
fn program_next(rig: &mut MemRig, block: u32, bytes: &Block) -> bool {
    if block >= rig.flash_blocks() {
        return false;
    }
    let Some(page) = rig.next_page(block) else {
        return false;
    };
    if page >= rig.flash_pages() {
        return false;
    }
    rig.program_page(Place { block, page }, bytes, &Spare([0; 32]));
    true
}

/// Makes the flash anew, with this checkpoint.
fn put_checkpoint(alloc: Global, rig: &mut MemRig, entries: u64, dirty: u64) -> bool {
    let mut block = zero_block();
    pattern(5, 1, &mut block);
    fit(alloc, rig, &geometry())
        && program_next(rig, 4, &block)
        && program_next(rig, 0, &map_page())
        && program_next(rig, 0, &seal_page(entries, dirty))
}

/// Programs the first page of a block. False if the block isn't ready.
fn program_first(rig: &mut MemRig, block: u32) -> bool {
    if block >= rig.flash_blocks() || rig.flash_pages() == 0 || rig.next_page(block) != Some(0) {
        return false;
    }
    let spare = write_spare(SpareKind::Log, 1, 0);
    rig.program_page(Place { block, page: 0 }, &page_above_the_pool(), &spare);
    true
}

/// Whether a line holds.
fn is_so(alloc: Global, rig: &mut MemRig, line: &Line) -> bool {
    match line {
        Line::Format => format(rig, &geometry()),
        Line::Opens => refusal(alloc, rig, &geometry()).is_none(),
        Line::Refused(error) => refusal(alloc, rig, &geometry()) == Some(*error),
        Line::WiderRefused(error) => refusal(alloc, rig, &wider()) == Some(*error),
        Line::Program(block) => program_first(rig, *block),
        Line::Checkpoint(entries, dirty) => put_checkpoint(alloc, rig, *entries, *dirty),
    }
}

/// The first line that doesn't hold, on a rig of this size. If the rig can't be made, it is the number of lines.
fn first_wrong_on(
    alloc: Global,
    rig: &mut MemRig,
    size: &Geometry,
    lines: &[Line],
) -> Option<usize> {
    if !fit(alloc, rig, size) {
        return Some(lines.len());
    }
    for i in 0..lines.len() {
        if !is_so(alloc, rig, &lines[i]) {
            return Some(i);
        }
    }
    None
}

fn first_wrong(alloc: Global, size: &Geometry, lines: &[Line]) -> Option<usize> {
    let mut rig = MemRig::new(alloc);
    first_wrong_on(alloc, &mut rig, size, lines)
}

const NOT_FORMATTED: [Line; 1] = [Line::Refused(OpenError::NotFormatted)];

#[test]
fn flash_that_was_not_formatted_is_refused(rt: HostRuntime) {
    assert_eq!(rt; first_wrong(rt.alloc(), &geometry(), &NOT_FORMATTED), None);
}

const OF_ANOTHER: [Line; 3] = [
    Line::Format,
    Line::WiderRefused(OpenError::OtherGeometry {
        found: Seal {
            p: 4,
            c: 2,
            l: 2,
            j: 1,
            size: SIZE,
        },
        wanted: Seal {
            p: 4,
            c: 3,
            l: 2,
            j: 1,
            size: SIZE,
        },
    }),
    Line::Opens,
];

#[test]
fn flash_of_another_cache_is_refused(rt: HostRuntime) {
    assert_eq!(rt; first_wrong(rt.alloc(), &wider(), &OF_ANOTHER), None);
}

const DAMAGED: [Line; 4] = [
    Line::Format,
    Line::Opens,
    // The log that was opened has era 1, and is at block 3.
    Line::Program(3),
    Line::Refused(OpenError::Damaged { block: 3, page: 0 }),
];

#[test]
fn a_damaged_log_is_refused(rt: HostRuntime) {
    assert_eq!(rt; first_wrong(rt.alloc(), &geometry(), &DAMAGED), None);
}

const TOTALS: [Line; 6] = [
    Line::Checkpoint(2, 1),
    Line::Refused(OpenError::Damaged { block: 0, page: 1 }),
    Line::Checkpoint(1, 0),
    Line::Refused(OpenError::Damaged { block: 0, page: 1 }),
    Line::Checkpoint(1, 1),
    Line::Opens,
];

#[test]
fn a_seal_that_counts_otherwise_is_refused(rt: HostRuntime) {
    assert_eq!(rt; first_wrong(rt.alloc(), &geometry(), &TOTALS), None);
}
