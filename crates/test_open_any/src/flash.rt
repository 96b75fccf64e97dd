//! Pages in a list, and on the flash of a rig.

ghost use Rattle.std.specs.Bool.{OnTrue};
ghost use Rattle.mem_rig.specs.Rig.{state_of};
ghost use Rattle.op_log.specs.Log.{FitsOn};

use crate::stuck::Stuck;
use ft_base::{Geometry, Outcome, Page, Place, Spare, zero_block};
use ft_media::PageRead;
use mem_rig::MemRig;
use std::alloc::{AllocError, Global};

/// The pages of an erase block.
pub(crate) const PAGES: u32 = 4;

/// Whether the rig has the pages of the geometry, and enough of the rest.
pub(crate) fn fits_on(rig: &MemRig, geometry: &Geometry) -> bool
    ensures { OnTrue result (FitsOn geometry.now (state_of rig.now).contents.shape) }
{
    if rig.flash_pages() != geometry.p() || rig.flash_blocks() < geometry.blocks() {
        return false;
    }
    rig.disk_blocks() >= geometry.size()
}

// ---- from a rig

fn page_of(rig: &mut MemRig, at: Place) -> Result<Page, Stuck> {
    if at.block >= rig.flash_blocks() || at.page >= rig.flash_pages() {
        return Err(Stuck);
    }
    let mut block = zero_block();
    let mut spare = Spare([0; 32]);
    match rig.read_flash(at, &mut block, &mut spare) {
        Ok(PageRead::Blank) => Ok(Page::Blank),
        Ok(PageRead::Whole) => Ok(Page::Whole(block, spare)),
        Ok(PageRead::Torn) => Ok(Page::Torn),
        Err(_) => Err(Stuck),
    }
}

/// Puts the pages of an erase block behind a list.
fn put_block(rig: &mut MemRig, block: u32, pages: &mut Vec<Page>) -> Result<(), Stuck> {
    for page in 0..PAGES {
        let found = page_of(rig, Place { block, page })?;
        if pages.push(found).is_err() {
            return Err(Stuck);
        }
    }
    Ok(())
}

/// Puts all pages of the flash behind a list, those of each erase block in turn.
pub(crate) fn put_pages(rig: &mut MemRig, pages: &mut Vec<Page>) -> Result<(), Stuck> {
    for block in 0..rig.flash_blocks() {
        put_block(rig, block, pages)?;
    }
    Ok(())
}

// ---- to a rig

/// The numbers of the programs that fail so that the torn pages are torn. Nothing is programmed behind a blank page or
/// a torn one of an erase block.
fn torn_programs(alloc: Global, pages: &[Page]) -> Result<Vec<u64>, AllocError> {
    let mut numbers = Vec::new(alloc);
    let mut programs: u64 = 0;
    let mut is_open = true;
    for (i, page) in pages.iter().enumerate() {
        is_open = is_open || i % 4 == 0;
        if is_open && !matches!(page, Page::Blank) {
            programs = programs.saturating_add(1);
        }
        if is_open && matches!(page, Page::Torn) {
            numbers.push(programs)?;
        }
        is_open = is_open && matches!(page, Page::Whole(_, _));
    }
    Ok(numbers)
}

/// Programs a page if it is the next one of its erase block. A blank one isn't programmed.
fn program(rig: &mut MemRig, at: Place, page: &Page) {
    if at.block >= rig.flash_blocks() || at.page >= rig.flash_pages() {
        return;
    }
    if rig.next_page(at.block) != Some(at.page) {
        return;
    }
    match page {
        Page::Blank => {}
        Page::Whole(block, spare) => {
            rig.program_page(at, block, spare);
        }
        Page::Torn => {
            rig.program_page(at, &zero_block(), &Spare([0; 32]));
        }
    }
}

/// A rig whose flash has these pages. An erase block ends with its first torn page, or before its first blank one.
pub(crate) fn rig_with(
    alloc: Global,
    geometry: &Geometry,
    pages: &[Page],
) -> Result<MemRig, Stuck> {
    let failing = torn_programs(alloc, pages)?;
    let mut rig = MemRig::failing(alloc, failing, Vec::new(alloc));
    rig.fit_anew(alloc, geometry.blocks(), PAGES, geometry.size())?;
    for (i, page) in pages.iter().enumerate() {
        let Ok(number) = u32::try_from(i) else {
            return Err(Stuck);
        };
        let at = Place {
            block: number / PAGES,
            page: number % PAGES,
        };
        program(&mut rig, at, page);
    }
    Ok(rig)
}

/// Cuts power in an erase of a block: of its pages some stay, one is blank then, and one torn.
pub(crate) fn half_erase(rig: &mut MemRig, block: u32) {
    if rig.stops() >= 16 {
        return;
    }
    rig.arm_stop(1, Outcome::Mixed);
    if block < rig.flash_blocks() {
        rig.erase_block(block);
    }
    rig.turn_on();
}
