//! A cache that was opened, held against the map that the plain program loads of the same pages.

ghost use Rattle.std.specs.Prelude.{◌≡◌, ◌<◌, IfOk};

use crate::flash::{PAGES, fits_on};
use crate::stuck::Stuck;
use cache_model::SpareKind;
use ft_base::{Block, Geometry, Page, Place, is_same, zero_block};
use mapping::Map;
use mem_rig::MemRig;
use op_log::OpenError;
use page_oob::write_spare;
use ssc::{Scrub, Ssc};
use std::alloc::Global;
use std::marker::Model;

/// A cache on a rig in memory.
#[derive(Drop)]
pub(crate) struct Opened {
    alloc: Global,
    cache: Ssc,
    rig: MemRig,
    size: u64,
}

impl Model for Opened {
    ghost use Rattle.std.specs.Prelude.{ℕ};
    ghost use Rattle.mem_rig.specs.Rig.{state_of};
    ghost use Rattle.test_open_any.specs.Fits.{FitTogether};

    // how many addresses it has
    ghost Value = { ℕ };

    ghost view = { λ b. b.size };

    ghost invariant = { λ b. FitTogether b.size b.cache (state_of b.rig).contents };
}

impl Opened {
    /// Opens the flash. If it doesn't fit that is told as a fault of the disk, which no opening meets.
    pub(crate) fn open(
        alloc: Global,
        rig: MemRig,
        geometry: &Geometry,
    ) -> Result<Opened, OpenError> {
        let mut rig = rig;
        if !fits_on(&rig, geometry) {
            return Err(OpenError::DiskFault);
        }
        let size = geometry.size();
        match Ssc::open(alloc, &mut rig, geometry) {
            Ok(cache) => Ok(Opened {
                alloc,
                cache,
                rig,
                size,
            }),
            Err(error) => Err(error),
        }
    }

    /// The block of an address, if it is held.
    fn read(&mut self, lba: u64, block: &mut Block) -> Result<bool, Stuck> {
        if lba >= self.size {
            return Ok(false);
        }
        match self.cache.read(&mut self.rig, lba, block) {
            Ok(found) => Ok(found),
            Err(_) => Err(Stuck),
        }
    }

    fn scrub(&mut self) -> Result<Scrub, Stuck> {
        match self.cache.scrub(&mut self.rig) {
            Ok(scrub) => Ok(scrub),
            Err(_) => Err(Stuck),
        }
    }

    /// The dirty addresses.
    fn dirty(&self) -> Result<Vec<u64>, Stuck> {
        let mut listed = Vec::new(self.alloc);
        self.cache.exists(0, self.size, &mut listed)?;
        Ok(listed)
    }
}

// ---- what the plain program says

fn page_at(pages: &[Page], at: Place) -> Option<&Page> {
    let number = u64::from(at.block) * u64::from(PAGES) + u64::from(at.page);
    let Ok(i) = usize::try_from(number) else {
        return None;
    };
    pages.get(i)
}

/// Whether a page is whole, and has this block.
fn is_page(pages: &[Page], at: Place, block: &Block) -> bool {
    match page_at(pages, at) {
        Some(Page::Whole(wanted, _)) => is_same(block, wanted),
        _ => false,
    }
}

fn is_dirty(map: &Map, lba: u64) -> bool {
    match map.place(lba) {
        Some((_, dirty)) => dirty,
        None => false,
    }
}

/// The dirty addresses of a map.
fn dirty_in(alloc: Global, map: &Map, size: u64) -> Result<Vec<u64>, Stuck> {
    let mut dirty = Vec::new(alloc);
    for lba in 0..size {
        if is_dirty(map, lba) && dirty.push(lba).is_err() {
            return Err(Stuck);
        }
    }
    Ok(dirty)
}

/// Whether the page of an address has the spare bytes of a data page of it.
fn is_own(pages: &[Page], at: Place, lba: u64) -> bool {
    match page_at(pages, at) {
        Some(Page::Whole(_, spare)) => spare.0 == write_spare(SpareKind::Page, 0, lba).0,
        _ => false,
    }
}

fn is_lower(one: Place, other: Option<Place>) -> bool {
    match other {
        Some(at) => one.block < at.block || one.block == at.block && one.page < at.page,
        None => true,
    }
}

/// The lowest page of an address that has other spare bytes.
fn strange_in(pages: &[Page], map: &Map, size: u64) -> Option<Place> {
    let mut strange = None;
    for lba in 0..size {
        if let Some((at, _)) = map.place(lba) {
            if !is_own(pages, at, lba) && is_lower(at, strange) {
                strange = Some(at);
            }
        }
    }
    strange
}

// ---- whether it is what is held

/// Whether an address has the block of its page, or is absent if it has none.
fn is_read_as(opened: &mut Opened, pages: &[Page], map: &Map, lba: u64) -> Result<bool, Stuck> {
    let mut block = zero_block();
    let found = opened.read(lba, &mut block)?;
    match map.place(lba) {
        Some((at, _)) => Ok(found && is_page(pages, at, &block)),
        None => Ok(!found),
    }
}

fn are_read_as(opened: &mut Opened, pages: &[Page], map: &Map, size: u64) -> Result<bool, Stuck> {
    for lba in 0..size {
        if !is_read_as(opened, pages, map, lba)? {
            return Ok(false);
        }
    }
    Ok(true)
}

/// Whether the dirty addresses are those of the map.
fn is_listed_as(opened: &Opened, map: &Map) -> Result<bool, Stuck> {
    let listed = opened.dirty()?;
    let wanted = dirty_in(opened.alloc, map, opened.size)?;
    Ok(listed.as_slice() == wanted.as_slice())
}

/// Whether the cache holds what the plain program loads of these pages, and whether a page of it is strange. None if it
/// holds anything else.
pub(crate) fn holds(opened: &mut Opened, pages: &[Page], map: &Map) -> Result<Option<bool>, Stuck> {
    let size = opened.size;
    if opened.cache.held() != map.held() || !is_listed_as(opened, map)? {
        return Ok(None);
    }
    if !are_read_as(opened, pages, map, size)? {
        return Ok(None);
    }
    let scrub = opened.scrub()?;
    let strange = strange_in(pages, map, size);
    if scrub.pages != map.held() || scrub.strange != strange {
        return Ok(None);
    }
    Ok(Some(strange.is_some()))
}
