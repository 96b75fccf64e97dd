//! Which changes of a page the entries of a cache may take.
ghost use Rattle.std.specs.Prelude.{◌≡◌, ◌≤◌, ◌<◌, ◌↔◌, Bool, length, IsTrue};
ghost use Rattle.std.specs.FinMap.{get, remove};
ghost use Rattle.ft_base.specs.declared.record.Record.TheVariants.{SetPage};
ghost use Rattle.ft_base.specs.Layout.{first_pool, blocks};
ghost use Rattle.cache_model.specs.Records.{after};
ghost use Rattle.cache_model.specs.Entries.{in_pool, page_mapped, blocks_with, InPool, Fits};
ghost use Rattle.mapping.specs.Index.{IsIndexed, tally, is_mapped_in};
ghost use Rattle.mapping.specs.MarkedGroups.{AreMarkedGroups};
ghost use Rattle.mapping.specs.Seeking.{log_block};

use crate::held::Held;
use crate::index::Index;
use crate::marks::{Mark, MarkedGroups};
use crate::seeking::{Sought, found_in, is_taken};
use ft_base::{Geometry, Place};

/// Whether a place is one of the pool.
pub fn is_in_pool(geometry: &Geometry, at: Place) -> bool
    ensures { result ≡ in_pool geometry.now at }
{
    geometry.first_pool() <= at.block && at.block < geometry.blocks() && at.page < geometry.p
}

/// The log block in which the entry of an address stands.
fn own_log_block(held: &Held, lba: u64) -> Option<u32>
    ensures { result ≡ log_block (get held.now.entries lba) }
{
    match held.entry(lba) {
        Some(entry) if !entry.block_mapped => Some(entry.place.block),
        _ => None,
    }
}

/// How many mapped pages an erase block has beside the page of the address.
fn count_beside(held: &Held, index: &Index, geometry: &Geometry, lba: u64, block: u32) -> u32
    requires above { first_pool geometry.now ≤ block }
    requires below { block < blocks geometry.now }
    requires indexed { IsIndexed geometry.now held.now.entries index.now }
    ensures { result ≡ tally (is_mapped_in block) (remove held.now.entries lba) }
{
    let count = index.logs.pages[(block - geometry.first_pool()) as usize];
    match own_log_block(held, lba) {
        Some(own) if own == block => count - 1,
        _ => count,
    }
}

/// How many blocks have mapped pages beside the page of the address.
fn count_used_beside(held: &Held, index: &Index, geometry: &Geometry, lba: u64) -> u32
    requires indexed { IsIndexed geometry.now held.now.entries index.now }
    ensures { result ≡ length (blocks_with page_mapped (remove held.now.entries lba)) }
{
    let Some(own) = own_log_block(held, lba) else {
        return index.logs.used;
    };
    if count_beside(held, index, geometry, lba, own) == 0 {
        return index.logs.used - 1;
    }
    index.logs.used
}

/// How many log blocks there would be if the block of the address stood at this place of the pool.
fn count_log_blocks(held: &Held, index: &Index, geometry: &Geometry, lba: u64, at: Place) -> u32
    requires pool { InPool geometry.now at }
    requires indexed { IsIndexed geometry.now held.now.entries index.now }
    ensures { (dirty : Bool) → result ≡ length (blocks_with page_mapped (after geometry.now (SetPage lba at dirty) held.now.entries)) }
{
    let used = count_used_beside(held, index, geometry, lba);
    if count_beside(held, index, geometry, lba, at.block) == 0 {
        return used + 1;
    }
    used
}

/// A page of a log block that is to have the block of an address.
#[derive(Clone, Copy, Debug, PartialEq, Eq)]
pub struct NewPage {
    /// Where the page is.
    pub at: Place,
    /// Whether the disk lacks the block.
    pub dirty: bool,
}

/// Whether a page of a log block may have the block of an address.
pub fn fits_page(
    held: &Held,
    index: &Index,
    marked: &MarkedGroups,
    geometry: &Geometry,
    lba: u64,
    page: NewPage,
) -> bool
    requires geometry { held.now.geometry ≡ geometry.now }
    requires indexed { IsIndexed geometry.now held.now.entries index.now }
    requires marked { AreMarkedGroups geometry.now held.now.entries marked.now }
    ensures { IsTrue result ↔ Fits geometry.now (SetPage lba page.at page.dirty) held.now.entries }
{
    if lba >= geometry.size {
        return false;
    }
    let at = page.at;
    if !is_in_pool(geometry, at) {
        return false;
    }
    if is_taken(held, index, geometry, lba, at) {
        return false;
    }
    if found_in(
        held,
        index,
        geometry,
        Sought::MappedBeside { lba },
        at.block,
    )
    .is_some()
    {
        return false;
    }
    if count_log_blocks(held, index, geometry, lba, at) > geometry.l {
        return false;
    }
    let group = lba / geometry.p as u64;
    marked.may_have(held, geometry, Mark::Dirty, group, page.dirty)
}
