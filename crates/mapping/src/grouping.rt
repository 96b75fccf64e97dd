//! Whether a data block of a group fits.
ghost use Rattle.std.specs.Prelude.{◌≡◌, ◌<◌, ◌≤◌, ◌-◌, ◌/◌, ◌^◌, ◌↔◌, IsTrue};
ghost use Rattle.ft_base.specs.declared.record.Record.TheVariants.{SetGroup};
ghost use Rattle.cache_model.specs.Entries.{Fits};
ghost use Rattle.mapping.specs.Fitting.{HasPageBelow, EndsBelowSize, BlockMayCome};
ghost use Rattle.mapping.specs.Index.{IsIndexed};
ghost use Rattle.mapping.specs.MarkedGroups.{AreMarkedGroups};

use crate::fitting::{NewPage, fits_page};
use crate::held::Held;
use crate::index::Index;
use crate::marks::{Mark, MarkedGroups};
use crate::seeking::{Sought, found_in};
use block_map::page_set::{PAGES, PageSet};
use ft_base::{Geometry, Record};

/// Whether a set has one of the pages of an erase block.
fn has_page(geometry: &Geometry, set: PageSet) -> bool
    ensures { IsTrue result ↔ HasPageBelow set geometry.now.p }
{
    for page in 0..geometry.p {
        if (set >> page) & 1 == 1 {
            return true;
        }
    }
    false
}

/// Whether a set has only pages of an erase block.
fn is_set_below(geometry: &Geometry, set: PageSet) -> bool
    ensures { IsTrue result ↔ (set < 2 ^ geometry.now.p) }
{
    if geometry.p == PAGES {
        return true;
    }
    set >> geometry.p == 0
}

/// Whether the present pages of a group are below the volume's size.
fn ends_below_size(geometry: &Geometry, group: u64, present: PageSet) -> bool
    requires { group ≤ (geometry.now.size - 1) / geometry.now.p }
    ensures { IsTrue result ↔ EndsBelowSize geometry.now group present }
{
    for page in 0..geometry.p {
        if (present >> page) & 1 == 1 {
            if group * geometry.p as u64 + page as u64 >= geometry.size {
                return false;
            }
        }
    }
    true
}

/// Whether an erase block may hold the present pages of a group.
fn may_come(
    held: &Held,
    index: &Index,
    geometry: &Geometry,
    group: u64,
    block: u32,
    present: PageSet,
) -> bool
    requires group { group ≤ (geometry.now.size - 1) / geometry.now.p }
    requires indexed { IsIndexed geometry.now held.now.entries index.now }
    ensures { IsTrue result ↔ BlockMayCome geometry.now group block present held.now.entries }
{
    if !has_page(geometry, present) {
        return true;
    }
    if block < geometry.first_pool() {
        return false;
    }
    if block >= geometry.blocks() {
        return false;
    }
    if found_in(held, index, geometry, Sought::Outside { group }, block).is_some() {
        return false;
    }
    ends_below_size(geometry, group, present)
}

/// A data block that a group is to have.
#[derive(Clone, Copy, Debug, PartialEq, Eq)]
pub struct NewBlock {
    /// The erase block.
    pub block: u32,
    /// The pages that are present.
    pub present: PageSet,
    /// The pages that are dirty if they are present.
    pub dirty: PageSet,
}

/// Whether an erase block may become the data block of a group.
pub fn fits_group(
    held: &Held,
    index: &Index,
    marked: &MarkedGroups,
    geometry: &Geometry,
    group: u64,
    new: NewBlock,
) -> bool
    requires geometry { held.now.geometry ≡ geometry.now }
    requires indexed { IsIndexed geometry.now held.now.entries index.now }
    requires marked { AreMarkedGroups geometry.now held.now.entries marked.now }
    ensures { IsTrue result ↔ Fits geometry.now (SetGroup group new.block new.present new.dirty) held.now.entries }
{
    if group > (geometry.size - 1) / geometry.p as u64 {
        return false;
    }
    if !is_set_below(geometry, new.present) {
        return false;
    }
    if !is_set_below(geometry, new.dirty) {
        return false;
    }
    if !may_come(held, index, geometry, group, new.block, new.present) {
        return false;
    }
    let has_block = has_page(geometry, new.present);
    if !marked.may_have(held, geometry, Mark::BlockMapped, group, has_block) {
        return false;
    }
    let is_dirty = has_page(geometry, new.present & new.dirty);
    marked.may_have(held, geometry, Mark::Dirty, group, is_dirty)
}

/// Whether a change may be applied next.
pub fn fits(
    held: &Held,
    index: &Index,
    marked: &MarkedGroups,
    geometry: &Geometry,
    change: &Record,
) -> bool
    requires geometry { held.now.geometry ≡ geometry.now }
    requires indexed { IsIndexed geometry.now held.now.entries index.now }
    requires marked { AreMarkedGroups geometry.now held.now.entries marked.now }
    ensures { IsTrue result ↔ Fits geometry.now change.now held.now.entries }
{
    match *change {
        Record::SetPage { lba, place, dirty } => {
            let page = NewPage { at: place, dirty };
            fits_page(held, index, marked, geometry, lba, page)
        }
        Record::Remove { lba } => lba < geometry.size,
        Record::Clean { lba } => lba < geometry.size,
        Record::SetGroup {
            group,
            block,
            present,
            dirty,
        } => {
            let new = NewBlock {
                block,
                present,
                dirty,
            };
            fits_group(held, index, marked, geometry, group, new)
        }
        Record::RemoveGroup { group } => group <= (geometry.size - 1) / geometry.p as u64,
    }
}
