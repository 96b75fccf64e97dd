//! The sets of pages that a group holds.
ghost use Rattle.std.specs.Prelude.{◌≡◌, ◌<◌, ◌≤◌, ◌+◌, ◌-◌, ◌/◌, ◌^◌, if◌then◌else◌};
ghost use Rattle.cache_model.specs.Entries.{IsMap};
ghost use Rattle.mapping.specs.declared.bits.Choice.TheVariants.{Held as held_choice, Dirty};
ghost use Rattle.mapping.specs.Bits.{chosen_of};

use crate::bits::Choice;
use crate::held::Held;
use block_map::page_set::{PAGES, PageSet};
use ft_base::Geometry;

/// The pages of a group that are held, and those that are dirty.
#[derive(Clone, Copy, Debug, PartialEq, Eq)]
pub struct PageSets {
    /// The bit of value 2^i says whether address i of the group is held.
    pub held: PageSet,
    /// The bit of value 2^i says whether address i of the group is dirty.
    pub dirty: PageSet,
}

/// A set of pages below a page, with this page if it is one of them.
fn with_page(set: PageSet, page: u32, is_in: bool) -> PageSet
    requires page { page < PAGES }
    requires below { set < 2 ^ page }
    ensures set { result ≡ set + (if is_in then 2 ^ page else 0) }
    ensures below { result < 2 ^ (page + 1) }
{
    if !is_in {
        return set;
    }
    let bit: PageSet = 1 << page;
    set + bit
}

/// The set of the chosen pages of a group.
fn chosen(held: &Held, geometry: &Geometry, choice: Choice, group: u64) -> PageSet
    requires geometry { held.now.geometry ≡ geometry.now }
    requires group { group ≤ (geometry.now.size - 1) / geometry.now.p }
    ensures set { result ≡ chosen_of choice geometry.now held.now.entries group }
    ensures below { result < 2 ^ geometry.now.p }
{
    let block = held.block_of(group);
    let mut set = 0;
    for page in 0..geometry.p {
        let entry = held.entry_beside(&block, group, page);
        set = with_page(set, page, choice.is_on(entry));
    }
    set
}

/// The set of the chosen pages of any group. It is empty for a group past the volume's size.
pub fn chosen_any(held: &Held, geometry: &Geometry, choice: Choice, group: u64) -> PageSet
    requires geometry { held.now.geometry ≡ geometry.now }
    requires map { IsMap geometry.now held.now.entries }
    ensures { result ≡ chosen_of choice geometry.now held.now.entries group }
{
    if group > (geometry.size - 1) / geometry.p as u64 {
        return 0;
    }
    chosen(held, geometry, choice, group)
}

/// The held and the dirty pages of a group.
fn both_sets(held: &Held, geometry: &Geometry, group: u64) -> PageSets
    requires geometry { held.now.geometry ≡ geometry.now }
    requires group { group ≤ (geometry.now.size - 1) / geometry.now.p }
    ensures held { result.held ≡ chosen_of held_choice geometry.now held.now.entries group }
    ensures dirty { result.dirty ≡ chosen_of Dirty geometry.now held.now.entries group }
{
    let block = held.block_of(group);
    let mut held_set = 0;
    let mut dirty_set = 0;
    for page in 0..geometry.p {
        let entry = held.entry_beside(&block, group, page);
        held_set = with_page(held_set, page, Choice::Held.is_on(entry));
        dirty_set = with_page(dirty_set, page, Choice::Dirty.is_on(entry));
    }
    PageSets {
        held: held_set,
        dirty: dirty_set,
    }
}

/// The held and the dirty pages of any group. They are none for a group past the volume's size.
pub fn page_sets(held: &Held, geometry: &Geometry, group: u64) -> PageSets
    requires geometry { held.now.geometry ≡ geometry.now }
    requires map { IsMap geometry.now held.now.entries }
    ensures held { result.held ≡ chosen_of held_choice geometry.now held.now.entries group }
    ensures dirty { result.dirty ≡ chosen_of Dirty geometry.now held.now.entries group }
{
    if group > (geometry.size - 1) / geometry.p as u64 {
        return PageSets { held: 0, dirty: 0 };
    }
    both_sets(held, geometry, group)
}
