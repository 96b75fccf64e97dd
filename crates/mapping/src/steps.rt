//! The changes that a record makes to the entries.
ghost use Rattle.std.specs.Prelude.{◌≡◌, ◌<◌, ◌≤◌, ◌+◌, ◌-◌, ◌/◌, ◌^◌};
ghost use Rattle.ft_base.specs.declared.record.Record.TheVariants.{SetPage, SetGroup};
ghost use Rattle.cache_model.specs.Records.{after};
ghost use Rattle.cache_model.specs.Entries.{IsInReach};
ghost use Rattle.mapping.specs.MapValue.{pages_taken, groups_taken};
ghost use Rattle.mapping.specs.MappedPages.{NamesPage};
ghost use Rattle.mapping.specs.Room.{KeepsTables};

use crate::held::Held;
use block_map::BlockAt;
use block_map::page_set::PageSet;
use ft_base::{Place, Record};

/// Applies a record. There is room for the entries that it adds.
pub fn step(held: &mut Held, change: &Record)
    requires reach { IsInReach held.old.geometry change.now }
    requires page { NamesPage held.old.geometry change.now }
    requires pages { pages_taken change.now ≤ held.old.spare_pages }
    requires groups { groups_taken change.now ≤ held.old.spare_blocks }
    ensures tables { KeepsTables held.old held.new }
    ensures entries { held.new.entries ≡ after held.old.geometry change.now held.old.entries }
    ensures pages { held.old.spare_pages ≤ held.new.spare_pages + pages_taken change.now }
    ensures groups { held.old.spare_blocks ≤ held.new.spare_blocks + groups_taken change.now }
{
    match *change {
        Record::SetPage { lba, place, dirty } => set_page(held, lba, place, dirty),
        Record::Remove { lba } => held.remove(lba),
        Record::Clean { lba } => held.clean(lba),
        Record::SetGroup {
            group,
            block,
            present,
            dirty,
        } => set_group(held, group, block, present, dirty),
        Record::RemoveGroup { group } => held.remove_group(group),
    }
}

/// From now on, this mapped page has the block of the address.
fn set_page(held: &mut Held, lba: u64, place: Place, dirty: bool)
    requires page { place.page < held.old.geometry.p }
    requires room { 1 ≤ held.old.spare_pages }
    ensures tables { KeepsTables held.old held.new }
    ensures entries { held.new.entries ≡ after held.old.geometry (SetPage lba place dirty) held.old.entries }
    ensures pages { held.new.spare_pages + 1 ≡ held.old.spare_pages }
    ensures blocks { held.new.spare_blocks ≡ held.old.spare_blocks }
{
    held.remove(lba);
    held.put_page(lba, place, dirty);
}

/// From now on, this data block has the blocks of the group.
fn set_group(held: &mut Held, group: u64, block: u32, present: PageSet, dirty: PageSet)
    requires group { group ≤ (held.old.geometry.size - 1) / held.old.geometry.p }
    requires below { present < 2 ^ held.old.geometry.p }
    requires room { 1 ≤ held.old.spare_blocks }
    ensures tables { KeepsTables held.old held.new }
    ensures entries { held.new.entries ≡ after held.old.geometry (SetGroup group block present dirty) held.old.entries }
    ensures pages { held.new.spare_pages ≡ held.old.spare_pages }
    ensures blocks { held.old.spare_blocks ≤ held.new.spare_blocks + 1 }
{
    held.remove_group(group);
    if present == 0 {
        return;
    }
    // Each dirty page is present.
    held.put_block(group, BlockAt::new(block, present, dirty & present));
}
