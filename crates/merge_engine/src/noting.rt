//! Changes of the map: each is buffered, made in the map, and followed by the roles of the pool.
ghost use Rattle.std.specs.Prelude.{◌≡◌, ◌<◌, ◌/◌, length, IsTrue};
ghost use Rattle.std.specs.FinMap.{insert};
ghost use Rattle.ft_base.specs.declared.record.Record.TheVariants.{SetPage, Remove, Clean};
ghost use Rattle.ft_base.specs.declared.block.Block.{Block};
ghost use Rattle.ft_base.specs.Contents.{Contents};
ghost use Rattle.ft_base.specs.Layout.{page_records};
ghost use Rattle.cache_model.specs.Cache.{evicted, written_block, made_clean};
ghost use Rattle.cache_model.specs.CacheList.{CacheList};
ghost use Rattle.cache_model.specs.Entries.{Fits, IsMap};
ghost use Rattle.cache_model.specs.Records.{after};
ghost use Rattle.cache_model.specs.Spelling.{is_wide, may_stand_in};
ghost use Rattle.cache_model.specs.declared.format.PageKind.TheVariants.{Log as log_page};
ghost use Rattle.mapping.specs.MapValue.{pages_taken, groups_taken};
ghost use Rattle.op_log.specs.Log.{pushed};
ghost use Rattle.merge_engine.specs.Agreement.{PartsAgree, Lists, RolesAgree, AreOfOne};
ghost use Rattle.merge_engine.specs.Steps.{FollowsGroup, IsNewPage};
ghost use Rattle.merge_engine.specs.Kept.{CanNote, IsNoted, OnlyMapLogPoolChange};

use crate::Parts;
use block_pool::Role;
use ft_base::{Place, Record};

/// Puts an address at a page of a log block. A data block that this leaves empty becomes free.
pub fn put_page(cache: &mut Parts, lba: u64, place: Place, dirty: bool)
    requires of_one { AreOfOne cache.old }
    requires is_map { IsMap cache.old.geometry cache.old.map.entries }
    requires roles { RolesAgree cache.old }
    requires fits { Fits cache.old.geometry (SetPage lba place dirty) cache.old.map.entries }
    requires room { CanNote cache.old 1 0 }
    ensures cache { OnlyMapLogPoolChange cache.old cache.new }
    ensures map { IsNoted cache.old.geometry (SetPage lba place dirty) cache.old.map cache.new.map }
    ensures log { cache.new.log ≡ pushed (SetPage lba place dirty) cache.old.log }
    ensures agree { (contents : Contents) (block : Block) → PartsAgree cache.old contents
        → IsNewPage cache.old contents.flash.page place lba block → PartsAgree cache.new contents }
    ensures lists { (contents : Contents) (block : Block) (list durable : CacheList)
        → IsNewPage cache.old contents.flash.page place lba block
        → Lists cache.old contents.flash.page list durable
        → Lists cache.new contents.flash.page (insert list lba (written_block lba block dirty)) durable }
{
    let change = Record::SetPage { lba, place, dirty };
    note(cache, &change, lba / cache.geometry.p as u64);
}

/// Takes an address out. A data block that this leaves empty becomes free.
pub fn put_out(cache: &mut Parts, lba: u64)
    requires of_one { AreOfOne cache.old }
    requires is_map { IsMap cache.old.geometry cache.old.map.entries }
    requires roles { RolesAgree cache.old }
    requires fits { Fits cache.old.geometry (Remove lba) cache.old.map.entries }
    requires room { length cache.old.log.buffered < page_records cache.old.log.geometry }
    ensures cache { OnlyMapLogPoolChange cache.old cache.new }
    ensures map { cache.new.map ≡ record cache.old.map {
      entries = after cache.old.geometry (Remove lba) cache.old.map.entries;
      records = cache.new.map.records;
    } }
    ensures log { cache.new.log ≡ pushed (Remove lba) cache.old.log }
    ensures agree { (contents : Contents) → PartsAgree cache.old contents → PartsAgree cache.new contents }
    ensures lists { (contents : Contents) (list durable : CacheList) → Lists cache.old contents.flash.page list durable
        → Lists cache.new contents.flash.page (evicted lba list) durable }
{
    let change = Record::Remove { lba };
    note(cache, &change, lba / cache.geometry.p as u64);
}

/// Marks an address clean.
pub fn note_clean(cache: &mut Parts, lba: u64)
    requires of_one { AreOfOne cache.old }
    requires fits { Fits cache.old.geometry (Clean lba) cache.old.map.entries }
    requires room { length cache.old.log.buffered < page_records cache.old.log.geometry }
    ensures cache { cache.new ≡ record cache.old { map = cache.new.map; log = cache.new.log } }
    ensures map { cache.new.map ≡ record cache.old.map {
      entries = after cache.old.geometry (Clean lba) cache.old.map.entries;
      records = cache.new.map.records;
    } }
    ensures log { cache.new.log ≡ pushed (Clean lba) cache.old.log }
    ensures agree { (contents : Contents) → PartsAgree cache.old contents → PartsAgree cache.new contents }
    ensures lists { (contents : Contents) (list durable : CacheList) → Lists cache.old contents.flash.page list durable
        → Lists cache.new contents.flash.page (made_clean lba list) durable }
{
    let change = Record::Clean { lba };
    cache.log.push(change);
    cache.map.apply(&change);
}

/// Buffers a change and makes it in the map. If the group's data block no longer is the old one, the old one becomes
/// free.
pub(crate) fn note(cache: &mut Parts, change: &Record, group: u64)
    requires of_one { AreOfOne cache.old }
    requires is_map { IsMap cache.old.geometry cache.old.map.entries }
    requires fits { Fits cache.old.geometry change.now cache.old.map.entries }
    requires sound { IsTrue (may_stand_in (is_wide 2 cache.old.geometry.p) log_page change.now) }
    requires room { CanNote cache.old (pages_taken change.now) (groups_taken change.now) }
    ensures cache { OnlyMapLogPoolChange cache.old cache.new }
    ensures of_one { AreOfOne cache.new }
    ensures map { IsNoted cache.old.geometry change.now cache.old.map cache.new.map }
    ensures log { cache.new.log ≡ pushed change.now cache.old.log }
    ensures roles { FollowsGroup cache.old.geometry group cache.old.map.entries cache.new.map.entries cache.old.pool cache.new.pool }
{
    let before = cache.map.block_of(group);
    cache.log.push(*change);
    cache.map.apply(change);
    if let Some(old) = before {
        let still = match cache.map.block_of(group) {
            Some(new) => new.block() == old.block(),
            None => false,
        };
        if !still {
            cache.pool.set_role(old.block(), Role::Free);
        }
    }
}
