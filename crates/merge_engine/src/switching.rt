//! Switch merges: a log block whose pages hold a group in order becomes its data block, with no copy.
ghost use Rattle.std.specs.Prelude.{◌≡◌, ◌≢◌, ◌≤◌, ◌<◌, ◌+◌, ◌↔◌, ◌^◌, [], OnOk, IfSome, IfNone, IsTrue};
ghost use Rattle.ft_base.specs.Contents.{Contents};
ghost use Rattle.ft_base.specs.Layout.{log_pages};
ghost use Rattle.ft_media.specs.Media.{program_counted};
ghost use Rattle.ft_media.specs.Drives.{OnlyDrives};
ghost use Rattle.cache_model.specs.Entries.{IsMap};
ghost use Rattle.mapping.specs.Counts.{Owns};
ghost use Rattle.mapping.specs.Numbers.{IsNoDataBlock};
ghost use Rattle.log_blocks.specs.Logs.{released};
ghost use Rattle.silent_evict.specs.Candidates.{IsGroupHeld};
ghost use Rattle.merge_engine.specs.Agreement.{AreOfOne, RolesAgree};
ghost use Rattle.merge_engine.specs.Merges.{HasBlockOrRoom, move_record};
ghost use Rattle.merge_engine.specs.Switch.{CanSwitch, CannotSwitch, IsInOrderUpTo};
ghost use Rattle.merge_engine.specs.Kept.{CanNote, CanGoOn, IsNoted, StaysOn, CommitsList};

use crate::Parts;
use crate::committing::commit;
use crate::noting::note;
use block_pool::Role;
use ft_base::{Place, Record};
use ft_media::{Media, MediaError};

/// The log block whose pages hold the addresses of a group in order. `None` if there is none.
pub(crate) fn log_block_in_order(cache: &Parts, group: u64) -> Option<u32>
    requires of_one { AreOfOne cache.now }
    requires is_map { IsMap cache.now.geometry cache.now.map.entries }
    requires roles { RolesAgree cache.now }
    requires held { IsGroupHeld cache.now.geometry cache.now.map.entries group }
    ensures some { IfSome result (CanSwitch cache.now group) }
    ensures none { IfNone result (CannotSwitch cache.now group) }
{
    let first = group * cache.geometry.p as u64;
    let Some((at, _)) = cache.map.logged_place(first) else {
        return None;
    };
    if !are_in_order(cache, first, at.block) {
        return None;
    }
    Some(at.block)
}

/// Whether the addresses from this one on stand in order in the pages of a log block.
fn are_in_order(cache: &Parts, first: u64, block: u32) -> bool
    requires first { first ≤ 2 ^ 40 }
    ensures { IsNoDataBlock cache.now.map.entries block → (IsTrue result ↔ IsInOrderUpTo cache.now.map.entries first block cache.now.geometry.p) }
{
    for page in 0..cache.geometry.p {
        let stands = stands_at(cache, first + page as u64, Place { block, page });
        if !stands {
            return false;
        }
    }
    true
}

/// Whether the block of an address stands at a page of a log block.
fn stands_at(cache: &Parts, lba: u64, at: Place) -> bool
    ensures { IsNoDataBlock cache.now.map.entries at.block → (IsTrue result ↔ Owns cache.now.map.entries at lba) }
{
    match cache.map.logged_place(lba) {
        Some((place, _)) => place == at,
        None => false,
    }
}

/// Makes the log block that holds a group in order its data block, and commits this. No page is copied.
pub(crate) fn switch_group<M: Media>(
    cache: &mut Parts,
    media: &mut M,
    group: u64,
    block: u32,
) -> Result<(), MediaError>
    requires can { CanGoOn cache.old (M.state media.old).contents 1 }
    requires held { IsGroupHeld cache.old.geometry cache.old.map.entries group }
    requires block { HasBlockOrRoom cache.old.geometry cache.old.map.entries group }
    requires switch { CanSwitch cache.old group block }
    ensures cache { cache.new ≡ record cache.old {
      map = cache.new.map;
      log = cache.new.log;
      pool = cache.new.pool;
      log_blocks = released block cache.old.log_blocks;
    } }
    ensures map { IsNoted cache.old.geometry (move_record cache.old.geometry cache.old.map.entries group block) cache.old.map
        cache.new.map }
    ensures kept { CommitsList cache.old cache.new (M.state media.old).contents (M.state media.new).contents result }
    ensures one_program { OnOk result (cache.old.log.next < log_pages cache.old.geometry
        → (M.state media.new).counts ≡ program_counted (M.state media.old).counts) }
    ensures drives { OnlyDrives (M.state media.old) (M.state media.new) result }
{
    switch_block(cache, group, block);
    commit(cache, media)
}

/// Makes the log block that holds a group in order its data block. It is then no log block any longer.
fn switch_block(cache: &mut Parts, group: u64, block: u32)
    requires of_one { AreOfOne cache.old }
    requires is_map { IsMap cache.old.geometry cache.old.map.entries }
    requires roles { RolesAgree cache.old }
    requires held { IsGroupHeld cache.old.geometry cache.old.map.entries group }
    requires block { HasBlockOrRoom cache.old.geometry cache.old.map.entries group }
    requires switch { CanSwitch cache.old group block }
    requires room { CanNote cache.old 0 1 }
    ensures cache { cache.new ≡ record cache.old {
      map = cache.new.map;
      log = cache.new.log;
      pool = cache.new.pool;
      log_blocks = released block cache.old.log_blocks;
    } }
    ensures map { IsNoted cache.old.geometry (move_record cache.old.geometry cache.old.map.entries group block) cache.old.map
        cache.new.map }
    ensures waits { cache.new.log.buffered ≢ [] }
    ensures next { cache.new.log.next ≡ cache.old.log.next }
    ensures stays { (contents : Contents) → StaysOn cache.old cache.new contents }
{
    let sets = cache.map.page_sets(group);
    let change = Record::SetGroup {
        group,
        block,
        present: sets.held,
        dirty: sets.dirty,
    };
    note(cache, &change, group);
    cache.log_blocks.release(block);
    cache.pool.set_role(block, Role::Data);
}
