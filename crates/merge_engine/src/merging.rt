//! The merge of a group, by copy or by switch. If no data block is left for it, a clean group gives way.
ghost use Rattle.std.specs.Prelude.{◌≡◌, ◌≢◌, ◌≤◌, ◌<◌, ◌+◌, ℕ, [], OnOk, IfOk};
ghost use Rattle.ft_base.specs.Contents.{Contents};
ghost use Rattle.ft_base.specs.Layout.{log_pages};
ghost use Rattle.ft_base.specs.declared.record.Record.TheVariants.{RemoveGroup};
ghost use Rattle.ft_media.specs.Media.{erase_counted, program_counted};
ghost use Rattle.ft_media.specs.Drives.{OnlyDrives};
ghost use Rattle.cache_model.specs.CacheList.{CacheList};
ghost use Rattle.cache_model.specs.Entries.{IsMap};
ghost use Rattle.checkpoint.specs.Counts.{programs_counted};
ghost use Rattle.block_pool.specs.Pool.{IsFree, IsNextTaken};
ghost use Rattle.silent_evict.specs.Candidates.{HasDataBlock, IsGroupHeld};
ghost use Rattle.merge_engine.specs.Agreement.{PartsAgree, AreOfOne, Lists, RolesAgree};
ghost use Rattle.merge_engine.specs.Merges.{HasBlockOrRoom, OthersStay, ReachesTo, FlashStandsForEither, list_without, move_record};
ghost use Rattle.merge_engine.specs.Room.{MergesBeside};
ghost use Rattle.merge_engine.specs.Steps.{IsCopied, IsFilledUp, PageMappedStay};
ghost use Rattle.merge_engine.specs.Switch.{LogsStayOrSwitch};
ghost use Rattle.merge_engine.specs.Kept.{CanNote, CanGoOn, OnlyMapLogPoolChange, IsNoted, KeepsRoom, StaysOn, CommitsList, MergesList, IsGathered, CostsOfCopy, CostsOfMove, CostsOfMerge, TakesDataBlock};

use crate::Parts;
use crate::committing::commit;
use crate::copying::copy_group;
use crate::noting::note;
use crate::switching::{log_block_in_order, switch_group};
use block_pool::Role;
use ft_base::Record;
use ft_media::{Media, MediaError};

/// Moves all held blocks of a group into a data block of its own. They are copied; or, if the pages of a log block hold
/// the group's addresses in order, that block becomes the data block without a copy. If the group has no data block and
/// C groups have one, a group with a data block and no dirty address gives way first. If there is no such group, the
/// group itself, which is then clean, is dropped. The buffered changes are committed with it. It allocates nothing.
pub fn merge_group<M: Media>(cache: &mut Parts, media: &mut M, group: u64) -> Result<(), MediaError>
    requires can { CanGoOn cache.old (M.state media.old).contents 1 }
    requires held { IsGroupHeld cache.old.geometry cache.old.map.entries group }
    ensures geometry { cache.new.geometry ≡ cache.old.geometry }
    // Whatever the call answers.
    ensures log_blocks { LogsStayOrSwitch cache.old group cache.new.log_blocks }
    ensures room { KeepsRoom cache.old.map cache.new.map 1 }
    ensures merges { MergesList cache.old cache.new group (M.state media.old).contents (M.state media.new).contents result }
    ensures gathered { OnOk result (IsGathered cache.old.geometry cache.new.map.entries group (M.state media.new).contents.flash.page) }
    ensures beside { OnOk result (MergesBeside cache.old.geometry group cache.old.map.entries cache.new.map.entries) }
    ensures page_mapped { OnOk result (PageMappedStay cache.old.map.entries cache.new.map.entries) }
    ensures costs { OnOk result (CostsOfMerge cache.old cache.new group (M.state media.old).counts (M.state media.new).counts) }
    ensures drives { OnlyDrives (M.state media.old) (M.state media.new) result }
{
    let own = cache.map.block_of(group).is_some();
    if own || cache.map.data_blocks() < cache.geometry.c {
        return move_group(cache, media, group);
    }
    match cache.victims.victim(&cache.map) {
        Some(victim) => {
            drop_group(cache, media, victim)?;
            move_group(cache, media, group)
        }
        None => drop_group(cache, media, group),
    }
}

/// Drops a group, and commits this.
fn drop_group<M: Media>(cache: &mut Parts, media: &mut M, group: u64) -> Result<(), MediaError>
    requires can { CanGoOn cache.old (M.state media.old).contents 0 }
    requires held { IsGroupHeld cache.old.geometry cache.old.map.entries group }
    ensures cache { OnlyMapLogPoolChange cache.old cache.new }
    ensures map { IsNoted cache.old.geometry (RemoveGroup group) cache.old.map cache.new.map }
    ensures agree { OnOk result (PartsAgree cache.new (M.state media.new).contents) }
    ensures nothing_waits { OnOk result (cache.new.log.buffered ≡ []) }
    ensures next { OnOk result (cache.old.log.next < log_pages cache.old.geometry → cache.new.log.next ≡ cache.old.log.next + 1) }
    ensures one_program { OnOk result (cache.old.log.next < log_pages cache.old.geometry
        → (M.state media.new).counts ≡ program_counted (M.state media.old).counts) }
    ensures lists { OnOk result ((list durable : CacheList) → Lists cache.old (M.state media.old).contents.flash.page list durable
        → Lists cache.new (M.state media.new).contents.flash.page (list_without cache.old.geometry group list)
        (list_without cache.old.geometry group list)) }
    // Whatever the call answers, and whenever power goes off.
    ensures stands { (list durable : CacheList) → Lists cache.old (M.state media.old).contents.flash.page list durable
        → FlashStandsForEither cache.old.geometry (M.state media.new).contents.flash.page durable
        (list_without cache.old.geometry group list) }
    ensures drives { OnlyDrives (M.state media.old) (M.state media.new) result }
{
    note(cache, &Record::RemoveGroup { group }, group);
    commit(cache, media)
}

/// Moves a group into a data block of its own, and commits this. A log block that holds the group in order becomes its
/// data block without a copy. If there is none, the group is copied.
fn move_group<M: Media>(cache: &mut Parts, media: &mut M, group: u64) -> Result<(), MediaError>
    requires can { CanGoOn cache.old (M.state media.old).contents 1 }
    requires held { IsGroupHeld cache.old.geometry cache.old.map.entries group }
    requires block { HasBlockOrRoom cache.old.geometry cache.old.map.entries group }
    ensures cache { cache.new ≡ record cache.old {
      map = cache.new.map;
      log = cache.new.log;
      pool = cache.new.pool;
      log_blocks = cache.new.log_blocks;
    } }
    ensures log_blocks { LogsStayOrSwitch cache.old group cache.new.log_blocks }
    ensures room { KeepsRoom cache.old.map cache.new.map 1 }
    ensures kept { CommitsList cache.old cache.new (M.state media.old).contents (M.state media.new).contents result }
    ensures gathered { OnOk result (IsGathered cache.old.geometry cache.new.map.entries group (M.state media.new).contents.flash.page) }
    ensures others { OnOk result (OthersStay cache.old.geometry group cache.old.map.entries cache.new.map.entries) }
    ensures own { OnOk result (HasDataBlock cache.old.geometry cache.new.map.entries group) }
    ensures costs { OnOk result (CostsOfMove cache.old cache.new group (M.state media.old).counts (M.state media.new).counts) }
    ensures drives { OnlyDrives (M.state media.old) (M.state media.new) result }
{
    match log_block_in_order(cache, group) {
        Some(block) => switch_group(cache, media, group, block),
        None => gather_group(cache, media, group),
    }
}

/// Copies a group into an erase block that is taken, makes this its data block, and commits this.
fn gather_group<M: Media>(cache: &mut Parts, media: &mut M, group: u64) -> Result<(), MediaError>
    requires agree { PartsAgree cache.old (M.state media.old).contents }
    requires held { IsGroupHeld cache.old.geometry cache.old.map.entries group }
    requires block { HasBlockOrRoom cache.old.geometry cache.old.map.entries group }
    requires groups { 1 ≤ cache.old.map.spare_groups }
    ensures cache { OnlyMapLogPoolChange cache.old cache.new }
    ensures room { KeepsRoom cache.old.map cache.new.map 1 }
    ensures kept { CommitsList cache.old cache.new (M.state media.old).contents (M.state media.new).contents result }
    ensures gathered { OnOk result (IsGathered cache.old.geometry cache.new.map.entries group (M.state media.new).contents.flash.page) }
    ensures others { OnOk result (OthersStay cache.old.geometry group cache.old.map.entries cache.new.map.entries) }
    ensures taken { OnOk result (TakesDataBlock cache.old cache.new group) }
    ensures costs { OnOk result (CostsOfCopy cache.old group (M.state media.old).counts (M.state media.new).counts) }
    ensures drives { OnlyDrives (M.state media.old) (M.state media.new) result }
{
    // The buffered changes are committed before a block is erased. One of them may have made the block free, while the
    // flash's own map still names its pages.
    commit(cache, media)?;
    let block = copy_out(cache, media, group)?;
    put_group(cache, group, block);
    commit(cache, media)
}

/// Copies a group into an erase block that is taken, and answers its number. No entry stands in it yet.
fn copy_out<M: Media>(cache: &mut Parts, media: &mut M, group: u64) -> Result<u32, MediaError>
    requires agree { PartsAgree cache.old (M.state media.old).contents }
    requires nothing { cache.old.log.buffered ≡ [] }
    ensures cache { cache.new ≡ record cache.old { pool = cache.new.pool } }
    ensures agree { OnOk result (PartsAgree cache.new (M.state media.new).contents) }
    // Whatever the call answers, and whenever power goes off, no page that an entry names changed.
    ensures lists { (list durable : CacheList) → Lists cache.old (M.state media.old).contents.flash.page list durable
        → Lists cache.new (M.state media.new).contents.flash.page list durable }
    ensures free { IfOk result (IsFree cache.new.pool) }
    ensures taken { IfOk result (IsNextTaken cache.old.pool) }
    ensures copied { IfOk result (λ block. IsCopied cache.old.geometry cache.old.map.entries group block
        (M.state media.new).contents.flash.page) }
    ensures filled { IfOk result (λ block. IsFilledUp cache.old.geometry cache.old.map.entries group block
        (M.state media.new).contents.flash.page) }
    ensures counts { OnOk result ((pages : ℕ) → ReachesTo cache.old.geometry cache.old.map.entries group pages
        → (M.state media.new).counts ≡ programs_counted pages (erase_counted (M.state media.old).counts)) }
    ensures drives { OnlyDrives (M.state media.old) (M.state media.new) result }
{
    let block = cache.pool.take(media)?;
    copy_group(cache, media, group, block)?;
    Ok(block)
}

/// Puts all held blocks of a group into an erase block, which is its data block from then on.
fn put_group(cache: &mut Parts, group: u64, block: u32)
    requires of_one { AreOfOne cache.old }
    requires is_map { IsMap cache.old.geometry cache.old.map.entries }
    requires roles { RolesAgree cache.old }
    requires held { IsGroupHeld cache.old.geometry cache.old.map.entries group }
    requires block { HasBlockOrRoom cache.old.geometry cache.old.map.entries group }
    requires free { IsFree cache.old.pool block }
    requires room { CanNote cache.old 0 1 }
    ensures cache { OnlyMapLogPoolChange cache.old cache.new }
    ensures map { IsNoted cache.old.geometry (move_record cache.old.geometry cache.old.map.entries group block) cache.old.map
        cache.new.map }
    ensures waits { cache.new.log.buffered ≢ [] }
    ensures next { cache.new.log.next ≡ cache.old.log.next }
    ensures stays { (contents : Contents) → IsCopied cache.old.geometry cache.old.map.entries group block contents.flash.page
        → StaysOn cache.old cache.new contents }
{
    let sets = cache.map.page_sets(group);
    let change = Record::SetGroup {
        group,
        block,
        present: sets.held,
        dirty: sets.dirty,
    };
    note(cache, &change, group);
    cache.pool.set_role(block, Role::Data);
}
