//! Appends to the open log block. If it has no page left, room is made, the buffer committed, and another block begun.
ghost use Rattle.std.specs.Prelude.{◌≡◌, ◌≤◌, ◌<◌, ◌-◌, [], length, ℕ, OnOk, OnErr, IfOk, IsOk};
ghost use Rattle.ft_base.specs.Contents.{Contents};
ghost use Rattle.ft_media.specs.Media.{program_counted, erase_counted};
ghost use Rattle.ft_media.specs.Drives.{OnlyDrives};
ghost use Rattle.cache_model.specs.CacheList.{CacheList};
ghost use Rattle.ft_media.specs.Passes.{ProgramsPages};
ghost use Rattle.checkpoint.specs.Current.{log_committed};
ghost use Rattle.block_pool.specs.Pool.{IsFree, IsInPool, erases_of};
ghost use Rattle.log_blocks.specs.Logs.{IsInUse, AreSoundLogs, block_begun};
ghost use Rattle.merge_engine.specs.Agreement.{PartsAgree, AreOfOne, Lists, RolesAgree};
ghost use Rattle.merge_engine.specs.Steps.{CanBeginLog, HasLogBlock, HasUnheldLog, IsNewPage};
ghost use Rattle.merge_engine.specs.LogSteps.{AreHeldLogs, BeginsLog, CostsOfBeginning, CostsOfTaking, FreesOldest, MakesRoom, NeedsMerge, TakesLogBlock, UsedAsLog};
ghost use Rattle.merge_engine.specs.Kept.{CanGoOn, OnlyPoolLogBlocksChange, KeepsRoom, CommitsList, KeepsOrGives, NothingGivesWay};

use crate::Parts;
use crate::committing::commit;
use crate::freeing::{free_log_block, give_back};
use block_pool::Role;
use ft_base::{Block, Place};
use ft_media::{Media, MediaError};

/// Programs a block into the next page of the open log block, and answers the page's place. If no open log block has a
/// page left, one is opened first. That takes a merge only if L log blocks are in use and some entry stands in each. It
/// allocates nothing.
pub fn append<M: Media>(
    cache: &mut Parts,
    media: &mut M,
    lba: u64,
    block: &Block,
) -> Result<Place, MediaError>
    requires can { CanGoOn cache.old (M.state media.old).contents cache.old.geometry.p }
    ensures geometry { cache.new.geometry ≡ cache.old.geometry }
    ensures room { KeepsRoom cache.old.map cache.new.map cache.old.geometry.p }
    ensures goes { KeepsOrGives cache.old cache.new (M.state media.old).contents (M.state media.new).contents result }
    ensures place { IfOk result (λ at. IsNewPage cache.new (M.state media.new).contents.flash.page at lba block.now) }
    // If a log block is available without a merge.
    ensures no_merge { HasLogBlock cache.old
        → NothingGivesWay cache.old cache.new (M.state media.old).contents (M.state media.new).contents result }
    // If the open log block has a page left: one program, no erase, and nothing gives way.
    ensures one_program { OnOk result (1 ≤ cache.old.log_blocks.room
        → (cache.new ≡ record cache.old { log_blocks = record cache.old.log_blocks { room = cache.old.log_blocks.room - 1 } })
        × ((M.state media.new).counts ≡ program_counted (M.state media.old).counts)) }
    // If no page was left, a log block is begun, and one page of it is used.
    ensures begins { OnOk result (cache.old.log_blocks.room ≡ 0 → BeginsLog cache.old cache.new (cache.old.geometry.p - 1)) }
    ensures freed { OnOk result (NeedsMerge cache.old → FreesOldest cache.old cache.new) }
    ensures costs { OnOk result (cache.old.log_blocks.room ≡ 0 → CanBeginLog cache.old
        → CostsOfBeginning cache.old (M.state media.old).counts (M.state media.new).counts) }
    ensures programs { OnOk result (ProgramsPages 1 (M.state media.old) (M.state media.new)) }
    ensures drives { OnlyDrives (M.state media.old) (M.state media.new) result }
{
    open_if_closed(cache, media)?;
    program_next(cache, media, lba, block)
}

/// Programs the next page of the open log block.
fn program_next<M: Media>(
    cache: &mut Parts,
    media: &mut M,
    lba: u64,
    block: &Block,
) -> Result<Place, MediaError>
    requires agree { PartsAgree cache.old (M.state media.old).contents }
    requires opened { 1 ≤ cache.old.log_blocks.room }
    ensures cache { OnOk result (cache.new
        ≡ record cache.old { log_blocks = record cache.old.log_blocks { room = cache.old.log_blocks.room - 1 } }) }
    ensures refused { OnErr result (cache.new ≡ cache.old) }
    ensures map { cache.new.map ≡ cache.old.map }
    ensures agree { OnOk result (PartsAgree cache.new (M.state media.new).contents) }
    ensures place { IfOk result (λ at. IsNewPage cache.new (M.state media.new).contents.flash.page at lba block.now) }
    // Whatever the call answers, no page that an entry names changed.
    ensures lists { (list durable : CacheList) → Lists cache.old (M.state media.old).contents.flash.page list durable
        → Lists cache.old (M.state media.new).contents.flash.page list durable }
    ensures counts { OnOk result ((M.state media.new).counts ≡ program_counted (M.state media.old).counts) }
    ensures programs { OnOk result (ProgramsPages 1 (M.state media.old) (M.state media.new)) }
    ensures drives { OnlyDrives (M.state media.old) (M.state media.new) result }
{
    cache.log_blocks.append(media, lba, block)
}

/// Opens a log block if no open one has a page left.
fn open_if_closed<M: Media>(cache: &mut Parts, media: &mut M) -> Result<(), MediaError>
    requires can { CanGoOn cache.old (M.state media.old).contents cache.old.geometry.p }
    ensures inside { 1 ≤ cache.old.log_blocks.room → IsOk result × (cache.new ≡ cache.old) × (M.state media.new ≡ M.state media.old) }
    ensures geometry { cache.new.geometry ≡ cache.old.geometry }
    ensures room { KeepsRoom cache.old.map cache.new.map cache.old.geometry.p }
    ensures opened { OnOk result (1 ≤ cache.new.log_blocks.room) }
    ensures goes { KeepsOrGives cache.old cache.new (M.state media.old).contents (M.state media.new).contents result }
    // If a log block is available without a merge.
    ensures no_merge { HasLogBlock cache.old
        → NothingGivesWay cache.old cache.new (M.state media.old).contents (M.state media.new).contents result }
    ensures begins { OnOk result (cache.old.log_blocks.room ≡ 0 → BeginsLog cache.old cache.new cache.old.geometry.p) }
    ensures freed { OnOk result (NeedsMerge cache.old → FreesOldest cache.old cache.new) }
    ensures costs { OnOk result (cache.old.log_blocks.room ≡ 0 → CanBeginLog cache.old
        → CostsOfTaking cache.old (M.state media.old).counts (M.state media.new).counts) }
    ensures drives { OnlyDrives (M.state media.old) (M.state media.new) result }
{
    if cache.log_blocks.room() > 0 {
        return Ok(());
    }
    make_room(cache, media)?;
    commit_and_take(cache, media)
}

/// Commits the buffered changes, and takes an erase block as the open log block.
fn commit_and_take<M: Media>(cache: &mut Parts, media: &mut M) -> Result<(), MediaError>
    requires agree { PartsAgree cache.old (M.state media.old).contents }
    requires few { length cache.old.log_blocks.used < cache.old.geometry.l }
    ensures geometry { cache.new.geometry ≡ cache.old.geometry }
    ensures map { cache.new.map ≡ cache.old.map }
    ensures opened { OnOk result (1 ≤ cache.new.log_blocks.room) }
    ensures takes { OnOk result ((block : ℕ) × TakesLogBlock cache.old cache.new block) }
    ensures log { OnOk result (cache.new.log ≡ log_committed cache.old.log) }
    ensures costs { OnOk result (CostsOfTaking cache.old (M.state media.old).counts (M.state media.new).counts) }
    ensures kept { CommitsList cache.old cache.new (M.state media.old).contents (M.state media.new).contents result }
    ensures drives { OnlyDrives (M.state media.old) (M.state media.new) result }
{
    // The buffered changes are committed before a block is erased. One of them may have made the block free, while the
    // flash's own map still names its pages.
    commit(cache, media)?;
    take_log_block(cache, media)
}

/// Takes an erase block as the open log block.
fn take_log_block<M: Media>(cache: &mut Parts, media: &mut M) -> Result<(), MediaError>
    requires agree { PartsAgree cache.old (M.state media.old).contents }
    requires nothing { cache.old.log.buffered ≡ [] }
    requires few { length cache.old.log_blocks.used < cache.old.geometry.l }
    ensures cache { OnlyPoolLogBlocksChange cache.old cache.new }
    ensures opened { OnOk result (cache.new.log_blocks.room ≡ cache.old.geometry.p) }
    ensures agree { OnOk result (PartsAgree cache.new (M.state media.new).contents) }
    // Whatever the call answers, no page that an entry names changed.
    ensures lists { (list durable : CacheList) → Lists cache.old (M.state media.old).contents.flash.page list durable
        → Lists cache.old (M.state media.new).contents.flash.page list durable }
    ensures takes { OnOk result ((block : ℕ) × TakesLogBlock cache.old cache.new block) }
    ensures counts { OnOk result ((M.state media.new).counts ≡ erase_counted (M.state media.old).counts) }
    ensures drives { OnlyDrives (M.state media.old) (M.state media.new) result }
{
    let block = cache.pool.take(media)?;
    begin_log_block(cache, block);
    Ok(())
}

/// Uses a free block as the open log block.
fn begin_log_block(cache: &mut Parts, block: u32)
    requires of_one { AreOfOne cache.old }
    requires roles { RolesAgree cache.old }
    requires free { IsFree cache.old.pool block }
    requires few { length cache.old.log_blocks.used < cache.old.geometry.l }
    ensures cache { cache.new ≡ record cache.old { pool = cache.new.pool; log_blocks = block_begun block cache.old.log_blocks } }
    ensures pool { UsedAsLog cache.old.pool cache.new.pool block }
    ensures of_one { AreOfOne cache.new }
    ensures roles { RolesAgree cache.new }
    ensures sound { AreSoundLogs cache.new.log_blocks }
{
    cache.pool.set_role(block, Role::Log);
    cache.log_blocks.begin(block);
}

/// Makes room for one more log block. Log blocks without an entry are made free. If L are still in use, the first of
/// the list is freed.
fn make_room<M: Media>(cache: &mut Parts, media: &mut M) -> Result<(), MediaError>
    requires can { CanGoOn cache.old (M.state media.old).contents cache.old.geometry.p }
    ensures geometry { cache.new.geometry ≡ cache.old.geometry }
    ensures room { KeepsRoom cache.old.map cache.new.map cache.old.geometry.p }
    ensures few { OnOk result (length cache.new.log_blocks.used < cache.new.geometry.l) }
    ensures goes { KeepsOrGives cache.old cache.new (M.state media.old).contents (M.state media.new).contents result }
    ensures no_merge { CanBeginLog cache.old → IsOk result
        × OnlyPoolLogBlocksChange cache.old cache.new
        × (M.state media.new ≡ M.state media.old) }
    ensures makes { OnOk result (MakesRoom cache.old cache.new.log_blocks.used cache.new.pool) }
    ensures freed { OnOk result (NeedsMerge cache.old → FreesOldest cache.old cache.new) }
    ensures drives { OnlyDrives (M.state media.old) (M.state media.new) result }
{
    free_unheld(cache);
    if cache.log_blocks.used() < cache.geometry.l {
        return Ok(());
    }
    free_log_block(cache, media)
}

/// Takes log blocks without an entry out of use: at least one, if there is any.
fn free_unheld(cache: &mut Parts)
    requires of_one { AreOfOne cache.old }
    requires in_pool { (b : ℕ) → IsInUse cache.old.log_blocks b → IsInPool cache.old.geometry b }
    ensures cache { OnlyPoolLogBlocksChange cache.old cache.new }
    ensures no_more { length cache.new.log_blocks.used ≤ length cache.old.log_blocks.used }
    ensures fewer { HasUnheldLog cache.old → length cache.new.log_blocks.used < length cache.old.log_blocks.used }
    ensures held { AreHeldLogs cache.old.map.entries cache.old.log_blocks.used cache.new.log_blocks.used }
    ensures erases { (b : ℕ) → erases_of cache.new.pool b ≡ erases_of cache.old.pool b }
    ensures agree { (contents : Contents) → PartsAgree cache.old contents → PartsAgree cache.new contents }
{
    let mut i = 0;
    while i < cache.log_blocks.used() {
        let block = cache.log_blocks.nth(i);
        if cache.map.stands_none_in(block) {
            give_back(cache, block);
        } else {
            i += 1;
        }
    }
}
