//! Log blocks that go out of use: blocks without an entry, and the oldest one after each group in it was merged.
ghost use Rattle.std.specs.Prelude.{◌≡◌, ◌≤◌, length, ℕ, Some, slice_get, OnOk, IsOk};
ghost use Rattle.ft_base.specs.Contents.{Contents};
ghost use Rattle.ft_media.specs.Drives.{OnlyDrives};
ghost use Rattle.mapping.specs.Numbers.{StandsNoneIn};
ghost use Rattle.block_pool.specs.Pool.{IsInPool, erases_of};
ghost use Rattle.log_blocks.specs.Logs.{IsInUse, released};
ghost use Rattle.merge_engine.specs.Agreement.{PartsAgree, AreOfOne, RolesAgree};
ghost use Rattle.merge_engine.specs.Room.{FreesGroups};
ghost use Rattle.merge_engine.specs.LogSteps.{FreesOldest};
ghost use Rattle.merge_engine.specs.Steps.{IsUnowned, PageMappedStay};
ghost use Rattle.merge_engine.specs.Switch.{LogsStayOrLose};
ghost use Rattle.merge_engine.specs.Kept.{CanGoOn, OnlyPoolLogBlocksChange, KeepsRoom, KeepsOrGives};

use crate::Parts;
use crate::merging::merge_group;
use block_pool::Role;
use ft_base::Place;
use ft_media::{Media, MediaError};

/// Frees the first log block of the list by merging the groups with a page in it. After that it is no log block, but
/// free or a data block. If no entry stands in it, no call of the media is made. It allocates nothing.
pub fn free_log_block<M: Media>(cache: &mut Parts, media: &mut M) -> Result<(), MediaError>
    requires can { CanGoOn cache.old (M.state media.old).contents cache.old.geometry.p }
    requires used { 1 ≤ length cache.old.log_blocks.used }
    ensures geometry { cache.new.geometry ≡ cache.old.geometry }
    ensures log_blocks { OnOk result ((oldest : ℕ) → slice_get cache.old.log_blocks.used 0 ≡ Some oldest
        → cache.new.log_blocks ≡ released oldest cache.old.log_blocks) }
    // Whatever the call answers, no block has become a log block.
    ensures used { (b : ℕ) → IsInUse cache.new.log_blocks b → IsInUse cache.old.log_blocks b }
    ensures unheld { (oldest : ℕ) → slice_get cache.old.log_blocks.used 0 ≡ Some oldest → StandsNoneIn cache.old.map.entries oldest
        → IsOk result × OnlyPoolLogBlocksChange cache.old cache.new
        × (M.state media.new ≡ M.state media.old) }
    ensures room { KeepsRoom cache.old.map cache.new.map cache.old.geometry.p }
    ensures groups { OnOk result (FreesOldest cache.old cache.new) }
    ensures goes { KeepsOrGives cache.old cache.new (M.state media.old).contents (M.state media.new).contents result }
    ensures drives { OnlyDrives (M.state media.old) (M.state media.new) result }
{
    let Some(block) = cache.log_blocks.oldest() else {
        return Ok(());
    };
    merge_owners(cache, media, block)?;
    give_back_used(cache, block);
    Ok(())
}

/// Merges each group with a page in a log block, in the order of the pages, while the block is a log block.
fn merge_owners<M: Media>(cache: &mut Parts, media: &mut M, block: u32) -> Result<(), MediaError>
    requires can { CanGoOn cache.old (M.state media.old).contents cache.old.geometry.p }
    requires in_use { IsInUse cache.old.log_blocks block }
    ensures geometry { cache.new.geometry ≡ cache.old.geometry }
    ensures nothing { StandsNoneIn cache.old.map.entries block → IsOk result × (cache.new ≡ cache.old)
        × (M.state media.new ≡ M.state media.old) }
    ensures log_blocks { LogsStayOrLose block cache.old.log_blocks cache.new.log_blocks }
    ensures room { KeepsRoom cache.old.map cache.new.map cache.old.geometry.p }
    ensures groups { OnOk result (FreesGroups cache.old.geometry block cache.old.map.entries cache.new.map.entries) }
    ensures goes { KeepsOrGives cache.old cache.new (M.state media.old).contents (M.state media.new).contents result }
    ensures unheld { OnOk result (IsInUse cache.new.log_blocks block → StandsNoneIn cache.new.map.entries block) }
    ensures drives { OnlyDrives (M.state media.old) (M.state media.new) result }
{
    for page in 0..cache.geometry.p {
        merge_owner(cache, media, Place { block, page })?;
    }
    Ok(())
}

/// Merges the group whose address stands at a page of a log block, if there is one. If a merge has made the block a
/// data block, it stays one.
fn merge_owner<M: Media>(cache: &mut Parts, media: &mut M, at: Place) -> Result<(), MediaError>
    requires can { CanGoOn cache.old (M.state media.old).contents 1 }
    requires in_pool { IsInPool cache.old.geometry at.block }
    ensures geometry { cache.new.geometry ≡ cache.old.geometry }
    ensures nothing { IsUnowned cache.old.map.entries at → IsOk result × (cache.new ≡ cache.old) × (M.state media.new ≡ M.state media.old) }
    ensures log_blocks { LogsStayOrLose at.block cache.old.log_blocks cache.new.log_blocks }
    ensures room { KeepsRoom cache.old.map cache.new.map 1 }
    ensures groups { OnOk result (FreesGroups cache.old.geometry at.block cache.old.map.entries cache.new.map.entries) }
    ensures goes { KeepsOrGives cache.old cache.new (M.state media.old).contents (M.state media.new).contents result }
    ensures unowned { OnOk result (IsInUse cache.new.log_blocks at.block → IsUnowned cache.new.map.entries at) }
    ensures page_mapped { OnOk result (PageMappedStay cache.old.map.entries cache.new.map.entries) }
    ensures drives { OnlyDrives (M.state media.old) (M.state media.new) result }
{
    if cache.pool.role(at.block) != Role::Log {
        return Ok(());
    }
    match cache.map.owner(at) {
        Some(lba) => merge_group(cache, media, lba / cache.geometry.p as u64),
        None => Ok(()),
    }
}

/// Takes a log block without an entry out of use, if it still is a log block.
fn give_back_used(cache: &mut Parts, block: u32)
    requires of_one { AreOfOne cache.old }
    requires in_pool { IsInPool cache.old.geometry block }
    requires roles { RolesAgree cache.old }
    ensures cache { OnlyPoolLogBlocksChange cache.old cache.new }
    ensures used { IsInUse cache.old.log_blocks block → cache.new.log_blocks ≡ released block cache.old.log_blocks }
    ensures switched { (IsInUse cache.old.log_blocks block → ⊥) → cache.new.log_blocks ≡ cache.old.log_blocks }
    ensures agree { (contents : Contents) → PartsAgree cache.old contents
        → (IsInUse cache.old.log_blocks block → StandsNoneIn cache.old.map.entries block)
        → PartsAgree cache.new contents }
{
    if cache.pool.role(block) == Role::Log {
        give_back(cache, block);
    }
}

/// Takes a log block without an entry out of use: it is then free.
pub(crate) fn give_back(cache: &mut Parts, block: u32)
    requires of_one { AreOfOne cache.old }
    requires in_pool { IsInPool cache.old.geometry block }
    requires in_use { IsInUse cache.old.log_blocks block }
    ensures cache { cache.new ≡ record cache.old { pool = cache.new.pool; log_blocks = released block cache.old.log_blocks } }
    ensures erases { (b : ℕ) → erases_of cache.new.pool b ≡ erases_of cache.old.pool b }
    ensures of_one { AreOfOne cache.new }
    ensures agree { (contents : Contents) → PartsAgree cache.old contents → StandsNoneIn cache.old.map.entries block
        → PartsAgree cache.new contents }
{
    cache.log_blocks.release(block);
    cache.pool.set_role(block, Role::Free);
}
