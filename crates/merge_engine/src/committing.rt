//! Commit and checkpoint as steps of the parts, told of the lists for which the flash stands.
ghost use Rattle.std.specs.Prelude.{◌≡◌, ◌≢◌, ◌<◌, ◌≤◌, [], OnOk, OnErr, IsOk};
ghost use Rattle.ft_base.specs.Layout.{log_pages};
ghost use Rattle.ft_media.specs.Media.{program_counted};
ghost use Rattle.ft_media.specs.Drives.{OnlyDrives};
ghost use Rattle.ft_media.specs.Passes.{ProgramsPages};
ghost use Rattle.checkpoint.specs.Commits.{AddsCheckpoint};
ghost use Rattle.checkpoint.specs.Current.{PoolStays, PoolReadyStays, LoadsOneOf, log_committed, log_checkpointed};
ghost use Rattle.merge_engine.specs.Agreement.{PartsAgree, ArePartsSound};
ghost use Rattle.merge_engine.specs.Kept.{CommitsList};

use crate::Parts;
use ft_media::{Media, MediaError};

/// Puts all buffered changes on the flash: with one log page, or with a checkpoint if the log has no page left. If
/// nothing is buffered, it does nothing. It allocates nothing.
pub fn commit<M: Media>(cache: &mut Parts, media: &mut M) -> Result<(), MediaError>
    requires agree { PartsAgree cache.old (M.state media.old).contents }
    ensures cache { cache.new ≡ record cache.old { log = cache.new.log } }
    ensures nothing { cache.old.log.buffered ≡ [] → IsOk result × (cache.new ≡ cache.old) × (M.state media.new ≡ M.state media.old) }
    ensures log { OnOk result (cache.new.log ≡ log_committed cache.old.log) }
    ensures refused { OnErr result (cache.new ≡ cache.old) }
    ensures kept { CommitsList cache.old cache.new (M.state media.old).contents (M.state media.new).contents result }
    ensures pool { PoolStays cache.old.geometry (M.state media.old).contents.flash.page (M.state media.new).contents.flash.page }
    ensures pool_ready { OnOk result (PoolReadyStays cache.old.geometry (M.state media.old).contents.flash
        (M.state media.new).contents.flash) }
    ensures one_page { OnOk result (cache.old.log.buffered ≢ [] → cache.old.log.next < log_pages cache.old.geometry
        → (M.state media.new).counts ≡ program_counted (M.state media.old).counts) }
    ensures whole_checkpoint { OnOk result (cache.old.log.buffered ≢ [] → log_pages cache.old.geometry ≤ cache.old.log.next
        → AddsCheckpoint cache.old.log cache.old.map.records (M.state media.old) (M.state media.new)) }
    ensures programs { OnOk result (cache.old.log.buffered ≢ [] → ProgramsPages 1 (M.state media.old) (M.state media.new)) }
    ensures drives { OnlyDrives (M.state media.old) (M.state media.new) result }
{
    cache.checkpoints.commit(media, &cache.map, &mut cache.log)
}

/// Makes a checkpoint of the whole map, with all buffered changes. The log need not have been open. It allocates
/// nothing.
pub fn make_checkpoint<M: Media>(cache: &mut Parts, media: &mut M) -> Result<(), MediaError>
    requires sound { ArePartsSound cache.old (M.state media.old).contents }
    ensures cache { cache.new ≡ record cache.old { log = cache.new.log } }
    ensures log { OnOk result (cache.new.log ≡ log_checkpointed cache.old.log) }
    ensures refused { OnErr result (cache.new ≡ cache.old) }
    ensures kept { CommitsList cache.old cache.new (M.state media.old).contents (M.state media.new).contents result }
    ensures loads { LoadsOneOf cache.old.geometry (M.state media.old).contents.flash.page
        (M.state media.new).contents.flash.page cache.old.map.entries }
    ensures pool { PoolStays cache.old.geometry (M.state media.old).contents.flash.page (M.state media.new).contents.flash.page }
    ensures whole_checkpoint { OnOk result (AddsCheckpoint cache.old.log cache.old.map.records (M.state media.old) (M.state media.new)) }
    ensures programs { OnOk result (ProgramsPages 1 (M.state media.old) (M.state media.new)) }
    ensures drives { OnlyDrives (M.state media.old) (M.state media.new) result }
{
    cache
        .checkpoints
        .checkpoint(media, &cache.map, &mut cache.log)
}
