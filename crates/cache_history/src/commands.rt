//! Calls of a cache, and what each makes of two lists: the list that is held, and the list that a crash would leave.
ghost use Rattle.std.specs.Prelude.{◌≡◌, ◌<◌, ℕ, None, OnOk, IfOk, IfErr, IsErrOf};
ghost use Rattle.ft_base.specs.Contents.{Image, Now};
ghost use Rattle.ft_media.specs.Drives.{DrivesFlash};
ghost use Rattle.ft_media.specs.Reads.{ReadsFlash};
ghost use Rattle.std.specs.FinMap.{empty};
ghost use Rattle.cache_model.specs.CacheList.{CacheList};
ghost use Rattle.cache_model.specs.Loading.{load};
ghost use Rattle.cache_model.specs.Stands.{FlashStandsFor};
ghost use Rattle.op_log.specs.Log.{FitsOn};
ghost use Rattle.op_log.specs.Refusals.{open_failed, open_lost, IsRefusal};
ghost use Rattle.ssc.specs.CacheState.{IsUp, entries_of, geometry_of};
ghost use Rattle.ssc.specs.Errors.{ssc_failed, ssc_lost, stops};
ghost use Rattle.ssc.specs.Own.{HoldsOwn, KeepsOwn, LoadsOwn};
ghost use Rattle.ssc.specs.Scrubbed.{IsScrub};
ghost use Rattle.cache_history.specs.History.{TwoLists, given, both_alike, AfterAnswer, AfterRefusal};
ghost use Rattle.cache_history.specs.Moment.{IsMoment, IsNoEvent};

use crate::Kind;
use ft_base::{Block, Geometry};
use ft_media::Media;
use ssc::{OpenError, Scrub, Ssc, SscError};
use std::alloc::Global;

/// Gives a cache one command. Commit and checkpoint ignore the address, and only writes use the block.
pub fn give<M: Media>(
    cache: &mut Ssc,
    media: &mut M,
    kind: Kind,
    lba: u64,
    block: &Block,
) -> Result<(), SscError>
    requires up { IsUp cache.old (M.state media.old).contents }
    requires lba { lba < (geometry_of cache.old).size }
    ensures geometry { geometry_of cache.new ≡ geometry_of cache.old }
    ensures answered { OnOk result ((l : TwoLists) → IsMoment cache.old (M.state media.old).contents l → (m : TwoLists)
        × AfterAnswer (geometry_of cache.old) (given kind lba block.now) l m × IsMoment cache.new (M.state media.new).contents m) }
    // Whatever the call answers, and whenever power goes off.
    ensures images { (l : TwoLists) → IsMoment cache.old (M.state media.old).contents l → (x : Image) → Now (M.state media.new).contents x
        → (m : TwoLists) × AfterRefusal (geometry_of cache.old) (given kind lba block.now) l m
        × FlashStandsFor (geometry_of cache.old) x.page m.now }
    ensures no_event { IsNoEvent cache.old cache.new (M.state media.old) (M.state media.new) kind lba result }
    ensures stopped { cache.new.stopped ≡ stops result }
    ensures is_up { OnOk result (IsUp cache.new (M.state media.new).contents) }
    // If each block that is held was written for its own address, that stays so, whatever is answered.
    ensures own { KeepsOwn cache.old (M.state media.old).contents cache.new (M.state media.new).contents }
    ensures drives { DrivesFlash (M.state media.old) (M.state media.new) (ssc_failed result) (ssc_lost result) }
{
    match kind {
        Kind::WriteDirty => cache.write_dirty(media, lba, block),
        Kind::WriteLater => cache.write_later(media, lba, block),
        Kind::WriteClean => cache.write_clean(media, lba, block),
        Kind::Evict => cache.evict(media, lba),
        Kind::Clean => cache.clean(media, lba),
        Kind::Commit => cache.commit(media),
        Kind::Checkpoint => cache.checkpoint(media),
    }
}

/// Opens a cache on the flash that a crash left. If it fails or is cut, the flash still stands for the same list.
pub fn reopen<M: Media>(alloc: Global, media: &mut M, geometry: &Geometry) -> Result<Ssc, OpenError>
    requires { FitsOn geometry.now (M.state media.old).contents.shape }
    ensures geometry { IfOk result (λ c. geometry_of c ≡ geometry.now) }
    ensures moment { IfOk result (λ c. (s : CacheList) → FlashStandsFor geometry.now (M.state media.old).contents.flash.page s
        → IsMoment c (M.state media.new).contents (both_alike s)) }
    ensures images { (s : CacheList) → FlashStandsFor geometry.now (M.state media.old).contents.flash.page s → (x : Image)
        → Now (M.state media.new).contents x → FlashStandsFor geometry.now x.page s }
    ensures is_up { IfOk result (λ c. IsUp c (M.state media.new).contents) }
    // If each block that loading answers was written for its own address, that stays so, whatever is answered.
    ensures own { LoadsOwn geometry.now (M.state media.old).contents.flash.page
        → ((x : Image) → Now (M.state media.new).contents x → LoadsOwn geometry.now x.page)
        × IfOk result (λ c. HoldsOwn c (M.state media.new).contents) }
    ensures refused { IfErr result (λ e. IsRefusal geometry.now e (load geometry.now (M.state media.old).contents.flash.page)) }
    ensures drives { DrivesFlash (M.state media.old) (M.state media.new) (open_failed result) (open_lost result) }
{
    Ssc::open(alloc, media, geometry)
}

/// Makes the flash that of an empty cache, in which no block was written for another address.
pub fn clear<M: Media>(media: &mut M, geometry: &Geometry) -> Result<(), SscError>
    requires { FitsOn geometry.now (M.state media.old).contents.shape }
    ensures empty { OnOk result (FlashStandsFor geometry.now (M.state media.new).contents.flash.page empty) }
    ensures own { OnOk result (LoadsOwn geometry.now (M.state media.new).contents.flash.page) }
    ensures full { (n l : ℕ) → IsErrOf result (SscError.Full n l) → ⊥ }
    ensures memory { IsErrOf result SscError.OutOfMemory → ⊥ }
    ensures drives { DrivesFlash (M.state media.old) (M.state media.new) (ssc_failed result) (ssc_lost result) }
{
    Ssc::format(media, geometry)
}

/// Reads every page that is held. If each block was written for its own address, it finds nothing strange.
pub fn look<M: Media>(cache: &mut Ssc, media: &mut M) -> Result<Scrub, SscError>
    requires { IsUp cache.old (M.state media.old).contents }
    ensures same { cache.new ≡ cache.old }
    ensures found { IfOk result (IsScrub (geometry_of cache.old) (M.state media.old).contents.flash.page (entries_of cache.old)) }
    ensures full { (n l : ℕ) → IsErrOf result (SscError.Full n l) → ⊥ }
    ensures memory { IsErrOf result SscError.OutOfMemory → ⊥ }
    ensures own { HoldsOwn cache.old (M.state media.old).contents → IfOk result (λ scrub. scrub.strange ≡ None)
        × HoldsOwn cache.new (M.state media.new).contents }
    ensures reads { ReadsFlash (M.state media.old) (M.state media.new) (ssc_failed result) (ssc_lost result) }
{
    cache.scrub(media)
}
