//! The calls without an address: flush, report, and the checkpoint that an idle step may make.
ghost use Rattle.std.specs.Prelude.{◌≡◌, ◌*◌, ℕ, List, [], true, false, nat_le, length, if◌then◌else◌, IfOk, OnErr, OnOk, IsErrOf};
ghost use Rattle.std.specs.FinMap.{get};
ghost use Rattle.std.specs.Option.{is_some};
ghost use Rattle.ft_base.specs.Layout.{log_pages};
ghost use Rattle.ft_base.specs.Table.{goes_back};
ghost use Rattle.ft_volume.specs.Volume.{AsksDevices, Costs, Flushes, Idles, IsCheckpointed, Reports};
ghost use Rattle.ft_volume.specs.Reported.{IsReport};
ghost use Rattle.ssc.specs.CacheState.{entries_of, log_room, pending};
ghost use Rattle.cached_disk.specs.Kept.{AsksNoDisk, Loads, MayServe, Serves, state_in, told_of};
ghost use Rattle.cached_disk.specs.Kept as kept;

use crate::CachedDisk;
use crate::errors::cache_error;
use ft_media::Media;
use ft_volume::{Idled, Report, VolumeError};

impl CachedDisk {
    /// Puts all buffered changes of the cache on the flash.
    pub fn flush<M: Media>(&mut self, media: &mut M) -> Result<(), VolumeError>
        requires may { MayServe self.old (M.state media.old).contents }
        ensures serves { Serves Flushes self.old self.new (M.state media.old) (M.state media.new) result }
        ensures costs { (order : List ℕ) → Costs Flushes (state_in order self.old) (state_in order self.new) (M.state media.old)
            (M.state media.new) result }
        ensures asks { (order : List ℕ) → AsksDevices Flushes (state_in order self.old) (state_in order self.old) (state_in order self.new)
            (M.state media.old) (M.state media.new) result }
        ensures held { OnOk result ((a : ℕ) → is_some (get (entries_of self.new.cache) a) ≡ is_some (get (entries_of self.old.cache) a)) }
        ensures nothing_waits { OnOk result (pending self.new.cache ≡ []) }
        ensures no_disk { AsksNoDisk (M.state media.old) (M.state media.new) }
        ensures ready { self.new.cache.ready ≡ self.old.cache.ready }
        ensures refused { OnErr result (kept.is_down self.new ≡ true) }
        ensures memory { IsErrOf result VolumeError.OutOfMemory → ⊥ }
    {
        match self.cache.commit(media) {
            Ok(()) => Ok(()),
            Err(error) => Err(cache_error(error)),
        }
    }

    /// Puts all buffered changes of the cache on the flash, reads each page that is held, and counts them. If the
    /// volume is then up, nothing is buffered.
    pub fn report<M: Media>(&mut self, media: &mut M) -> Result<Report, VolumeError>
        requires may { MayServe self.old (M.state media.old).contents }
        ensures serves { Serves Reports self.old self.new (M.state media.old) (M.state media.new) result }
        ensures costs { (order : List ℕ) → Costs Reports (state_in order self.old) (state_in order self.new) (M.state media.old)
            (M.state media.new) result }
        ensures asks { (order : List ℕ) → AsksDevices Reports (state_in order self.old) (state_in order self.old) (state_in order self.new)
            (M.state media.old) (M.state media.new) result }
        ensures report { IfOk result (IsReport self.old.options.geometry (entries_of self.new.cache)) }
        // The flash has exactly these entries.
        ensures loads { OnOk result (Loads (told_of self.old) (M.state media.new).contents.flash.page (entries_of self.new.cache)) }
        ensures nothing_waits { kept.is_down self.new ≡ false → pending self.new.cache ≡ [] }
        ensures faulted { IsErrOf result VolumeError.DiskFault → kept.is_down self.new ≡ true }
        ensures memory { IsErrOf result VolumeError.OutOfMemory → ⊥ }
    {
        if let Err(error) = self.flush(media) {
            return Err(error);
        }
        match self.cache.scrub(media) {
            Ok(scrub) => Ok(Report {
                held: self.cache.held(),
                dirty_groups: self.cache.dirty_groups(),
                buckets: self.cache.buckets(),
                scrubbed: scrub.pages,
            }),
            Err(error) => Err(cache_error(error)),
        }
    }

    /// Makes a checkpoint if at most half of the log is left. An idle step does this when no group is to be written
    /// back.
    pub fn checkpoint_if_due<M: Media>(&mut self, media: &mut M) -> Result<Idled, VolumeError>
        requires may { MayServe self.old (M.state media.old).contents }
        ensures serves { Serves Idles self.old self.new (M.state media.old) (M.state media.new) result }
        ensures costs { (order : List ℕ) → goes_back self.old.mode self.old.options.dirty (length order) ≡ false
            → Costs Idles (state_in order self.old) (state_in order self.new) (M.state media.old) (M.state media.new) result }
        ensures asks { (order : List ℕ) → AsksDevices Idles (state_in order self.old) (state_in order self.old) (state_in order self.new)
            (M.state media.old) (M.state media.new) result }
        ensures idled { IfOk result (λ idled. idled ≡ (if nat_le (2 * log_room self.old.cache)
            (log_pages self.old.options.geometry) then Idled.Checkpointed else Idled.Nothing)) }
        ensures checkpoint { (order : List ℕ) → IfOk result (λ idled. idled ≡ Idled.Checkpointed
            → IsCheckpointed (state_in order self.new)) }
        ensures nothing { IfOk result (λ idled. idled ≡ Idled.Nothing
            → (self.new ≡ self.old) × (M.state media.new ≡ M.state media.old)) }
        ensures refused { OnErr result (kept.is_down self.new ≡ true) }
        ensures memory { IsErrOf result VolumeError.OutOfMemory → ⊥ }
    {
        let geometry = self.options.geometry;
        if 2 * self.cache.log_room() > geometry.j() * geometry.p() {
            return Ok(Idled::Nothing);
        }
        match self.cache.checkpoint(media) {
            Ok(()) => Ok(Idled::Checkpointed),
            Err(error) => Err(cache_error(error)),
        }
    }
}
