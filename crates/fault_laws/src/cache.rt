//! The calls of a cache.
ghost use Rattle.std.specs.Prelude.{◌≡◌, ◌⊎◌, ℕ, Bool, false, Ok, Result, IfErr, IsOk, IsErrOf};
ghost use Rattle.ft_base.specs.declared.geometry.Geometry.{Geometry};
ghost use Rattle.ft_media.specs.State.{State};
ghost use Rattle.ft_media.specs.Drives.{DrivesFlash};
ghost use Rattle.ft_media.specs.Reads.{ReadsFlash};
ghost use Rattle.cache_model.specs.Loading.{load};
ghost use Rattle.cache_model.specs.Records.{Entries};
ghost use Rattle.op_log.specs.Refusals.{IsOfFlash, IsRefusal, open_failed, open_lost};
ghost use Rattle.op_log.specs.declared.error.OpenError.{OpenError};
ghost use Rattle.op_log.specs.declared.error.OpenError.TheVariants as opening;
ghost use Rattle.ssc.specs.declared.cache.Ssc.{Ssc};
ghost use Rattle.ssc.specs.declared.opening.LoadedCache.{LoadedCache};
ghost use Rattle.ssc.specs.declared.scrubbing.Scrub.{Scrub};
ghost use Rattle.ssc.specs.declared.error.SscError.{SscError};
ghost use Rattle.ssc.specs.declared.error.SscError.TheVariants.{Full, OutOfMemory};
ghost use Rattle.ssc.specs.Errors.{ssc_failed, ssc_lost};
ghost use Rattle.ssc.specs.Kept.{RefusesWrite, RunsCommand, RunsInPlace};
ghost use Rattle.fault_laws.specs.Faultless.{IsFull, NoneRose, OpensUnlessLoading};

/// The commands of a cache.
pub fn cache_laws()
    // Evict, clean, commit and checkpoint answer Ok.
    ensures in_place { (old new : Ssc) (before after : State) (result : Result (Unit {0}) SscError) → RunsInPlace old new before after result
        → NoneRose before.faults after.faults → IsOk result }
    // A write answers Ok, that the cache is full, or out of memory; the last only if its memory was not ready.
    ensures writes { (old new : Ssc) (before after : State) (result : Result (Unit {0}) SscError) → RunsCommand old new before after result
        → RefusesWrite old new before after result → NoneRose before.faults after.faults
        → IsOk result ⊎ IsFull result ⊎ (IsErrOf result OutOfMemory × (old.ready ≡ false)) }
    // A read, a scrub and a format answer Ok.
    ensures read { (before after : State) (result : Result Bool SscError) → ((n l : ℕ) → IsErrOf result (Full n l) → ⊥)
        → (IsErrOf result OutOfMemory → ⊥) → ReadsFlash before after (ssc_failed result) (ssc_lost result)
        → NoneRose before.faults after.faults → IsOk result }
    ensures scrub { (before after : State) (result : Result Scrub SscError) → ((n l : ℕ) → IsErrOf result (Full n l) → ⊥)
        → (IsErrOf result OutOfMemory → ⊥) → ReadsFlash before after (ssc_failed result) (ssc_lost result)
        → NoneRose before.faults after.faults → IsOk result }
    ensures format { (before after : State) (result : Result (Unit {0}) SscError) → ((n l : ℕ) → IsErrOf result (Full n l) → ⊥)
        → (IsErrOf result OutOfMemory → ⊥) → DrivesFlash before after (ssc_failed result) (ssc_lost result)
        → NoneRose before.faults after.faults → IsOk result }
{}

/// The openings of a cache.
pub fn opening_laws()
    // An opening, and its first step, answer Ok, out of memory, or just what loading refuses of this flash.
    ensures opens { (g : Geometry) (before after : State) (result : Result Ssc OpenError)
        → IfErr result (λ e. IsRefusal g e (load g before.contents.flash.page))
        → DrivesFlash before after (open_failed result) (open_lost result) → NoneRose before.faults after.faults
        → OpensUnlessLoading g result (load g before.contents.flash.page) }
    ensures loads { (g : Geometry) (before after : State) (result : Result LoadedCache OpenError)
        → IfErr result (λ e. IsRefusal g e (load g before.contents.flash.page))
        → ReadsFlash before after (open_failed result) (open_lost result) → NoneRose before.faults after.faults
        → OpensUnlessLoading g result (load g before.contents.flash.page) }
    // The second step answers Ok.
    ensures seals { (before after : State) (result : Result Ssc OpenError) → IfErr result IsOfFlash
        → DrivesFlash before after (open_failed result) (open_lost result) → NoneRose before.faults after.faults → IsOk result }
    // So flash that loads is opened, unless memory is refused.
    ensures loaded_flash_opens { (g : Geometry) (before after : State) (result : Result Ssc OpenError) (m : Entries)
        → load g before.contents.flash.page ≡ Ok m → IfErr result (λ e. IsRefusal g e (load g before.contents.flash.page))
        → DrivesFlash before after (open_failed result) (open_lost result) → NoneRose before.faults after.faults
        → IsOk result ⊎ IsErrOf result opening.OutOfMemory }
{}
