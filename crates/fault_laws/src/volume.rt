//! The calls of a volume, and of both managers.
ghost use Rattle.std.specs.Prelude.{◌≡◌, ◌⊎◌, Ok, Result, IsErrOf};
ghost use Rattle.ft_base.specs.Contents.{Contents, Image, Now};
ghost use Rattle.ft_base.specs.Told.{Told};
ghost use Rattle.ft_base.specs.declared.geometry.Geometry.{Geometry};
ghost use Rattle.ft_media.specs.State.{State};
ghost use Rattle.ft_volume.specs.Opening.{Creates, MayOpen};
ghost use Rattle.ft_volume.specs.Volume.{Goes, VolumeState};
ghost use Rattle.ft_volume.specs.declared.volume.Idled.{Idled};
ghost use Rattle.ft_volume.specs.declared.volume.Report.{Report};
ghost use Rattle.ft_volume.specs.declared.volume.VolumeError.{VolumeError};
ghost use Rattle.ft_volume.specs.declared.volume.VolumeError.TheVariants.{OutOfVolume};
ghost use Rattle.cache_model.specs.Loading.{load};
ghost use Rattle.cache_model.specs.Records.{Entries};
ghost use Rattle.op_log.specs.declared.error.OpenError.{OpenError};
ghost use Rattle.cached_disk.specs.Kept.{IsOpening, told_of};
ghost use Rattle.write_back.specs.declared.volume.WriteBack.{WriteBack};
ghost use Rattle.write_back.specs.Left as back;
ghost use Rattle.write_through.specs.declared.volume.WriteThrough.{WriteThrough};
ghost use Rattle.write_through.specs.Left as through;
ghost use Rattle.fault_laws.specs.Faultless.{NoneRose, OpensUnlessLoading, ServesUnlessMemory, ServesUnlessOutside};

/// The calls of a volume.
pub fn volume_laws()
    // A read and a write answer Ok, out of memory, or that the address is outside.
    ensures serves { (old new : VolumeState) (before after : State) (result : Result (Unit {0}) VolumeError) → Goes old new before after result
        → NoneRose before.faults after.faults → ServesUnlessOutside result }
    // A flush, an idle step and a report answer Ok or out of memory.
    ensures flushes { (old new : VolumeState) (before after : State) (result : Result (Unit {0}) VolumeError) → Goes old new before after result
        → (IsErrOf result OutOfVolume → ⊥) → NoneRose before.faults after.faults → ServesUnlessMemory result }
    ensures idles { (old new : VolumeState) (before after : State) (result : Result Idled VolumeError) → Goes old new before after result
        → (IsErrOf result OutOfVolume → ⊥) → NoneRose before.faults after.faults → ServesUnlessMemory result }
    ensures reports { (old new : VolumeState) (before after : State) (result : Result Report VolumeError) → Goes old new before after result
        → (IsErrOf result OutOfVolume → ⊥) → NoneRose before.faults after.faults → ServesUnlessMemory result }
    // The making of a volume answers Ok or out of memory.
    ensures creates_back { (made : Told) (before after : State) (result : Result WriteBack VolumeError) → Creates made before after result
        → NoneRose before.faults after.faults → ServesUnlessMemory result }
    ensures creates_through { (made : Told) (before after : State) (result : Result WriteThrough VolumeError)
        → Creates made before after result → NoneRose before.faults after.faults → ServesUnlessMemory result }
    // An opening answers Ok, out of memory, or just what loading refuses of this flash.
    ensures opens_back { (g : Geometry) (before after : State) (result : Result WriteBack OpenError) → IsOpening g before after result
        → NoneRose before.faults after.faults → OpensUnlessLoading g result (load g before.contents.flash.page) }
    ensures opens_through { (g : Geometry) (before after : State) (result : Result WriteThrough OpenError) → IsOpening g before after result
        → NoneRose before.faults after.faults → OpensUnlessLoading g result (load g before.contents.flash.page) }
{}

/// What a volume left can be opened again: loading doesn't refuse its flash, and an opening may be called.
pub fn left_laws()
    ensures back { (v : WriteBack) (contents : Contents) → back.IsLeft v contents → MayOpen (told_of v.disk) contents
        × (m : Entries) × (load v.disk.options.geometry contents.flash.page ≡ Ok m) }
    ensures through { (v : WriteThrough) (contents : Contents) → through.IsLeft v contents → MayOpen (told_of v.disk) contents
        × (m : Entries) × (load v.disk.options.geometry contents.flash.page ≡ Ok m) }
{}
