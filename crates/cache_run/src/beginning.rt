//! What a run begins with: a rig that is fitted, and a new volume on it.
ghost use Rattle.std.specs.Prelude.{◌≡◌, OnOk, OnErr, IfOk};
ghost use Rattle.ft_base.specs.declared.told.Mode.TheVariants.{Back, Through};
ghost use Rattle.ft_volume.specs.Volume.{told_for};
ghost use Rattle.write_back.specs.Left as back;
ghost use Rattle.write_through.specs.Left as through;
ghost use Rattle.cache_run.specs.Begun.{Begins, IsNewVolume};
ghost use Rattle.cache_run.specs.Fitted.{fitted_for};

use ft_base::Geometry;
use ft_media::{Media, Rig};
use ft_volume::Options;
use std::alloc::{AllocError, Global};
use trace_replay::{Ended, end_at};
use write_back::WriteBack;
use write_through::WriteThrough;

/// Makes the rig anew, with just the blocks, the pages and the disk that a cache of this geometry has.
fn fit_for<R: Rig>(alloc: Global, rig: &mut R, geometry: &Geometry) -> Result<(), AllocError>
    ensures fitted { OnOk result (R.state rig.new ≡ fitted_for geometry.now (R.state rig.old)) }
    ensures refused { OnErr result (R.state rig.new ≡ R.state rig.old) }
{
    rig.fit(alloc, geometry.blocks(), geometry.p(), geometry.size())
}

/// Fits the rig and makes a volume on it that writes back: a disk of zero blocks, which owes nothing.
pub(crate) fn begin_back<R: Rig>(
    alloc: Global,
    rig: &mut R,
    options: &Options,
) -> Result<WriteBack, Ended>
    ensures new { IfOk result (λ v. IsNewVolume (told_for Back options.now) (back.IsLeft v) (back.owes v) (back.state_of v)
        (R.state rig.old) (R.state rig.new)) }
    ensures begins { Begins result (R.state rig.old) (R.state rig.new) }
{
    let Ok(()) = fit_for(alloc, rig, &options.geometry) else {
        return Err(Ended::Memory);
    };
    match WriteBack::create(alloc, rig, options) {
        Ok(volume) => Ok(volume),
        Err(error) => Err(end_at(error)),
    }
}

/// Fits the rig and makes a volume on it that writes through: a disk of zero blocks, which owes nothing.
pub(crate) fn begin_through<R: Rig>(
    alloc: Global,
    rig: &mut R,
    options: &Options,
) -> Result<WriteThrough, Ended>
    ensures new { IfOk result (λ v. IsNewVolume (told_for Through options.now) (through.IsLeft v) (through.owes v) (through.state_of v)
        (R.state rig.old) (R.state rig.new)) }
    ensures begins { Begins result (R.state rig.old) (R.state rig.new) }
{
    let Ok(()) = fit_for(alloc, rig, &options.geometry) else {
        return Err(Ended::Memory);
    };
    match WriteThrough::create(alloc, rig, options) {
        Ok(volume) => Ok(volume),
        Err(error) => Err(end_at(error)),
    }
}
