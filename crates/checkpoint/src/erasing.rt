//! Erases of several erase blocks. A checkpoint region goes before its log, so that it never counts without the log.
ghost use Rattle.std.specs.Prelude.{◌≡◌, ◌<◌, ◌≤◌, ◌+◌, OnOk, IsErrOf};
ghost use Rattle.ft_base.specs.Layout.{k};
ghost use Rattle.ft_media.specs.State.{failed, lost};
ghost use Rattle.ft_media.specs.Drives.{DrivesFlash};
ghost use Rattle.op_log.specs.Log.{FitsOn};
ghost use Rattle.checkpoint.specs.Counts.{erases_counted};
ghost use Rattle.checkpoint.specs.Regions.{AreLost, AreBlank, NextStays, IsPrepared, IsUnsealed};

use ft_base::Geometry;
use ft_media::{Media, MediaError};

/// Erases `count` erase blocks from the first on, in order.
pub(crate) fn erase_blocks<M: Media>(
    media: &mut M,
    first: u32,
    count: u32,
) -> Result<(), MediaError>
    requires { first + count ≤ (M.state media.old).contents.shape.blocks }
    ensures blank { OnOk result (AreBlank first count (M.state media.new).contents.flash) }
    ensures next { OnOk result (NextStays first count (M.state media.old).contents.flash (M.state media.new).contents.flash) }
    ensures pages { AreLost first count (M.state media.old).contents.flash.page (M.state media.new).contents.flash.page }
    ensures counts { OnOk result ((M.state media.new).counts ≡ erases_counted count (M.state media.old).counts) }
    ensures programs { (M.state media.new).counts.programs ≡ (M.state media.old).counts.programs }
    ensures memory { IsErrOf result MediaError.OutOfMemory → ⊥ }
    ensures drives { DrivesFlash (M.state media.old) (M.state media.new) (failed result) (lost result) }
{
    for i in 0..count {
        media.erase(first + i)?;
    }
    Ok(())
}

/// Erases a checkpoint region, and then its log.
pub(crate) fn erase_regions<M: Media>(
    media: &mut M,
    geometry: &Geometry,
    region: u32,
) -> Result<(), MediaError>
    requires shape { FitsOn geometry.now (M.state media.old).contents.shape }
    requires region { region < 2 }
    ensures done { OnOk result (IsPrepared geometry.now region (M.state media.old).contents.flash (M.state media.new).contents.flash) }
    ensures pages { IsUnsealed geometry.now region (M.state media.old).contents.flash.page (M.state media.new).contents.flash.page }
    ensures counts { OnOk result ((M.state media.new).counts ≡ erases_counted (k geometry.now + geometry.now.j)
        (M.state media.old).counts) }
    ensures programs { (M.state media.new).counts.programs ≡ (M.state media.old).counts.programs }
    ensures memory { IsErrOf result MediaError.OutOfMemory → ⊥ }
    ensures drives { DrivesFlash (M.state media.old) (M.state media.new) (failed result) (lost result) }
{
    let k = geometry.k();
    // The region is erased first. Else it could be complete while its log is gone.
    erase_blocks(media, region * k, k)?;
    erase_blocks(media, 2 * k + region * geometry.j, geometry.j)?;
    Ok(())
}
