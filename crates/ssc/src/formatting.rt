//! Formatting, as a call of the cache: the flash then stands for an empty list.
ghost use Rattle.std.specs.Prelude.{◌≡◌, OnOk, IsErrOf, ℕ};
ghost use Rattle.std.specs.FinMap.{empty};
ghost use Rattle.ft_media.specs.Drives.{DrivesFlash};
ghost use Rattle.cache_model.specs.Stands.{FlashStandsFor};
ghost use Rattle.op_log.specs.Log.{FitsOn};
ghost use Rattle.checkpoint.specs.Counts.{format_counted};
ghost use Rattle.ssc.specs.Own.{LoadsOwn};
ghost use Rattle.ssc.specs.Errors.{ssc_failed, ssc_lost};

use crate::error::of_media;
use crate::{Ssc, SscError};
use checkpoint::format;
use ft_base::Geometry;
use ft_media::Media;

impl Ssc {
    /// Formats the flash for an empty cache. It erases as many blocks as both checkpoint regions and the first log
    /// region have, and programs one page. If it fails or is cut, the flash may stand for nothing.
    pub fn format<M: Media>(media: &mut M, geometry: &Geometry) -> Result<(), SscError>
        requires shape { FitsOn geometry.now (M.state media.old).contents.shape }
        ensures done { OnOk result (FlashStandsFor geometry.now (M.state media.new).contents.flash.page empty) }
        ensures own { OnOk result (LoadsOwn geometry.now (M.state media.new).contents.flash.page) }
        ensures counts { OnOk result ((M.state media.new).counts ≡ format_counted geometry.now (M.state media.old).counts) }
        ensures full { (n l : ℕ) → IsErrOf result (SscError.Full n l) → ⊥ }
        ensures memory { IsErrOf result SscError.OutOfMemory → ⊥ }
        ensures drives { DrivesFlash (M.state media.old) (M.state media.new) (ssc_failed result) (ssc_lost result) }
    {
        match format(media, geometry) {
            Ok(()) => Ok(()),
            Err(error) => Err(of_media(error)),
        }
    }
}
