//! Errors of the disk, of the cache and of an opening, as the layer above answers them.
ghost use Rattle.std.specs.Prelude.{◌≡◌, ℕ};
ghost use Rattle.cached_disk.specs.Errors as errors;

use ft_media::MediaError;
use ft_volume::VolumeError;
use op_log::OpenError;
use ssc::SscError;

/// The error of a volume after the disk answered this error.
pub fn disk_error(error: MediaError) -> VolumeError
    ensures { result ≡ errors.disk_error error }
{
    match error {
        MediaError::Failed => VolumeError::DiskFault,
        MediaError::PowerLost => VolumeError::PowerLost,
        MediaError::OutOfMemory => VolumeError::OutOfMemory,
    }
}

/// The error of an opening after the flush of the disk answered this error.
pub fn flush_error(error: MediaError) -> OpenError
    ensures { result ≡ errors.flush_error error }
{
    match error {
        MediaError::Failed => OpenError::DiskFault,
        MediaError::PowerLost => OpenError::PowerLost,
        MediaError::OutOfMemory => OpenError::OutOfMemory,
    }
}

/// The error of a volume after the cache answered this error, which is not `Full`.
pub fn cache_error(error: SscError) -> VolumeError
    requires { (n limit : ℕ) → error ≡ SscError.Full n limit → ⊥ }
    ensures { errors.IsOfCache error result }
{
    match error {
        SscError::Full { .. } => unreachable!(),
        SscError::FlashFault => VolumeError::FlashFault,
        SscError::PowerLost => VolumeError::PowerLost,
        SscError::OutOfMemory => VolumeError::OutOfMemory,
    }
}

/// The error of a volume after an opening of its cache answered this error, which doesn't come from the flash's
/// contents.
pub fn open_error(error: OpenError) -> VolumeError
    requires { errors.IsFault error }
    ensures { errors.IsOfOpening error result }
{
    match error {
        OpenError::NotFormatted | OpenError::OtherGeometry { .. } | OpenError::Damaged { .. } => {
            unreachable!()
        }
        OpenError::FlashFault => VolumeError::FlashFault,
        OpenError::DiskFault => VolumeError::DiskFault,
        OpenError::PowerLost => VolumeError::PowerLost,
        OpenError::OutOfMemory => VolumeError::OutOfMemory,
    }
}
