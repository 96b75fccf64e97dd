//! The errors of commands: too many dirty groups, a flash that fails, power that is lost, and no memory.
ghost use Rattle.std.specs.Prelude.{◌≡◌};
ghost use Rattle.ssc.specs.Errors as errors;

use ft_media::MediaError;
use thiserror::Error;

/// Why a command of the cache failed.
#[derive(Clone, Copy, Debug, PartialEq, Eq, Error)]
pub enum SscError {
    /// There would be more groups with a dirty block than data blocks. Nothing has changed.
    #[error("the dirty groups would be more than the data blocks")]
    Full {
        /// The dirty groups, counting the group of the address.
        dirty_groups: u32,
        /// C, the most dirty groups that there may be.
        limit: u32,
    },
    /// The flash failed, and its count of faults rose.
    #[error("the flash failed")]
    FlashFault,
    /// Power was lost, and the count of cuts rose.
    #[error("power was lost")]
    PowerLost,
    /// There was no memory. Nothing has changed, except the order of the map's records and its buckets, which may have
    /// doubled as the wanted room needs.
    #[error("out of memory")]
    OutOfMemory,
}

/// The error of a command after the media answered this error.
pub(crate) fn of_media(error: MediaError) -> SscError
    ensures { result ≡ errors.of_media error }
{
    match error {
        MediaError::Failed => SscError::FlashFault,
        MediaError::PowerLost => SscError::PowerLost,
        MediaError::OutOfMemory => SscError::OutOfMemory,
    }
}
