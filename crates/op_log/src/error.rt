//! The errors of an opening: flash that is refused, devices that fail, power that is lost, and no memory.
ghost use Rattle.std.specs.Prelude.{◌≡◌};
ghost use Rattle.op_log.specs.Refusals.{opening_refusal};

use cache_model::Seal;
use ft_media::MediaError;
use std::alloc::AllocError;
use thiserror::Error;

/// Why a cache could not be opened.
#[derive(Clone, Copy, Debug, PartialEq, Eq, Error)]
pub enum OpenError {
    /// No checkpoint on the flash is complete.
    #[error("the flash isn't formatted")]
    NotFormatted,
    /// The newest checkpoint was made for other numbers.
    #[error("the flash was formatted for another geometry")]
    OtherGeometry {
        /// The numbers of the checkpoint.
        found: Seal,
        /// The numbers that were asked for.
        wanted: Seal,
    },
    /// The records of a page can't be read or don't fit, or the page of an entry isn't whole.
    #[error("a page is damaged")]
    Damaged {
        /// The erase block of the page.
        block: u32,
        /// The page within the erase block.
        page: u32,
    },
    /// The flash failed, and its count of faults rose.
    #[error("the flash failed")]
    FlashFault,
    /// The disk failed, and its count of faults rose.
    #[error("the disk failed")]
    DiskFault,
    /// Power went off in this call, or was off.
    #[error("power was lost")]
    PowerLost,
    /// There was no memory.
    #[error("out of memory")]
    OutOfMemory,
}

impl From<AllocError> for OpenError {
    ghost use Rattle.std.specs.Prelude.{◌≡◌};
    ghost use Rattle.op_log.specs.declared.error.OpenError.TheVariants.{OutOfMemory as NoMemory};

    ghost from_gives = { λ e s. s ≡ NoMemory };

    fn from(error: AllocError) -> Self {
        OpenError::OutOfMemory
    }
}

/// The error of an opening after a read of the flash that failed.
pub(crate) fn of_media(error: MediaError) -> OpenError
    ensures { result ≡ opening_refusal error }
{
    match error {
        MediaError::Failed => OpenError::FlashFault,
        MediaError::PowerLost => OpenError::PowerLost,
        MediaError::OutOfMemory => OpenError::OutOfMemory,
    }
}
