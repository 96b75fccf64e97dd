//! The program's one error, which tells no cause.

use ft_media::MediaError;
use std::alloc::AllocError;

/// It can't go on: no memory is left, a run ended early, or a device refused a call.
#[derive(Clone, Copy, Debug)]
pub(crate) struct Stuck;

impl From<AllocError> for Stuck {
    fn from(_error: AllocError) -> Stuck {
        Stuck
    }
}

impl From<MediaError> for Stuck {
    fn from(_error: MediaError) -> Stuck {
        Stuck
    }
}
