//! The mode and the options of a volume that is not made yet, as one value.
use ft_volume::{Mode, Options};

/// What a new volume is set up with.
#[derive(Clone, Copy, Debug, PartialEq, Eq)]
pub struct Setup {
    /// When a block that was written comes to the disk.
    pub mode: Mode,
    /// What it is made with.
    pub options: Options,
}
