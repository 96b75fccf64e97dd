//! The power during a call of a device, and the endings that a device write may have.

use ft_base::Outcome;

/// The power of a device during one call.
#[derive(Clone, Copy, Debug, PartialEq, Eq)]
pub enum Current {
    /// Power is on, and stays on.
    On,
    /// Power goes off in this call, which must be a device write, and leaves this outcome.
    Stops(Outcome),
    /// Power is off.
    Off,
}

/// How a device write ended.
#[derive(Clone, Copy, Debug, PartialEq, Eq)]
pub enum Ending {
    /// The write was done.
    Done,
    /// The device failed.
    Failed,
    /// Power went off in the write, and left this outcome.
    Cut(Outcome),
    /// Power was off, and nothing was done.
    Off,
}
