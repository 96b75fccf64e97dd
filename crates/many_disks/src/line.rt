//! The lines of a trace over several disks, as values: a choice of disk, or a line for the chosen one.

use trace_model::Line;

/// What a line of a trace over several disks says.
#[derive(Clone, Copy, Debug, PartialEq, Eq)]
pub enum ManyLine {
    /// Choose a disk for the lines that follow.
    Disk {
        /// The number of the disk, from 0.
        disk: u32,
    },
    /// Run a line.
    Plain {
        /// The line.
        line: Line,
    },
}
