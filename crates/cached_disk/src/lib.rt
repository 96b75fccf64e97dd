//! A cache over flash in front of a disk: the parts of a volume that are the same whether it writes through or back.
//!
//! The layer above relies on this: each image that a crash may leave of the media stands for a plain disk. Its cache
//! agrees with the disk at each clean address (`specs/Kept`). Reopening, reads that cache a block of the disk, flushes,
//! reports, checkpoints and cuts keep this, and say which dirty addresses they leave.
#![tactic(auto)]

mod disk;
mod errors;
mod opening;
mod reading;
mod resting;

pub use disk::CachedDisk;
pub use errors::{cache_error, disk_error};
pub use opening::LoadedDisk;
