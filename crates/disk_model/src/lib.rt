//! The disk half of a rig in memory: the values of each block since the last flush, counts, and calls that fail.
//!
//! The layer above relies on `Steps`, which says what each device write does to the disk when it is done, failed or
//! cut. It also relies on `ft_media`'s `after_cut`, which says what a crash settles. Each call of `MemDisk` is such a
//! step. `block_of_cut` computes what a cut leaves of one block.
//!
//! Every value since the last flush is kept, so each write takes the memory of a block. The value that it replaced is
//! freed when the disk is flushed or settled.
#![tactic(auto)]

mod definition;
mod disk;
mod replaced;
mod store;

pub use definition::block_of_cut;
pub use disk::MemDisk;
