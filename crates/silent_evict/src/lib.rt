//! The choice of the clean group that gives way when an erase block is needed. The disk has all blocks of a clean
//! group. So its data block can be taken back, and none of its blocks need be written to the disk first.
//!
//! The layer above relies on this: a victim is a group with a data block and no dirty address. No such group has fewer
//! held pages in its data block. There is no answer if there is no such group, and only then. It is left open which of
//! several equals is the answer. Choosing allocates nothing.
#![tactic(auto)]

pub mod laws;
pub mod plain;
mod victims;

pub use victims::Victims;
