//! A volume that writes each block to the disk before it answers, and keeps it in its cache, clean.
//!
//! The layer above relies on the clauses of `Volume`, and on the clauses of `create` and `open`. No block ever waits to
//! be written back: the table is empty at every moment. Whenever power stops, each block that the flash holds is the
//! disk's own.
#![tactic(auto)]

mod volume;
mod writing;

pub use volume::WriteThrough;
