//! The map of a cache: which page of the flash has the block of each held address.
//!
//! The layers above see a `Map` as its geometry, the finite map of its entries, and the room that it has for changes.
//! They also see the records of a checkpoint and the numbers of its buckets. They rely on this: `fits` says exactly
//! which changes a cache may make, and `apply` is the step of `cache_model`. The records of `checkpoint_part` build the
//! same map from nothing.
//!
//! The entries stand in two packed maps: log blocks' entries by address, and data blocks by group. Beside them the map
//! keeps the owner of each page of the pool, the counts that a write asks for, and the data blocks that may give way.
#![tactic(auto)]

mod bits;
mod candidates;
mod checkpoint;
mod dirty;
mod fitting;
mod grouping;
mod held;
mod index;
pub mod laws;
mod map;
mod marks;
mod numbers;
mod page_at;
mod ranges;
mod seeking;
mod sets;
mod steps;

pub use map::Map;
pub use sets::PageSets;
