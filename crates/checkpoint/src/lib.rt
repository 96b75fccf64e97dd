//! Checkpoints: the whole map in one of two regions. A checkpoint counts once it has its seal.
//!
//! Checkpoints are written in format 2; `newest` finds a checkpoint of either format.
//!
//! The layers above rely on this: `commit` never fails for room, since a log without a page left gives way to a
//! checkpoint. After `Ok` of `commit` or `checkpoint` the flash stands for the map. Whatever either answers, and
//! whenever power goes off in it, the flash stands for the map or for the same entries as before. No page of the pool
//! changes. `newest` finds the checkpoint that counts, and `format` makes an empty one. The laws of loading are in
//! `cache_laws::laws`.
#![tactic(auto)]

mod asking;
mod checkpoints;
mod erasing;
mod formatting;
mod pages;
mod reading;
mod regions;
mod walk;
mod writing;

pub use cache_laws::laws;
pub use checkpoints::Checkpoints;
pub use formatting::format;
pub use regions::newest;
pub use walk::Newest;
