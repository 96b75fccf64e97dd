//! The solid-state cache: a device that is addressed by the disk's own addresses, with seven commands.
//!
//! The layers above see a cache and its flash as a list of held blocks, each dirty or clean (`Holds`). They rely on
//! this: each command that answers `Ok` is its step on the list. A crash at any moment of a command leaves flash that
//! stands for one of three lists. These are the list before it without the buffered changes, that list with them, and
//! the list after the step. `open` holds exactly the list for which the flash stands, in two steps, the first of which
//! only reads. A write may let wholly clean groups go, if more than C groups would be held. No call of the disk is
//! made.
#![tactic(auto)]

mod cache;
mod commands;
mod earlier;
mod error;
mod formatting;
mod listing;
mod opening;
mod putting;
mod scrubbing;

pub use cache::Ssc;
pub use error::SscError;
pub use op_log::OpenError;
pub use opening::LoadedCache;
pub use scrubbing::Scrub;
