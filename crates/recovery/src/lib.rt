//! Recovery: the map for which the flash stands, loaded from the media alone.
//!
//! The layers above rely on this. Unless the flash fails, power is lost or there is no memory, `load` answers exactly
//! as loading is defined to answer for flash of format 1 or 2, refusals included. It writes nothing. `plain` has a slow
//! program with the same definition for its contract, over all pages of a flash in one list.
#![tactic(auto)]

mod finding;
mod loading;
mod places;
pub mod plain;

pub use loading::{Loaded, load};
pub use op_log::OpenError;
