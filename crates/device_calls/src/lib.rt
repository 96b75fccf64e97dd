//! The numbered calls of a device in memory: which of them fail, and how a device write ends, given the power.
//!
//! The layers above rely on `ending_of`. If power is off or goes off in a device write, that comes before a failure.
//! Else a call fails if its number is listed, and only then. Calls made with power off have no number.
#![tactic(auto)]

mod calls;
mod ending;

pub use calls::Calls;
pub use ending::{Current, Ending};
