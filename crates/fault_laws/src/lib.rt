//! What the calls of a cache and of a volume may answer if no device failed and no power was lost.
//!
//! Each clause of these laws takes the clauses of one call, and gives the few answers that are left: Ok, the one refusal
//! that the numbers decide, and out of memory if the call takes any. So a caller that sees another answer knows that a
//! count of faults or of cuts rose, or stands at its last value. No crate stands on these laws: they are for whoever uses
//! a cache or a volume by itself.
#![tactic(auto)]

mod cache;
mod run;
mod volume;

pub use cache::{cache_laws, opening_laws};
pub use run::run_law;
pub use volume::{left_laws, volume_laws};
