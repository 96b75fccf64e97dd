//! Runs of small traces over small volumes, and a check whether a printed text is the text of a plain disk.
//!
//! The worked examples of the whole program stand on this crate. They are in several crates, so that these are proved
//! side by side.
#![tactic(auto)]

mod plain;
mod small;

pub use plain::{cuts_told, is_plain, is_plain_with, lost_told};
pub use small::{
    Manner, Outcome, Shape, THROUGH, at_flush, back, run, run_on, run_shared, shape_of, sweep_on,
};
