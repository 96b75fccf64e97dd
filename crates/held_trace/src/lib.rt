//! The lines of a whole small trace, read before any of them is run.
//!
//! The layers above rely on this. `HeldTrace::take` reads a source to its end and holds each line of it, or names the
//! first line that a sweep refuses. A sweep cuts power itself, at each device write in turn, so it refuses a line
//! that cuts power. It runs the trace once for each device write, so it refuses a long trace. The definition
//! `sweep_readings` says the readings of the lines, and `plain_sweep_readings` computes it.
#![tactic(auto)]

mod front;
mod held;
mod limits;
mod plain;
#[cfg(test)]
mod rows;
mod taking;

pub use held::HeldTrace;
pub use plain::plain_sweep_readings;
pub use taking::TakeError;
