//! A sweep: a trace that is run once for each of its device writes, with power cut there and shortly after.
//!
//! The program relies on the clauses of `sweep_with`. They rest on the clauses of three calls: `HeldTrace::take`
//! reads the whole trace, and `count_lines` and `replay_lines` each run it over a new volume. The definition
//! `text_at` says what a run prints, and `plain_text_at` computes it.
#![tactic(auto)]

mod plain;
mod printing;
mod runs;
mod sweeping;
mod taking;

pub use plain::plain_text_at;
pub use sweeping::sweep_with;
