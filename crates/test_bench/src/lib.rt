//! Worked examples of the measuring parts: each map and its row, a run of the whole program and its row, and the
//! floor.
//!
//! No layer stands on this crate; it has only tests.
#![tactic(auto)]

#[cfg(test)]
mod clock;
#[cfg(test)]
mod maps;
#[cfg(test)]
mod runs;
