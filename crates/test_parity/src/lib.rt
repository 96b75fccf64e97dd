//! Worked examples of flash with parity: which pages are rebuilt, and what is read of them.
//!
//! No layer stands on this crate; it has tests alone.
#![tactic(auto)]

#[cfg(test)]
mod filled;
#[cfg(test)]
mod marks;
#[cfg(test)]
mod rebuilt;
