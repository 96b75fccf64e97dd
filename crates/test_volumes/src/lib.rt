//! Worked examples of both volumes: reads after a write, after a cut and after an opening, what reaches the disk and
//! when, and which calls fail.
//!
//! No layer uses this crate; it has only tests.
#![tactic(auto)]

#[cfg(test)]
mod back;
#[cfg(test)]
mod later;
#[cfg(test)]
mod opening;
#[cfg(test)]
mod steps;
#[cfg(test)]
mod through;
