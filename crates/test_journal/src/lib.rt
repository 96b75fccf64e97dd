//! Worked examples of the log, of checkpoints and of loading. They show the flash after a flush and a commit, the flash
//! after one that is cut, and the result of loading a flash with given pages.
//!
//! No layer uses this crate; it has only tests.
#![tactic(auto)]

#[cfg(test)]
mod commits;
#[cfg(test)]
mod flash;
#[cfg(test)]
mod formats;
#[cfg(test)]
mod loads;
#[cfg(test)]
mod logs;
#[cfg(test)]
mod maps;
#[cfg(test)]
mod pages;
