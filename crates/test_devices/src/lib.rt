//! Worked examples of the crates outside of the cache: streams, patterns and the layout of a flash, and what flash and
//! disk contain and what a crash may leave. Also flash, disk and power in memory: each call, and many calls beside
//! plain lists.
//!
//! No layer uses this crate; it has only tests.
#![tactic(auto)]

#[cfg(test)]
mod calls;
#[cfg(test)]
mod contents;
#[cfg(test)]
mod disk;
#[cfg(test)]
mod flash;
#[cfg(test)]
mod plain_rig;
#[cfg(test)]
mod rig;
#[cfg(test)]
mod streams;
