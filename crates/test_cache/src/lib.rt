//! Worked examples of the cache's commands, over media that are cut: what the cache holds before a cut and after it,
//! what it refuses, and how much it writes. Also which groups give way, and how flash of format 1, and flash that
//! somebody else wrote, is taken over. The merges below the commands are here too: the places of pages, and what a merge
//! writes.
//!
//! No layer uses this crate; it has only tests.
#![tactic(auto)]

#[cfg(test)]
mod bench;
#[cfg(test)]
mod device;
#[cfg(test)]
mod foreign;
#[cfg(test)]
mod groups;
#[cfg(test)]
mod later;
#[cfg(test)]
mod lists;
#[cfg(test)]
mod merges;
#[cfg(test)]
mod migration;
#[cfg(test)]
mod parts;
#[cfg(test)]
mod refusals;
#[cfg(test)]
mod stops;
