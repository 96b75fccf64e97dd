//! Worked examples of the parts of a cache: records and entries, the bytes of pages, the map, victims, and log blocks.
//!
//! No layer uses this crate; it has only tests.
#![tactic(auto)]

#[cfg(test)]
mod appended;
#[cfg(test)]
mod codec;
#[cfg(test)]
mod entries;
#[cfg(test)]
mod maps;
#[cfg(test)]
mod pages;
#[cfg(test)]
mod random;
#[cfg(test)]
mod seals;
#[cfg(test)]
mod spares;
#[cfg(test)]
mod victims;
