//! A map from 64-bit keys that takes little memory. For each 64 buckets it has a list, with a 64-bit number that says
//! which of them are occupied. The list has the items of the occupied buckets alone, packed in bucket order. To the
//! layers above these are groups of 32 buckets.
//!
//! Room is taken ahead: after `reserve(n)` the next `n` new keys go in without memory. So a layer above can reserve
//! before it writes anything that it could not undo. A layer above relies on the map from keys to values, on the
//! numbers `buckets` and `spare`, and on the groups as `group_at` shows them.
#![tactic(auto)]

mod group;
mod home;
mod map;
mod moving;
mod plan;
mod table;
#[cfg(test)]
mod tests;

pub use map::SparseMap;
