//! The spare bytes of a page, written and read: the purpose of the page, its era, and its address.
//!
//! The grammar is `cache_model`'s `IsSpare`. All bytes that are written are in it. All bytes that are read are in it
//! too, and no bytes in it are refused. Loading reads no spare bytes; only a scrub of the flash does.
#![tactic(auto)]

mod spare;

pub use cache_model::SpareKind;
pub use spare::{read_spare, write_spare};
