//! The log blocks in use, as a list to whose end each new block goes, and the open one, whose pages are programmed one
//! after another.
//!
//! The layer above relies on this: the list has distinct erase blocks, at most L of them, and the open block is its
//! last. `append` programs the open block's next page, with the address in the page's spare bytes. Whatever it answers,
//! no other page changes. Only `new` allocates anything.
#![tactic(auto)]

mod laws;
mod logs;
pub mod plain;

pub use laws::{laws_of_a_block_put_at_the_end, laws_of_a_block_taken_out, laws_of_places};
pub use logs::LogBlocks;
