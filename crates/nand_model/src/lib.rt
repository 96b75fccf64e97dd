//! The flash half of a rig in memory: pages, which erase blocks are ready, counts, and calls that fail.
//!
//! The layer above relies on `Steps`, which says what each device write does to the flash when it is done, failed or
//! cut. Each call of `MemNand` is such a step. The layer above says which current a device write has; the flash knows
//! of no stop. `page_of_cut_program` and `page_of_cut_erase` compute what a cut leaves of one page.
#![tactic(auto)]

mod blocks;
mod cuts;
mod definition;
mod erase_block;
mod nand;
mod stored;

pub use definition::{page_of_cut_erase, page_of_cut_program};
pub use nand::MemNand;
