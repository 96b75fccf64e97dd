//! Flash with parity: the last page of each erase block holds the exclusive or of the others, and a page that can't be
//! read is rebuilt from them.
//!
//! The layers above rely on this: `ParityRig` meets `Media` and `Rig` over any `Rig`, with the state `parity_state`. Its
//! flash is the flash beneath but for the last page of each block. A block is complete when its parity page was
//! programmed, up to its next erase. A page of a complete block can be read as long as only one of its pages fails
//! (`read_page`), and in a block that is full and ready the parity page is right (`parity_laws`). What it counts as failed
//! was counted beneath, from where `Start` says on.
#![tactic(auto)]

mod joining;
mod media;
mod parities;
pub mod plain;
mod rebuild;
mod rig;
mod start;
mod steps;
mod tally;
#[cfg(test)]
mod tests;

pub use rig::ParityRig;
pub use start::Start;
