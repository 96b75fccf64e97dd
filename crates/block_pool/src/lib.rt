//! The erase blocks of the pool, each with a role and the count of its erases since opening.
//!
//! The layer above relies on this: `take` erases a free block with the fewest erases, and no other block. Of several
//! such blocks it takes the one with the lowest number. On `Err` the pool is unchanged, and the flash has lost at most
//! pages of that one block. Only `set_role` changes roles.
#![tactic(auto)]

pub mod plain;
mod pool;

pub use pool::{Pool, Role};

#[cfg(test)]
mod tests;
