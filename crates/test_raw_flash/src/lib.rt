//! Worked examples of raw flash: the meaning of a page's bytes.
//!
//! No layer uses this crate; it has only tests.
#![tactic(auto)]

#[cfg(test)]
mod pages;
