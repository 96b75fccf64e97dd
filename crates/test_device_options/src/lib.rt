//! Worked examples of the options `--flash` and `--parity`: over raw flash, with parity and with both the program prints
//! what it prints over plain flash.
//!
//! No layer stands on this crate; it has tests alone.
#![tactic(auto)]

#[cfg(test)]
mod lost;
#[cfg(test)]
mod over;
#[cfg(test)]
mod same;
#[cfg(test)]
mod swept;
