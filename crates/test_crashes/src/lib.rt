//! Worked examples of the whole program over small traces. Many of them are random, with power cuts, over volumes of
//! both modes. In some traces each call of flash and disk fails in turn, and what is left of the media is opened. The
//! others are sweeps. Each text is the text that the plain programs compute.
//!
//! No layer stands on this crate; it has only tests.
#![tactic(auto)]

#[cfg(test)]
mod cuts;
#[cfg(test)]
mod faults;
#[cfg(test)]
mod left;
#[cfg(test)]
mod random;
#[cfg(test)]
mod swept;
