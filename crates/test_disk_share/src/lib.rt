//! Worked examples of several disks that share one cache: texts, lines that are refused, and streams that fail. Random
//! traces with power cuts run over 2, 3 and 16 disks, in both modes and with both values of `--ack`. Their texts are the
//! ones that plain programs compute.
//!
//! No layer stands on this crate; it has only tests.
#![tactic(auto)]

#[cfg(test)]
mod random;
#[cfg(test)]
mod refused;
#[cfg(test)]
mod streams;
#[cfg(test)]
mod worked;
