//! Worked examples of the whole program's commands and streams. Traces come in pieces of every size, and each read of
//! the source and each write of the sink fails in turn. Others are for made traces, for held lines, for the contents
//! that a trace leaves in the cache, and for words that are no command.
//!
//! No layer stands on this crate; it has only tests.
#![tactic(auto)]

#[cfg(test)]
mod held;
#[cfg(test)]
mod inspected;
#[cfg(test)]
mod made;
#[cfg(test)]
mod pieces;
#[cfg(test)]
mod untouched;
