//! Worked examples of all text: the words of a command, the lines of a trace, the printed lines, and the scripts that
//! read and print these.
//!
//! No layer stands on this crate; it has only tests.
#![tactic(auto)]

#[cfg(test)]
mod answers;
#[cfg(test)]
mod lines;
#[cfg(test)]
mod made;
#[cfg(test)]
mod scripts;
#[cfg(test)]
mod words;
