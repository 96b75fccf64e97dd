//! Several plain disks: the text that they print of a trace.
//!
//! This crate is for tests, and no layer stands on it. `plain_many` prints what the disks answer, when it is known what
//! became of each line. `is_plain_many` reads that from a printed text, and says whether the disks print this text.
//! The programs read lines and answer them by their own rules, and not by those of the layers that they are for.
#![tactic(auto)]

mod became;
mod disks;
mod lines;
#[cfg(test)]
mod rows;
mod text;

pub use became::{Became, became_of, is_plain_many};
pub use lines::{DiskLine, line_says, lines_of};
pub use text::plain_many;
