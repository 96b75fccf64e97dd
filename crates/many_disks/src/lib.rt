//! Several disks of equal size under one cache.
//!
//! The disks lie one after the other in one volume. A line of the trace chooses the disk that the following lines
//! name, and addresses in lines and answers are those of the chosen disk.
//!
//! The layers above rely on this. `read_many` reads one line, and gives it the addresses of the volume. `replay_many`
//! runs a trace of such lines over any volume, and prints what that many plain disks answer, whenever power stops.
//! It does so by `ManyScript`, a script for `trace_replay`. The definitions stand in `specs/`.
#![tactic(auto)]

mod laws;
mod line;
mod next;
mod printing;
mod read;
mod replaying;
#[cfg(test)]
mod rows;
mod script;
mod tally;

pub use laws::{each_disk_is_alone, own_lines_law};
pub use line::ManyLine;
pub use read::read_many;
pub use replaying::replay_many;
pub use script::ManyScript;
