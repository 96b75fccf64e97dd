//! The words after the program's name, read as a command.
//!
//! The program relies on `command_of` alone: unless memory is refused, it answers a command exactly when the
//! words are one, with just what they say (`specs/Command`), and the devices that it runs over. By `command_law` no
//! words say two things.
#![tactic(auto)]

mod command;
mod devices;
mod laws;
mod matching;
mod number;
mod settings;

pub use command::{Command, TraceForm, command_of};
pub use devices::{Devices, FlashKind, Parity, Spoken};
pub use laws::command_law;
