//! Traces in the form of MSR Cambridge: lines of `Timestamp,Hostname,DiskNumber,Type,Offset,Size,ResponseTime`.
//!
//! The layers above rely on this. `read_msr` reads one line, over the records that `csv` finds in it, and widens its
//! bytes to whole blocks of 4,096. It reads Type, Offset and Size. It does not look at the four other fields, so all
//! lines go to one volume. `MsrScript` gives the lines of a source in this form to `trace_replay`.
#![tactic(auto)]

mod fields;
#[cfg(test)]
mod plain;
mod read;
#[cfg(test)]
mod rows;
mod script;
#[cfg(test)]
mod script_rows;

pub use read::{MsrError, read_msr};
pub use script::{MsrForm, MsrScript};
