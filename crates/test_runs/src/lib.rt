//! Worked examples of the whole program, as tables. They have a trace, the text that it prints and its status. Others
//! are for both managers, refused lines, and traces in the form of MSR Cambridge. The last examples are for the costs
//! of traces, and for what a power cut loses of writes that are acknowledged for good at a flush.
//!
//! No layer stands on this crate; it has only tests.
#![tactic(auto)]

#[cfg(test)]
mod costs;
#[cfg(test)]
mod forms;
#[cfg(test)]
mod managers;
#[cfg(test)]
mod owing;
#[cfg(test)]
mod refusals;
#[cfg(test)]
mod replay;
