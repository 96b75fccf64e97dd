//! The program as a call: words, a source, a sink and rigs in, a status out.
//!
//! `main` relies on the clauses of `run_on` alone, which are those of `run` over the one of two rigs that the words say. By `default_law` the word `replay` alone says the default options.
#![tactic(auto)]

mod laws;
mod over;
mod program;
mod running;
mod spelled;

pub use laws::{default_law, parity_law, words_law};
pub use program::{run, run_on};
