//! The lists that a cache holds after any commands, crashes and openings.
//!
//! `give` is a command of any kind, and `reopen` an opening. Each says how the two lists of a cache change: the list
//! that it holds and the list that a crash would leave. `history_laws` says what follows over any number of them. A
//! write may let wholly clean groups go.
//!
//! These laws are for users of a cache by itself. An address that was evicted, or gave way, stays absent until it is
//! written again. A dirty block stays until its address is written, evicted or cleaned. No block older than the newest
//! acknowledged one is read, and each dirty address is listed.
//!
//! From `clear` on, each block that is held has the spare bytes of its own address, whatever `give` and `reopen`
//! answer. So `look` finds nothing strange.
#![tactic(auto)]

mod commands;
mod kind;
mod laws;

pub use commands::{clear, give, look, reopen};
pub use kind::Kind;
pub use laws::history_laws;
