//! The laws of what a flash is loaded as, of the bytes that spell it, and of commands that are only buffered.
//!
//! They are the contracts of the empty functions in `laws`, over the definitions of `cache_model`. The first four of
//! them are why a checkpoint is safe: lost pages complete nothing, map pages alone complete nothing, the later of two
//! checkpoints is chosen, and loading looks at little. `checkpoint` hands them on. No proof of another crate cites these
//! functions: the lemmas that proofs above cite are in `cache_model`.
#![tactic(auto)]

pub mod laws;
