//! Raw flash: it gives back the bytes of a page, and doesn't say which of its pages are torn. Each page carries a seal,
//! from which the rig over it knows.
//!
//! The layers above rely on this: `SealedRig` meets `Media` and `Rig` over any `RawRig`. Its plain media are the ones
//! for which the raw media stand (`plain_state`), page by page as `classify` says. A page with its own seal is whole, a
//! page of all ones is blank, and any other page is torn.
//!
//! The one premise on raw flash is `never_sealed` of `RawMedia`. A failed step may leave a page that is neither
//! unchanged nor wholly programmed; such a page isn't sealed. In all else the clauses of `RawMedia` and `RawRig` are
//! the clauses of `ft_media`. `MemRawRig` is the one such rig: a `MemRig` that also keeps the last bytes of each page,
//! and shows random bytes for a torn one.
#![tactic(auto)]

mod media;
mod mem;
mod page;
pub mod plain;
mod rig;
mod sealed;
mod sealing;
mod seals;
mod shown;
mod tearing;

pub use media::RawMedia;
pub use mem::MemRawRig;
pub use page::RawPage;
pub use rig::RawRig;
pub use sealed::SealedRig;
pub use sealing::{classify, seal};
