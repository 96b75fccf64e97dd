//! The operation log: changes of the map are buffered, and one page of flash takes all of them at once.
//!
//! The layers above rely on this: `flush` programs one page of format 2 with all buffered changes, in order. Every
//! crash in it leaves that page whole, or a log that ends before it. `roll` applies the pages of a log of either format
//! to a map exactly as loading does.
#![tactic(auto)]

mod error;
mod log;
mod ring;
mod stamp;
mod walk;

pub use error::OpenError;
pub use log::OpLog;
pub use stamp::Stamp;
pub use walk::{Expected, apply_page, roll};
