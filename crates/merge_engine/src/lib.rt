//! Merges: the data blocks and log blocks of a cache, and the steps that move blocks between them.
//!
//! `Parts` are the parts that the steps share, among them the map, the operation log, the pool and the log blocks. A
//! block is appended to the open log block. If all log blocks are in use, and some entry stands in each, the oldest is
//! freed. That merges each group with a page in it into a data block of its own. If the log block holds a group in
//! order, it becomes the data block itself. If all data blocks are in use, a clean group gives way.
//!
//! The layer above relies on this: between two steps the parts agree with the flash. A step that answers `Ok` leaves
//! the list of held blocks unchanged, or without some wholly clean groups that gave room. At every moment of a step,
//! whatever it answers, the flash stands for one of two lists. These are the list without the buffered changes, and the
//! list, which may have given room. No page that the flash's own map names is programmed again, and no erase block with
//! such a page is erased.
#![tactic(auto)]

mod appending;
mod committing;
mod copying;
mod freeing;
pub mod laws;
mod loading;
mod merging;
mod noting;
mod parts;
mod switching;

pub use appending::append;
pub use committing::{commit, make_checkpoint};
pub use freeing::free_log_block;
pub use loading::loaded;
pub use merging::merge_group;
pub use noting::{note_clean, put_out, put_page};
pub use parts::Parts;
