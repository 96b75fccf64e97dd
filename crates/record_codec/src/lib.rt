//! Pages of records and seals, of formats 1 and 2: their bytes written and read.
//!
//! A page is a header of 32 bytes, then records or the numbers of a seal, then zero bytes. A record takes 32 bytes, or
//! 48 in format 2 if an erase block has more than 64 pages. The grammar is `cache_model`'s (`IsPage`, `IsSealOf`).
//! Every page that is written is in the grammar. Every page that is read is in it too, and no page in the grammar is
//! refused. Each value has one spelling, so reading spells the value again and compares. No call allocates anything.
#![tactic(auto)]

mod change;
mod header;
mod line;
mod page;
mod seal;
mod width;

pub use cache_model::{Header, PageKind, Seal, Totals};
pub use header::{read_header, read_page_header};
pub use page::{read_records, write_page};
pub use seal::{read_seal, write_seal};
