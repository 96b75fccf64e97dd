//! Pages and seals of formats 1 and 2, spelled and read by plain programs, and flash with contents in format 1. Only
//! tests use this crate; no layer does.
//!
//! The programs follow the tables of `docs/FORMATS.md`: each number is put at its byte, and each byte that is named
//! there is looked at. `record_codec` compares spellings instead, and has contracts; these programs are proved only to
//! be safe and to return. They spell any values, even values that no page may have.
#![tactic(auto)]

mod bytes;
mod flash;
mod reading;
mod spelling;

pub use flash::{Old, Placed, made_old, tag_at};
pub use reading::{plain_header, plain_records, plain_seal};
pub use spelling::{spelled_page, spelled_seal};
