//! A volume that writes to its cache, and writes back to the disk later.
//!
//! The layer above relies on the clauses of `Volume`, and on the clauses of `create` and `open`. While a volume is up
//! its table has exactly the groups with a block that the disk lacks, with the group written last in front. After an
//! opening the dirty groups stand by address, with the highest in front. The last group is written back when a write
//! would need one group too many, or in an idle step.
#![tactic(auto)]

mod cleaning;
mod tables;
mod volume;
mod writing;

pub use volume::WriteBack;
