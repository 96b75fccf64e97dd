//! The rows of the table.
ghost use Rattle.std.specs.Prelude.{◌≡◌};
ghost use Rattle.bench_figures.specs.Figures.{tenths, nanoseconds, operations};

use crate::churn::Churned;
use crate::measured::Size;
use crate::round::Times;
use bench_figures::{nanoseconds, tenths_of};
use std::alloc::{AllocError, Global};
use std::io;

/// The measurements of one map at one number of entries.
#[derive(Clone, Copy)]
pub struct Row {
    /// The name of the map.
    pub name: &'static str,
    /// The size of the map with all keys.
    pub size: Size,
    /// The most bytes that the map took while it was filled.
    pub peak: u64,
    /// The time of all operations together.
    pub times: Times,
    /// How often each operation was done on each entry.
    pub rounds: u32,
}

/// The figures of a row, all in tenths: bytes for each entry, and nanoseconds for each operation.
#[derive(Clone, Copy, Debug, PartialEq, Eq)]
pub struct Figures {
    /// Bytes with all keys.
    pub bytes: u64,
    /// The most bytes while the map was filled.
    pub peak: u64,
    /// A look-up.
    pub lookup: u64,
    /// An insertion.
    pub insertion: u64,
    /// A removal.
    pub removal: u64,
}

impl Row {
    /// The means that the row shows.
    pub fn figures(&self) -> Figures
        ensures bytes { result.bytes ≡ tenths self.now.size.bytes self.now.size.entries }
        ensures peak { result.peak ≡ tenths self.now.peak self.now.size.entries }
        ensures lookup { result.lookup ≡ tenths (nanoseconds self.now.times.lookups) (operations self.now.size.entries self.now.rounds) }
        ensures insertion { result.insertion ≡ tenths (nanoseconds self.now.times.insertions)
            (operations self.now.size.entries self.now.rounds) }
        ensures removal { result.removal ≡ tenths (nanoseconds self.now.times.removals) (operations self.now.size.entries self.now.rounds) }
    {
        let entries = self.size.entries;
        let operations = entries.saturating_mul(u64::from(self.rounds));
        Figures {
            bytes: tenths_of(self.size.bytes, entries),
            peak: tenths_of(self.peak, entries),
            lookup: tenths_of(nanoseconds(self.times.lookups), operations),
            insertion: tenths_of(nanoseconds(self.times.insertions), operations),
            removal: tenths_of(nanoseconds(self.times.removals), operations),
        }
    }

    /// The text of the row.
    pub fn line(&self, alloc: Global) -> Result<String, AllocError> {
        let figures = self.figures();
        let (bytes, peak) = (figures.bytes, figures.peak);
        let (lookup, insertion, removal) = (figures.lookup, figures.insertion, figures.removal);
        format!(in alloc;
            "{:<6} {:>8} {:>8} {:>9}.{} {:>8}.{} {:>8}.{} {:>10}.{} {:>8}.{}",
            self.name,
            self.size.entries,
            self.size.buckets,
            bytes / 10,
            bytes % 10,
            peak / 10,
            peak % 10,
            lookup / 10,
            lookup % 10,
            insertion / 10,
            insertion % 10,
            removal / 10,
            removal % 10
        )
    }
}

/// The text of the row of a map whose entries come and go. Bytes are for each entry, and times are nanoseconds for each
/// step.
pub fn churn_line(
    alloc: Global,
    name: &'static str,
    churned: &Churned,
) -> Result<String, AllocError> {
    let size = churned.size;
    let bytes = tenths_of(size.bytes, size.entries);
    let step = tenths_of(nanoseconds(churned.time), u64::from(churned.steps));
    format!(in alloc;
        "{:<6} {:>8} {:>8} {:>9}.{} {:>8}.{}",
        name,
        size.entries,
        size.buckets,
        bytes / 10,
        bytes % 10,
        step / 10,
        step % 10
    )
}

/// Prints this row.
pub fn print_churn(
    rt: &(impl Print + AllocGlobal),
    name: &'static str,
    churned: &Churned,
) -> io::Result<()> {
    let row = churn_line(rt.alloc(), name, churned)?;
    println!(rt; "{row}")
}

/// Prints the names of the columns for maps whose entries come and go.
pub fn print_churn_head(rt: &(impl Print + AllocGlobal)) -> io::Result<()> {
    println!(rt;
        "{:<6} {:>8} {:>8} {:>11} {:>10}",
        "churn", "entries", "buckets", "bytes/entry", "step ns"
    )
}

/// Prints the names of the columns.
pub fn print_head(rt: &(impl Print + AllocGlobal)) -> io::Result<()> {
    println!(rt;
        "{:<6} {:>8} {:>8} {:>11} {:>10} {:>10} {:>12} {:>10}",
        "map",
        "entries",
        "buckets",
        "bytes/entry",
        "peak/entry",
        "look-up ns",
        "insertion ns",
        "removal ns"
    )
}
