//! The row of a run.
ghost use Rattle.std.specs.Prelude.{◌≡◌, ◌/◌};
ghost use Rattle.bench_figures.specs.Figures.{hundredths, nanoseconds, requests};

use crate::replayed::Replayed;
use bench_figures::{hundredths_of, nanoseconds};
use std::alloc::{AllocError, Global};
use std::io;
use std::time::Duration;

/// Nanoseconds of a millisecond.
const MILLISECOND: u64 = 1_000_000;

/// The measurements of a run and of its floor.
#[derive(Clone, Copy)]
pub struct Row {
    /// The run.
    pub run: Replayed,
    /// The time of the floor.
    pub floor: Duration,
    /// The most memory that the process had until the end of the run, in kB.
    pub peak: Option<u64>,
}

/// The means that a row shows.
#[derive(Clone, Copy, Debug, PartialEq, Eq)]
pub struct Figures {
    /// Lines that wrote or read.
    pub requests: u64,
    /// Milliseconds of the run, in hundredths.
    pub run: u64,
    /// Milliseconds of the floor, in hundredths.
    pub floor: u64,
    /// The run's time divided by the floor's time, in hundredths.
    pub ratio: u64,
    /// Nanoseconds for each request.
    pub request: u64,
}

impl Row {
    /// The means that the row shows.
    pub fn figures(&self) -> Figures
        ensures requests { result.requests ≡ requests self.now.run.end.writes self.now.run.end.reads }
        ensures run { result.run ≡ hundredths (nanoseconds self.now.run.time) 1000000 }
        ensures floor { result.floor ≡ hundredths (nanoseconds self.now.floor) 1000000 }
        ensures ratio { result.ratio ≡ hundredths (nanoseconds self.now.run.time) (nanoseconds self.now.floor) }
        ensures request { result.request ≡ nanoseconds self.now.run.time / requests self.now.run.end.writes self.now.run.end.reads }
    {
        let requests = self.run.end.writes.saturating_add(self.run.end.reads);
        let run = nanoseconds(self.run.time);
        let floor = nanoseconds(self.floor);
        Figures {
            requests,
            run: hundredths_of(run, MILLISECOND),
            floor: hundredths_of(floor, MILLISECOND),
            ratio: hundredths_of(run, floor),
            request: mean_of(run, requests),
        }
    }

    /// The text of the row.
    pub fn line(&self, alloc: Global) -> Result<String, AllocError> {
        let figures = self.figures();
        let counts = self.run.counts;
        format!(in alloc;
            "{:>8} {:>8} {:>8} {:>7} {:>8} {:>8} {:>8} {:>7}.{:02} {:>6}.{:02} {:>3}.{:02} {:>10} {:>8}",
            figures.requests,
            self.run.end.touched,
            counts.programs,
            counts.erases,
            counts.disk_reads,
            counts.disk_writes,
            counts.disk_flushes,
            figures.run / 100,
            figures.run % 100,
            figures.floor / 100,
            figures.floor % 100,
            figures.ratio / 100,
            figures.ratio % 100,
            figures.request,
            kilobytes(alloc, self.peak)?
        )
    }
}

/// A total divided by a count, rounded down; 0 if nothing was counted.
fn mean_of(total: u64, count: u64) -> u64
    ensures { result ≡ total / count }
{
    if count == 0 {
        return 0;
    }
    total / count
}

/// The memory, or a dash if it is not known.
fn kilobytes(alloc: Global, peak: Option<u64>) -> Result<String, AllocError> {
    match peak {
        Some(peak) => format!(in alloc; "{peak}"),
        None => String::from_str(alloc, "-"),
    }
}

/// Prints the names of the columns.
pub fn print_head(rt: &(impl Print + AllocGlobal)) -> io::Result<()> {
    println!(rt;
        "{:>8} {:>8} {:>8} {:>7} {:>8} {:>8} {:>8} {:>10} {:>9} {:>6} {:>10} {:>8}",
        "requests",
        "touched",
        "programs",
        "erases",
        "reads",
        "writes",
        "flushes",
        "run ms",
        "floor ms",
        "ratio",
        "ns/request",
        "peak kB"
    )
}
