//! A sweep, beside its runs one by one. The program runs the same trace once without a cut, and once for each device
//! write with power cut there. All are measured in one process, one after the other.
ghost use Rattle.std.specs.Prelude.{◌≡◌};
ghost use Rattle.bench_figures.specs.Figures.{hundredths, nanoseconds};

use crate::replayed::run_timed;
use bench_figures::{hundredths_of, nanoseconds};
use std::alloc::{AllocError, Global};
use std::io;
use std::rt::Clock;
use std::time::{Duration, Instant};

/// The trace writes this many blocks, each by a line of its own.
const WRITES: u64 = 32;

/// Room for the text of a sweep.
const ROOM: usize = 1 << 20;

/// The measurements of a sweep.
#[derive(Clone, Copy, Debug, PartialEq, Eq)]
pub struct Swept {
    /// The device writes of the trace, which is also the number of runs that are printed.
    pub runs: u64,
    /// How long the sweep took.
    pub sweep: Duration,
    /// How long its runs and the counting run took one by one, each over its own flash and disk.
    pub single: Duration,
}

impl Swept {
    /// The sweep's time divided by the time of its runs, in hundredths.
    pub fn ratio(&self) -> u64
        ensures { result ≡ hundredths (nanoseconds self.now.sweep) (nanoseconds self.now.single) }
    {
        hundredths_of(nanoseconds(self.sweep), nanoseconds(self.single))
    }
}

/// The lines of the trace, after these first lines.
fn trace_behind(alloc: Global, first: &str) -> Result<Vec<u8>, AllocError> {
    let mut trace = Vec::from_slice(alloc, first.as_bytes())?;
    for tag in 1..=WRITES {
        let line = format!(in alloc; "w {} 1 {tag}\n", tag * 67 % 1024)?;
        trace.extend_from_slice(line.as_bytes())?;
    }
    Ok(trace)
}

/// The number of runs with which the text of a sweep ends.
fn runs_in(text: &[u8]) -> Option<u64> {
    let text = str::from_utf8(text).ok()?;
    text.lines().last()?.strip_prefix("swept ")?.parse().ok()
}

/// Sweeps the trace over a cache of these options, and then makes its runs one by one. A status other than 0 is the
/// `Err` within.
pub fn sweep(rt: &(impl AllocGlobal + Clock), options: &[String]) -> io::Result<Result<Swept, u8>> {
    let alloc = rt.alloc();
    let swept = run_timed(rt, "sweep", options, trace_behind(alloc, "")?, ROOM)?;
    let Some(runs) = runs_in(swept.text.as_slice()) else {
        return Ok(Err(swept.status));
    };
    let start = Instant::now(rt)?;
    for number in 0..=runs {
        let stops = match number {
            0 => String::new(alloc),
            _ => format!(in alloc; "stop {number} torn\nstop 2 torn\n")?,
        };
        let trace = trace_behind(alloc, stops.as_str())?;
        run_timed(rt, "replay", options, trace, ROOM)?;
    }
    let single = start.elapsed(rt)?;
    Ok(Ok(Swept {
        runs,
        sweep: swept.time,
        single,
    }))
}
