//! Single writes that are acknowledged for good when they answer, beside the same writes that are acknowledged for good
//! at the next flush. Both are measured in one process, one after the other.
ghost use Rattle.std.specs.Prelude.{◌≡◌};
ghost use Rattle.bench_figures.specs.Figures.{hundredths, nanoseconds};

use crate::replayed::run_timed;
use bench_figures::{hundredths_of, nanoseconds};
use ft_media::Rig;
use std::alloc::{AllocError, Global};
use std::io;
use std::rt::Clock;
use std::time::Duration;

/// The lines of the trace, each of which writes one block.
const WRITES: u64 = 20_000;

/// The writes go round so many addresses.
const ADDRESSES: u64 = 1_024;

/// Room for the text that the lines print.
const ROOM: usize = 1 << 20;

/// The measurements of both runs.
#[derive(Clone, Copy, Debug, PartialEq, Eq)]
pub struct Acked {
    /// The run with `--ack write`.
    pub write: Run,
    /// The run with `--ack flush`.
    pub flush: Run,
}

/// The measurement of one of them.
#[derive(Clone, Copy, Debug, PartialEq, Eq)]
pub struct Run {
    /// Pages that were programmed.
    pub programs: u64,
    /// How long it took.
    pub time: Duration,
}

impl Acked {
    /// The programs with `--ack flush` divided by those with `--ack write`, in hundredths.
    pub fn programs_ratio(&self) -> u64
        ensures { result ≡ hundredths self.now.flush.programs self.now.write.programs }
    {
        hundredths_of(self.flush.programs, self.write.programs)
    }

    /// The time with `--ack flush` divided by the time with `--ack write`, in hundredths.
    pub fn time_ratio(&self) -> u64
        ensures { result ≡ hundredths (nanoseconds self.now.flush.time) (nanoseconds self.now.write.time) }
    {
        hundredths_of(nanoseconds(self.flush.time), nanoseconds(self.write.time))
    }
}

/// Single writes of the addresses in turn, so that each group is in order.
fn trace(alloc: Global) -> Result<Vec<u8>, AllocError> {
    let mut trace = Vec::new(alloc);
    for number in 0..WRITES {
        let line = format!(in alloc; "w {} 1 {}\n", number % ADDRESSES, number.saturating_add(1))?;
        trace.extend_from_slice(line.as_bytes())?;
    }
    Ok(trace)
}

/// Runs the trace over the default cache with this word. Gives the text beside the measurement, and a status other than
/// 0 as the `Err` within.
fn run_with(rt: &(impl AllocGlobal + Clock), ack: &str) -> io::Result<Result<(Run, Vec<u8>), u8>> {
    let alloc = rt.alloc();
    let option = vec![in alloc; String::from_str(alloc, ack)?]?;
    let ended = run_timed(rt, "replay", option.as_slice(), trace(alloc)?, ROOM)?;
    if ended.status != 0 {
        return Ok(Err(ended.status));
    }
    let run = Run {
        programs: ended.rig.counts().programs,
        time: ended.time,
    };
    Ok(Ok((run, ended.text)))
}

/// Runs the trace with both values of `--ack`. A status other than 0 is the `Err` within.
pub fn write_acked(rt: &(impl AllocGlobal + Clock)) -> io::Result<Result<Acked, u8>> {
    let (write, text) = match run_with(rt, "--ack=write")? {
        Ok(ran) => ran,
        Err(status) => return Ok(Err(status)),
    };
    let (flush, other) = match run_with(rt, "--ack=flush")? {
        Ok(ran) => ran,
        Err(status) => return Ok(Err(status)),
    };
    // Without a cut nothing is lost.
    if text.as_slice() != other.as_slice() {
        return Err(io::Error::other("the two runs tell two texts"));
    }
    Ok(Ok(Acked { write, flush }))
}
