//! A trace that reads cached blocks, in both forms of lines, beside a plain loop that copies and hashes as many blocks;
//! and lines in the form of MSR Cambridge that ask for nothing, so that they cost only their reading. All are measured
//! in one process, one after the other.
ghost use Rattle.std.specs.Prelude.{◌≡◌};
ghost use Rattle.bench_figures.specs.Figures.{hundredths, nanoseconds};

use crate::floor::floor;
use crate::replayed::run_timed;
use bench_figures::{hundredths_of, nanoseconds};
use std::alloc::{AllocError, Global};
use std::io;
use std::rt::Clock;
use std::time::Duration;

/// The lines behind the first one, each of which reads one of four blocks.
const LINES: u64 = 20_000;

/// Room for the text that the lines print.
const ROOM: usize = 1 << 20;

/// The timestamp of the first line of a trace in the form of MSR Cambridge.
const TIME: u64 = 128_166_372_003_061_629;

/// The times that were measured of the forms.
#[derive(Clone, Copy, Debug, PartialEq, Eq)]
pub struct Formed {
    /// How long the lines of words took.
    pub words: Duration,
    /// How long the same lines took in the form of MSR Cambridge.
    pub msr: Duration,
    /// How long as many lines in that form took that ask for no byte.
    pub reading: Duration,
    /// How long a plain loop took that copies a page and hashes a block for each line.
    pub floor: Duration,
}

impl Formed {
    /// The time of the MSR Cambridge lines divided by the time of the lines of words, in hundredths.
    pub fn ratio(&self) -> u64
        ensures { result ≡ hundredths (nanoseconds self.now.msr) (nanoseconds self.now.words) }
    {
        hundredths_of(nanoseconds(self.msr), nanoseconds(self.words))
    }

    /// The time of the reading alone divided by the time of the lines of words, in hundredths.
    pub fn reading_ratio(&self) -> u64
        ensures { result ≡ hundredths (nanoseconds self.now.reading) (nanoseconds self.now.words) }
    {
        hundredths_of(nanoseconds(self.reading), nanoseconds(self.words))
    }

    /// The time of the lines of words divided by the time of the plain loop, in hundredths.
    pub fn floor_ratio(&self) -> u64
        ensures { result ≡ hundredths (nanoseconds self.now.words) (nanoseconds self.now.floor) }
    {
        hundredths_of(nanoseconds(self.words), nanoseconds(self.floor))
    }
}

/// Lines that write four blocks, and then read them one by one.
fn words_trace(alloc: Global) -> Result<Vec<u8>, AllocError> {
    let mut trace = Vec::from_slice(alloc, b"w 0 4 1\n")?;
    for number in 0..LINES {
        let line = format!(in alloc; "r {} 1\n", number % 4)?;
        trace.extend_from_slice(line.as_bytes())?;
    }
    Ok(trace)
}

/// The same lines in the form of MSR Cambridge, each of which asks for `size` bytes.
fn msr_trace(alloc: Global, size: u64) -> Result<Vec<u8>, AllocError> {
    let mut trace = Vec::from_slice(alloc, b"128166372003061628,hm,0,Write,0,16384,41286\n")?;
    for number in 0..LINES {
        let (time, offset) = (TIME.saturating_add(number), number % 4 * 4096);
        let line = format!(in alloc; "{time},hm,0,Read,{offset},{size},41286\n")?;
        trace.extend_from_slice(line.as_bytes())?;
    }
    Ok(trace)
}

/// These options, and after them the options for the form of MSR Cambridge.
fn with_form(alloc: Global, options: &[String]) -> Result<Vec<String>, AllocError> {
    let mut words = Vec::new(alloc);
    for option in options {
        words.push(String::from_str(alloc, option.as_str())?)?;
    }
    words.push(String::from_str(alloc, "--form")?)?;
    words.push(String::from_str(alloc, "msr")?)?;
    Ok(words)
}

/// Runs the trace in both forms over a cache of these options, and as many lines that ask for nothing; then the plain
/// loop. A status other than 0 is the `Err` within.
pub fn read_forms(
    rt: &(impl AllocGlobal + Clock),
    options: &[String],
) -> io::Result<Result<Formed, u8>> {
    let alloc = rt.alloc();
    let others = with_form(alloc, options)?;
    let words = run_timed(rt, "replay", options, words_trace(alloc)?, ROOM)?;
    if words.status != 0 {
        return Ok(Err(words.status));
    }
    let msr = run_timed(
        rt,
        "replay",
        others.as_slice(),
        msr_trace(alloc, 4096)?,
        ROOM,
    )?;
    let reading = run_timed(rt, "replay", others.as_slice(), msr_trace(alloc, 0)?, ROOM)?;
    if msr.text.as_slice() != words.text.as_slice() {
        return Err(io::Error::other("the two forms print two texts"));
    }
    Ok(Ok(Formed {
        words: words.time,
        msr: msr.time,
        reading: reading.time,
        floor: floor(rt, 4, LINES, LINES)?,
    }))
}
