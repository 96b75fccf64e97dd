//! One run of a made trace, as the program makes it: flash and disk in memory, and a sink for the end line.
ghost use Rattle.std.specs.Prelude.{◌≡◌, ◌∷◌, ℕ, List, IfOk, IfSome, map};
ghost use Rattle.std.specs.String.{string_bytes};
ghost use Rattle.trace_model.specs.Text.{text_of};
ghost use Rattle.trace_model.specs.declared.answer.Answer.TheVariants as answer;

use flashtier_run::run_on;
use ft_base::{MemSink, MemSource};
use ft_media::{Counts, Rig};
use mem_rig::MemRig;
use sealed_media::{MemRawRig, RawMedia, RawRig};
use std::alloc::{AllocError, Global};
use std::io;
use std::rt::Clock;
use std::time::{Duration, Instant};
use trace_text::{Answer, next_line, read_answer};

/// Room for an end line: a word, three numbers, a digest and the spaces between them.
const ROOM: usize = 256;

/// The number from which torn pages of raw flash are drawn. No power is cut in a made trace, so no page is torn.
const TEAR: u64 = 1;

/// The numbers of an end line.
#[derive(Clone, Copy, Debug, PartialEq, Eq)]
pub struct End {
    /// Lines that wrote.
    pub writes: u64,
    /// Lines that read.
    pub reads: u64,
    /// Addresses that these lines named.
    pub touched: u64,
}

/// The measurement of a run.
#[derive(Clone, Copy, Debug, PartialEq, Eq)]
pub struct Replayed {
    /// The numbers of its end line.
    pub end: End,
    /// The counts of the device calls.
    pub counts: Counts,
    /// Pages of the flash.
    pub pages: u64,
    /// How long it took.
    pub time: Duration,
}

/// Runs the made trace that these options name. A status other than 0 is the `Err` within.
pub fn replay(
    rt: &(impl AllocGlobal + Clock),
    options: &[String],
) -> io::Result<Result<Replayed, u8>> {
    let ended = run_timed(rt, "gen", options, Vec::new(rt.alloc()), ROOM)?;
    if ended.status != 0 {
        return Ok(Err(ended.status));
    }
    let Some(end) = end_of(ended.text.as_slice()) else {
        return Err(io::Error::other("a run has no end line"));
    };
    let (counts, blocks, pages) = ended.flash();
    Ok(Ok(Replayed {
        end,
        counts,
        pages: u64::from(blocks).saturating_mul(u64::from(pages)),
        time: ended.time,
    }))
}

/// How a run of the program ended.
#[derive(Drop)]
pub(crate) struct Ended {
    /// Its status.
    pub(crate) status: u8,
    /// The text that it printed.
    pub(crate) text: Vec<u8>,
    /// Flash and disk, which a run with `--flash raw` leaves alone.
    pub(crate) rig: MemRig,
    /// Raw flash and its disk, which every other run leaves alone.
    pub(crate) raw: MemRawRig,
    /// How long it took.
    pub(crate) time: Duration,
}

impl Ended {
    /// The counts of the devices that it ran over, and the blocks of their flash and the pages of each.
    fn flash(&self) -> (Counts, u32, u32) {
        if self.raw.blocks() > 0 {
            return (self.raw.counts(), self.raw.blocks(), self.raw.pages());
        }
        (
            self.rig.counts(),
            self.rig.flash_blocks(),
            self.rig.flash_pages(),
        )
    }
}

/// Runs the program with this word and these options over a trace. There is room for `room` bytes of text.
pub(crate) fn run_timed(
    rt: &(impl AllocGlobal + Clock),
    command: &str,
    options: &[String],
    trace: Vec<u8>,
    room: usize,
) -> io::Result<Ended> {
    let alloc = rt.alloc();
    let words = words_of(alloc, command, options)?;
    let mut source = MemSource::new(trace, 4096, Vec::new(alloc));
    let mut sink = MemSink::new(alloc, room, 1 << 16, Vec::new(alloc))?;
    let mut rig = MemRig::new(alloc);
    let mut raw = MemRawRig::new(alloc, TEAR);
    let start = Instant::now(rt)?;
    let status = run_on(
        alloc,
        words.as_slice(),
        &mut source,
        &mut sink,
        &mut rig,
        &mut raw,
    );
    let time = start.elapsed(rt)?;
    let text = Vec::from_slice(alloc, sink.bytes())?;
    Ok(Ended {
        status,
        text,
        rig,
        raw,
        time,
    })
}

/// The words of the program: this word, and then these options.
fn words_of(alloc: Global, command: &str, options: &[String]) -> Result<Vec<String>, AllocError>
    ensures { IfOk result (λ words. map string_bytes words.items ≡ command.now ∷ map string_bytes options.now) }
{
    let mut words = Vec::new(alloc);
    words.push(String::from_str(alloc, command)?)?;
    for option in options {
        words.push(String::from_str(alloc, option.as_str())?)?;
    }
    Ok(words)
}

/// The numbers of this text, which is an end line and nothing else.
pub fn end_of(text: &[u8]) -> Option<End>
    ensures { IfSome result (λ end. (digest : List ℕ) × (text.now ≡ text_of (answer.End end.writes end.reads end.touched digest))) }
{
    let (line, rest) = next_line(text, false)?;
    if !rest.is_empty() {
        return None;
    }
    match read_answer(line)? {
        Answer::End {
            writes,
            reads,
            touched,
            ..
        } => Some(End {
            writes,
            reads,
            touched,
        }),
        _ => None,
    }
}
