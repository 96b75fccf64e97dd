//! The program over a volume of 64 blocks in 16 groups, on flash with erase blocks of 4 pages.

use flashtier_run::run as run_words;
use ft_base::{Ack, MemSink, MemSource};
use mem_rig::MemRig;
use rand_core::utils::NextWord;
use rand_pcg::Lcg64Xsh32;
use std::alloc::{AllocError, Global};

/// How a small volume takes a write.
#[derive(Clone, Copy, PartialEq, Eq)]
pub enum Manner {
    /// The disk gets the block later, and the flash has it when the write answers.
    Back,
    /// The disk gets the block later, and the flash has it after the next flush at the latest.
    BackAtFlush,
    /// The disk gets the block within the write.
    Through,
}

impl Manner {
    /// The words for it: the value of `--mode`, and the value of `--ack`.
    fn words(self) -> (&'static str, &'static str) {
        match self {
            Manner::Back => ("back", "write"),
            Manner::BackAtFlush => ("back", "flush"),
            Manner::Through => ("through", "write"),
        }
    }

    /// When the writes of such a volume are acknowledged for good.
    pub fn ack(self) -> Ack {
        match self {
            Manner::Back | Manner::Through => Ack::Write,
            Manner::BackAtFlush => Ack::Flush,
        }
    }
}

/// The options with which a small volume is made.
#[derive(Clone, Copy)]
pub struct Shape {
    /// How the volume takes a write.
    pub manner: Manner,
    /// The number of erase blocks that hold whole groups, and the number that take writes.
    pub data: u64,
    pub log: u64,
    /// At most this many groups may stay dirty.
    pub dirty: u64,
}

/// A volume that writes back, whose table is full when all its groups are dirty.
pub fn back(data: u64, log: u64) -> Shape {
    Shape {
        manner: Manner::Back,
        data,
        log,
        dirty: data,
    }
}

/// The same, but the flash has a block after the next flush at the latest.
pub fn at_flush(data: u64, log: u64) -> Shape {
    Shape {
        manner: Manner::BackAtFlush,
        ..back(data, log)
    }
}

/// A volume of two groups that writes through.
pub const THROUGH: Shape = Shape {
    manner: Manner::Through,
    data: 2,
    log: 2,
    dirty: 1,
};

/// How a run ended, what it printed, and the rig that it left.
#[derive(Drop)]
pub struct Outcome {
    pub status: u8,
    pub text: Vec<u8>,
    pub rig: MemRig,
}

/// The words of a command over such a volume, some in one word and some in two.
fn words_of(alloc: Global, command: &str, shape: &Shape) -> Result<Vec<String>, AllocError> {
    let (mode, ack) = shape.manner.words();
    let mut words = Vec::new(alloc);
    words.push(String::from_str(alloc, command)?)?;
    words.push(String::from_str(alloc, "--pages=4")?)?;
    words.push(String::from_str(alloc, "--data")?)?;
    words.push(format!(in alloc; "{}", shape.data)?)?;
    words.push(format!(in alloc; "--log={}", shape.log)?)?;
    words.push(String::from_str(alloc, "--journal")?)?;
    words.push(String::from_str(alloc, "1")?)?;
    words.push(String::from_str(alloc, "--size=64")?)?;
    words.push(format!(in alloc; "--dirty={}", shape.dirty)?)?;
    words.push(String::from_str(alloc, "--mode")?)?;
    words.push(String::from_str(alloc, mode)?)?;
    words.push(format!(in alloc; "--ack={ack}")?)?;
    Ok(words)
}

/// Runs the words with a trace over this rig, in pieces of 7 bytes.
fn run_words_on(
    alloc: Global,
    words: &[String],
    trace: &[u8],
    mut rig: MemRig,
) -> Result<Outcome, AllocError> {
    let mut source = MemSource::new(Vec::from_slice(alloc, trace)?, 7, Vec::new(alloc));
    let mut sink = MemSink::new(alloc, 200_000, 100, Vec::new(alloc))?;
    let status = run_words(alloc, words, &mut source, &mut sink, &mut rig);
    let text = Vec::from_slice(alloc, sink.bytes())?;
    Ok(Outcome { status, text, rig })
}

/// Runs the trace over this rig.
pub fn run_on(
    alloc: Global,
    shape: &Shape,
    trace: &[u8],
    rig: MemRig,
) -> Result<Outcome, AllocError> {
    let words = words_of(alloc, "replay", shape)?;
    run_words_on(alloc, words.as_slice(), trace, rig)
}

/// The same over a rig whose calls never fail.
pub fn run(alloc: Global, shape: &Shape, trace: &[u8]) -> Result<Outcome, AllocError> {
    run_on(alloc, shape, trace, MemRig::new(alloc))
}

/// Runs the trace over so many disks that share the volume.
pub fn run_shared(
    alloc: Global,
    shape: &Shape,
    disks: u32,
    trace: &[u8],
) -> Result<Outcome, AllocError> {
    let mut words = words_of(alloc, "replay", shape)?;
    words.push(format!(in alloc; "--disks={disks}")?)?;
    run_words_on(alloc, words.as_slice(), trace, MemRig::new(alloc))
}

/// Sweeps the trace over this rig. The word says what a power cut leaves.
pub fn sweep_on(
    alloc: Global,
    shape: &Shape,
    outcome: &str,
    trace: &[u8],
    rig: MemRig,
) -> Result<Outcome, AllocError> {
    let mut words = words_of(alloc, "sweep", shape)?;
    words.push(format!(in alloc; "--outcome={outcome}")?)?;
    run_words_on(alloc, words.as_slice(), trace, rig)
}

/// A volume of two to five groups. Any of them may have to give way for the four groups that are written.
pub fn shape_of(words: &mut Lcg64Xsh32, manner: Manner) -> Shape {
    let data = 2 + words.next_word() as u64 % 4;
    Shape {
        manner,
        data,
        log: 2 + words.next_word() as u64 % 3,
        dirty: 1 + words.next_word() as u64 % data,
    }
}
