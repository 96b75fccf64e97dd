//! A trace that is run over the devices that its words say.

use flashtier_run::run_on;
use ft_base::{MemSink, MemSource};
use mem_rig::MemRig;
use sealed_media::MemRawRig;
use std::alloc::{AllocError, Global};

/// The words of a small volume: 64 blocks in 16 groups, on flash with erase blocks of 4 pages.
pub(crate) const SMALL: [&str; 6] = [
    "--pages=4",
    "--data=2",
    "--log=2",
    "--journal=1",
    "--size=64",
    "--dirty=2",
];

/// No words: those of the plain devices, and of the default numbers.
pub(crate) const NONE: &[&str] = &[];

/// The words of the devices but the plain ones: raw flash, parity, and both.
pub(crate) const DEVICES: [&[&str]; 3] = [
    &["--flash=raw"],
    &["--parity", "on"],
    &["--flash", "raw", "--parity=on"],
];

/// How a run ended, what it printed, and how often a call of the plain flash failed.
#[derive(Drop)]
pub(crate) struct Outcome {
    pub(crate) status: u8,
    pub(crate) text: Vec<u8>,
    pub(crate) faults: u64,
}

/// The words, one after the other.
fn words_of(
    alloc: Global,
    command: &[&str],
    numbers: &[&str],
    devices: &[&str],
) -> Result<Vec<String>, AllocError> {
    let mut words = Vec::new(alloc);
    push_words(alloc, &mut words, command)?;
    push_words(alloc, &mut words, numbers)?;
    push_words(alloc, &mut words, devices)?;
    Ok(words)
}

fn push_words(alloc: Global, words: &mut Vec<String>, more: &[&str]) -> Result<(), AllocError> {
    for word in more {
        words.push(String::from_str(alloc, word)?)?;
    }
    Ok(())
}

/// Runs the words with a trace over two rigs, of both of which these calls of the flash fail.
pub(crate) fn run_failing(
    alloc: Global,
    command: &[&str],
    numbers: &[&str],
    devices: &[&str],
    trace: &[u8],
    failing: &[u64],
) -> Result<Outcome, AllocError> {
    let words = words_of(alloc, command, numbers, devices)?;
    let mut source = MemSource::new(Vec::from_slice(alloc, trace)?, 7, Vec::new(alloc));
    let mut sink = MemSink::new(alloc, 50_000, 100, Vec::new(alloc))?;
    let calls = Vec::from_slice(alloc, failing)?;
    let mut rig = MemRig::failing(alloc, calls, Vec::new(alloc));
    let calls = Vec::from_slice(alloc, failing)?;
    let mut raw = MemRawRig::failing(alloc, 7, calls, Vec::new(alloc));
    let status = run_on(
        alloc,
        words.as_slice(),
        &mut source,
        &mut sink,
        &mut rig,
        &mut raw,
    );
    Ok(Outcome {
        status,
        text: Vec::from_slice(alloc, sink.bytes())?,
        faults: rig.flash_faults(),
    })
}

/// Runs them over rigs of which no call fails.
pub(crate) fn run_over(
    alloc: Global,
    command: &[&str],
    numbers: &[&str],
    devices: &[&str],
    trace: &[u8],
) -> Result<Outcome, AllocError> {
    run_failing(alloc, command, numbers, devices, trace, &[])
}
