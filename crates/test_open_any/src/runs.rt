//! What real runs leave on the flash.

use crate::flash::put_pages;
use crate::stuck::Stuck;
use cache_run::{Setup, replay_with};
use ft_base::{Geometry, MemSink, MemSource, Page};
use ft_volume::{Ack, Mode, Options};
use mem_rig::MemRig;
use rand_core::SeedableRng;
use rand_core::utils::NextWord;
use rand_pcg::Lcg64Xsh32;
use std::alloc::{AllocError, Global};

/// The numbers of a cache, and its flash: the pages of each erase block in turn.
#[derive(Drop)]
pub(crate) struct Left {
    pub(crate) geometry: Geometry,
    pub(crate) pages: Vec<Page>,
}

/// Words for what a cut leaves.
const OUTCOMES: [&str; 4] = ["blank", "whole", "torn", "mixed"];

/// Erase blocks of 4 pages, two to four data blocks, and two or three log blocks, before 64 disk blocks.
fn options_of(words: &mut Lcg64Xsh32) -> Option<Options> {
    let c = 2 + words.next_word() % 3;
    let l = 2 + words.next_word() % 2;
    let dirty = 1 + words.next_word() % c;
    match Geometry::new(4, c, l, 1, 64) {
        Ok(geometry) => Some(Options {
            geometry,
            dirty,
            ack: Ack::Write,
        }),
        Err(_) => None,
    }
}

/// A line over the first 16 blocks: a write or a read of up to 3 blocks, a flush, an idle step, a stop at one of the
/// next 16 device writes, or a cut.
fn push_line(
    alloc: Global,
    trace: &mut Vec<u8>,
    words: &mut Lcg64Xsh32,
    tag: u64,
) -> Result<(), AllocError> {
    let kind = words.next_word() % 20;
    let first = words.next_word() % 14;
    let some = 1 + words.next_word() % 3;
    let after = 1 + words.next_word() % 16;
    let outcome = OUTCOMES[(words.next_word() % 4) as usize];
    let line = if kind < 11 {
        format!(in alloc; "w {first} {some} {tag}\n")?
    } else if kind < 15 {
        format!(in alloc; "r {first} {some}\n")?
    } else if kind == 15 {
        format!(in alloc; "i\n")?
    } else if kind == 16 {
        format!(in alloc; "cut {outcome}\n")?
    } else if kind < 19 {
        format!(in alloc; "stop {after} {outcome}\n")?
    } else {
        format!(in alloc; "f\n")?
    };
    trace.extend_from_slice(line.as_bytes())?;
    Ok(())
}

/// A trace of so many lines.
fn trace_of(alloc: Global, words: &mut Lcg64Xsh32, lines: u64) -> Result<Vec<u8>, AllocError> {
    let mut trace = Vec::new(alloc);
    for tag in 1..=lines {
        push_line(alloc, &mut trace, words, tag)?;
    }
    Ok(trace)
}

/// The rig after a run of the trace.
fn rig_after(alloc: Global, setup: &Setup, trace: Vec<u8>) -> Result<MemRig, AllocError> {
    let mut source = MemSource::new(trace, 4096, Vec::new(alloc));
    let mut sink = MemSink::new(alloc, 20_000, 4096, Vec::new(alloc))?;
    let mut rig = MemRig::new(alloc);
    // However it ends, it leaves its flash.
    let _ = replay_with(alloc, setup, &mut source, &mut sink, &mut rig);
    rig.turn_on();
    Ok(rig)
}

/// What the run of a number leaves: in turn one that writes back and one that writes through, each of 4 to 35 lines.
pub(crate) fn left_by(alloc: Global, number: u64) -> Result<Left, Stuck> {
    let mut words = Lcg64Xsh32::seed_from_u64(number);
    let mode = if number % 2 == 0 {
        Mode::Back
    } else {
        Mode::Through
    };
    let Some(options) = options_of(&mut words) else {
        return Err(Stuck);
    };
    let lines = 4 + u64::from(words.next_word() % 32);
    let trace = trace_of(alloc, &mut words, lines)?;
    let mut rig = rig_after(alloc, &Setup { mode, options }, trace)?;
    let mut pages = Vec::new(alloc);
    put_pages(&mut rig, &mut pages)?;
    let geometry = options.geometry;
    Ok(Left { geometry, pages })
}
