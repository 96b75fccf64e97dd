//! Measures the whole program in four ways. A made trace is run over flash and disk in memory, beside its floor: the
//! cost of the same pages and blocks in a plain loop. Single writes are run with both values of `--ack`. A sweep is run
//! beside its runs one by one. A trace is run in both forms of lines. The sides of each comparison are measured in one
//! process, one after the other.
#![tactic(auto)]

pub mod acked;
pub mod floor;
pub mod forms;
pub mod memory;
pub mod replayed;
pub mod ring;
pub mod row;
pub mod slot;
pub mod swept;

use acked::{Acked, write_acked};
use floor::floor;
use forms::{Formed, read_forms};
use memory::peak_memory;
use replayed::replay;
use row::{Row, print_head};
use std::io;
use std::rt::{Clock, Files};
use swept::{Swept, sweep};

/// Runs the made trace that these options of `gen` name, and prints a row; then single writes with both values of
/// `--ack`. Answers the status of the first run that ends with another one than 0.
pub fn measure(
    rt: &(impl AllocGlobal + Clock + Files + Print + Eprint),
    options: &[String],
) -> io::Result<u8> {
    let run = match replay(rt, options)? {
        Ok(run) => run,
        Err(status) => {
            eprintln!(rt; "bench: the run ended with status {status}")?;
            return Ok(status);
        }
    };
    // The program doesn't need the memory of the floor, so the peak is read first.
    let peak = peak_memory(rt);
    let floor = floor(rt, run.pages, run.counts.programs, run.end.touched)?;
    let row = Row { run, floor, peak };
    print_head(rt)?;
    let line = row.line(rt.alloc())?;
    println!(rt; "{line}")?;
    measure_acked(rt)
}

/// Runs single writes with both values of `--ack`, and prints how many pages each programmed and how long each took.
/// Answers the status of a run.
fn measure_acked(rt: &(impl AllocGlobal + Clock + Print + Eprint)) -> io::Result<u8> {
    let acked: Acked = match write_acked(rt)? {
        Ok(acked) => acked,
        Err(status) => {
            eprintln!(rt; "bench: a run ended with status {status}")?;
            return Ok(status);
        }
    };
    let (programs, time) = (acked.programs_ratio(), acked.time_ratio());
    let (write, flush) = (acked.write, acked.flush);
    println!(rt;
        "20000 single writes: --ack write {} programs in {} ms, --ack flush {} in {} ms: {}.{:02} of the programs, {}.{:02} of the time",
        write.programs,
        write.time.as_millis(),
        flush.programs,
        flush.time.as_millis(),
        programs / 100,
        programs % 100,
        time / 100,
        time % 100
    )?;
    Ok(0)
}

/// Sweeps a trace over a cache of these options. Prints how long the sweep took, and how long its runs took one by
/// one. Answers the status of the sweep.
pub fn measure_sweep(
    rt: &(impl AllocGlobal + Clock + Print + Eprint),
    options: &[String],
) -> io::Result<u8> {
    let swept: Swept = match sweep(rt, options)? {
        Ok(swept) => swept,
        Err(status) => {
            eprintln!(rt; "bench: the sweep ended with status {status}")?;
            return Ok(status);
        }
    };
    let (ratio, runs) = (swept.ratio(), swept.runs);
    let (sweep, single) = (swept.sweep.as_millis(), swept.single.as_millis());
    println!(rt;
        "{runs} runs: a sweep takes {sweep} ms, its runs one by one {single} ms: {}.{:02} times",
        ratio / 100,
        ratio % 100
    )?;
    Ok(0)
}

/// Runs a trace that reads cached blocks in both forms of lines, over a cache of these options, and prints how long
/// each took. Answers the status of a run.
pub fn measure_forms(
    rt: &(impl AllocGlobal + Clock + Print + Eprint),
    options: &[String],
) -> io::Result<u8> {
    let formed: Formed = match read_forms(rt, options)? {
        Ok(formed) => formed,
        Err(status) => {
            eprintln!(rt; "bench: a run ended with status {status}")?;
            return Ok(status);
        }
    };
    let (ratio, reading, floor) = (formed.ratio(), formed.reading_ratio(), formed.floor_ratio());
    let (words, msr) = (formed.words.as_millis(), formed.msr.as_millis());
    println!(rt;
        "20001 lines: of words {words} ms, in the form msr {msr} ms: {}.{:02} times; reading these alone: {}.{:02} times; the lines of words take {}.{:02} times a copy and a hash each",
        ratio / 100,
        ratio % 100,
        reading / 100,
        reading % 100,
        floor / 100,
        floor % 100
    )?;
    Ok(0)
}
