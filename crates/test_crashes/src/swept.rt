//! Sweeps: the runs of a trace with power cut in each of its device writes. Each run prints what a plain disk prints.

use ft_base::Ack;
use ft_media::Rig;
use mem_rig::MemRig;
use rand_core::SeedableRng;
use rand_core::utils::NextWord;
use rand_pcg::Lcg64Xsh32;
use std::alloc::{AllocError, Global};
use std::ops::Range;
use std::process::Abort;
use std::test::Fail;
use test_small_runs::{
    Manner, Outcome, Shape, THROUGH, at_flush, back, is_plain_with, shape_of, sweep_on,
};
use trace_model::Answer;
use trace_sweep::plain_text_at;
use trace_text::next_line;

/// The words for the outcomes of a power cut.
const OUTCOMES: [&str; 4] = ["blank", "whole", "torn", "mixed"];

/// The end line of a trace that named address 0, which is a zero block.
const ZERO: &str = "end 1 0 1 4f2cfec1c5dc3827cdeb42906713b37cae91e009aa0e2d211c376ccb9969b3ea";

fn sweep(alloc: Global, shape: &Shape, outcome: &str, trace: &[u8]) -> Result<Outcome, AllocError> {
    sweep_on(alloc, shape, outcome, trace, MemRig::new(alloc))
}

/// The text of one run, and the bytes after it.
fn run_text(alloc: Global, text: &[u8]) -> Result<(Vec<u8>, &[u8]), Fail> {
    let mut run = Vec::new(alloc);
    let mut rest = text;
    for _ in 0..text.len() {
        let Some((line, after)) = next_line(rest, true) else {
            break;
        };
        if line.starts_with(b"at ") || line.starts_with(b"swept ") {
            break;
        }
        run.extend_from_slice(line)?;
        run.push(b'\n')?;
        rest = after;
    }
    Ok((run, rest))
}

/// Whether a plain disk prints this text of the trace, with power cut in this device write and in the second one
/// after it.
fn is_plain_at(
    alloc: Global,
    ack: Ack,
    number: u64,
    outcome: &str,
    trace: &[u8],
    run: &[u8],
) -> Result<bool, AllocError> {
    let stops = format!(in alloc; "stop {number} {outcome}\nstop 2 {outcome}\n")?;
    let mut lines = Vec::from_slice(alloc, stops.as_bytes())?;
    lines.extend_from_slice(trace)?;
    is_plain_with(alloc, ack, lines.as_slice(), run, 64)
}

/// The number of runs in a text, if each is what a plain disk prints.
fn runs_in(
    alloc: Global,
    ack: Ack,
    outcome: &str,
    trace: &[u8],
    text: &[u8],
) -> Result<Option<u64>, Fail> {
    let mut rest = text;
    let mut runs: u64 = 0;
    for _ in 0..text.len() {
        let Some((line, after)) = next_line(rest, true) else {
            break;
        };
        let number = runs.saturating_add(1);
        let at = format!(in alloc; "at {number}")?;
        if line != at.as_bytes() {
            let last = format!(in alloc; "swept {runs}")?;
            let is_last = line == last.as_bytes() && after.is_empty();
            return Ok(if is_last { Some(runs) } else { None });
        }
        let (run, later) = run_text(alloc, after)?;
        if !is_plain_at(alloc, ack, number, outcome, trace, run.as_slice())? {
            return Ok(None);
        }
        rest = later;
        runs = number;
    }
    Ok(None)
}

#[test]
fn each_device_write_of_a_write_is_cut(rt: HostRuntime) -> Result<(), Fail> {
    let alloc = rt.alloc();
    let torn = sweep(alloc, &back(2, 2), "torn", b"w 0 1 1\n")?;
    let mut text = Vec::new(alloc);
    for number in 1..=3 {
        let run = format!(in alloc; "at {number}\nstopped\nstopped\nkept 0 of 1\n{ZERO}\n")?;
        text.extend_from_slice(run.as_bytes())?;
    }
    text.extend_from_slice(b"swept 3\n")?;
    assert_eq!(rt; (torn.status, torn.text.as_slice()), (0, text.as_slice()));
    Ok(())
}

// The third device write is the log page that commits the block.
#[test]
fn a_write_that_is_whole_is_kept(rt: HostRuntime) -> Result<(), Fail> {
    let alloc = rt.alloc();
    let whole = sweep(alloc, &back(2, 2), "whole", b"w 0 1 1\n")?;
    assert_eq!(rt; whole.status, 0);
    let lost = format!(in alloc; "stopped\nstopped\nkept 0 of 1\n{ZERO}\n")?;
    let front = format!(in alloc;
        "at 1\n{}at 2\n{}at 3\nstopped\nstopped\nkept 1 of 1\nend 1 0 1 ",
        lost.as_str(),
        lost.as_str()
    )?;
    let text = whole.text.as_slice();
    assert!(rt; text.starts_with(front.as_bytes()));
    assert_eq!(rt;
        runs_in(alloc, Ack::Write, "whole", b"w 0 1 1\n", text)?,
        Some(3)
    );
    Ok(())
}

// The disk write, the disk flush, the erase of a pool block and the flash page.
#[test]
fn a_write_through_has_four_device_writes(rt: HostRuntime) -> Result<(), Fail> {
    let alloc = rt.alloc();
    let swept = sweep(alloc, &THROUGH, "torn", b"w 0 1 1\n")?;
    assert_eq!(rt;
        (
            swept.status,
            runs_in(
                alloc,
                Ack::Write,
                "torn",
                b"w 0 1 1\n",
                swept.text.as_slice()
            )?
        ),
        (0, Some(4))
    );
    Ok(())
}

#[test]
fn a_trace_without_device_writes_has_no_runs(rt: HostRuntime) -> Result<(), Fail> {
    let swept = sweep(rt.alloc(), &back(2, 2), "torn", b"# nothing\n\n")?;
    assert_eq!(rt;
        (swept.status, swept.text.as_slice()),
        (0, b"swept 0\n".as_slice())
    );
    Ok(())
}

/// Sweeps a trace over a small volume of each manner, with each outcome.
fn sweep_all_ways(rt: &impl Abort, alloc: Global, trace: &[u8]) -> Result<u64, Fail> {
    let mut runs: u64 = 0;
    for outcome in OUTCOMES {
        for shape in [back(2, 2), at_flush(2, 2), THROUGH] {
            let swept = sweep(alloc, &shape, outcome, trace)?;
            assert_eq!(rt; swept.status, 0);
            let text = swept.text.as_slice();
            let count = runs_in(alloc, shape.manner.ack(), outcome, trace, text)?;
            assert!(rt; count.is_some());
            runs = runs.saturating_add(count.unwrap_or(0));
        }
    }
    Ok(runs)
}

#[test]
fn groups_are_swept_in_all_ways(rt: HostRuntime) -> Result<(), Fail> {
    let alloc = rt.alloc();
    let runs = sweep_all_ways(&rt, alloc, b"w 0 4 1\n")?;
    assert!(rt; runs >= 32);
    let runs = sweep_all_ways(&rt, alloc, b"w 4 4 1\n")?;
    assert!(rt; runs >= 32);
    Ok(())
}

#[test]
fn a_block_that_is_written_again_is_swept_in_all_ways(rt: HostRuntime) -> Result<(), Fail> {
    let runs = sweep_all_ways(&rt, rt.alloc(), b"w 0 1 1\nw 0 1 2\n")?;
    assert!(rt; runs >= 16);
    Ok(())
}

/// A trace of 6 lines over the first 16 blocks: writes and reads of up to 3 blocks, flushes and idle steps.
pub(crate) fn trace_of(alloc: Global, words: &mut Lcg64Xsh32) -> Result<Vec<u8>, Fail> {
    let mut trace = Vec::new(alloc);
    for tag in 1..=6 {
        let kind = words.next_word() % 10;
        let first = words.next_word() % 14;
        let some = 1 + words.next_word() % 3;
        let line = if kind < 6 {
            format!(in alloc; "w {first} {some} {tag}\n")?
        } else if kind < 8 {
            format!(in alloc; "r {first} {some}\n")?
        } else if kind == 8 {
            format!(in alloc; "f\n")?
        } else {
            format!(in alloc; "i\n")?
        };
        trace.extend_from_slice(line.as_bytes())?;
    }
    Ok(trace)
}

/// Sweeps the traces of these numbers, each over a random volume, and says how many runs there were.
fn sweep_traces(
    rt: &impl Abort,
    alloc: Global,
    manner: Manner,
    numbers: Range<u64>,
) -> Result<u64, Fail> {
    let mut runs: u64 = 0;
    for number in numbers {
        let mut words = Lcg64Xsh32::seed_from_u64(number);
        let shape = shape_of(&mut words, manner);
        let trace = trace_of(alloc, &mut words)?;
        let outcome = OUTCOMES[(number % 4) as usize];
        let swept = sweep(alloc, &shape, outcome, trace.as_slice())?;
        assert_eq!(rt; swept.status, 0);
        let text = swept.text.as_slice();
        let count = runs_in(alloc, shape.manner.ack(), outcome, trace.as_slice(), text)?;
        assert!(rt; count.is_some());
        runs = runs.saturating_add(count.unwrap_or(0));
    }
    Ok(runs)
}

#[test]
fn sweeps_of_traces_that_are_written_back_print_what_a_plain_disk_prints(
    rt: HostRuntime,
) -> Result<(), Fail> {
    let runs = sweep_traces(&rt, rt.alloc(), Manner::Back, 500..520)?;
    assert!(rt; runs > 200);
    Ok(())
}

#[test]
fn sweeps_of_traces_that_are_written_through_print_what_a_plain_disk_prints(
    rt: HostRuntime,
) -> Result<(), Fail> {
    let runs = sweep_traces(&rt, rt.alloc(), Manner::Through, 520..540)?;
    assert!(rt; runs > 200);
    Ok(())
}

#[test]
fn sweeps_of_traces_acknowledged_at_a_flush_print_what_a_plain_disk_prints(
    rt: HostRuntime,
) -> Result<(), Fail> {
    let runs = sweep_traces(&rt, rt.alloc(), Manner::BackAtFlush, 540..564)?;
    assert!(rt; runs > 200);
    Ok(())
}

// ---- traces that are refused

/// Sweeps a trace that is refused. Nothing but the refusal is printed, and the rig has not changed.
fn refuses(rt: &impl Abort, alloc: Global, trace: &[u8], text: &[u8]) -> Result<(), Fail> {
    let swept = sweep(alloc, &back(2, 2), "torn", trace)?;
    assert_eq!(rt; (swept.status, swept.text.as_slice()), (2, text));
    assert_eq!(rt; swept.rig.counts(), MemRig::new(alloc).counts());
    Ok(())
}

#[test]
fn lines_that_cut_power_are_refused_before_any_is_run(rt: HostRuntime) -> Result<(), Fail> {
    let refused: [(&[u8], &[u8]); 6] = [
        (b"cut blank\n", b"line 1: BadWord\n"),
        (b"w 0 1 1\nstop 1 torn\n", b"line 2: BadWord\n"),
        (b"w 0 1 1\nstop 0 torn\n", b"line 2: BadNumber\n"),
        (b"w 0 1 1\ncut\n", b"line 2: BadCount\n"),
        (b"w 0 1 1\nr 64 1\n", b"line 2: OutOfVolume\n"),
        (b"w 0 1 1\nq\n", b"line 2: BadWord\n"),
    ];
    for (trace, text) in refused {
        refuses(&rt, rt.alloc(), trace, text)?;
    }
    Ok(())
}

#[test]
fn long_traces_are_refused_before_any_line_is_run(rt: HostRuntime) -> Result<(), Fail> {
    let alloc = rt.alloc();
    let mut blocks = Vec::from_slice(alloc, b"w 0 64 1\nw 0 64 2\nr 0 64\nr 0 63\n")?;
    blocks.extend_from_slice(b"w 0 2 3\n")?;
    refuses(&rt, alloc, blocks.as_slice(), b"line 5: TooLong\n")?;
    let mut bytes = Vec::new(alloc);
    for _ in 0..2048 {
        bytes.extend_from_slice(b"f\n")?;
    }
    bytes.push(b'f')?;
    refuses(&rt, alloc, bytes.as_slice(), b"line 2049: TooLong\n")
}

// ---- a run by itself

#[test]
fn the_text_of_a_run_has_its_number_first(rt: HostRuntime) -> Result<(), Fail> {
    let alloc = rt.alloc();
    let answers = [Answer::Stopped, Answer::Kept { kept: 0, count: 1 }];
    let text = plain_text_at(alloc, 3, &answers)?;
    assert_eq!(rt; text.as_slice(), b"at 3\nstopped\nkept 0 of 1\n".as_slice());
    Ok(())
}
