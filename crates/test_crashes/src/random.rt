//! Small random traces, each with stops and cuts, over random volumes. Their texts are the texts of a plain disk.

use ft_media::Rig;
use rand_core::SeedableRng;
use rand_core::utils::NextWord;
use rand_pcg::Lcg64Xsh32;
use std::alloc::Global;
use std::ops::Range;
use std::process::Abort;
use std::test::Fail;
use test_small_runs::{Manner, cuts_told, is_plain_with, lost_told, run, shape_of};

/// The words for the outcomes of a cut.
const OUTCOMES: [&str; 4] = ["blank", "whole", "torn", "mixed"];

/// A line over the first 16 blocks, which are 4 groups. It is a write or a read of up to 3 blocks, a flush, an idle
/// step, a stop at one of the next 16 device writes, or a cut.
fn push_line(
    alloc: Global,
    trace: &mut Vec<u8>,
    words: &mut Lcg64Xsh32,
    tag: u64,
) -> Result<(), Fail> {
    let kind = words.next_word() % 17;
    let first = words.next_word() % 14;
    let some = 1 + words.next_word() % 3;
    let after = 1 + words.next_word() % 16;
    let outcome = OUTCOMES[(words.next_word() % 4) as usize];
    let line = if kind < 8 {
        format!(in alloc; "w {first} {some} {tag}\n")?
    } else if kind < 11 {
        format!(in alloc; "r {first} {some}\n")?
    } else if kind == 11 {
        format!(in alloc; "f\n")?
    } else if kind < 15 {
        format!(in alloc; "stop {after} {outcome}\n")?
    } else if kind == 15 {
        format!(in alloc; "i\n")?
    } else {
        format!(in alloc; "cut {outcome}\n")?
    };
    trace.extend_from_slice(line.as_bytes())?;
    Ok(())
}

/// The trace of this number: 16 lines.
fn trace_of(alloc: Global, words: &mut Lcg64Xsh32) -> Result<Vec<u8>, Fail> {
    let mut trace = Vec::new(alloc);
    for tag in 1..=16 {
        push_line(alloc, &mut trace, words, tag)?;
    }
    Ok(trace)
}

/// How many stops fell due, how many writes were cut, how many block writes were lost, and how many blocks went to the
/// disk.
#[derive(Clone, Copy)]
struct Seen {
    stops: u64,
    writes: u64,
    lost: u64,
    disk_writes: u64,
}

/// Runs the traces of these numbers, each of which must print what a plain disk prints.
fn run_all(
    rt: &impl Abort,
    alloc: Global,
    manner: Manner,
    numbers: Range<u64>,
) -> Result<Seen, Fail> {
    let mut seen = Seen {
        stops: 0,
        writes: 0,
        lost: 0,
        disk_writes: 0,
    };
    for number in numbers {
        let mut words = Lcg64Xsh32::seed_from_u64(number);
        let shape = shape_of(&mut words, manner);
        let trace = trace_of(alloc, &mut words)?;
        let outcome = run(alloc, &shape, trace.as_slice())?;
        let text = outcome.text.as_slice();
        assert_eq!(rt; outcome.status, 0);
        assert!(rt; is_plain_with(alloc, manner.ack(), trace.as_slice(), text, 64)?);
        let (cut, kept) = cuts_told(text);
        seen.lost = seen.lost.saturating_add(lost_told(text));
        seen.stops = seen.stops.saturating_add(cut);
        seen.writes = seen.writes.saturating_add(kept);
        seen.disk_writes = seen
            .disk_writes
            .saturating_add(outcome.rig.counts().disk_writes);
    }
    Ok(seen)
}

#[test]
fn traces_that_are_written_back_print_what_a_plain_disk_prints(
    rt: HostRuntime,
) -> Result<(), Fail> {
    let seen = run_all(&rt, rt.alloc(), Manner::Back, 0..150)?;
    assert!(rt; seen.stops > 150 && seen.writes > 45 && seen.disk_writes > 150);
    assert_eq!(rt; seen.lost, 0);
    Ok(())
}

#[test]
fn more_traces_that_are_written_back_print_what_a_plain_disk_prints(
    rt: HostRuntime,
) -> Result<(), Fail> {
    let seen = run_all(&rt, rt.alloc(), Manner::Back, 150..300)?;
    assert!(rt; seen.stops > 150 && seen.writes > 45 && seen.disk_writes > 150);
    assert_eq!(rt; seen.lost, 0);
    Ok(())
}

#[test]
fn traces_that_are_written_through_print_what_a_plain_disk_prints(
    rt: HostRuntime,
) -> Result<(), Fail> {
    let seen = run_all(&rt, rt.alloc(), Manner::Through, 300..450)?;
    assert!(rt; seen.stops > 150 && seen.writes > 45 && seen.disk_writes > 1500);
    Ok(())
}

#[test]
fn traces_acknowledged_at_a_flush_print_what_a_plain_disk_prints(
    rt: HostRuntime,
) -> Result<(), Fail> {
    let seen = run_all(&rt, rt.alloc(), Manner::BackAtFlush, 600..750)?;
    assert!(rt; seen.stops > 100 && seen.lost > 100 && seen.disk_writes > 150);
    Ok(())
}

#[test]
fn more_traces_acknowledged_at_a_flush_print_what_a_plain_disk_prints(
    rt: HostRuntime,
) -> Result<(), Fail> {
    let seen = run_all(&rt, rt.alloc(), Manner::BackAtFlush, 750..900)?;
    assert!(rt; seen.stops > 100 && seen.lost > 100 && seen.disk_writes > 150);
    Ok(())
}
