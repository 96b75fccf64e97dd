//! Runs of a small volume that end early: lines that are refused, a stop too many, and devices that fail.

use crate::replay::repeated;
use ft_media::Rig;
use mem_rig::MemRig;
use std::alloc::Global;
use std::process::Abort;
use std::test::Fail;
use test_small_runs::{back, run, run_on};

/// The text that a trace with no request prints.
const EMPTY: &[u8] =
    b"end 0 0 0 e3b0c44298fc1c149afbf4c8996fb92427ae41e4649b934ca495991b7852b855\n";

/// Runs a trace over a volume of two groups, and sees how it ends.
fn ends_so(
    rt: &impl Abort,
    alloc: Global,
    trace: &[u8],
    status: u8,
    text: &[u8],
) -> Result<(), Fail> {
    let outcome = run(alloc, &back(2, 2), trace)?;
    assert_eq!(rt; (outcome.status, outcome.text.as_slice()), (status, text));
    Ok(())
}

/// Runs a trace whose first line is refused. It calls no device except as an empty trace does.
fn refused_at_once(rt: &impl Abort, alloc: Global, trace: &[u8], text: &[u8]) -> Result<(), Fail> {
    let empty = run(alloc, &back(2, 2), b"")?;
    let outcome = run(alloc, &back(2, 2), trace)?;
    assert_eq!(rt; (outcome.status, outcome.text.as_slice()), (2, text));
    assert_eq!(rt; outcome.rig.counts(), empty.rig.counts());
    Ok(())
}

#[test]
fn a_refused_line_calls_no_device(rt: HostRuntime) -> Result<(), Fail> {
    let refused: [(&[u8], &[u8]); 9] = [
        (b"w 62 3 1\n", b"line 1: OutOfVolume\n"),
        (b"r 64 1\n", b"line 1: OutOfVolume\n"),
        (b"w 0 1\n", b"line 1: BadCount\n"),
        (b"w 0 1 0\n", b"line 1: BadNumber\n"),
        (b"r 00 1\n", b"line 1: BadNumber\n"),
        (b"r 0 65537\n", b"line 1: BadNumber\n"),
        (b"cut soon\n", b"line 1: BadWord\n"),
        (b"w 99 0 1 5\n", b"line 1: BadCount\n"),
        (&[b'w'; 201], b"line 1: LineTooLong\n"),
    ];
    for (trace, text) in refused {
        refused_at_once(&rt, rt.alloc(), trace, text)?;
    }
    Ok(())
}

#[test]
fn a_small_volume_takes_sixteen_stops(rt: HostRuntime) -> Result<(), Fail> {
    let alloc = rt.alloc();
    ends_so(&rt, alloc, b"", 0, EMPTY)?;
    let line = b"stop 9 blank\n";
    ends_so(&rt, alloc, repeated(alloc, line, 16)?.as_slice(), 0, EMPTY)?;
    let many = repeated(alloc, line, 17)?;
    ends_so(&rt, alloc, many.as_slice(), 2, b"line 17: TooManyStops\n")
}

// The first call of the disk is the flush of the opening, the second the read.
#[test]
fn a_device_that_fails_ends_the_run_of_a_small_volume(rt: HostRuntime) -> Result<(), Fail> {
    let alloc = rt.alloc();
    let disk = MemRig::failing(alloc, Vec::new(alloc), [2].to_vec(alloc)?);
    let unread = run_on(alloc, &back(2, 2), b"r 6 1\n", disk)?;
    assert_eq!(rt; (unread.status, unread.text.len()), (6, 0));
    let flash = MemRig::failing(alloc, [1].to_vec(alloc)?, Vec::new(alloc));
    let unformatted = run_on(alloc, &back(2, 2), b"w 0 1 1\n", flash)?;
    assert_eq!(rt; (unformatted.status, unformatted.text.len()), (5, 0));
    Ok(())
}
