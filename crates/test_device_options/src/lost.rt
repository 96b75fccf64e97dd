//! Pages that can't be read, with parity.

use crate::over::{DEVICES, NONE, SMALL, run_failing, run_over};
use std::alloc::Global;
use std::process::Abort;
use std::test::Fail;

/// One group is written, which fills an erase block, and read. At the end it is read again.
const TRACE: &[u8] = b"w 0 4 1\nr 0 4\n";

/// Reads of the block: those of the second line, and those of the end.
const READS: u64 = 8;

/// More calls of the flash than the trace makes.
const CALLS: u64 = 200;

/// How many calls the trace makes of plain flash, with parity or without: the first call that can't fail is none of them.
fn calls_of(alloc: Global, devices: &[&str]) -> Result<u64, Fail> {
    let mut calls: u64 = 0;
    for number in 1..CALLS {
        let run = run_failing(alloc, &["replay"], &SMALL, devices, TRACE, &[number])?;
        if run.faults == 0 {
            break;
        }
        calls = number;
    }
    Ok(calls)
}

/// The last calls read pages of a complete block, over raw flash too: each of them fails in turn, and nothing is seen of
/// that.
fn reads_fail_unseen(rt: &impl Abort, alloc: Global, devices: &[&str]) -> Result<(), Fail> {
    let whole = run_over(alloc, &["replay"], &SMALL, NONE, TRACE)?;
    let calls = calls_of(alloc, DEVICES[1])?;
    assert!(rt; calls > READS && calls.saturating_add(1) < CALLS);
    for back in 0..READS {
        let number = calls.saturating_sub(back);
        let run = run_failing(alloc, &["replay"], &SMALL, devices, TRACE, &[number])?;
        assert_eq!(rt; run.status, 0);
        assert_eq!(rt; run.text.as_slice(), whole.text.as_slice());
    }
    Ok(())
}

#[test]
fn a_lost_page_is_rebuilt_on_plain_flash(rt: HostRuntime) -> Result<(), Fail> {
    reads_fail_unseen(&rt, rt.alloc(), DEVICES[1])
}

#[test]
fn a_lost_page_is_rebuilt_on_raw_flash(rt: HostRuntime) -> Result<(), Fail> {
    reads_fail_unseen(&rt, rt.alloc(), DEVICES[2])
}

// Two pages of one block are lost.
#[test]
fn two_lost_pages_end_the_run(rt: HostRuntime) -> Result<(), Fail> {
    let alloc = rt.alloc();
    let calls = calls_of(alloc, DEVICES[1])?;
    let last = [calls, calls.saturating_add(1)];
    let run = run_failing(alloc, &["replay"], &SMALL, DEVICES[1], TRACE, &last)?;
    assert_eq!(rt; (run.status, run.faults), (5, 2));
    let one = run_failing(
        alloc,
        &["replay"],
        &SMALL,
        NONE,
        TRACE,
        &[calls_of(alloc, NONE)?],
    )?;
    assert_eq!(rt; (one.status, one.faults), (5, 1));
    Ok(())
}
