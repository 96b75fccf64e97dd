//! The texts of traces over the devices.

use crate::over::{DEVICES, NONE, SMALL, run_over};
use std::alloc::Global;
use std::process::Abort;
use std::test::Fail;
use test_small_runs::is_plain;

/// A trace over a small volume prints the same over all devices, and that is what a plain disk prints.
fn prints_the_same(rt: &impl Abort, alloc: Global, trace: &[u8]) -> Result<(), Fail> {
    let plain = run_over(alloc, &["replay"], &SMALL, NONE, trace)?;
    assert_eq!(rt; plain.status, 0);
    assert!(rt; is_plain(alloc, trace, plain.text.as_slice(), 64)?);
    for devices in DEVICES {
        let other = run_over(alloc, &["replay"], &SMALL, devices, trace)?;
        assert_eq!(rt; other.status, 0);
        assert_eq!(rt; other.text.as_slice(), plain.text.as_slice());
    }
    Ok(())
}

/// With parity a stop may fall on another page, so there the text is one that a plain disk prints; without parity it is
/// that of plain flash.
fn prints_what_a_plain_disk_prints(
    rt: &impl Abort,
    alloc: Global,
    trace: &[u8],
) -> Result<(), Fail> {
    let plain = run_over(alloc, &["replay"], &SMALL, NONE, trace)?;
    assert_eq!(rt; plain.status, 0);
    for devices in DEVICES {
        let other = run_over(alloc, &["replay"], &SMALL, devices, trace)?;
        assert_eq!(rt; other.status, 0);
        assert!(rt; is_plain(alloc, trace, other.text.as_slice(), 64)?);
        if devices.len() == 1 {
            assert_eq!(rt; other.text.as_slice(), plain.text.as_slice());
        }
    }
    Ok(())
}

#[test]
fn a_block_is_read_over_all_devices(rt: HostRuntime) -> Result<(), Fail> {
    let alloc = rt.alloc();
    prints_the_same(&rt, alloc, b"w 5 1 7\nr 5 1\nr 6 1\n")?;
    for devices in DEVICES {
        let first = run_over(
            alloc,
            &["replay"],
            NONE,
            devices,
            b"w 5 1 7\nr 5 1\nr 6 1\n",
        )?;
        assert_eq!(rt; first.status, 0);
        assert!(rt;
            first.text.starts_with(b"wrote 5 1\nread 5 7\nread 6 0\nend 1 2 2 227d374bf90b30cb")
        );
    }
    Ok(())
}

// The sixth device write of the second line programs a seal, which isn't the last page of its erase block.
#[test]
fn a_seal_is_cut_over_all_devices(rt: HostRuntime) -> Result<(), Fail> {
    let alloc = rt.alloc();
    for outcome in ["blank", "torn", "whole"] {
        let trace = format!(in alloc; "w 0 4 1\nstop 6 {outcome}\nw 4 1 2\nr 0 5\n")?;
        prints_the_same(&rt, alloc, trace.as_bytes())?;
    }
    Ok(())
}

#[test]
fn a_recovery_is_cut_over_all_devices(rt: HostRuntime) -> Result<(), Fail> {
    prints_the_same(
        &rt,
        rt.alloc(),
        b"w 0 4 1\nstop 3 mixed\nstop 2 torn\nw 4 1 2\nr 0 5\n",
    )
}

#[test]
fn a_write_is_cut_over_all_devices(rt: HostRuntime) -> Result<(), Fail> {
    let alloc = rt.alloc();
    for outcome in ["torn", "whole"] {
        let trace = format!(in alloc; "stop 5 {outcome}\nw 0 3 9\nr 0 3\n")?;
        prints_the_same(&rt, alloc, trace.as_bytes())?;
    }
    Ok(())
}

#[test]
fn merges_are_cut_over_all_devices(rt: HostRuntime) -> Result<(), Fail> {
    let alloc = rt.alloc();
    let mut trace = Vec::new(alloc);
    for tag in 1..=16u64 {
        let (first, after) = (tag * 3 % 7, 1 + tag % 9);
        let line = format!(in alloc; "stop {after} torn\nw {first} 1 {tag}\nr {first} 1\n")?;
        trace.extend_from_slice(line.as_bytes())?;
    }
    prints_what_a_plain_disk_prints(&rt, alloc, trace.as_slice())
}

/// The other commands, and a trace for each.
const COMMANDS: [(&[&str], &[u8]); 4] = [
    (&["gen", "--count=40"], b""),
    (&["inspect"], b"w 0 6 1\nw 20 3 2\nr 40 1\n"),
    (&["replay", "--mode=through"], b"w 0 6 1\nw 20 3 2\nr 0 9\n"),
    (
        &["replay", "--form", "msr"],
        b"1,h,0,Write,4095,2,5\n2,h,0,Read,0,1,5\n",
    ),
];

#[test]
fn commands_print_the_same_over_all_devices(rt: HostRuntime) -> Result<(), Fail> {
    let alloc = rt.alloc();
    for (command, trace) in COMMANDS {
        let plain = run_over(alloc, command, &SMALL, NONE, trace)?;
        assert_eq!(rt; plain.status, 0);
        for devices in DEVICES {
            let other = run_over(alloc, command, &SMALL, devices, trace)?;
            assert_eq!(rt; other.status, 0);
            assert_eq!(rt; other.text.as_slice(), plain.text.as_slice());
        }
    }
    Ok(())
}

// A program of a page is counted once, also if a parity page is programmed with it.
#[test]
fn a_cost_is_the_same_over_all_devices(rt: HostRuntime) -> Result<(), Fail> {
    let alloc = rt.alloc();
    let trace = b"w 0 9 1\nr 0 9\n";
    let plain = run_over(alloc, &["cost"], &SMALL, NONE, trace)?;
    assert_eq!(rt; plain.status, 0);
    for devices in DEVICES {
        let other = run_over(alloc, &["cost"], &SMALL, devices, trace)?;
        assert_eq!(rt; other.status, 0);
        assert_eq!(rt; other.text.as_slice(), plain.text.as_slice());
    }
    Ok(())
}
