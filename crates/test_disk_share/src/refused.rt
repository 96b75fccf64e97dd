//! Lines that are refused when several disks share the volume.

use std::alloc::Global;
use std::process::Abort;
use std::test::Fail;
use test_small_runs::{back, run_shared};

/// Runs a trace over so many disks that share 64 blocks. It must end at a line that is refused, with this text.
fn is_refused(
    rt: &impl Abort,
    alloc: Global,
    disks: u32,
    trace: &[u8],
    text: &str,
) -> Result<(), Fail> {
    let outcome = run_shared(alloc, &back(2, 2), disks, trace)?;
    assert_eq!(rt;
        (outcome.status, outcome.text.as_slice()),
        (2, text.as_bytes())
    );
    Ok(())
}

/// The disks, a trace, and the text.
type Row<'a> = (u32, &'a [u8], &'a str);

const DISKS: [Row; 15] = [
    (2, b"disk 2\n", "line 1: BadNumber\n"),
    (16, b"disk 16\n", "line 1: BadNumber\n"),
    (2, b"disk 1\ndisk 2\n", "disk 1\nline 2: BadNumber\n"),
    (2, b"disk one\n", "line 1: BadNumber\n"),
    (2, b"disk 01\n", "line 1: BadNumber\n"),
    (2, b"disk -1\n", "line 1: BadNumber\n"),
    (2, b"disk 18446744073709551616\n", "line 1: BadNumber\n"),
    (2, b"disk\n", "line 1: BadCount\n"),
    (2, b"disk 0 1\n", "line 1: BadCount\n"),
    (2, b"disk 2 2\n", "line 1: BadCount\n"),
    (2, b"disks 1\n", "line 1: BadWord\n"),
    (2, b"Disk 1\n", "line 1: BadWord\n"),
    (1, b"disk 0\n", "line 1: BadWord\n"),
    (1, b"disk\n", "line 1: BadWord\n"),
    (2, &[b'd'; 201], "line 1: LineTooLong\n"),
];

#[test]
fn a_line_chooses_a_disk_that_there_is(rt: HostRuntime) -> Result<(), Fail> {
    for (disks, trace, text) in DISKS {
        is_refused(&rt, rt.alloc(), disks, trace, text)?;
    }
    Ok(())
}

const ADDRESSES: [Row; 8] = [
    (2, b"w 32 1 1\n", "line 1: OutOfVolume\n"),
    (2, b"w 31 2 1\n", "line 1: OutOfVolume\n"),
    (
        2,
        b"w 31 1 1\nr 31 2\n",
        "wrote 31 1\nline 2: OutOfVolume\n",
    ),
    (2, b"disk 1\nr 32 1\n", "disk 1\nline 2: OutOfVolume\n"),
    (3, b"disk 2\nr 21 1\n", "disk 2\nline 2: OutOfVolume\n"),
    (16, b"r 3 1\nr 4 1\n", "read 3 0\nline 2: OutOfVolume\n"),
    (2, b"w 99 0 1\n", "line 1: BadNumber\n"),
    (
        2,
        b"disk 1\nw 0 1 5\ndisk 0\nr 0 1\nw 0 1\n",
        "disk 1\nwrote 0 1\ndisk 0\nread 0 0\nline 5: BadCount\n",
    ),
];

#[test]
fn a_line_names_blocks_of_its_disk(rt: HostRuntime) -> Result<(), Fail> {
    for (disks, trace, text) in ADDRESSES {
        is_refused(&rt, rt.alloc(), disks, trace, text)?;
    }
    Ok(())
}

#[test]
fn the_disks_share_sixteen_stops(rt: HostRuntime) -> Result<(), Fail> {
    let alloc = rt.alloc();
    let mut trace = Vec::new(alloc);
    let mut text = String::new(alloc);
    for disk in 0..16 {
        trace.extend_from_slice(format!(in alloc; "disk {disk}\nstop 99 torn\n")?.as_bytes())?;
        text.push_str(format!(in alloc; "disk {disk}\n")?.as_str())?;
    }
    trace.extend_from_slice(b"disk 0\nstop 99 torn\n")?;
    text.push_str("disk 0\nline 34: TooManyStops\n")?;
    is_refused(&rt, alloc, 16, trace.as_slice(), text.as_str())
}
