//! Volumes that write back and through: the blocks that go to the disk, and the state that a cut leaves.

use crate::replay::repeated;
use ft_media::Rig;
use std::alloc::Global;
use std::process::Abort;
use std::test::Fail;
use test_small_runs::{Outcome, Shape, THROUGH, back, is_plain, run};

/// Runs a trace. Its text must begin like this and be the text of a plain disk.
fn run_as(
    rt: &impl Abort,
    alloc: Global,
    shape: &Shape,
    trace: &[u8],
    text: &[u8],
) -> Result<Outcome, Fail> {
    let outcome = run(alloc, shape, trace)?;
    assert_eq!(rt; outcome.status, 0);
    assert!(rt; outcome.text.starts_with(text));
    assert!(rt; is_plain(alloc, trace, outcome.text.as_slice(), 64)?);
    Ok(outcome)
}

#[test]
fn a_small_volume_answers_what_was_written(rt: HostRuntime) -> Result<(), Fail> {
    let alloc = rt.alloc();
    let shape = back(2, 2);
    let first = run_as(
        &rt,
        alloc,
        &shape,
        b"w 5 1 7\nr 5 1\nr 6 1\n",
        b"wrote 5 1\nread 5 7\nread 6 0\nend 1 2 2 ",
    )?;
    let counts = first.rig.counts();
    assert_eq!(rt; (counts.disk_reads, counts.disk_writes), (1, 0));
    run_as(&rt, alloc, &shape, b"w 63 1 1\n", b"wrote 63 1\nend 1 0 1 ")?;
    Ok(())
}

#[test]
fn a_small_volume_reads_a_block_from_the_disk_once(rt: HostRuntime) -> Result<(), Fail> {
    let alloc = rt.alloc();
    let mut trace = Vec::from_slice(alloc, b"w 5 1 7\n")?;
    trace.extend_from_slice(repeated(alloc, b"r 6 1\n", 20)?.as_slice())?;
    let mut wanted = Vec::from_slice(alloc, b"wrote 5 1\n")?;
    wanted.extend_from_slice(repeated(alloc, b"read 6 0\n", 20)?.as_slice())?;
    wanted.extend_from_slice(b"end 1 20 2 ")?;
    let outcome = run_as(&rt, alloc, &back(2, 2), trace.as_slice(), wanted.as_slice())?;
    let counts = outcome.rig.counts();
    assert_eq!(rt; (counts.disk_reads, counts.disk_writes), (1, 0));
    Ok(())
}

#[test]
fn the_group_written_longest_ago_goes_to_the_disk(rt: HostRuntime) -> Result<(), Fail> {
    let alloc = rt.alloc();
    // An idle step writes one group back if more than one is dirty.
    let one = Shape {
        dirty: 1,
        ..back(2, 2)
    };
    let idle = run_as(
        &rt,
        alloc,
        &one,
        b"w 0 1 1\nw 4 1 1\ni\n",
        b"wrote 0 1\nwrote 4 1\nidle\nend 2 0 2 ",
    )?;
    assert_eq!(rt; idle.rig.counts().disk_writes, 1);
    // A third group finds the table full; a group that is written again stays.
    let full = run_as(
        &rt,
        alloc,
        &back(2, 2),
        b"w 0 1 1\nw 4 1 1\nw 8 1 1\n",
        b"wrote 0 1\nwrote 4 1\nwrote 8 1\nend 3 0 3 ",
    )?;
    assert_eq!(rt; full.rig.counts().disk_writes, 1);
    let again = run_as(
        &rt,
        alloc,
        &back(2, 2),
        b"w 0 3 1\nw 4 1 1\nw 0 1 2\nw 8 1 1\n",
        b"wrote 0 3\nwrote 4 1\nwrote 0 1\nwrote 8 1\nend 4 0 5 ",
    )?;
    assert_eq!(rt; again.rig.counts().disk_writes, 1);
    Ok(())
}

#[test]
fn a_volume_that_writes_through_is_on_the_disk(rt: HostRuntime) -> Result<(), Fail> {
    let alloc = rt.alloc();
    let idle = run_as(
        &rt,
        alloc,
        &THROUGH,
        b"w 0 1 1\ni\n",
        b"wrote 0 1\nidle\nend 1 0 1 ",
    )?;
    assert_eq!(rt; idle.rig.counts().disk_writes, 1);
    let read = run_as(
        &rt,
        alloc,
        &THROUGH,
        b"w 0 8 1\nw 0 4 2\nr 0 8\n",
        b"wrote 0 8\nwrote 0 4\nread 0 2\nread 1 2\nread 2 2\nread 3 2\nread 4 1\n",
    )?;
    let counts = read.rig.counts();
    assert_eq!(rt; (counts.disk_reads, counts.disk_writes), (0, 12));
    Ok(())
}

// The second write makes these device writes: a log page with the removal, a block write, a flush of the disk, a
// page.
#[test]
fn a_write_through_that_is_cut_is_old_or_new(rt: HostRuntime) -> Result<(), Fail> {
    let alloc = rt.alloc();
    let cut: [(&str, &str, &str); 4] = [
        (
            "",
            "stop 4 torn",
            "wrote 5 1\nstopped\nkept 1 of 1\nread 5 2\n",
        ),
        (
            "",
            "stop 2 blank",
            "wrote 5 1\nstopped\nkept 0 of 1\nread 5 1\n",
        ),
        (
            "",
            "stop 3 whole",
            "wrote 5 1\nstopped\nkept 1 of 1\nread 5 2\n",
        ),
        (
            "f\n",
            "stop 3 torn",
            "wrote 5 1\nflushed\nstopped\nkept 1 of 1\nread 5 2\n",
        ),
    ];
    for (flush, stop, wanted) in cut {
        let trace = format!(in alloc; "w 5 1 1\n{flush}{stop}\nw 5 1 2\nr 5 1\n")?;
        run_as(&rt, alloc, &THROUGH, trace.as_bytes(), wanted.as_bytes())?;
    }
    Ok(())
}

// Clean blocks give way to others again and again, and each of the first device writes of a request is cut.
#[test]
fn silent_evictions_that_are_cut_lose_nothing(rt: HostRuntime) -> Result<(), Fail> {
    let alloc = rt.alloc();
    for shape in [THROUGH, back(2, 2)] {
        let mut trace = Vec::new(alloc);
        for tag in 1..=30u64 {
            let (first, after) = (tag * 5 % 24, 1 + tag % 11);
            let line = format!(in alloc; "stop {after} torn\nr {first} 3\nw {first} 1 {tag}\n")?;
            trace.extend_from_slice(line.as_bytes())?;
        }
        run_as(&rt, alloc, &shape, trace.as_slice(), b"")?;
    }
    Ok(())
}
