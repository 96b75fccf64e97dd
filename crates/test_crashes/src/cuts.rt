//! Power cuts at given device writes.

use std::test::Fail;
use test_small_runs::{back, cuts_told, is_plain, run};

const WRITTEN: &str = "wrote 0 4\n";

const OLD: &str = "kept 0 of 1\nread 0 1\nread 1 1\nread 2 1\nread 3 1\nread 4 0\nend 2 1 5 ";

const NEW: &str = "kept 1 of 1\nread 0 1\nread 1 1\nread 2 1\nread 3 1\nread 4 2\nend 2 1 5 ";

// The second write erases a pool block and programs its page. It finds no page left in the log, erases two region
// blocks and programs a map page. The seal is the sixth device write, and is cut.
#[test]
fn a_seal_that_is_cut_counts_where_it_is_whole(rt: HostRuntime) -> Result<(), Fail> {
    let alloc = rt.alloc();
    let shape = back(2, 2);
    for (outcome, after) in [("blank", OLD), ("torn", OLD), ("whole", NEW)] {
        let trace = format!(in alloc; "w 0 4 1\nstop 6 {outcome}\nw 4 1 2\nr 0 5\n")?;
        let run = run(alloc, &shape, trace.as_bytes())?;
        assert_eq!(rt; run.status, 0);
        let wanted = format!(in alloc; "{WRITTEN}stopped\n{after}")?;
        assert!(rt; run.text.starts_with(wanted.as_bytes()));
        assert!(rt; is_plain(alloc, trace.as_bytes(), run.text.as_slice(), 64)?);
    }
    Ok(())
}

// The first stop cuts the erase of a checkpoint region, whose seal stays. The second stop cuts the same erase in
// recovery, after the flush of the disk.
#[test]
fn a_recovery_that_is_cut_loses_nothing(rt: HostRuntime) -> Result<(), Fail> {
    let alloc = rt.alloc();
    let trace = b"w 0 4 1\nstop 3 mixed\nstop 2 torn\nw 4 1 2\nr 0 5\n";
    let run = run(alloc, &back(2, 2), trace)?;
    assert_eq!(rt; run.status, 0);
    let wanted = format!(in alloc; "{WRITTEN}stopped\nstopped\n{OLD}")?;
    assert!(rt; run.text.starts_with(wanted.as_bytes()));
    assert!(rt; is_plain(alloc, trace, run.text.as_slice(), 64)?);
    Ok(())
}

#[test]
fn a_write_that_is_cut_keeps_its_first_blocks(rt: HostRuntime) -> Result<(), Fail> {
    let alloc = rt.alloc();
    let torn = "stopped\nkept 1 of 3\nread 0 9\nread 1 0\nread 2 0\nend 1 1 3 ";
    let whole = "stopped\nkept 2 of 3\nread 0 9\nread 1 9\nread 2 0\nend 1 1 3 ";
    for (outcome, wanted) in [("torn", torn), ("whole", whole)] {
        let trace = format!(in alloc; "stop 5 {outcome}\nw 0 3 9\nr 0 3\n")?;
        let run = run(alloc, &back(2, 2), trace.as_bytes())?;
        assert_eq!(rt; run.status, 0);
        assert!(rt; run.text.starts_with(wanted.as_bytes()));
        assert!(rt; is_plain(alloc, trace.as_bytes(), run.text.as_slice(), 64)?);
    }
    Ok(())
}

// Two log blocks of four pages take forty writes, each with stops at its first device writes.
#[test]
fn merges_that_are_cut_lose_nothing(rt: HostRuntime) -> Result<(), Fail> {
    let alloc = rt.alloc();
    let mut trace = Vec::new(alloc);
    for tag in 1..=40u64 {
        let (first, after) = (tag * 3 % 7, 1 + tag % 9);
        let line = format!(in alloc; "stop {after} torn\nw {first} 1 {tag}\nr {first} 1\n")?;
        trace.extend_from_slice(line.as_bytes())?;
    }
    let run = run(alloc, &back(2, 2), trace.as_slice())?;
    assert_eq!(rt; run.status, 0);
    assert!(rt; is_plain(alloc, trace.as_slice(), run.text.as_slice(), 64)?);
    let (stops, kept) = cuts_told(run.text.as_slice());
    assert!(rt; stops > 20 && kept > 10);
    Ok(())
}
