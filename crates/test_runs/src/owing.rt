//! Writes that are acknowledged for good at the next flush: what a power cut loses of them, and what a flush keeps.

use crate::replay::run_on;
use ft_base::Ack;
use mem_rig::MemRig;
use std::alloc::Global;
use std::process::Abort;
use std::test::Fail;
use test_small_runs::{Shape, at_flush, back, is_plain_with, lost_told, run};

/// Three zero blocks from address 0 on.
const NONE: &str = "ef8542cfccbf836186d6d0c8036b6e756767d541f484e169a45d584ff60b5c57";

/// The blocks 0 and 1 with tag 9.
const TWO: &str = "22645a2ba47e12389fc2dbde939f44a426d7e0f37191491a226ff16decfa0383";

/// The blocks 0 to 2 with tag 9.
const THREE: &str = "6116fbe2630b190cf1ab55bbbe8e14ff9f1b79732c9d1d1f11f18d3069eb1609";

/// The blocks 0 to 3 with tag 9, and a zero block at address 4.
const FOUR: &str = "9aa0f3e82aae22664e149907c49c44b20e2419f2e462ba6e48147c2dd9bf8cf1";

/// Runs a trace over such a volume. Its text must be this one and the digest, and the text of a plain disk.
fn prints(
    rt: &impl Abort,
    alloc: Global,
    trace: &[u8],
    text: &str,
    digest: &str,
) -> Result<(), Fail> {
    let outcome = run(alloc, &at_flush(2, 2), trace)?;
    assert_eq!(rt; outcome.status, 0);
    let wanted = format!(in alloc; "{text}{digest}\n")?;
    assert_eq!(rt; outcome.text.as_slice(), wanted.as_bytes());
    assert!(rt; is_plain_with(alloc, Ack::Flush, trace, outcome.text.as_slice(), 64)?);
    Ok(())
}

#[test]
fn a_cut_loses_what_was_not_flushed(rt: HostRuntime) -> Result<(), Fail> {
    prints(
        &rt,
        rt.alloc(),
        b"w 0 3 9\ncut blank\nr 0 3\n",
        "wrote 0 3\nlost 3\ncut\nread 0 0\nread 1 0\nread 2 0\nend 1 1 3 ",
        NONE,
    )
}

#[test]
fn a_cut_loses_nothing_that_was_flushed(rt: HostRuntime) -> Result<(), Fail> {
    prints(
        &rt,
        rt.alloc(),
        b"w 0 3 9\nf\ncut blank\nr 0 1\n",
        "wrote 0 3\nflushed\ncut\nread 0 9\nend 1 1 3 ",
        THREE,
    )
}

// The fifth block opens a log block, and that commits the first four.
#[test]
fn a_log_block_that_is_opened_keeps_what_came_before(rt: HostRuntime) -> Result<(), Fail> {
    prints(
        &rt,
        rt.alloc(),
        b"w 0 4 9\nw 4 1 1\ncut blank\n",
        "wrote 0 4\nwrote 4 1\nlost 1\ncut\nend 2 0 5 ",
        FOUR,
    )
}

// The second page that is programmed is whole, but no page of the log names it.
#[test]
fn no_block_of_a_write_that_is_cut_counts(rt: HostRuntime) -> Result<(), Fail> {
    prints(
        &rt,
        rt.alloc(),
        b"stop 3 whole\nw 0 3 9\n",
        "stopped\nkept 0 of 3\nend 1 0 3 ",
        NONE,
    )
}

// All four pages are in one log block, so the last two writes have no record of their own on flash.
#[test]
fn a_block_that_was_flushed_is_read_again_if_a_newer_one_is_lost(
    rt: HostRuntime,
) -> Result<(), Fail> {
    prints(
        &rt,
        rt.alloc(),
        b"w 0 2 9\nf\nw 0 1 1\nw 0 1 2\ncut torn\nr 0 1\n",
        "wrote 0 2\nflushed\nwrote 0 1\nwrote 0 1\nlost 2\ncut\nread 0 9\nend 3 1 2 ",
        TWO,
    )
}

// The block reads as both writes left it, so nothing is told as lost.
#[test]
fn a_write_of_what_is_there_is_not_lost(rt: HostRuntime) -> Result<(), Fail> {
    prints(
        &rt,
        rt.alloc(),
        b"w 0 3 9\nf\nw 0 1 9\ncut torn\n",
        "wrote 0 3\nflushed\nwrote 0 1\ncut\nend 2 0 3 ",
        THREE,
    )
}

// The end line comes after a flush, which a stop cuts here.
#[test]
fn a_cut_before_the_end_line_tells_what_it_lost(rt: HostRuntime) -> Result<(), Fail> {
    prints(
        &rt,
        rt.alloc(),
        b"w 0 3 9\nstop 1 torn\n",
        "wrote 0 3\nstopped\nlost 3\nend 1 0 3 ",
        NONE,
    )
}

/// Runs a trace over a volume of the default numbers. Says how many block writes it told as lost.
fn lost_of(rt: &impl Abort, alloc: Global, trace: &[u8]) -> Result<u64, Fail> {
    let outcome = run_on(
        alloc,
        &["replay", "--ack", "flush"],
        trace,
        MemRig::new(alloc),
    )?;
    let text = outcome.text.as_slice();
    assert_eq!(rt; outcome.status, 0);
    assert!(rt; is_plain_with(alloc, Ack::Flush, trace, text, 1_048_576)?);
    Ok(lost_told(text))
}

// A log block has 64 pages, and what is buffered is committed before another is opened.
#[test]
fn a_cut_loses_no_more_than_a_log_block_has(rt: HostRuntime) -> Result<(), Fail> {
    let alloc = rt.alloc();
    assert_eq!(rt; lost_of(&rt, alloc, b"w 0 64 1\ncut mixed\n")?, 64);
    assert_eq!(rt; lost_of(&rt, alloc, b"w 0 65 1\ncut mixed\n")?, 1);
    assert_eq!(rt;
        lost_of(&rt, alloc, b"w 0 64 1\nf\nw 64 3 1\ncut blank\ncut blank\n")?,
        3
    );
    Ok(())
}

/// Runs a trace without cuts over this volume. Gives its text.
fn text_of(rt: &impl Abort, alloc: Global, shape: &Shape, trace: &[u8]) -> Result<Vec<u8>, Fail> {
    let outcome = run(alloc, shape, trace)?;
    assert_eq!(rt; outcome.status, 0);
    Ok(outcome.text)
}

#[test]
fn without_cuts_a_volume_prints_the_same(rt: HostRuntime) -> Result<(), Fail> {
    let alloc = rt.alloc();
    let trace = b"w 0 4 1\nw 4 4 2\ni\nw 8 4 3\nr 0 12\nf\nw 2 5 4\ni\nr 0 8\nw 9 1 5\n";
    let at_write = text_of(&rt, alloc, &back(2, 2), trace)?;
    let at_flush = text_of(&rt, alloc, &at_flush(2, 2), trace)?;
    assert_eq!(rt; at_flush.as_slice(), at_write.as_slice());
    Ok(())
}

/// The words of a small made trace, with this last one.
fn made_with(ack: &str) -> [&str; 7] {
    [
        "gen",
        "--count=300",
        "--data=2",
        "--log=2",
        "--pages=4",
        "--size=64",
        ack,
    ]
}

#[test]
fn a_made_trace_ends_the_same(rt: HostRuntime) -> Result<(), Fail> {
    let alloc = rt.alloc();
    let at_write = run_on(alloc, &made_with("--ack=write"), b"", MemRig::new(alloc))?;
    let at_flush = run_on(alloc, &made_with("--ack=flush"), b"", MemRig::new(alloc))?;
    assert_eq!(rt; (at_write.status, at_flush.status), (0, 0));
    assert_eq!(rt; at_flush.text.as_slice(), at_write.text.as_slice());
    Ok(())
}

#[test]
fn what_is_owed_is_in_the_cache(rt: HostRuntime) -> Result<(), Fail> {
    let alloc = rt.alloc();
    let words = ["inspect", "--ack=flush"];
    let outcome = run_on(alloc, &words, b"w 0 2 1\n", MemRig::new(alloc))?;
    assert_eq!(rt; outcome.status, 0);
    assert_eq!(rt;
        outcome.text.as_slice(),
        b"held 2\ndirty groups 1\nbuckets 32\nscrubbed 2\n".as_slice()
    );
    Ok(())
}

/// The cost of three written blocks.
fn cost_of(programs: u64, alloc: Global) -> Result<String, Fail> {
    Ok(format!(in alloc;
        "blocks written 3\nblocks read 0\nflash programs {programs}\nflash erases 1\ndisk reads 0\ndisk writes 0\ndisk flushes 0\npower cuts 0\n"
    )?)
}

// Each block is one program, and with the default each has a page of the log as well.
#[test]
fn a_write_that_is_owed_costs_one_program(rt: HostRuntime) -> Result<(), Fail> {
    let alloc = rt.alloc();
    for (ack, programs) in [("--ack=flush", 3), ("--ack=write", 6)] {
        let outcome = run_on(alloc, &["cost", ack], b"w 0 3 9\n", MemRig::new(alloc))?;
        assert_eq!(rt; outcome.status, 0);
        let wanted = cost_of(programs, alloc)?;
        assert_eq!(rt; outcome.text.as_slice(), wanted.as_bytes());
    }
    Ok(())
}
