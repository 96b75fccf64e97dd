//! Traces of words, and the words of the command line: the text of each run, its status, and its calls of the disk.

use flashtier_run::run;
use ft_base::{MemSink, MemSource};
use ft_media::{Counts, Rig};
use mem_rig::MemRig;
use std::alloc::{AllocError, Global};
use std::test::Fail;
use test_small_runs::is_plain;

const EMPTY: &str = "e3b0c44298fc1c149afbf4c8996fb92427ae41e4649b934ca495991b7852b855";

/// The text that a run printed, its status, and the calls of the media.
#[derive(Drop)]
pub(crate) struct Outcome {
    pub(crate) status: u8,
    pub(crate) text: Vec<u8>,
    counts: Counts,
}

fn words(alloc: Global, spelled: &[&str]) -> Result<Vec<String>, AllocError> {
    let mut words = Vec::new(alloc);
    for word in spelled {
        words.push(String::from_str(alloc, word)?)?;
    }
    Ok(words)
}

/// Runs the command of these words over this rig, with the trace in pieces of 7 bytes.
pub(crate) fn run_on(
    alloc: Global,
    spelled: &[&str],
    trace: &[u8],
    mut rig: MemRig,
) -> Result<Outcome, AllocError> {
    let words = words(alloc, spelled)?;
    let mut source = MemSource::new(Vec::from_slice(alloc, trace)?, 7, Vec::new(alloc));
    let mut sink = MemSink::new(alloc, 100_000, 100, Vec::new(alloc))?;
    let status = run(alloc, words.as_slice(), &mut source, &mut sink, &mut rig);
    Ok(Outcome {
        status,
        text: Vec::from_slice(alloc, sink.bytes())?,
        counts: rig.counts(),
    })
}

/// Runs `replay` over this rig.
fn replay_on(alloc: Global, trace: &[u8], rig: MemRig) -> Result<Outcome, AllocError> {
    run_on(alloc, &["replay"], trace, rig)
}

fn replay(alloc: Global, trace: &[u8]) -> Result<Outcome, AllocError> {
    replay_on(alloc, trace, MemRig::new(alloc))
}

#[test]
fn reads_answer_what_was_written(rt: HostRuntime) -> Result<(), Fail> {
    let alloc = rt.alloc();
    let empty = replay(alloc, b"")?;
    assert_eq!(rt; empty.status, 0);
    let end = format!(in alloc; "end 0 0 0 {EMPTY}\n")?;
    assert_eq!(rt; empty.text.as_slice(), end.as_bytes());
    let first = replay(alloc, b"w 5 1 7\nr 5 1\nr 6 1\n")?;
    assert_eq!(rt; first.status, 0);
    let text =
        b"wrote 5 1\nread 5 7\nread 6 0\nend 1 2 2 227d374bf90b30cb019fe5158a706a1bfaf9e95d5fd37c6907f7af0cd4bd0483\n";
    assert_eq!(rt; first.text.as_slice(), text.as_slice());
    // The block is read from the flash; address 6 is read from the disk once, and then held.
    assert_eq!(rt; (first.counts.disk_reads, first.counts.disk_writes), (1, 0));
    // The last line needs no line feed, and the last block of the volume is in it.
    let last = replay(alloc, b"w 1048575 1 1")?;
    assert_eq!(rt; last.status, 0);
    assert!(rt; last.text.starts_with(b"wrote 1048575 1\nend 1 0 1 "));
    Ok(())
}

#[test]
fn lines_may_be_spaced_and_commented(rt: HostRuntime) -> Result<(), Fail> {
    let alloc = rt.alloc();
    let commented = replay(alloc, b"# x\r\n\r\nw 0 1 1\r\n")?;
    assert_eq!(rt; commented.status, 0);
    assert!(rt; commented.text.starts_with(b"wrote 0 1\nend 1 0 1 "));
    let spaced = replay(alloc, b"  w\t5  1 7 \n#w 5 1 8\n\nr 5 1")?;
    assert_eq!(rt; spaced.status, 0);
    assert!(rt; spaced.text.starts_with(b"wrote 5 1\nread 5 7\nend 1 1 1 "));
    Ok(())
}

#[test]
fn the_first_refused_line_ends_the_run(rt: HostRuntime) -> Result<(), Fail> {
    let alloc = rt.alloc();
    let refused: [(&[u8], &[u8]); 22] = [
        (b"w 1048574 3 1\n", b"line 1: OutOfVolume\n"),
        (b"r 1048576 1\n", b"line 1: OutOfVolume\n"),
        (b"w 18446744073709551615 1 1\n", b"line 1: OutOfVolume\n"),
        (b"w 18446744073709551616 1 1\n", b"line 1: BadNumber\n"),
        (b"w\n", b"line 1: BadCount\n"),
        (b"w 0 1\n", b"line 1: BadCount\n"),
        (b"w 0 1 0\n", b"line 1: BadNumber\n"),
        (b"w 5 0 1\n", b"line 1: BadNumber\n"),
        (b"w 05 1 1\n", b"line 1: BadNumber\n"),
        (b"w 99 0 1 5\n", b"line 1: BadCount\n"),
        (b"r 00 1\n", b"line 1: BadNumber\n"),
        (b"r 0 65537\n", b"line 1: BadNumber\n"),
        (b"r 5 1 1\n", b"line 1: BadCount\n"),
        (b"f 1\n", b"line 1: BadCount\n"),
        (b"i 1\n", b"line 1: BadCount\n"),
        (b"cut soon\n", b"line 1: BadWord\n"),
        (b"stop 0 torn\n", b"line 1: BadNumber\n"),
        (b"stop 4294967296 torn\n", b"line 1: BadNumber\n"),
        (b"stop 1 now\n", b"line 1: BadWord\n"),
        (b"W 5 1 1\n", b"line 1: BadWord\n"),
        (b"\xff\xfe\x00\n", b"line 1: BadWord\n"),
        (
            b"w 0 1 1\nr 0 1\nq 5",
            b"wrote 0 1\nread 0 1\nline 3: BadWord\n",
        ),
    ];
    for (trace, text) in refused {
        let outcome = replay(alloc, trace)?;
        assert_eq!(rt; outcome.status, 2);
        assert_eq!(rt; outcome.text.as_slice(), text);
    }
    Ok(())
}

#[test]
fn a_line_that_is_too_long_is_refused(rt: HostRuntime) -> Result<(), Fail> {
    let long = replay(rt.alloc(), [b'w'; 201].as_slice())?;
    assert_eq!(rt;
        (long.status, long.text.as_slice()),
        (2, b"line 1: LineTooLong\n".as_slice())
    );
    Ok(())
}

/// This line, `count` times.
pub(crate) fn repeated(alloc: Global, line: &[u8], count: u32) -> Result<Vec<u8>, AllocError> {
    let mut trace = Vec::new(alloc);
    for _ in 0..count {
        trace.extend_from_slice(line)?;
    }
    Ok(trace)
}

#[test]
fn sixteen_stops_can_be_armed(rt: HostRuntime) -> Result<(), Fail> {
    let alloc = rt.alloc();
    let line = b"stop 9 blank\n";
    let few = replay(alloc, repeated(alloc, line, 16)?.as_slice())?;
    assert_eq!(rt; few.status, 0);
    let end = format!(in alloc; "end 0 0 0 {EMPTY}\n")?;
    assert_eq!(rt; few.text.as_slice(), end.as_bytes());
    let many = replay(alloc, repeated(alloc, line, 17)?.as_slice())?;
    assert_eq!(rt; many.status, 2);
    assert_eq!(rt; many.text.as_slice(), b"line 17: TooManyStops\n".as_slice());
    Ok(())
}

// 16 log blocks of 64 pages are full after the first line.
#[test]
fn erase_blocks_are_used_again(rt: HostRuntime) -> Result<(), Fail> {
    let alloc = rt.alloc();
    let full = replay(alloc, b"w 0 1024 1\nw 0 1 2\nr 0 2\nr 1023 1\n")?;
    assert_eq!(rt; full.status, 0);
    assert!(rt;
        full.text.starts_with(
            b"wrote 0 1024\nwrote 0 1\nread 0 2\nread 1 1\nread 1023 1\nend 2 2 1024 "
        )
    );
    assert_eq!(rt; full.counts.disk_writes, 0);
    Ok(())
}

/// Runs `replay` with erase blocks of 128 pages.
fn replay_wide(alloc: Global, trace: &[u8]) -> Result<Outcome, AllocError> {
    run_on(
        alloc,
        &["replay", "--pages", "128"],
        trace,
        MemRig::new(alloc),
    )
}

#[test]
fn erase_blocks_of_128_pages_answer_the_same(rt: HostRuntime) -> Result<(), Fail> {
    let alloc = rt.alloc();
    let trace = b"w 5 1 7\nr 5 1\nr 6 1\n";
    let usual = replay(alloc, trace)?;
    let wide = replay_wide(alloc, trace)?;
    assert_eq!(rt; wide.status, 0);
    assert_eq!(rt; wide.text.as_slice(), usual.text.as_slice());
    Ok(())
}

// 16 log blocks of 128 pages are full after the first line, so groups move. After the cut their pages are loaded.
#[test]
fn groups_of_128_pages_are_held_after_a_cut(rt: HostRuntime) -> Result<(), Fail> {
    let alloc = rt.alloc();
    let full = replay_wide(alloc, b"w 0 2048 1\nw 0 1 2\ncut whole\nr 0 2\nr 2047 1\n")?;
    assert_eq!(rt; full.status, 0);
    assert!(rt;
        full.text.starts_with(
            b"wrote 0 2048\nwrote 0 1\ncut\nread 0 2\nread 1 1\nread 2047 1\nend 2 2 2048 "
        )
    );
    assert_eq!(rt; full.counts.disk_writes, 0);
    Ok(())
}

#[test]
fn a_block_is_read_from_the_disk_once(rt: HostRuntime) -> Result<(), Fail> {
    let alloc = rt.alloc();
    let mut trace = Vec::from_slice(alloc, b"w 5 1 7\n")?;
    trace.extend_from_slice(repeated(alloc, b"r 6 1\n", 20)?.as_slice())?;
    let outcome = replay(alloc, trace.as_slice())?;
    assert_eq!(rt; outcome.status, 0);
    let mut wanted = Vec::from_slice(alloc, b"wrote 5 1\n")?;
    wanted.extend_from_slice(repeated(alloc, b"read 6 0\n", 20)?.as_slice())?;
    wanted.extend_from_slice(b"end 1 20 2 ")?;
    assert!(rt; outcome.text.starts_with(wanted.as_slice()));
    assert_eq!(rt;
        (outcome.counts.disk_reads, outcome.counts.disk_writes),
        (1, 0)
    );
    Ok(())
}

#[test]
fn a_cut_loses_nothing_that_was_acknowledged(rt: HostRuntime) -> Result<(), Fail> {
    let alloc = rt.alloc();
    let trace = b"w 0 1 1\ncut whole\nf\nr 0 1\n";
    let outcome = replay(alloc, trace)?;
    assert_eq!(rt; outcome.status, 0);
    assert!(rt;
        outcome
            .text
            .starts_with(b"wrote 0 1\ncut\nflushed\nread 0 1\nend 1 1 1 ")
    );
    assert!(rt; is_plain(alloc, trace, outcome.text.as_slice(), 1_048_576)?);
    Ok(())
}

/// Words that are no command.
const WRONG: [&[&str]; 48] = [
    &[],
    &["play"],
    &["Replay"],
    &["replay "],
    &[""],
    &["gen", "x"],
    &["gen", "--count=0"],
    &["replay", "--count=5"],
    &["sweep", "--outcome=soon"],
    &["inspect", "--number=1"],
    &["help"],
    &["--help"],
    &["-h"],
    &["--version"],
    &["--", "replay"],
    &["--size=64", "replay"],
    &["replay", "x"],
    &["replay", ""],
    &["replay", "replay"],
    &["replay", "--"],
    &["replay", "-"],
    &["replay", "--help"],
    &["replay", "-h"],
    &["replay", "-V"],
    &["replay", "--version"],
    &["replay", "--pages=3"],
    &["replay", "--pages", "3"],
    &["replay", "--pages", "129"],
    &["replay", "--pages"],
    &["replay", "--pages="],
    &["replay", "--pages=04"],
    &["replay", "--pages=+4"],
    &["replay", "--pages", "-4"],
    &["replay", "--pages", "--data", "2"],
    &["replay", "--data=0"],
    &["replay", "--data=513"],
    &["replay", "--log=1"],
    &["replay", "--journal=17"],
    &["replay", "--size=0"],
    &["replay", "--size=18446744073709551616"],
    &["replay", "--size=64", "--size=64"],
    &["replay", "--siz=64"],
    &["replay", "--mode=forward"],
    &["replay", "--ack=soon"],
    &["replay", "--ack"],
    &["cost", "--ack=flush", "--mode=through"],
    &["replay", "--data", "2", "--dirty", "3"],
    &["replay", "--dirty=0"],
];

#[test]
fn wrong_words_print_nothing(rt: HostRuntime) -> Result<(), Fail> {
    let alloc = rt.alloc();
    for spelled in WRONG {
        let words = words(alloc, spelled)?;
        let mut source = MemSource::new(Vec::from_slice(alloc, b"w 0 1 1\n")?, 7, Vec::new(alloc));
        let mut sink = MemSink::new(alloc, 100, 100, Vec::new(alloc))?;
        let mut rig = MemRig::new(alloc);
        let status = run(alloc, words.as_slice(), &mut source, &mut sink, &mut rig);
        assert_eq!(rt; status, 1);
        assert!(rt; sink.bytes().is_empty());
    }
    Ok(())
}

#[test]
fn each_fault_has_its_status(rt: HostRuntime) -> Result<(), Fail> {
    let alloc = rt.alloc();
    let trace = b"w 0 1 1\nr 0 1\n";
    let rig = MemRig::failing(alloc, [1].to_vec(alloc)?, Vec::new(alloc));
    let outcome = replay_on(alloc, trace, rig)?;
    assert_eq!(rt; (outcome.status, outcome.text.len()), (5, 0));
    // The first call of the disk is the flush of the opening, the second the read.
    let rig = MemRig::failing(alloc, Vec::new(alloc), [2].to_vec(alloc)?);
    let outcome = replay_on(alloc, b"r 6 1\n", rig)?;
    assert_eq!(rt; (outcome.status, outcome.text.len()), (6, 0));
    Ok(())
}

#[test]
fn streams_that_fail_end_the_run(rt: HostRuntime) -> Result<(), Fail> {
    let alloc = rt.alloc();
    let words = words(alloc, &["replay"])?;
    // The first line ended before the fault, and the second did not.
    let trace = Vec::from_slice(alloc, b"w 0 1 1\nr 0 1\n")?;
    let mut source = MemSource::new(trace, 4, [3].to_vec(alloc)?);
    let mut sink = MemSink::new(alloc, 1000, 100, Vec::new(alloc))?;
    let mut rig = MemRig::new(alloc);
    let status = run(alloc, words.as_slice(), &mut source, &mut sink, &mut rig);
    assert_eq!(rt; status, 3);
    assert_eq!(rt; sink.bytes(), b"wrote 0 1\n".as_slice());
    // A refused line before the fault ends the run first.
    let trace = Vec::from_slice(alloc, b"q\nr 0 1\n")?;
    let mut source = MemSource::new(trace, 4, [2].to_vec(alloc)?);
    let mut sink = MemSink::new(alloc, 1000, 100, Vec::new(alloc))?;
    let status = run(alloc, words.as_slice(), &mut source, &mut sink, &mut rig);
    assert_eq!(rt; status, 2);
    assert_eq!(rt; sink.bytes(), b"line 1: BadWord\n".as_slice());
    // A line is too long once 201 of its bytes were read, whatever comes after them.
    let trace = Vec::from_slice(alloc, [b'w'; 201].as_slice())?;
    let mut source = MemSource::new(trace, 201, [2].to_vec(alloc)?);
    let mut sink = MemSink::new(alloc, 1000, 100, Vec::new(alloc))?;
    let status = run(alloc, words.as_slice(), &mut source, &mut sink, &mut rig);
    assert_eq!(rt; status, 2);
    assert_eq!(rt; sink.bytes(), b"line 1: LineTooLong\n".as_slice());
    let trace = Vec::from_slice(alloc, b"w 5 1 7\nr 5 1\nr 6 1\n")?;
    let mut source = MemSource::new(trace, 100, Vec::new(alloc));
    let mut sink = MemSink::new(alloc, 1000, 5, [2].to_vec(alloc)?)?;
    let status = run(alloc, words.as_slice(), &mut source, &mut sink, &mut rig);
    assert_eq!(rt; status, 4);
    assert_eq!(rt; sink.bytes(), b"wrote".as_slice());
    Ok(())
}
