//! A trace in pieces of every size, and streams whose calls fail, each in turn.

ghost use Rattle.std.specs.Prelude.{◌≤◌};

use flashtier_run::run;
use ft_base::{MemSink, MemSource};
use mem_rig::MemRig;
use std::alloc::{AllocError, Global};
use std::process::Abort;
use std::test::Fail;
use test_small_runs::Outcome;

/// A replay over a volume of 64 blocks.
const WORDS: [&str; 6] = [
    "replay",
    "--pages=4",
    "--data=2",
    "--log=2",
    "--journal=1",
    "--size=64",
];

/// Each line up to the refused one prints a line.
const REFUSED: &[u8] = b"w 0 1 1\nr 0 1\nw 5 2 7\nf\nq 5\nr 0 1\n";

const REFUSED_TEXT: &[u8] = b"wrote 0 1\nread 0 1\nwrote 5 2\nflushed\nline 5: BadWord\n";

/// Each line prints a line, and no line feed ends the last.
const WHOLE: &[u8] = b"w 0 1 1\nr 0 1";

const WHOLE_TEXT: &[u8] =
    b"wrote 0 1\nread 0 1\nend 1 1 1 8e50292b6a80dcdf08865a5ef350ec1b15d9daa1a50e79b7fde7bd98e9431cb5\n";

/// A piece has this many bytes if calls of the source fail.
const PIECE: usize = 3;

fn replay(alloc: Global, mut source: MemSource, mut sink: MemSink) -> Result<Outcome, Fail> {
    let mut words = Vec::new(alloc);
    for word in WORDS {
        words.push(String::from_str(alloc, word)?)?;
    }
    let mut rig = MemRig::new(alloc);
    let status = run(alloc, words.as_slice(), &mut source, &mut sink, &mut rig);
    let text = Vec::from_slice(alloc, sink.bytes())?;
    Ok(Outcome { status, text, rig })
}

/// Runs the trace in pieces of `piece` bytes. The listed calls of the source fail.
fn in_pieces(alloc: Global, trace: &[u8], piece: usize, failing: Vec<u64>) -> Result<Outcome, Fail>
    requires { 1 ≤ piece }
{
    let source = MemSource::new(Vec::from_slice(alloc, trace)?, piece, failing);
    let sink = MemSink::new(alloc, 1000, 100, Vec::new(alloc))?;
    replay(alloc, source, sink)
}

/// Runs the trace over a sink that takes one byte a call, and fails at this call.
fn byte_by_byte(alloc: Global, trace: &[u8], failing: u64) -> Result<Outcome, Fail> {
    let source = MemSource::new(Vec::from_slice(alloc, trace)?, 100, Vec::new(alloc));
    let sink = MemSink::new(alloc, 1000, 1, [failing].to_vec(alloc)?)?;
    replay(alloc, source, sink)
}

/// A trace of 307 bytes: blanks stand between some of its words.
fn spaced(alloc: Global) -> Result<Vec<u8>, AllocError> {
    let mut trace = Vec::from_slice(alloc, b"w")?;
    trace.extend_from_slice([b' '; 190].as_slice())?;
    trace.extend_from_slice(b" 0 1 1\nr")?;
    trace.extend_from_slice([b'\t'; 100].as_slice())?;
    trace.extend_from_slice(b" 0 1\nq 5")?;
    Ok(trace)
}

/// Sees that a run ended with this status, and printed this text.
fn ends_so(rt: &impl Abort, outcome: &Outcome, status: u8, text: &[u8]) {
    assert_eq!(rt; outcome.status, status);
    assert_eq!(rt; outcome.text.as_slice(), text);
}

#[test]
fn pieces_of_every_size_give_one_text(rt: HostRuntime) -> Result<(), Fail> {
    let alloc = rt.alloc();
    let spaced = spaced(alloc)?;
    let text = b"wrote 0 1\nread 0 1\nline 3: BadWord\n";
    for piece in 1..=300 {
        let outcome = in_pieces(alloc, b"w 0 1 1\nr 0 1\nq 5", piece, Vec::new(alloc))?;
        ends_so(&rt, &outcome, 2, text);
        let outcome = in_pieces(alloc, spaced.as_slice(), piece, Vec::new(alloc))?;
        ends_so(&rt, &outcome, 2, text);
        let outcome = in_pieces(alloc, WHOLE, piece, Vec::new(alloc))?;
        ends_so(&rt, &outcome, 0, WHOLE_TEXT);
    }
    Ok(())
}

/// How many line feeds stand in the first `most` bytes.
fn line_feeds(bytes: &[u8], most: usize) -> usize {
    let mut count: usize = 0;
    for byte in bytes.iter().take(most) {
        if *byte == b'\n' {
            count = count.saturating_add(1);
        }
    }
    count
}

/// The first lines of a text.
fn first_lines(alloc: Global, text: &[u8], count: usize) -> Result<Vec<u8>, AllocError> {
    let mut lines = Vec::new(alloc);
    let mut left = count;
    for byte in text {
        if left == 0 {
            break;
        }
        lines.push(*byte)?;
        if *byte == b'\n' {
            left = left.saturating_sub(1);
        }
    }
    Ok(lines)
}

// The lines that ended before the call are run, and the others are not.
#[test]
fn each_call_of_the_source_that_fails_ends_the_run(rt: HostRuntime) -> Result<(), Fail> {
    let alloc = rt.alloc();
    for before in 0..12 {
        let failing = [before + 1].to_vec(alloc)?;
        let outcome = in_pieces(alloc, REFUSED, PIECE, failing)?;
        let ended = line_feeds(REFUSED, PIECE * before as usize);
        let text = first_lines(alloc, REFUSED_TEXT, ended)?;
        let status = if ended < 5 { 3 } else { 2 };
        ends_so(&rt, &outcome, status, text.as_slice());
    }
    // The source ends at its sixth call.
    for before in 0..6 {
        let failing = [before + 1].to_vec(alloc)?;
        let outcome = in_pieces(alloc, WHOLE, PIECE, failing)?;
        let ended = line_feeds(WHOLE, PIECE * before as usize);
        ends_so(
            &rt,
            &outcome,
            3,
            first_lines(alloc, WHOLE_TEXT, ended)?.as_slice(),
        );
    }
    let outcome = in_pieces(alloc, WHOLE, PIECE, [7].to_vec(alloc)?)?;
    ends_so(&rt, &outcome, 0, WHOLE_TEXT);
    Ok(())
}

// A sink that takes one byte a call has taken one byte for each call before.
#[test]
fn each_call_of_the_sink_that_fails_ends_the_run(rt: HostRuntime) -> Result<(), Fail> {
    let alloc = rt.alloc();
    for (trace, status, text) in [(REFUSED, 2, REFUSED_TEXT), (WHOLE, 0, WHOLE_TEXT)] {
        let mut calls: u64 = 0;
        for taken in 0..text.len() {
            calls = calls.saturating_add(1);
            let outcome = byte_by_byte(alloc, trace, calls)?;
            ends_so(&rt, &outcome, 4, &text[..taken]);
        }
        let outcome = byte_by_byte(alloc, trace, calls.saturating_add(1))?;
        ends_so(&rt, &outcome, status, text);
    }
    Ok(())
}

/// How many bytes the source still has.
fn left_in(source: &mut MemSource) -> Result<usize, Fail> {
    let mut left: usize = 0;
    let mut buffer = [0u8; 512];
    for _ in 0..100 {
        match source.give(&mut buffer) {
            Ok(0) => break,
            Ok(count) => left = left.saturating_add(count),
            Err(_) => break,
        }
    }
    Ok(left)
}

/// A trace whose first line writes a block; two more pieces of comments follow.
fn three_pieces(alloc: Global) -> Result<Vec<u8>, AllocError> {
    let mut trace = Vec::from_slice(alloc, b"w 0 1 1\n")?;
    for _ in 0..120 {
        trace.push(b'#')?;
        trace.extend_from_slice([b'x'; 98].as_slice())?;
        trace.push(b'\n')?;
    }
    Ok(trace)
}

/// Runs the trace over a rig that fails at this call of the flash. Says how the run ended, and how many bytes of the
/// trace were not read.
fn unread_after(alloc: Global, trace: &[u8], failing: u64) -> Result<(u8, usize), Fail> {
    let mut source = MemSource::new(Vec::from_slice(alloc, trace)?, 5000, Vec::new(alloc));
    let mut sink = MemSink::new(alloc, 1000, 100, Vec::new(alloc))?;
    let mut rig = MemRig::failing(alloc, [failing].to_vec(alloc)?, Vec::new(alloc));
    let mut words = Vec::new(alloc);
    for word in WORDS {
        words.push(String::from_str(alloc, word)?)?;
    }
    let status = run(alloc, words.as_slice(), &mut source, &mut sink, &mut rig);
    Ok((status, left_in(&mut source)?))
}

// A call that fails before the volume is made leaves the whole trace. A call that fails in the first line leaves all
// of it but the first piece of 4,096 bytes.
#[test]
fn a_first_line_that_fails_leaves_the_rest_in_the_source(rt: HostRuntime) -> Result<(), Fail> {
    let alloc = rt.alloc();
    let trace = three_pieces(alloc)?;
    let mut in_line: u64 = 0;
    for failing in 1..30 {
        let (status, left) = unread_after(alloc, trace.as_slice(), failing)?;
        // The reads of the end come after all of the trace.
        if status == 5 && left > 0 && left < trace.len() {
            in_line = in_line.saturating_add(1);
            assert_eq!(rt; trace.len() - left, 4096);
        }
    }
    assert!(rt; in_line > 1);
    Ok(())
}
