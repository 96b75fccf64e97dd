//! A trace over two disks in pieces of every size, and streams whose calls fail, each in turn.

ghost use Rattle.std.specs.Prelude.{◌≤◌};

use flashtier_run::run;
use ft_base::{MemSink, MemSource};
use mem_rig::MemRig;
use std::alloc::Global;
use std::process::Abort;
use std::test::Fail;
use test_small_runs::Outcome;

/// A replay over two disks that share 64 blocks.
const WORDS: [&str; 7] = [
    "replay",
    "--pages=4",
    "--data=2",
    "--log=2",
    "--journal=1",
    "--size=64",
    "--disks=2",
];

/// Each line prints a line, and no line feed ends the last.
const TRACE: &[u8] = b"disk 1\nw 0 1 9\ndisk 0\nr 0 1\ndisk 1";

const TEXT: &[u8] = b"disk 1\nwrote 0 1\ndisk 0\nread 0 0\ndisk 1\n\
    disk 0\nend 0 1 1 4f2cfec1c5dc3827cdeb42906713b37cae91e009aa0e2d211c376ccb9969b3ea\n\
    disk 1\nend 1 0 1 586ff9671b986dfdc89fa1c4d3220009e5baf080590854755fa74ff03bf95169\n";

fn replay(alloc: Global, mut source: MemSource, mut sink: MemSink) -> Result<Outcome, Fail> {
    let mut words = Vec::new(alloc);
    for word in WORDS {
        words.push(String::from_str(alloc, word)?)?;
    }
    let mut rig = MemRig::new(alloc);
    let status = run(alloc, words.as_slice(), &mut source, &mut sink, &mut rig);
    let text = Vec::from_slice(alloc, sink.bytes())?;
    Ok(Outcome { status, text, rig })
}

/// Runs the trace in pieces of `piece` bytes. The listed calls of the source fail.
fn in_pieces(alloc: Global, piece: usize, failing: Vec<u64>) -> Result<Outcome, Fail>
    requires { 1 ≤ piece }
{
    let source = MemSource::new(Vec::from_slice(alloc, TRACE)?, piece, failing);
    let sink = MemSink::new(alloc, 1000, 100, Vec::new(alloc))?;
    replay(alloc, source, sink)
}

/// Sees that a run ended with this status, and printed this text.
fn ends_so(rt: &impl Abort, outcome: &Outcome, status: u8, text: &[u8]) {
    assert_eq!(rt; outcome.status, status);
    assert_eq!(rt; outcome.text.as_slice(), text);
}

#[test]
fn pieces_of_every_size_give_one_text(rt: HostRuntime) -> Result<(), Fail> {
    for piece in 1..=40 {
        let outcome = in_pieces(rt.alloc(), piece, Vec::new(rt.alloc()))?;
        ends_so(&rt, &outcome, 0, TEXT);
    }
    Ok(())
}

// A piece has ten bytes. The lines that ended before the call are run, and the others are not.
#[test]
fn each_call_of_the_source_that_fails_ends_the_run(rt: HostRuntime) -> Result<(), Fail> {
    let alloc = rt.alloc();
    let texts: [&[u8]; 5] = [
        b"",
        b"disk 1\n",
        b"disk 1\nwrote 0 1\n",
        b"disk 1\nwrote 0 1\ndisk 0\nread 0 0\n",
        b"disk 1\nwrote 0 1\ndisk 0\nread 0 0\n",
    ];
    for before in 0..5u64 {
        let outcome = in_pieces(alloc, 10, [before + 1].to_vec(alloc)?)?;
        ends_so(&rt, &outcome, 3, texts[before as usize]);
    }
    ends_so(&rt, &in_pieces(alloc, 10, [6].to_vec(alloc)?)?, 0, TEXT);
    Ok(())
}

/// A write of disk 1 is cut, and another line is refused.
const CUT: &[u8] =
    b"w 0 1 7\ndisk 1\nstop 2 torn\nw 0 2 9\nr 0 2\ncut blank\ndisk 0\nr 0 1\ndisk 2\n";

const CUT_TEXT: &[u8] =
    b"wrote 0 1\ndisk 1\nstopped\nkept 0 of 2\nread 0 0\nread 1 0\ncut\ndisk 0\nread 0 7\n\
    line 9: BadNumber\n";

/// Runs the trace over a sink that takes one byte a call, and fails at this call.
fn byte_by_byte(alloc: Global, trace: &[u8], failing: u64) -> Result<Outcome, Fail> {
    let source = MemSource::new(Vec::from_slice(alloc, trace)?, 100, Vec::new(alloc));
    let sink = MemSink::new(alloc, 1000, 1, [failing].to_vec(alloc)?)?;
    replay(alloc, source, sink)
}

#[test]
fn each_call_of_the_sink_that_fails_leaves_a_front_of_the_text(
    rt: HostRuntime,
) -> Result<(), Fail> {
    let alloc = rt.alloc();
    for (trace, status, text) in [(TRACE, 0, TEXT), (CUT, 2, CUT_TEXT)] {
        for taken in 0..text.len() {
            let outcome = byte_by_byte(alloc, trace, taken as u64 + 1)?;
            ends_so(&rt, &outcome, 4, &text[..taken]);
        }
        let outcome = byte_by_byte(alloc, trace, text.len() as u64 + 1)?;
        ends_so(&rt, &outcome, status, text);
    }
    Ok(())
}
