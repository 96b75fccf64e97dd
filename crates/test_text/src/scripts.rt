//! Scripts over streams: the text that they print, and the lines that they read.
ghost use Rattle.std.specs.Prelude.{All, IfOk};
ghost use Rattle.trace_model.specs.Text.{IsTold};

use ft_base::{Geometry, MemSink, MemSource};
use std::alloc::{AllocError, Global};
use std::test::Fail;
use trace_gen::TraceGen;
use trace_model::{Answer, Line};
use trace_replay::{Ended, MadeScript, Script, StreamScript};

// ---- the printed text

/// A source of these bytes, in pieces of this many, which fails at the listed reads.
fn source_of(
    alloc: Global,
    bytes: &[u8],
    piece: usize,
    failing: &[u64],
) -> Result<MemSource, AllocError> {
    let piece = if piece == 0 { 1 } else { piece };
    Ok(MemSource::new(bytes.to_vec(alloc)?, piece, failing.to_vec(alloc)?))
}

/// Prints an answer by a script without lines.
fn say(alloc: Global, sink: &mut MemSink, answer: Answer) -> Result<Result<(), Ended>, AllocError>
    requires { IsTold answer }
{
    let mut source = source_of(alloc, b"", 1, &[])?;
    let mut script = StreamScript::new(alloc, &mut source, sink, 64);
    Ok(script.answer(&answer))
}

/// Prints these answers together.
fn say_all(
    alloc: Global,
    sink: &mut MemSink,
    answers: &[Answer],
) -> Result<Result<(), Ended>, AllocError>
    requires { All IsTold answers.now }
{
    let mut source = source_of(alloc, b"", 1, &[])?;
    let mut script = StreamScript::new(alloc, &mut source, sink, 64);
    Ok(script.answers(answers))
}

#[test]
fn answers_are_printed_as_far_as_there_is_room(rt: HostRuntime) -> Result<(), Fail> {
    let mut sink = MemSink::new(rt.alloc(), 5, 5, Vec::new(rt.alloc()))?;
    assert!(rt; say(rt.alloc(), &mut sink, Answer::Cut)? == Ok(()));
    assert!(rt; say(rt.alloc(), &mut sink, Answer::Stopped)? == Err(Ended::Sink));
    assert!(rt; sink.bytes() == b"cut\ns".as_slice());
    assert_eq!(rt; sink.faults(), 1);
    Ok(())
}

/// The answers to a read of `count` blocks.
fn read_backs(alloc: Global, count: u64) -> Result<Vec<Answer>, AllocError>
    ensures { IfOk result (λ answers. All IsTold answers.items) }
{
    let mut answers = Vec::new(alloc);
    for lba in 0..count {
        answers.push(Answer::ReadBack { lba, tag: u64::MAX })?;
    }
    Ok(answers)
}

/// Prints the answers to a read of `count` blocks, over a sink that fails at this write.
fn say_read(
    alloc: Global,
    count: u64,
    failing: u64,
) -> Result<(Result<(), Ended>, MemSink), AllocError> {
    let answers = read_backs(alloc, count)?;
    let mut sink = MemSink::new(alloc, 4_000_000, 100_000, [failing].to_vec(alloc)?)?;
    let ended = say_all(alloc, &mut sink, answers.as_slice())?;
    Ok((ended, sink))
}

#[test]
fn a_long_read_is_printed_in_fewer_than_a_hundred_writes(rt: HostRuntime) -> Result<(), Fail> {
    // The hundredth write would fail.
    let (ended, sink) = say_read(rt.alloc(), 65_536, 100)?;
    assert!(rt; ended == Ok(()) && sink.faults() == 0);
    assert!(rt;
        sink.bytes()
            .ends_with(b"\nread 65535 18446744073709551615\n")
    );
    Ok(())
}

// The 3000 lines make two pieces.
#[test]
fn the_pieces_before_a_fault_are_printed(rt: HostRuntime) -> Result<(), Fail> {
    let (ended, sink) = say_read(rt.alloc(), 3000, 2)?;
    assert!(rt; ended == Err(Ended::Sink) && sink.faults() == 1);
    assert!(rt; sink.bytes().len() >= 65_536);
    assert!(rt; sink.bytes().ends_with(b" 18446744073709551615\n"));
    Ok(())
}

// ---- the lines that are read

/// A source whose first line is a flush.
#[derive(Clone, Copy)]
struct Row<'a> {
    bytes: &'a [u8],
    /// The number of bytes of a piece, and the reads that fail.
    pieces: (usize, &'a [u64]),
    /// What the script gives after the first line.
    second: Result<Option<Line>, Ended>,
    printed: &'a [u8],
}

/// Whether the lines go on like this after the first one, and this is printed.
fn goes_on_so(
    alloc: Global,
    bytes: &[u8],
    pieces: (usize, &[u64]),
    wanted: Result<Option<Line>, Ended>,
    printed: &[u8],
) -> Result<bool, AllocError> {
    let mut source = source_of(alloc, bytes, pieces.0, pieces.1)?;
    let mut sink = MemSink::new(alloc, 100, 100, Vec::new(alloc))?;
    let mut script = StreamScript::new(alloc, &mut source, &mut sink, 64);
    let first = script.next(0);
    let second = script.next(0);
    Ok(first == Ok(Some(Line::Flush)) && second == wanted && sink.bytes() == printed)
}

/// The first source that goes on otherwise, if there is one.
fn first_other(alloc: Global, rows: &[Row]) -> Result<Option<usize>, AllocError> {
    for i in 0..rows.len() {
        let row = rows[i];
        if !goes_on_so(alloc, row.bytes, row.pieces, row.second, row.printed)? {
            return Ok(Some(i));
        }
    }
    Ok(None)
}

const ENDED: [Row; 6] = [
    Row {
        bytes: b"f\nf",
        pieces: (1, &[]),
        second: Ok(Some(Line::Flush)),
        printed: b"",
    },
    Row {
        bytes: b"f\nf",
        pieces: (2, &[]),
        second: Ok(Some(Line::Flush)),
        printed: b"",
    },
    Row {
        bytes: b"f\nf",
        pieces: (100, &[]),
        second: Ok(Some(Line::Flush)),
        printed: b"",
    },
    Row {
        bytes: b"f\n",
        pieces: (100, &[]),
        second: Ok(None),
        printed: b"",
    },
    Row {
        bytes: b"f\nf",
        pieces: (2, &[2]),
        second: Err(Ended::Source),
        printed: b"",
    },
    Row {
        bytes: b"f\nf",
        pieces: (100, &[2]),
        second: Err(Ended::Source),
        printed: b"",
    },
];

#[test]
fn bytes_that_no_line_feed_ends_are_a_line_where_the_source_ended(
    rt: HostRuntime,
) -> Result<(), Fail> {
    assert_eq!(rt; first_other(rt.alloc(), &ENDED)?, None);
    Ok(())
}

/// Whether a source that begins with a flush goes on with `LineTooLong` if `is_long`, and else with its fault, when
/// this read fails.
fn goes_on_long(
    alloc: Global,
    bytes: &[u8],
    piece: usize,
    failing: u64,
    is_long: bool,
) -> Result<bool, AllocError> {
    let failing = [failing];
    let pieces = (piece, failing.as_slice());
    if is_long {
        let printed = b"line 2: LineTooLong\n".as_slice();
        return goes_on_so(alloc, bytes, pieces, Err(Ended::Trace), printed);
    }
    goes_on_so(alloc, bytes, pieces, Err(Ended::Source), b"")
}

#[test]
fn a_line_is_over_long_also_where_the_source_fails_behind_it(rt: HostRuntime) -> Result<(), Fail> {
    let mut bytes = [b'#'; 203];
    bytes[0] = b'f';
    bytes[1] = b'\n';
    assert!(rt; goes_on_long(rt.alloc(), &bytes, 100, 4, true)?);
    assert!(rt; goes_on_long(rt.alloc(), &bytes, 203, 2, true)?);
    assert!(rt; goes_on_long(rt.alloc(), &bytes[..202], 202, 2, false)?);
    Ok(())
}

// ---- made traces

/// Runs a made trace of one line by its script: whether the line is given and nothing is refused.
fn runs_made(alloc: Global, sink: &mut MemSink) -> Result<bool, Fail> {
    let small = Geometry::new(4, 2, 2, 1, 64)?;
    let mut script = MadeScript::new(alloc, TraceGen::new(1, 1, &small), sink);
    let first = script.next(0);
    let answered = script.answer(&Answer::Idle);
    let second = script.next(0);
    let ended = script.end(1, 2, 3);
    Ok(
        first == Ok(Some(Line::Read { lba: 1, count: 8 }))
            && answered == Ok(())
            && second == Ok(None)
            && ended == Ok(()),
    )
}

#[test]
fn nothing_is_printed_but_the_end_line(rt: HostRuntime) -> Result<(), Fail> {
    let mut sink = MemSink::new(rt.alloc(), 100, 100, Vec::new(rt.alloc()))?;
    assert!(rt; runs_made(rt.alloc(), &mut sink)?);
    let printed = b"end 1 2 3 e3b0c44298fc1c149afbf4c8996fb92427ae41e4649b934ca495991b7852b855\n";
    assert!(rt; sink.bytes() == printed.as_slice());
    Ok(())
}
