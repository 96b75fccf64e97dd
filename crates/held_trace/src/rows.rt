//! Worked traces: which of their lines are held, and which are refused.

use crate::{HeldTrace, TakeError, plain_sweep_readings};
use ft_base::MemSource;
use std::alloc::{AllocError, Global};
use std::test::Fail;
use trace_model::{Line, LineError};

/// The number of blocks of the volume.
const SIZE: u64 = 1_048_576;

/// Takes a trace from a source that gives pieces of `piece` bytes and fails at the listed reads.
fn take_from(
    alloc: Global,
    trace: &[u8],
    piece: usize,
    failing: &[u64],
) -> Result<Result<HeldTrace, TakeError>, AllocError> {
    let piece = if piece == 0 { 1 } else { piece };
    let mut source = MemSource::new(trace.to_vec(alloc)?, piece, failing.to_vec(alloc)?);
    Ok(HeldTrace::take(alloc, &mut source, SIZE))
}

/// The line of a trace that is refused first, and why, or `None` if the trace is held.
fn refused_in(alloc: Global, trace: &[u8]) -> Result<Option<(u64, LineError)>, Fail> {
    match take_from(alloc, trace, 100, &[])? {
        Ok(_) => Ok(None),
        Err(TakeError::Refused { line, cause }) => Ok(Some((line, cause))),
        Err(TakeError::Source | TakeError::Memory) => Ok(Some((0, LineError::TooLong))),
    }
}

/// The same by the plain program.
fn plainly_refused(
    alloc: Global,
    trace: &[u8],
    whole: bool,
) -> Result<Option<(u64, LineError)>, Fail> {
    let readings = plain_sweep_readings(alloc, SIZE, whole, trace)?;
    let mut line: u64 = 1;
    for reading in readings.as_slice() {
        if let Err(cause) = reading {
            return Ok(Some((line, *cause)));
        }
        line = line.saturating_add(1);
    }
    Ok(None)
}

// ---- whole traces

/// The first trace in which another line is refused, or the same line for another cause.
fn first_other(
    alloc: Global,
    rows: &[(&[u8], Option<(u64, LineError)>)],
) -> Result<Option<usize>, Fail> {
    for i in 0..rows.len() {
        let (trace, refused) = rows[i];
        if refused_in(alloc, trace)? != refused || plainly_refused(alloc, trace, true)? != refused {
            return Ok(Some(i));
        }
    }
    Ok(None)
}

const TRACES: [(&[u8], Option<(u64, LineError)>); 22] = [
    (b"", None),
    (b"\n", None),
    (b"# as read\nw 0 1 1\n\nr 0 1\nf\ni", None),
    (b"w 0 256 1\n", None),
    (b"w 0 257 1", Some((1, LineError::TooLong))),
    (b"r 0 65536\n", Some((1, LineError::TooLong))),
    (b"r 0 65537\n", Some((1, LineError::BadNumber))),
    (b"w 1048576 1 1\n", Some((1, LineError::OutOfVolume))),
    (b"w 1048575 300 1\n", Some((1, LineError::OutOfVolume))),
    (b"w 0 128 1\nr 0 128\n", None),
    (
        b"w 0 128 1\nr 0 128\nr 0 1\n",
        Some((3, LineError::TooLong)),
    ),
    (b"w 0 128 1\nr 0 128\nf\ni\n", None),
    (b"w 0 256 1\nr 0 0\n", Some((2, LineError::BadNumber))),
    (b"w 0 256 1\nr 0 1\nx\n", Some((2, LineError::TooLong))),
    (b"cut blank", Some((1, LineError::BadWord))),
    (b"f\ncut torn\n", Some((2, LineError::BadWord))),
    (b"cut soon\n", Some((1, LineError::BadWord))),
    (b"cut\n", Some((1, LineError::BadCount))),
    (b"i\n\nstop 1 torn\n", Some((3, LineError::BadWord))),
    (b"stop 0 blank\n", Some((1, LineError::BadNumber))),
    (b"stop 1 soon\n", Some((1, LineError::BadWord))),
    (b"f\nx\ncut blank\n", Some((2, LineError::BadWord))),
];

#[test]
fn the_first_refusal_that_applies_is_answered(rt: HostRuntime) -> Result<(), Fail> {
    assert_eq!(rt; first_other(rt.alloc(), &TRACES)?, None);
    Ok(())
}

// ---- traces about as long as they may be

/// A trace of this many flushes with these bytes behind them.
fn flushes_then(alloc: Global, flushes: u64, last: &[u8]) -> Result<Vec<u8>, AllocError> {
    let mut trace = Vec::new(alloc);
    for _flush in 0..flushes {
        trace.extend_from_slice(b"f\n")?;
    }
    trace.extend_from_slice(last)?;
    Ok(trace)
}

/// The first trace, of that many flushes and these bytes, in which another line is refused, or the same line for
/// another cause.
fn first_other_long(
    alloc: Global,
    rows: &[(u64, &[u8], Option<(u64, LineError)>)],
) -> Result<Option<usize>, Fail> {
    for i in 0..rows.len() {
        let (flushes, last, refused) = rows[i];
        let trace = flushes_then(alloc, flushes, last)?;
        let trace = trace.as_slice();
        if refused_in(alloc, trace)? != refused || plainly_refused(alloc, trace, true)? != refused {
            return Ok(Some(i));
        }
    }
    Ok(None)
}

const LONG: [(u64, &[u8], Option<(u64, LineError)>); 13] = [
    // These have 4,096 bytes; the last byte is a line feed or not.
    (2048, b"", None),
    (2047, b"f ", None),
    // Byte 4,097 is a word, a line feed, or the line feed of the last line.
    (2048, b"f", Some((2049, LineError::TooLong))),
    (2048, b"\n", Some((2049, LineError::TooLong))),
    (2047, b"f \n", Some((2048, LineError::TooLong))),
    // Neither what the line says matters, nor what stands behind the line.
    (2048, b"cut blank\n", Some((2049, LineError::TooLong))),
    (2047, b"cut blank\n", Some((2048, LineError::TooLong))),
    (2046, b"x y\nf\nx\n", Some((2047, LineError::BadWord))),
    (3000, b"x\n", Some((2049, LineError::TooLong))),
    // An over-long line with byte 4,097 in it, and other lines that end before that byte.
    (1900, &[b'#'; 297], Some((1901, LineError::TooLong))),
    (1900, &[b'#'; 1000], Some((1901, LineError::TooLong))),
    (1900, &[b'#'; 296], Some((1901, LineError::LineTooLong))),
    (1900, &[b'#'; 200], None),
];

#[test]
fn the_line_past_the_limit_is_too_long(rt: HostRuntime) -> Result<(), Fail> {
    assert_eq!(rt; first_other_long(rt.alloc(), &LONG)?, None);
    Ok(())
}

// ---- sources that fail

/// A trace, how many bytes of it the first read gives, and which line is refused before the second read fails.
type Failing<'a> = (&'a [u8], usize, Option<(u64, LineError)>);

/// The first trace in which another line is refused before the source fails, or the same line for another cause.
fn first_other_failing(alloc: Global, rows: &[Failing]) -> Result<Option<usize>, Fail> {
    for i in 0..rows.len() {
        let (trace, read, refused) = rows[i];
        let wanted = match refused {
            Some((line, cause)) => TakeError::Refused { line, cause },
            None => TakeError::Source,
        };
        let taken = take_from(alloc, trace, read, &[2])?;
        if taken.err() != Some(wanted) {
            return Ok(Some(i));
        }
        let read = read.min(trace.len());
        if plainly_refused(alloc, &trace[..read], false)? != refused {
            return Ok(Some(i));
        }
    }
    Ok(None)
}

const FAILING: [Failing; 7] = [
    (b"f\nx\nf\n", 4, Some((2, LineError::BadWord))),
    (b"f\nx\nf\n", 3, None),
    (b"f\nx", 3, None),
    (b"w 0 257 1\nf\n", 10, Some((1, LineError::TooLong))),
    (b"w 0 257 1\nf\n", 9, None),
    (&[b'#'; 300], 201, Some((1, LineError::LineTooLong))),
    (&[b'#'; 300], 200, None),
];

#[test]
fn a_refused_line_comes_before_a_fault(rt: HostRuntime) -> Result<(), Fail> {
    assert_eq!(rt; first_other_failing(rt.alloc(), &FAILING)?, None);
    Ok(())
}

// ---- the lines that are held

#[test]
fn each_line_is_held_with_its_blocks(rt: HostRuntime) -> Result<(), Fail> {
    for piece in 1..9 {
        let taken = take_from(rt.alloc(), b"w 5 2 9\n# x\r\nr 6 1\n\nf\ni", piece, &[])?;
        let held = taken.expect(&rt, "the trace is held");
        let lines = [
            Line::Write {
                lba: 5,
                count: 2,
                tag: 9,
            },
            Line::Nothing,
            Line::Read { lba: 6, count: 1 },
            Line::Nothing,
            Line::Flush,
            Line::Idle,
        ];
        assert!(rt; held.lines() == lines.as_slice());
        assert_eq!(rt; (held.turns(), held.blocks()), (6, 3));
    }
    Ok(())
}

#[test]
fn no_byte_past_the_first_too_many_is_taken(rt: HostRuntime) -> Result<(), Fail> {
    let alloc = rt.alloc();
    let trace = flushes_then(alloc, 2500, b"")?;
    let mut source = MemSource::new(trace, 5000, Vec::new(alloc));
    assert!(rt; HeldTrace::take(alloc, &mut source, SIZE).is_err());
    let mut left = [0u8; 1000];
    assert!(rt; source.give(&mut left) == Ok(903));
    Ok(())
}
