//! What a script over worked traces gives and prints.

use crate::MsrScript;
use ft_base::{MemSink, MemSource};
use std::alloc::{AllocError, Global};
use std::test::Fail;
use trace_model::Line;
use trace_replay::{Ended, Script};

/// What a script gives when it is asked for a line.
type Given = Result<Option<Line>, Ended>;

/// A trace, what the script gives, call by call, and the text that is printed then.
#[derive(Clone, Copy)]
struct Row<'a> {
    trace: &'a [u8],
    given: &'a [Given],
    printed: &'a [u8],
}

/// Whether the script gives this, from a source that gives `piece` bytes at once and fails at these reads.
fn gives(alloc: Global, row: &Row, piece: usize, failing: &[u64]) -> Result<bool, AllocError> {
    let piece = if piece == 0 { 1 } else { piece };
    let mut source = MemSource::new(row.trace.to_vec(alloc)?, piece, failing.to_vec(alloc)?);
    let mut sink = MemSink::new(alloc, 100, 100, Vec::new(alloc))?;
    let mut script = MsrScript::new(alloc, &mut source, &mut sink, 1_048_576);
    let mut same = true;
    for wanted in row.given {
        let given = script.next(0);
        same = same && given == *wanted;
    }
    Ok(same && sink.bytes() == row.printed)
}

/// The first row that gives something else, in pieces of 1, 7 or 300 bytes.
fn first_other(alloc: Global, rows: &[Row]) -> Result<Option<usize>, AllocError> {
    for i in 0..rows.len() {
        for piece in [1, 7, 300] {
            if !gives(alloc, &rows[i], piece, &[])? {
                return Ok(Some(i));
            }
        }
    }
    Ok(None)
}

const NOTHING: Given = Ok(Some(Line::Nothing));

const READ_FIRST: Given = Ok(Some(Line::Read { lba: 0, count: 1 }));

const READ_EIGHT: Given = Ok(Some(Line::Read {
    lba: 93_627,
    count: 8,
}));

const WRITE_TWO: Given = Ok(Some(Line::Write {
    lba: 0,
    count: 2,
    tag: 1,
}));

const WRITE_THIRD: Given = Ok(Some(Line::Write {
    lba: 2,
    count: 1,
    tag: 2,
}));

const WRITE_FIRST: Given = Ok(Some(Line::Write {
    lba: 0,
    count: 1,
    tag: 4,
}));

const GIVEN: [Row; 5] = [
    Row {
        trace: b"128166372003061629,hm,0,Read,383496192,32768,41286",
        given: &[READ_EIGHT, Ok(None)],
        printed: b"",
    },
    Row {
        trace: b"1,hm,0,Write,4095,2,5\n2,hm,0,Read,0,1,5\n",
        given: &[WRITE_TWO, READ_FIRST, Ok(None)],
        printed: b"",
    },
    Row {
        trace: b"\r\n1,hm,0,Write,8192,1,5\r\n1,hm,0,Write,0,0,5\r\n1,hm,0,Write,0,1,5\r\n",
        given: &[NOTHING, WRITE_THIRD, NOTHING, WRITE_FIRST, Ok(None)],
        printed: b"",
    },
    Row {
        trace: b"",
        given: &[Ok(None), Ok(None)],
        printed: b"",
    },
    Row {
        trace: b"\n1,hm,0,\"Read\",0,1,\"5",
        given: &[NOTHING, READ_FIRST, Ok(None)],
        printed: b"",
    },
];

const REFUSED: [Row; 5] = [
    Row {
        trace: b"1,hm,0,Trim,0,1,5",
        given: &[Err(Ended::Trace)],
        printed: b"line 1: BadWord\n",
    },
    Row {
        trace: b"1,hm,0,Read,0,1\n",
        given: &[Err(Ended::Trace)],
        printed: b"line 1: BadCount\n",
    },
    Row {
        trace: b"1,hm,0,Read,4294967296,1,5\n",
        given: &[Err(Ended::Trace)],
        printed: b"line 1: OutOfVolume\n",
    },
    Row {
        trace: b"1,hm,0,Read,0,1,5\n1,\"hm\n,0\",0,Read,0,1,5\n",
        given: &[READ_FIRST, Err(Ended::Trace)],
        printed: b"line 2: BadCount\n",
    },
    Row {
        trace: &[b','; 300],
        given: &[Err(Ended::Trace)],
        printed: b"line 1: LineTooLong\n",
    },
];

#[test]
fn lines_are_given_in_any_pieces(rt: HostRuntime) -> Result<(), Fail> {
    assert_eq!(rt; first_other(rt.alloc(), &GIVEN)?, None);
    Ok(())
}

#[test]
fn a_refused_line_is_printed(rt: HostRuntime) -> Result<(), Fail> {
    assert_eq!(rt; first_other(rt.alloc(), &REFUSED)?, None);
    Ok(())
}

#[test]
fn no_more_is_read_than_is_needed(rt: HostRuntime) -> Result<(), Fail> {
    let first = Row {
        trace: b"1,hm,0,Read,0,1,5\n1,hm,0,Read,0,1,5\n",
        given: &[READ_FIRST, Err(Ended::Source)],
        printed: b"",
    };
    // The first read gives the first line and one byte more, and the second read fails.
    assert!(rt; gives(rt.alloc(), &first, 19, &[2])?);
    let long = Row {
        trace: &[b','; 300],
        given: &[Err(Ended::Trace)],
        printed: b"line 1: LineTooLong\n",
    };
    assert!(rt; gives(rt.alloc(), &long, 201, &[2])?);
    Ok(())
}
