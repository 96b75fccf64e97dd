//! The lines of a trace, and the printed lines.

use ft_base::Outcome;
use std::alloc::{AllocError, Global};
use std::test::Fail;
use trace_text::{
    Answer, Line, LineError, next_line, print_answer, put_answer, read_answer, read_line,
};

// ---- lines of a trace

/// The first line that a volume of 64 blocks doesn't refuse for its cause, if there is one.
fn first_not_refused(rows: &[(&[u8], LineError)]) -> Option<usize> {
    for i in 0..rows.len() {
        let (line, cause) = rows[i];
        if read_line(line, 64) != Err(cause) {
            return Some(i);
        }
    }
    None
}

const REFUSED: [(&[u8], LineError); 8] = [
    (b"w 0 1", LineError::BadCount),
    (b"w 0 1 0", LineError::BadNumber),
    (b"r 00 1", LineError::BadNumber),
    (b"r 0 65537", LineError::BadNumber),
    (b"cut soon", LineError::BadWord),
    (b"w 99 0 1 5", LineError::BadCount),
    (b"r 64 1", LineError::OutOfVolume),
    (&[b'w'; 201], LineError::LineTooLong),
];

#[test]
fn the_first_refusal_that_applies_is_answered(rt: HostRuntime) {
    assert_eq!(rt; first_not_refused(&REFUSED), None);
}

const HOSTILE: [(&[u8], LineError); 13] = [
    (&[b'#'; 201], LineError::LineTooLong),
    (&[b'w'; 200], LineError::BadWord),
    (b"\0", LineError::BadWord),
    (b"\xff\xfe", LineError::BadWord),
    (b"r 0 1\r\r", LineError::BadNumber),
    (b"w 18446744073709551616 1 1", LineError::BadNumber),
    (b"w 18446744073709551615 1 1", LineError::OutOfVolume),
    (b"w 0 1 18446744073709551616", LineError::BadNumber),
    (b"stop 4294967296 torn", LineError::BadNumber),
    (b"stop 0 soon", LineError::BadNumber),
    (b"stop 1 soon", LineError::BadWord),
    (b"f 1", LineError::BadCount),
    (b"W 0 1 5", LineError::BadWord),
];

#[test]
fn a_line_may_be_hostile(rt: HostRuntime) {
    assert_eq!(rt; first_not_refused(&HOSTILE), None);
}

/// Lines that a volume of 64 blocks accepts.
const ACCEPTED: [(&[u8], Line); 8] = [
    (
        b"\tw 63\t 1 18446744073709551615 \r",
        Line::Write {
            lba: 63,
            count: 1,
            tag: 18446744073709551615,
        },
    ),
    (b"r 63 1", Line::Read { lba: 63, count: 1 }),
    (b"f", Line::Flush),
    (b" i", Line::Idle),
    (
        b"stop 4294967295 torn",
        Line::Stop {
            after: 4294967295,
            outcome: Outcome::Torn,
        },
    ),
    (
        b"cut mixed",
        Line::Cut {
            outcome: Outcome::Mixed,
        },
    ),
    (b"\r", Line::Nothing),
    (&[b'#'; 200], Line::Nothing),
];

/// The first line that is read as another line, if there is one.
fn first_other() -> Option<usize> {
    for i in 0..ACCEPTED.len() {
        let (bytes, line) = ACCEPTED[i];
        if read_line(bytes, 64) != Ok(line) {
            return Some(i);
        }
    }
    None
}

#[test]
fn each_line_is_read(rt: HostRuntime) {
    assert_eq!(rt; first_other(), None);
}

/// A trace, whether all of it was read, and its first line with the bytes after it.
type Split<'a> = (&'a [u8], bool, Option<(&'a [u8], &'a [u8])>);

const SPLIT: [Split; 5] = [
    (b"f\n\ni", true, Some((b"f", b"\ni"))),
    (b"\ni", true, Some((b"", b"i"))),
    (b"i", false, None),
    (b"i", true, Some((b"i", b""))),
    (b"", true, None),
];

fn is_split(split: Split) -> bool {
    let (trace, whole, wanted) = split;
    match (next_line(trace, whole), wanted) {
        (Some((line, rest)), Some((first, after))) => line == first && rest == after,
        (None, None) => true,
        _ => false,
    }
}

fn first_not_split() -> Option<usize> {
    for i in 0..SPLIT.len() {
        if !is_split(SPLIT[i]) {
            return Some(i);
        }
    }
    None
}

#[test]
fn a_trace_is_split_at_line_feeds(rt: HostRuntime) {
    assert_eq!(rt; first_not_split(), None);
}

// ---- printed lines

/// Whether the answer is printed as this line, and read back from it, but not from the line with its line feed.
fn goes_both_ways(alloc: Global, answer: Answer, line: &[u8]) -> Result<bool, AllocError> {
    let mut text = Vec::from_slice(alloc, line)?;
    text.push(b'\n')?;
    let printed = print_answer(alloc, &answer)?;
    Ok(
        printed.as_bytes() == text.as_slice()
            && read_answer(line) == Some(answer)
            && read_answer(text.as_slice()) == None,
    )
}

/// The first answer that has another spelling, if there is one.
fn first_misspelt(alloc: Global, rows: &[(Answer, &[u8])]) -> Result<Option<usize>, AllocError> {
    for i in 0..rows.len() {
        let (answer, line) = rows[i];
        if !goes_both_ways(alloc, answer, line)? {
            return Ok(Some(i));
        }
    }
    Ok(None)
}

const ANSWERS: [(Answer, &[u8]); 10] = [
    (
        Answer::Wrote {
            lba: 0,
            count: 18446744073709551615,
        },
        b"wrote 0 18446744073709551615",
    ),
    (Answer::Stopped, b"stopped"),
    (Answer::Kept { kept: 2, count: 10 }, b"kept 2 of 10"),
    (Answer::Lost { count: 1 }, b"lost 1"),
    (Answer::Lost { count: 126 }, b"lost 126"),
    (Answer::ReadBack { lba: 0, tag: 7 }, b"read 0 7"),
    (Answer::Flushed, b"flushed"),
    (Answer::Idle, b"idle"),
    (Answer::Cut, b"cut"),
    (
        Answer::End {
            writes: 1,
            reads: 2,
            touched: 30,
            digest: [0xc5; 32],
        },
        b"end 1 2 30 c5c5c5c5c5c5c5c5c5c5c5c5c5c5c5c5c5c5c5c5c5c5c5c5c5c5c5c5c5c5c5c5",
    ),
];

#[test]
fn each_answer_has_one_spelling(rt: HostRuntime) -> Result<(), Fail> {
    assert_eq!(rt; first_misspelt(rt.alloc(), &ANSWERS)?, None);
    Ok(())
}

/// The names of the refusals.
const REFUSALS: [(LineError, &[u8]); 7] = [
    (LineError::LineTooLong, b"line 12: LineTooLong"),
    (LineError::BadWord, b"line 12: BadWord"),
    (LineError::BadCount, b"line 12: BadCount"),
    (LineError::BadNumber, b"line 12: BadNumber"),
    (LineError::OutOfVolume, b"line 12: OutOfVolume"),
    (LineError::TooManyStops, b"line 12: TooManyStops"),
    (LineError::TooLong, b"line 12: TooLong"),
];

/// The first refusal of line 12 that has another name, if there is one.
fn first_misnamed(alloc: Global) -> Result<Option<usize>, AllocError> {
    for i in 0..REFUSALS.len() {
        let (cause, line) = REFUSALS[i];
        if !goes_both_ways(alloc, Answer::Refused { line: 12, cause }, line)? {
            return Ok(Some(i));
        }
    }
    Ok(None)
}

#[test]
fn each_refusal_has_its_name(rt: HostRuntime) -> Result<(), Fail> {
    assert_eq!(rt; first_misnamed(rt.alloc())?, None);
    Ok(())
}

#[test]
fn an_answer_is_put_behind_others(rt: HostRuntime) -> Result<(), Fail> {
    let mut out = Vec::from_slice(rt.alloc(), b"cut\n")?;
    put_answer(&mut out, &Answer::Idle)?;
    assert!(rt; out.as_slice() == b"cut\nidle\n".as_slice());
    Ok(())
}

/// Lines that are the print of no answer.
const MISSPELT: [&[u8]; 20] = [
    b"",
    b"wrote 00 1",
    b"wrote 1  2",
    b" wrote 1 2",
    b"wrote 1 2 ",
    b"wrote 1\t2",
    b"wrote 18446744073709551616 1",
    b"stopped ",
    b"kept 1 off 2",
    b"lost",
    b"lost 0",
    b"lost 01",
    b"lost 1 2",
    b"lost 18446744073709551616",
    b"line 1 BadWord",
    b"line 1:: BadWord",
    b"line : BadWord",
    b"line 1: badword",
    b"end 1 2 30 C5C5C5C5C5C5C5C5C5C5C5C5C5C5C5C5C5C5C5C5C5C5C5C5C5C5C5C5C5C5C5C5",
    b"end 1 2 30 c5c5",
];

fn first_read() -> Option<usize> {
    for i in 0..MISSPELT.len() {
        if read_answer(MISSPELT[i]).is_some() {
            return Some(i);
        }
    }
    None
}

#[test]
fn a_misspelt_answer_is_none(rt: HostRuntime) {
    assert_eq!(rt; first_read(), None);
}
