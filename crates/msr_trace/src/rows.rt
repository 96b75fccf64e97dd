//! Worked lines, and random lines beside the plain program.
ghost use Rattle.std.specs.Prelude.{◌<◌};

use crate::plain::plain_msr;
use crate::{MsrError, read_msr};
use rand_core::SeedableRng;
use rand_core::utils::NextWord;
use rand_pcg::Lcg64Xsh32;
use std::alloc::Global;
use std::process::Abort;
use std::test::Fail;
use trace_model::{Line, LineError};

/// The number of blocks of the volume.
const SIZE: u64 = 1_048_576;

/// What the line with the number 9 says. The plain program must say the same.
fn says(
    rt: &impl Abort,
    alloc: Global,
    line: &[u8],
    size: u64,
) -> Result<Result<Line, LineError>, Fail> {
    let read = read_msr(alloc, line, 9, size);
    let plain = plain_msr(alloc, line, 9, size)?;
    assert!(rt; read == plain.map_err(MsrError::Refused));
    Ok(plain)
}

/// A line, and the reading that it must have.
type Row<'a> = (&'a [u8], Result<Line, LineError>);

/// The first line that says something else, if there is one.
fn first_other(rt: &impl Abort, alloc: Global, rows: &[Row]) -> Result<Option<usize>, Fail> {
    for i in 0..rows.len() {
        let (line, wanted) = rows[i];
        if says(rt, alloc, line, SIZE)? != wanted {
            return Ok(Some(i));
        }
    }
    Ok(None)
}

const fn reads(lba: u64, count: u64) -> Result<Line, LineError> {
    Ok(Line::Read { lba, count })
}

const fn writes(lba: u64, count: u64) -> Result<Line, LineError> {
    let tag = 9;
    Ok(Line::Write { lba, count, tag })
}

const NOTHING: Result<Line, LineError> = Ok(Line::Nothing);

const BAD_WORD: Result<Line, LineError> = Err(LineError::BadWord);

const BAD_COUNT: Result<Line, LineError> = Err(LineError::BadCount);

const BAD_NUMBER: Result<Line, LineError> = Err(LineError::BadNumber);

const OUTSIDE: Result<Line, LineError> = Err(LineError::OutOfVolume);

#[test]
fn bytes_are_widened_to_blocks(rt: HostRuntime) -> Result<(), Fail> {
    let rows: [Row; 8] = [
        (
            b"128166372003061629,hm,0,Read,383496192,32768,41286",
            reads(93_627, 8),
        ),
        (b"1,hm,0,Write,4095,2,5", writes(0, 2)),
        (b"2,hm,0,Read,0,1,5", reads(0, 1)),
        (b"2,hm,0,Read,4096,4096,5", reads(1, 1)),
        (b"2,hm,0,Write,4096,4097,5", writes(1, 2)),
        (b"2,hm,0,Write,4095,4098,5", writes(0, 3)),
        (b"2,hm,0,Read,4294967295,1,5", reads(1_048_575, 1)),
        (b"x,,-1,Read,8192,512,", reads(2, 1)),
    ];
    assert_eq!(rt; first_other(&rt, rt.alloc(), &rows)?, None);
    Ok(())
}

#[test]
fn a_refusal_is_the_first_that_applies(rt: HostRuntime) -> Result<(), Fail> {
    let rows: [Row; 14] = [
        (b"1,hm,0,Trim,0,1,5", BAD_WORD),
        (b"1,hm,0,read,0,1,5", BAD_WORD),
        (b"1,hm,0,Read ,0,1,5", BAD_WORD),
        (b"1,hm,0,,x,y,5", BAD_WORD),
        (b"1,hm,0,Read,0,1", BAD_COUNT),
        (b"1,hm,0,Trim,x,y,5,6", BAD_COUNT),
        (b" ", BAD_COUNT),
        (b"#", BAD_COUNT),
        (b"1,hm,0,Read,00,1,5", BAD_NUMBER),
        (b"1,hm,0,Read,0, 1,5", BAD_NUMBER),
        (b"1,hm,0,Read,+4294967296,1,5", BAD_NUMBER),
        (b"1,hm,0,Read,4294967296,-1,5", BAD_NUMBER),
        (b"1,hm,0,Read,4294967296,1,5", OUTSIDE),
        (b"1,hm,0,Write,4294967295,2,5", OUTSIDE),
    ];
    assert_eq!(rt; first_other(&rt, rt.alloc(), &rows)?, None);
    Ok(())
}

#[test]
fn records_are_those_of_the_reader(rt: HostRuntime) -> Result<(), Fail> {
    let rows: [Row; 15] = [
        (b"", NOTHING),
        (b"\r", NOTHING),
        (b"\r\r\n", NOTHING),
        (b"1,hm,0,Read,0,1,5\r", reads(0, 1)),
        (b"\r1,hm,0,Read,0,1,5", reads(0, 1)),
        (b"1,hm,0,Read,0,1,5\r1", BAD_COUNT),
        (b"1,hm,0,Read,0,1,5\r1,hm,0,Read,0,1,5\r", BAD_COUNT),
        (b"\"1\",\"h,m\",0,\"Read\",\"0\",\"1\",5\r", reads(0, 1)),
        (b"1,\"h\"\"m\",0,Read,0,1,\"\"", reads(0, 1)),
        (b"1,hm,0,\"Re\"ad,0,1,5", reads(0, 1)),
        (b"1,hm,0,\"Re\"\"ad\",0,1,5", BAD_WORD),
        (b"1,hm,0,Re\"ad,0,1,5", BAD_WORD),
        (b"1,hm,0,Read,0,1,\"5,6\r", reads(0, 1)),
        (b"1,hm,0,\"Read,0,1,5", BAD_COUNT),
        (b"\xef\xbb\xbf1,hm,0,Read,0,1,5", reads(0, 1)),
    ];
    assert_eq!(rt; first_other(&rt, rt.alloc(), &rows)?, None);
    Ok(())
}

#[test]
fn no_number_is_too_great_to_be_refused(rt: HostRuntime) -> Result<(), Fail> {
    let rows: [Row; 12] = [
        (b"1,hm,0,Read,0,268435456,5", reads(0, 65_536)),
        (b"1,hm,0,Read,0,268435457,5", BAD_NUMBER),
        (b"1,hm,0,Read,1,268435456,5", BAD_NUMBER),
        (b"1,hm,0,Read,0,18446744073709551615,5", BAD_NUMBER),
        (b"1,hm,0,Read,18446744073709551614,1,5", OUTSIDE),
        (b"1,hm,0,Read,18446744073709551615,1,5", BAD_NUMBER),
        (b"1,hm,0,Read,18446744073709551616,0,5", BAD_NUMBER),
        (b"1,hm,0,Read,0,18446744073709551616,5", BAD_NUMBER),
        (b"1,hm,0,Read,18446744073709551615,0,5", NOTHING),
        (b"1,hm,0,Write,4294967296,0,5", NOTHING),
        (b"1,hm,0,Trim,0,0,5", BAD_WORD),
        (b"1,hm,0,Read,00,0,5", BAD_NUMBER),
    ];
    assert_eq!(rt; first_other(&rt, rt.alloc(), &rows)?, None);
    let last = says(
        &rt,
        rt.alloc(),
        b"1,hm,0,Read,18446744073709551614,1,5",
        u64::MAX,
    )?;
    assert!(rt; last == reads(4_503_599_627_370_495, 1));
    Ok(())
}

/// A line of this length, by a long Hostname.
fn long_line(alloc: Global, length: usize) -> Result<Vec<u8>, Fail> {
    let mut line = b"1,".to_vec(alloc)?;
    for _ in 0..length.saturating_sub(16) {
        line.push(b'h')?;
    }
    line.extend_from_slice(b",0,Read,0,1,5\r")?;
    Ok(line)
}

#[test]
fn a_line_has_at_most_200_bytes(rt: HostRuntime) -> Result<(), Fail> {
    let most = long_line(rt.alloc(), 200)?;
    assert_eq!(rt; most.len(), 200);
    assert!(rt; says(&rt, rt.alloc(), most.as_slice(), SIZE)? == reads(0, 1));
    let more = long_line(rt.alloc(), 201)?;
    assert_eq!(rt; more.len(), 201);
    assert!(rt; says(&rt, rt.alloc(), more.as_slice(), SIZE)? == Err(LineError::LineTooLong));
    Ok(())
}

// ---- random lines

const KINDS: [&str; 9] = [
    "Read", "Write", "Read", "Write", "Read", "Write", "Trim", "read", "Write ",
];

const NUMBERS: [&str; 16] = [
    "",
    "0",
    "00",
    "017",
    "+5",
    "-5",
    " 5",
    "5\t",
    "5x",
    "4095",
    "4096",
    "268435456",
    "268435457",
    "4294967296",
    "18446744073709551615",
    "18446744073709551616",
];

const OTHERS: [&str; 6] = [
    "1",
    "hm",
    "",
    " 0 ",
    "h\"\"m",
    "a_long_hostname_of_sixty_bytes_a_long_hostname_of_sixty_bytes",
];

const SPOILERS: [u8; 8] = [b'"', b'"', b',', b'\r', b'\n', b' ', b'0', 0xff];

fn push_number(alloc: Global, line: &mut Vec<u8>, words: &mut Lcg64Xsh32) -> Result<(), Fail> {
    let pick = words.next_word() % 64;
    if pick < 16 {
        line.extend_from_slice(NUMBERS[pick as usize].as_bytes())?;
        return Ok(());
    }
    let drawn = words.next_word();
    let number = if pick < 40 { drawn % 20_000 } else { drawn };
    let text = format!(in alloc; "{number}")?;
    line.extend_from_slice(text.as_bytes())?;
    Ok(())
}

fn push_field(
    alloc: Global,
    line: &mut Vec<u8>,
    words: &mut Lcg64Xsh32,
    place: u32,
) -> Result<(), Fail> {
    let quoted = words.next_word() % 8 == 0;
    if quoted {
        line.push(b'"')?;
    }
    if place == 3 {
        line.extend_from_slice(KINDS[(words.next_word() % 9) as usize].as_bytes())?;
    } else if place == 4 || place == 5 {
        push_number(alloc, line, words)?;
    } else {
        line.extend_from_slice(OTHERS[(words.next_word() % 6) as usize].as_bytes())?;
    }
    if quoted {
        line.push(b'"')?;
    }
    Ok(())
}

/// Puts one more byte into a line.
fn spoil(line: &mut Vec<u8>, words: &mut Lcg64Xsh32) -> Result<(), Fail> {
    let byte = SPOILERS[(words.next_word() % 8) as usize];
    let at = words.next_word() as usize % (line.len() + 1);
    line.insert(at, byte)?;
    Ok(())
}

/// A line in this form, or near it.
fn line_near(alloc: Global, words: &mut Lcg64Xsh32) -> Result<Vec<u8>, Fail> {
    let mut line = Vec::new(alloc);
    let count = match words.next_word() % 12 {
        0 => words.next_word() % 9,
        _ => 7,
    };
    for place in 0..count {
        if place > 0 {
            line.push(b',')?;
        }
        push_field(alloc, &mut line, words, place)?;
    }
    let bytes = match words.next_word() % 8 {
        0 => 1 + words.next_word() % 3,
        _ => 0,
    };
    for _ in 0..bytes {
        spoil(&mut line, words)?;
    }
    if words.next_word() % 4 == 0 {
        line.push(b'\r')?;
    }
    Ok(line)
}

/// The class of a reading, one of eight: a read, a write, nothing, or a cause.
fn class_of(said: &Result<Line, LineError>) -> usize
    ensures { result < 8 }
{
    match said {
        Ok(Line::Read { .. }) => 0,
        Ok(Line::Write { .. }) => 1,
        Ok(_) => 2,
        Err(LineError::LineTooLong) => 3,
        Err(LineError::BadWord) => 4,
        Err(LineError::BadCount) => 5,
        Err(LineError::BadNumber) => 6,
        Err(_) => 7,
    }
}

#[test]
fn random_lines_say_what_the_plain_program_says(rt: HostRuntime) -> Result<(), Fail> {
    let mut words = Lcg64Xsh32::seed_from_u64(51);
    let mut seen = [0u64; 8];
    for _ in 0..20_000 {
        let line = line_near(rt.alloc(), &mut words)?;
        let said = says(&rt, rt.alloc(), line.as_slice(), 600_000)?;
        let class = class_of(&said);
        seen[class] = seen[class].saturating_add(1);
    }
    for count in seen {
        assert!(rt; count > 100);
    }
    Ok(())
}
