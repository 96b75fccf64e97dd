//! Worked lines of a trace over several disks.

use crate::{ManyLine, read_many};
use std::process::Abort;
use std::test::Fail;
use trace_model::{Line, LineError};

/// The number of blocks of the volume.
const SIZE: u64 = 64;

/// What a line says.
type Said = Result<ManyLine, LineError>;

/// A line, the disk that is chosen before it, and what it must say.
type Row<'a> = (&'a [u8], u32, Said);

/// Each line must say what it must, with this number of disks.
fn say_so(rt: &impl Abort, disks: u32, rows: &[Row]) {
    for row in rows {
        let (line, chosen, wanted) = *row;
        assert!(rt; 1 <= disks && disks <= 16 && chosen < disks);
        assert!(rt; read_many(line, SIZE, disks, chosen) == wanted);
    }
}

fn disk(disk: u32) -> Said {
    Ok(ManyLine::Disk { disk })
}

fn plain(line: Line) -> Said {
    Ok(ManyLine::Plain { line })
}

fn write(lba: u64, count: u64, tag: u64) -> Said {
    plain(Line::Write { lba, count, tag })
}

fn read(lba: u64, count: u64) -> Said {
    plain(Line::Read { lba, count })
}

const NOTHING: Said = Ok(ManyLine::Plain {
    line: Line::Nothing,
});

const BAD_WORD: Said = Err(LineError::BadWord);

const BAD_COUNT: Said = Err(LineError::BadCount);

const BAD_NUMBER: Said = Err(LineError::BadNumber);

const OUTSIDE: Said = Err(LineError::OutOfVolume);

const TOO_LONG: Said = Err(LineError::LineTooLong);

#[test]
fn a_line_chooses_a_disk(rt: HostRuntime) {
    let two: [Row; 10] = [
        (b"disk 0", 1, disk(0)),
        (b"disk 1", 0, disk(1)),
        (b"\t disk\t 1 \t\r", 1, disk(1)),
        (b"disk 2", 0, BAD_NUMBER),
        (b"disk 01", 0, BAD_NUMBER),
        (b"disk x", 0, BAD_NUMBER),
        (b"disk 18446744073709551616", 0, BAD_NUMBER),
        (b"disk", 0, BAD_COUNT),
        (b"disk 0 1", 0, BAD_COUNT),
        (b"disks 0", 0, BAD_WORD),
    ];
    say_so(&rt, 2, &two);
    let most: [Row; 2] = [(b"disk 15", 3, disk(15)), (b"disk 16", 3, BAD_NUMBER)];
    say_so(&rt, 16, &most);
}

#[test]
fn one_disk_has_no_line_that_chooses_it(rt: HostRuntime) {
    let rows: [Row; 4] = [
        (b"disk 0", 0, BAD_WORD),
        (b"disk", 0, BAD_WORD),
        (b"w 63 1 1", 0, write(63, 1, 1)),
        (b"w 64 1 1", 0, OUTSIDE),
    ];
    say_so(&rt, 1, &rows);
}

#[test]
fn addresses_are_those_of_the_chosen_disk(rt: HostRuntime) {
    let two: [Row; 8] = [
        (b"w 31 1 1", 0, write(31, 1, 1)),
        (b"w 31 1 1", 1, write(63, 1, 1)),
        (b"w 32 1 1", 0, OUTSIDE),
        (b"w 32 1 1", 1, OUTSIDE),
        (b"r 0 32\r", 1, read(32, 32)),
        (b"r 0 33", 0, OUTSIDE),
        (b"r 31 2", 0, OUTSIDE),
        (b"r 18446744073709551615 1", 1, OUTSIDE),
    ];
    say_so(&rt, 2, &two);
    // Three disks of 21 blocks each leave the last block of the volume to none.
    let three: [Row; 3] = [
        (b"w 20 1 5", 2, write(62, 1, 5)),
        (b"w 21 1 5", 2, OUTSIDE),
        (b"r 0 21", 1, read(21, 21)),
    ];
    say_so(&rt, 3, &three);
}

#[test]
fn other_lines_say_what_they_say_for_one_disk(rt: HostRuntime) {
    let rows: [Row; 7] = [
        (b"", 1, NOTHING),
        (b" \t\r", 1, NOTHING),
        (b"#disk 5", 1, NOTHING),
        (b"# disk 0 1", 1, NOTHING),
        (b"f", 1, plain(Line::Flush)),
        (b"i 1", 1, BAD_COUNT),
        (b"stop 0 whole", 1, BAD_NUMBER),
    ];
    say_so(&rt, 2, &rows);
}

#[test]
fn a_line_has_at_most_200_bytes(rt: HostRuntime) -> Result<(), Fail> {
    let mut line = b"disk 1".to_vec(rt.alloc())?;
    for _ in 0..194 {
        line.push(b' ')?;
    }
    say_so(&rt, 2, &[(line.as_slice(), 0, disk(1))]);
    line.push(b' ')?;
    say_so(&rt, 2, &[(line.as_slice(), 0, TOO_LONG)]);
    Ok(())
}
