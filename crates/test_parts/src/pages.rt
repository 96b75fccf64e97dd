//! The bytes of pages of records, in both formats, and the records that no page may have.

use crate::codec::{assert_none, is_written, reads_alike, write};
use ft_base::{Block, Place, Record, zero_block};
use record_codec::{Header, PageKind, read_header};
use test_plain_format::spelled_page;

// ---- pages, written by hand

/// A page of one record.
struct Written {
    header: Header,
    /// How many pages an erase block has.
    p: u32,
    change: Record,
    /// Its first 32 bytes.
    head: [u8; 32],
    /// The bytes of the record.
    line: &'static [u8],
}

const OLD_LOG: Header = Header {
    format: 1,
    kind: PageKind::Log,
    era: 1,
    sequence: 0,
    count: 1,
};

const NEW_LOG: Header = Header {
    format: 2,
    kind: PageKind::Log,
    era: 1,
    sequence: 0,
    count: 1,
};

const OLD_MAP: Header = Header {
    format: 1,
    kind: PageKind::Map,
    era: 2,
    sequence: 3,
    count: 1,
};

const NEW_MAP: Header = Header {
    format: 2,
    kind: PageKind::Map,
    era: 2,
    sequence: 3,
    count: 1,
};

/// The header of a log page of one record.
fn log_header(format: u8) -> Header {
    Header { format, ..NEW_LOG }
}

const PAGE_5: Record = Record::SetPage {
    lba: 5,
    place: Place { block: 9, page: 0 },
    dirty: true,
};

const PAGE_127: Record = Record::SetPage {
    lba: 5,
    place: Place {
        block: 9,
        page: 127,
    },
    dirty: false,
};

const GROUP_1: Record = Record::SetGroup {
    group: 1,
    block: 6,
    present: 0b1011,
    dirty: 0b1000,
};

/// The first and the last page of 128 are present, and the last one is dirty.
const WIDE_GROUP: Record = Record::SetGroup {
    group: 1,
    block: 6,
    present: 0x8000_0000_0000_0000_0000_0000_0000_0001,
    dirty: 0x8000_0000_0000_0000_0000_0000_0000_0000,
};

const LOG_1: [u8; 32] = *b"FTSCPAGE\x01\x03\x01\0\0\0\0\0\0\0\0\x01\0\0\0\0\0\0\0\0\0\0\0\0";

const LOG_2: [u8; 32] = *b"FTSCPAGE\x02\x03\x01\0\0\0\0\0\0\0\0\x01\0\0\0\0\0\0\0\0\0\0\0\0";

const MAP_1: [u8; 32] = *b"FTSCPAGE\x01\x04\x02\0\0\0\0\x03\0\0\0\x01\0\0\0\0\0\0\0\0\0\0\0\0";

const MAP_2: [u8; 32] = *b"FTSCPAGE\x02\x04\x02\0\0\0\0\x03\0\0\0\x01\0\0\0\0\0\0\0\0\0\0\0\0";

const PAGE_5_LINE: [u8; 32] =
    *b"\x01\x01\0\0\0\0\0\x09\0\0\0\0\0\0\0\x05\0\0\0\0\0\0\0\0\0\0\0\0\0\0\0\0";

const GROUP_1_LINE: [u8; 32] =
    *b"\x04\0\0\0\0\0\0\x06\0\0\0\0\0\0\0\x01\0\0\0\0\0\0\0\x0b\0\0\0\0\0\0\0\x08";

const PAGE_127_LINE: [u8; 48] =
    *b"\x01\0\x7f\0\0\0\0\x09\0\0\0\0\0\0\0\x05\0\0\0\0\0\0\0\0\0\0\0\0\0\0\0\0\0\0\0\0\0\0\0\0\0\0\0\0\0\0\0\0";

const WIDE_GROUP_LINE: [u8; 48] =
    *b"\x04\0\0\0\0\0\0\x06\0\0\0\0\0\0\0\x01\x80\0\0\0\0\0\0\0\0\0\0\0\0\0\0\x01\x80\0\0\0\0\0\0\0\0\0\0\0\0\0\0\0";

const WRITTEN: [Written; 7] = [
    Written {
        header: OLD_LOG,
        p: 64,
        change: PAGE_5,
        head: LOG_1,
        line: &PAGE_5_LINE,
    },
    Written {
        header: NEW_LOG,
        p: 64,
        change: PAGE_5,
        head: LOG_2,
        line: &PAGE_5_LINE,
    },
    Written {
        header: OLD_MAP,
        p: 4,
        change: GROUP_1,
        head: MAP_1,
        line: &GROUP_1_LINE,
    },
    Written {
        header: NEW_MAP,
        p: 4,
        change: GROUP_1,
        head: MAP_2,
        line: &GROUP_1_LINE,
    },
    Written {
        header: NEW_MAP,
        p: 128,
        change: WIDE_GROUP,
        head: MAP_2,
        line: &WIDE_GROUP_LINE,
    },
    Written {
        header: NEW_LOG,
        p: 128,
        change: PAGE_127,
        head: LOG_2,
        line: &PAGE_127_LINE,
    },
    // In format 1 a record has 32 bytes, however many pages an erase block has.
    Written {
        header: OLD_MAP,
        p: 128,
        change: GROUP_1,
        head: MAP_1,
        line: &GROUP_1_LINE,
    },
];

fn is_as_written_down(written: &Written) -> bool {
    let changes = [written.change];
    let mut page = zero_block();
    write(&mut page, &written.header, written.p, changes.as_slice())
        && page.0[..32] == written.head[..]
        && page.0[32..].starts_with(written.line)
        && is_written(&written.header, written.p, changes.as_slice())
}

fn first_not_written(pages: &[Written]) -> Option<usize> {
    for (i, written) in pages.iter().enumerate() {
        if !is_as_written_down(written) {
            return Some(i);
        }
    }
    None
}

#[test]
fn pages_have_the_bytes_written_down(rt: HostRuntime) {
    assert_none(&rt, first_not_written(WRITTEN.as_slice()));
}

// ---- records that no page may have

/// A record that no page has, with a format and the number of pages of an erase block.
const UNSOUND: [(u8, u32, Record); 6] = [
    // Page 127 and a set with it, in records of 32 bytes.
    (1, 128, PAGE_127),
    (2, 64, PAGE_127),
    (1, 128, WIDE_GROUP),
    (2, 64, WIDE_GROUP),
    // A dirty page that isn't present.
    (
        2,
        128,
        Record::SetGroup {
            group: 1,
            block: 6,
            present: 1,
            dirty: 2,
        },
    ),
    // No page.
    (
        2,
        128,
        Record::SetGroup {
            group: 1,
            block: 6,
            present: 0,
            dirty: 0,
        },
    ),
];

fn first_written(records: &[(u8, u32, Record)]) -> Option<usize> {
    for (i, (format, p, change)) in records.iter().enumerate() {
        if write(
            &mut zero_block(),
            &log_header(*format),
            *p,
            [*change].as_slice(),
        ) {
            return Some(i);
        }
    }
    None
}

#[test]
fn records_that_no_page_has_are_not_written(rt: HostRuntime) {
    assert_none(&rt, first_written(UNSOUND.as_slice()));
}

/// A page of one record in which a byte is changed: its format and P, the byte and its value, and whether it still is a
/// page of records.
type Changed = (u8, u32, usize, u8, bool);

const CHANGED: [Changed; 12] = [
    // Another format: once with the same bytes of a record in both, and once with other bytes.
    (1, 64, 8, 2, true),
    (2, 64, 8, 1, true),
    (2, 64, 8, 0, false),
    (2, 64, 8, 3, false),
    // The page of a record.
    (1, 128, 34, 63, true),
    (1, 128, 34, 64, false),
    (2, 64, 34, 64, false),
    (2, 65, 34, 127, true),
    (2, 128, 34, 128, false),
    // Bytes behind the record, of 32 bytes or of 48.
    (2, 64, 64, 1, false),
    (2, 128, 79, 1, false),
    (2, 128, 4095, 1, false),
];

fn is_changed(changed: &Changed) -> bool {
    let (format, p, at, byte, is_page) = *changed;
    let mut page = spelled_page(&log_header(format), p, [PAGE_5].as_slice());
    if at >= 4096 {
        return false;
    }
    page.0[at] = byte;
    reads_alike(&page, p) == Some(is_page)
}

fn first_not_changed(pages: &[Changed]) -> Option<usize> {
    for (i, changed) in pages.iter().enumerate() {
        if !is_changed(changed) {
            return Some(i);
        }
    }
    None
}

#[test]
fn a_page_with_another_byte_may_be_none(rt: HostRuntime) {
    assert_none(&rt, first_not_changed(CHANGED.as_slice()));
}

// ---- the number of records

/// The result of reading a page.
#[derive(Clone, Copy, PartialEq, Eq)]
enum Reads {
    Records,
    HeaderAlone,
    Nothing,
}

/// The format, P, how many records there are, and the result of reading their page.
type Count = (u8, u32, usize, Reads);

const COUNTS: [Count; 16] = [
    (1, 64, 0, Reads::Nothing),
    (1, 64, 1, Reads::Records),
    (1, 64, 127, Reads::Records),
    (1, 64, 128, Reads::Nothing),
    (1, 128, 85, Reads::Records),
    (1, 128, 127, Reads::Records),
    (2, 64, 85, Reads::Records),
    (2, 64, 127, Reads::Records),
    (2, 64, 128, Reads::Nothing),
    (2, 65, 84, Reads::Records),
    (2, 65, 85, Reads::HeaderAlone),
    (2, 128, 0, Reads::Nothing),
    (2, 128, 84, Reads::Records),
    (2, 128, 85, Reads::HeaderAlone),
    (2, 128, 127, Reads::HeaderAlone),
    (2, 128, 128, Reads::Nothing),
];

const MANY: [Record; 128] = [PAGE_5; 128];

/// The result of both programs for a page. `None` if they differ.
fn read_of(page: &Block, p: u32) -> Option<Reads> {
    match reads_alike(page, p) {
        Some(true) => Some(Reads::Records),
        Some(false) if read_header(page).is_some() => Some(Reads::HeaderAlone),
        Some(false) => Some(Reads::Nothing),
        None => None,
    }
}

/// Whether such a page has this result, and can be written exactly when it is a page of records.
fn is_counted((format, p, count, wanted): Count) -> bool {
    if count > 128 {
        return false;
    }
    let header = Header {
        count: count as u32,
        ..log_header(format)
    };
    let changes = &MANY[..count];
    read_of(&spelled_page(&header, p, changes), p) == Some(wanted)
        && is_written(&header, p, changes) == (wanted == Reads::Records)
}

fn first_not_counted(counts: &[Count]) -> Option<usize> {
    for (i, count) in counts.iter().enumerate() {
        if !is_counted(*count) {
            return Some(i);
        }
    }
    None
}

#[test]
fn a_page_has_as_many_records_as_it_has_bytes_for(rt: HostRuntime) {
    assert_none(&rt, first_not_counted(COUNTS.as_slice()));
}
