//! The bytes of seals, in both formats.

use crate::codec::{assert_none, is_sealed, seal};
use ft_base::zero_block;
use record_codec::{Header, PageKind, Seal, Totals, read_seal};
use test_plain_format::{plain_seal, spelled_seal};

fn seal_header(format: u8) -> Header {
    Header {
        format,
        kind: PageKind::Seal,
        era: 2,
        sequence: 4,
        count: 500,
    }
}

const NUMBERS: Seal = Seal {
    p: 4,
    c: 2,
    l: 3,
    j: 1,
    size: 64,
};

const TOTALS: Totals = Totals {
    entries: 1000,
    dirty: 3,
};

const SEAL_1: [u8; 72] =
    *b"FTSCPAGE\x01\x05\x02\0\0\0\0\x04\0\0\x01\xf4\0\0\0\0\0\0\0\0\0\0\0\0\0\0\0\x04\0\0\0\x02\0\0\0\x03\0\0\0\x01\0\0\0\0\0\0\0\x40\0\0\0\0\0\0\0\0\0\0\0\0\0\0\0\0";

const SEAL_2: [u8; 72] =
    *b"FTSCPAGE\x02\x05\x02\0\0\0\0\x04\0\0\x01\xf4\0\0\0\0\0\0\0\0\0\0\0\0\0\0\0\x04\0\0\0\x02\0\0\0\x03\0\0\0\x01\0\0\0\0\0\0\0\x40\0\0\0\0\0\0\x03\xe8\0\0\0\0\0\0\0\x03";

/// Whether a seal of this format begins with these bytes.
fn is_seal_as_written_down(format: u8, bytes: &[u8; 72]) -> bool {
    let mut page = zero_block();
    let header = seal_header(format);
    seal(&mut page, &header, &NUMBERS, &TOTALS)
        && page.0[..72] == bytes[..]
        && is_sealed(&header, &NUMBERS, &TOTALS)
}

#[test]
fn seals_have_the_bytes_written_down(rt: HostRuntime) {
    assert!(rt; is_seal_as_written_down(1, &SEAL_1));
    assert!(rt; is_seal_as_written_down(2, &SEAL_2));
}

/// A seal in which a byte is changed: its format, the byte and its value, and whether it still is a seal.
type ChangedSeal = (u8, usize, u8, bool);

const CHANGED_SEALS: [ChangedSeal; 12] = [
    // Totals in format 1.
    (1, 56, 1, false),
    (1, 71, 1, false),
    (1, 55, 1, true),
    // Other totals, and a byte behind them.
    (2, 56, 255, true),
    (2, 71, 255, true),
    (2, 72, 1, false),
    (2, 4095, 1, false),
    // Another format: totals in format 1, and totals of zero in format 2.
    (2, 8, 1, false),
    (1, 8, 2, true),
    (2, 8, 3, false),
    // Another kind, and another era.
    (2, 9, 4, false),
    (2, 10, 3, false),
];

fn is_changed_seal(changed: &ChangedSeal) -> bool {
    let (format, at, byte, wanted) = *changed;
    let mut page = spelled_seal(&seal_header(format), &NUMBERS, &TOTALS);
    if at >= 4096 {
        return false;
    }
    page.0[at] = byte;
    let found = read_seal(&page);
    found.is_some() == wanted && found == plain_seal(&page)
}

fn first_not_changed_seal(seals: &[ChangedSeal]) -> Option<usize> {
    for (i, changed) in seals.iter().enumerate() {
        if !is_changed_seal(changed) {
            return Some(i);
        }
    }
    None
}

#[test]
fn a_seal_with_another_byte_may_be_none(rt: HostRuntime) {
    assert_none(&rt, first_not_changed_seal(CHANGED_SEALS.as_slice()));
}
