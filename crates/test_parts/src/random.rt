//! Pages and seals at random, of both formats and both widths. They are written and read beside the plain programs, and
//! read again with a bit flipped.

use crate::codec::{assert_none, is_sealed, is_written, reads_alike};
use ft_base::{Block, Place, Record};
use rand_core::SeedableRng;
use rand_core::utils::NextWord;
use rand_pcg::Lcg64Xsh32;
use record_codec::{Header, PageKind, Seal, Totals, read_seal};
use test_plain_format::{plain_seal, spelled_page, spelled_seal};

/// Formats and P.
const SHAPES: [(u8, u32); 8] = [
    (1, 4),
    (1, 64),
    (1, 128),
    (2, 4),
    (2, 64),
    (2, 65),
    (2, 127),
    (2, 128),
];

// ---- values at random

fn number(words: &mut Lcg64Xsh32) -> u64 {
    let high = u64::from(words.next_word());
    high << 32 | u64::from(words.next_word())
}

/// A set of some pages, below 64 or 128.
fn set(words: &mut Lcg64Xsh32, wide: bool) -> u128 {
    let high = if wide { number(words) } else { 0 };
    u128::from(high) << 64 | u128::from(number(words)) | 1
}

fn set_page(words: &mut Lcg64Xsh32, wide: bool) -> Record {
    let limit = if wide { 128 } else { 64 };
    Record::SetPage {
        lba: number(words),
        place: Place {
            block: words.next_word(),
            page: words.next_word() % limit,
        },
        dirty: words.next_word() % 2 == 1,
    }
}

fn set_group(words: &mut Lcg64Xsh32, wide: bool) -> Record {
    let present = set(words, wide);
    Record::SetGroup {
        group: number(words),
        block: words.next_word(),
        present,
        dirty: present & set(words, wide),
    }
}

/// A record that a page of this kind may have.
fn change(words: &mut Lcg64Xsh32, kind: PageKind, wide: bool) -> Record {
    let kinds = if kind == PageKind::Log { 5 } else { 2 };
    match words.next_word() % kinds {
        0 => set_page(words, wide),
        1 => set_group(words, wide),
        2 => Record::Remove { lba: number(words) },
        3 => Record::Clean { lba: number(words) },
        _ => Record::RemoveGroup {
            group: number(words),
        },
    }
}

fn changes(words: &mut Lcg64Xsh32, kind: PageKind, wide: bool) -> [Record; 127] {
    let mut all = [Record::Remove { lba: 0 }; 127];
    for i in 0..127 {
        all[i] = change(words, kind, wide);
    }
    all
}

/// The header of a page of some records.
fn header(words: &mut Lcg64Xsh32, format: u8, wide: bool) -> Header {
    let most = if wide { 84 } else { 127 };
    let kind = if words.next_word() % 2 == 0 {
        PageKind::Log
    } else {
        PageKind::Map
    };
    Header {
        format,
        kind,
        era: (words.next_word() % 3) as u8,
        sequence: words.next_word(),
        count: words.next_word() % most + 1,
    }
}

/// Flips a bit, mostly one in front.
fn turn(words: &mut Lcg64Xsh32, page: &mut Block) {
    let end = 1_u32 << (5 + words.next_word() % 8);
    let at = (words.next_word() % end) as usize % 4096;
    page.0[at] ^= 1 << (words.next_word() % 8);
}

// ---- pages

/// Whether both programs read a page alike after each of some changes, one after another.
fn turns_alike(words: &mut Lcg64Xsh32, page: &Block, p: u32) -> bool {
    let mut page = *page;
    for _ in 0..4 {
        turn(words, &mut page);
        if reads_alike(&page, p).is_none() {
            return false;
        }
    }
    true
}

/// Whether a random page is written and read as it should be, and after changes is read as by the plain program.
fn is_page_so(words: &mut Lcg64Xsh32, format: u8, p: u32) -> bool {
    let wide = format == 2 && p > 64;
    let header = header(words, format, wide);
    let all = changes(words, header.kind, wide);
    let count = (header.count as usize).min(127);
    let some = &all[..count];
    is_written(&header, p, some) && turns_alike(words, &spelled_page(&header, p, some), p)
}

/// The first random page for which `is_page_so` doesn't hold.
fn first_other_page(format: u8, p: u32) -> Option<usize> {
    let mut words = Lcg64Xsh32::seed_from_u64(u64::from(p));
    for number in 0..25 {
        if !is_page_so(&mut words, format, p) {
            return Some(number);
        }
    }
    None
}

#[test]
fn pages_at_random_are_written_and_read(rt: HostRuntime) {
    for (format, p) in SHAPES {
        assert_none(&rt, first_other_page(format, p));
    }
}

// ---- seals

fn seal_header(words: &mut Lcg64Xsh32, format: u8) -> Header {
    Header {
        format,
        kind: PageKind::Seal,
        era: (words.next_word() % 3) as u8,
        sequence: words.next_word(),
        count: words.next_word(),
    }
}

fn numbers(words: &mut Lcg64Xsh32) -> Seal {
    Seal {
        p: words.next_word(),
        c: words.next_word(),
        l: words.next_word(),
        j: words.next_word(),
        size: number(words),
    }
}

/// Whether both programs read a seal alike after each of some changes, one after another.
fn turns_seal_alike(words: &mut Lcg64Xsh32, page: &Block) -> bool {
    let mut page = *page;
    for _ in 0..4 {
        turn(words, &mut page);
        if read_seal(&page) != plain_seal(&page) {
            return false;
        }
    }
    true
}

fn is_seal_so(words: &mut Lcg64Xsh32, format: u8) -> bool {
    let header = seal_header(words, format);
    let numbers = numbers(words);
    let totals = Totals {
        entries: number(words),
        dirty: number(words),
    };
    is_sealed(&header, &numbers, &totals)
        && turns_seal_alike(words, &spelled_seal(&header, &numbers, &totals))
}

/// The first random seal for which `is_seal_so` doesn't hold.
fn first_other_seal(format: u8) -> Option<usize> {
    let mut words = Lcg64Xsh32::seed_from_u64(u64::from(format));
    for number in 0..50 {
        if !is_seal_so(&mut words, format) {
            return Some(number);
        }
    }
    None
}

#[test]
fn seals_at_random_are_written_and_read(rt: HostRuntime) {
    assert_none(&rt, first_other_seal(1));
    assert_none(&rt, first_other_seal(2));
}
