//! The spelling of spare bytes, one for each meaning, and a reader that accepts no other bytes.
ghost use Rattle.std.specs.Prelude.{◌≡◌, ◌+◌, ◌≤◌, ◌++◌, IsTrue, MatchOption, length, take, drop, option_map};
ghost use Rattle.std.specs.Int.{w64};
ghost use Rattle.cache_model.specs.Spelling.{SpareFields, spare_fields, spelled_spare, spare_kind_byte, suits_kind, spare_in_range, IsSpare};
ghost use Rattle.cache_model.specs.Reading.{number, spare_kind_of, read_spare as spare_read};
ghost use Rattle.page_oob.specs.Parts.{parts};

use cache_model::SpareKind;
use ft_base::Spare;

// The bytes with which all spare bytes begin.
const MAGIC: [u8; 4] = *b"FTSP";

// The kinds of a page.
const PAGE: u8 = 1;

const FILLER: u8 = 2;

const LOG: u8 = 3;

const MAP: u8 = 4;

const SEAL: u8 = 5;

fn kind_byte(kind: SpareKind) -> u8
    ensures { result ≡ spare_kind_byte kind }
{
    match kind {
        SpareKind::Page => PAGE,
        SpareKind::Filler => FILLER,
        SpareKind::Log => LOG,
        SpareKind::Map => MAP,
        SpareKind::Seal => SEAL,
    }
}

/// The kind of a byte. A byte of no kind is taken for a seal, whose byte it isn't.
fn kind_of(byte: u8) -> SpareKind
    ensures { result ≡ spare_kind_of byte }
{
    match byte {
        PAGE => SpareKind::Page,
        FILLER => SpareKind::Filler,
        LOG => SpareKind::Log,
        MAP => SpareKind::Map,
        _ => SpareKind::Seal,
    }
}

/// Puts these bytes from byte `at` on.
fn put(bytes: &mut [u8; 32], at: usize, part: &[u8])
    requires { at + length part.now ≤ 32 }
    ensures { bytes.new ≡ take at bytes.old ++ part.now ++ drop (at + length part.now) bytes.old }
{
    let place = &mut bytes[at..at + part.len()];
    place.copy_from_slice(part);
}

/// The number in eight bytes, from byte `at` on.
fn number_at(bytes: &[u8; 32], at: usize) -> u64
    requires { at + 8 ≤ 32 }
    ensures { result ≡ number w64 at bytes.now }
{
    let mut part = [0u8; 8];
    part.copy_from_slice(&bytes[at..at + 8]);
    u64::from_be_bytes(part)
}

/// Whether spare bytes of this kind may have this era and this address: a data page has no era, and
/// a filler page no address either.
fn suits(kind: SpareKind, era: u8, address: u64) -> bool
    ensures { result ≡ spare_in_range (spare_fields kind era address) }
{
    match kind {
        SpareKind::Page => era == 0,
        SpareKind::Filler => era == 0 && address == 0,
        SpareKind::Log | SpareKind::Map | SpareKind::Seal => era <= 2,
    }
}

/// The one spelling of a kind, an era and an address.
fn spelled(kind: SpareKind, era: u8, address: u64) -> [u8; 32]
    ensures { result ≡ spelled_spare (spare_fields kind era address) }
{
    let mut bytes = [0; 32];
    put(&mut bytes, 0, MAGIC.as_slice());
    bytes[4] = kind_byte(kind);
    bytes[5] = era;
    put(&mut bytes, 8, &address.to_be_bytes());
    bytes
}

/// The spare bytes of a page. The address is the disk address of a data page, and its place in its region for a page of
/// the log or of a checkpoint.
pub fn write_spare(kind: SpareKind, era: u8, address: u64) -> Spare
    requires { IsTrue (suits_kind kind era address) }
    ensures { IsSpare result.0 (spare_fields kind era address) }
{
    Spare(spelled(kind, era, address))
}

/// The kind, era and address of spare bytes. They are there exactly when the bytes are in the grammar.
pub fn read_spare(spare: &Spare) -> Option<(SpareKind, u8, u64)>
    ensures value { result ≡ option_map parts (spare_read spare.now.0) }
    ensures grammar { MatchOption result ((fields : SpareFields) → ¬ IsSpare spare.now.0 fields)
        (λ r. IsSpare spare.now.0 (spare_fields r.0 r.1 r.2)) }
{
    let kind = kind_of(spare.0[4]);
    let era = spare.0[5];
    let address = number_at(&spare.0, 8);
    let same = spelled(kind, era, address) == spare.0;
    if !same {
        return None;
    }
    if !suits(kind, era, address) {
        return None;
    }
    Some((kind, era, address))
}
