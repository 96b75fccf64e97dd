//! The header with which a page of records or a seal begins: one spelling, and a reader that accepts no other bytes.
ghost use Rattle.std.specs.Prelude.{◌≡◌, ◌↔◌, ◌<◌, ◌^◌, ◌&&◌, IsTrue, MatchOption};
ghost use Rattle.cache_model.specs.declared.format.Header.{Header as HeaderValue};
ghost use Rattle.cache_model.specs.Spelling.{spelled_header, header_in_range, is_format, is_log_or_map, kind_byte, IsHeaderOf, IsPageHeaderOf};
ghost use Rattle.cache_model.specs.Reading.{header_in, kind_of, read_header, read_page_header};

use crate::line::{header_line, put_bytes, put_u32, u32_at};
use cache_model::{Header, PageKind};
use ft_base::Block;

// The bytes with which every page of records and every seal begins.
const MAGIC: [u8; 8] = *b"FTSCPAGE";

// The kinds of a page.
const LOG: u8 = 3;

const MAP: u8 = 4;

const SEAL: u8 = 5;

fn kind_byte(kind: PageKind) -> u8
    ensures { result ≡ kind_byte kind }
{
    match kind {
        PageKind::Log => LOG,
        PageKind::Map => MAP,
        PageKind::Seal => SEAL,
    }
}

/// The kind of a byte. A byte of no kind is taken for a seal, whose byte it isn't.
fn kind_of(byte: u8) -> PageKind
    ensures { result ≡ kind_of byte }
{
    match byte {
        LOG => PageKind::Log,
        MAP => PageKind::Map,
        _ => PageKind::Seal,
    }
}

/// The one spelling of a header.
pub fn spelled_header(header: &Header) -> [u8; 32]
    ensures spelled { result ≡ spelled_header header.now }
    ensures sequence { header.now.sequence < 2 ^ 32 }
    ensures count { header.now.count < 2 ^ 32 }
{
    let mut line = [0; 32];
    put_bytes(&mut line, 0, MAGIC.as_slice());
    line[8] = header.format;
    line[9] = kind_byte(header.kind);
    line[10] = header.era;
    put_u32(&mut line, 12, header.sequence);
    put_u32(&mut line, 16, header.count);
    line
}

/// The header that a line would be.
pub fn header_in(line: &[u8; 32]) -> Header
    ensures { result ≡ header_in line.now }
{
    Header {
        format: line[8],
        kind: kind_of(line[9]),
        era: line[10],
        sequence: u32_at(line, 12),
        count: u32_at(line, 16),
    }
}

/// Whether there is such a format.
fn is_format(format: u8) -> bool
    ensures { result ≡ is_format format }
{
    format == 1 || format == 2
}

/// Whether the numbers are in their ranges: a page of records counts 1 to 127 of them, and a seal any number.
fn is_in_range(header: &Header) -> bool
    ensures { result ≡ header_in_range header.now }
{
    // Read so that the proof knows that it fits its four bytes; nothing else limits it.
    let _sequence = header.sequence;
    let count = header.count;
    let begins = is_format(header.format) && header.era <= 2;
    match header.kind {
        PageKind::Log | PageKind::Map => begins && 1 <= count && count <= 127,
        PageKind::Seal => begins,
    }
}

/// Whether a header is the header of a page of records.
fn is_log_or_map(header: &Header) -> bool
    ensures { result ≡ is_log_or_map header.now.kind }
{
    match header.kind {
        PageKind::Log | PageKind::Map => true,
        PageKind::Seal => false,
    }
}

/// Whether the page begins with this header.
pub fn has_header(page: &Block, header: &Header) -> bool
    ensures { IsTrue result ↔ IsHeaderOf page.now.0 header.now }
{
    let same = spelled_header(header) == header_line(page);
    if !same {
        return false;
    }
    is_in_range(header)
}

/// Whether the page begins with this header, and it is the header of a page of records.
pub fn has_page_header(page: &Block, header: &Header) -> bool
    ensures { IsTrue result ↔ IsPageHeaderOf page.now.0 header.now }
{
    if !is_log_or_map(header) {
        return false;
    }
    has_header(page, header)
}

/// The header of a page of records or of a seal. There is one exactly when the page begins with it.
pub fn read_header(page: &Block) -> Option<Header>
    ensures value { result ≡ read_header page.now.0 }
    ensures grammar { MatchOption result ((h : HeaderValue) → ¬ IsHeaderOf page.now.0 h) (λ h. IsHeaderOf page.now.0 h) }
{
    let header = header_in(&header_line(page));
    if has_header(page, &header) {
        return Some(header);
    }
    None
}

/// The header of a page of records. There is one exactly when the page begins with it.
pub fn read_page_header(page: &Block) -> Option<Header>
    ensures value { result ≡ read_page_header page.now.0 }
    ensures grammar { MatchOption result ((h : HeaderValue) → ¬ IsPageHeaderOf page.now.0 h) (λ h. IsPageHeaderOf page.now.0 h) }
{
    let header = header_in(&header_line(page));
    if has_page_header(page, &header) {
        return Some(header);
    }
    None
}
