//! Seals: a header, the numbers of the cache, totals in format 2, and zero bytes up to the end.
ghost use Rattle.std.specs.Prelude.{◌≡◌, ◌↔◌, ◌≤◌, ◌&&◌, nat_le, Option, IsTrue, MatchOption};
ghost use Rattle.cache_model.specs.declared.format.Header.{Header as HeaderValue};
ghost use Rattle.cache_model.specs.declared.format.Seal.{Seal as SealValue};
ghost use Rattle.cache_model.specs.declared.format.Totals.{Totals as TotalsValue};
ghost use Rattle.cache_model.specs.Spelling.{is_format, is_seal, seal_in_range, totals_in_range, IsSealOf};
ghost use Rattle.cache_model.specs.Reading.{read_seal as seal_read};
ghost use Rattle.record_codec.specs.Lines.{counts_in, numbers_line, numbers_in, totals_told, FitsCounts};

use crate::header::{header_in, spelled_header};
use crate::line::{
    header_line, is_zero_from, line_at, put_part, put_u32, put_u64, put_zeros, u32_at, u64_at,
};
use cache_model::{Header, PageKind, Seal, Totals};
use ft_base::Block;

/// The one spelling of the numbers of a seal.
fn spelled_numbers(seal: &Seal, totals: &Option<Totals>) -> [u8; 48]
    ensures spelled { result ≡ numbers_line seal.now totals.now }
    ensures widths { IsTrue (seal_in_range seal.now) }
    ensures counts { FitsCounts totals.now }
{
    let mut line = [0; 48];
    put_u32(&mut line, 0, seal.p);
    put_u32(&mut line, 4, seal.c);
    put_u32(&mut line, 8, seal.l);
    put_u32(&mut line, 12, seal.j);
    put_u64(&mut line, 16, seal.size);
    if let Some(Totals { entries, dirty }) = *totals {
        put_u64(&mut line, 24, entries);
        put_u64(&mut line, 32, dirty);
    }
    line
}

/// The geometry's numbers that a line would be.
fn numbers_in(line: &[u8; 48]) -> Seal
    ensures { result ≡ numbers_in line.now }
{
    Seal {
        p: u32_at(line, 0),
        c: u32_at(line, 4),
        l: u32_at(line, 8),
        j: u32_at(line, 12),
        size: u64_at(line, 16),
    }
}

/// The totals that a line would be, if its seal has this format.
fn totals_in(line: &[u8; 48], format: u8) -> Option<Totals>
    ensures { result ≡ totals_told format (counts_in line.now) }
{
    told(
        format,
        Totals {
            entries: u64_at(line, 24),
            dirty: u64_at(line, 32),
        },
    )
}

/// The totals, if a seal of this format has them.
fn told(format: u8, totals: Totals) -> Option<Totals>
    ensures { result ≡ totals_told format totals }
{
    if format == 1 { None } else { Some(totals) }
}

/// Writes the seal of a header, its numbers, and the totals if the header's format is 2.
pub fn write_seal(out: &mut Block, header: &Header, seal: &Seal, totals: &Totals)
    requires format { IsTrue (is_format header.now.format) }
    requires kind { IsTrue (is_seal header.now.kind) }
    requires era { header.now.era ≤ 2 }
    ensures { IsSealOf out.new.0 header.now seal.now (totals_told header.now.format totals.now) }
{
    let front = spelled_header(header);
    let numbers = spelled_numbers(seal, &told(header.format, *totals));
    put_part(out, 0, &front);
    put_part(out, 32, &numbers);
    put_zeros(out, 80);
}

/// Whether these totals suit a seal of this format: format 2 has totals, and format 1 has none.
fn has_totals(format: u8, totals: &Option<Totals>) -> bool
    requires { FitsCounts totals.now }
    ensures { result ≡ totals_in_range format totals.now }
{
    match *totals {
        None => format == 1,
        Some(_) => format == 2,
    }
}

/// Whether the header may begin a seal.
fn heads_seal(header: &Header) -> bool
    ensures { result ≡ (is_seal header.now.kind && nat_le header.now.era 2) }
{
    match header.kind {
        PageKind::Seal => header.era <= 2,
        PageKind::Log | PageKind::Map => false,
    }
}

/// Whether the page is the seal of this header and these numbers.
fn has_seal(page: &Block, header: &Header, seal: &Seal, totals: &Option<Totals>) -> bool
    ensures { IsTrue result ↔ IsSealOf page.now.0 header.now seal.now totals.now }
{
    let same_header = spelled_header(header) == header_line(page);
    if !same_header {
        return false;
    }
    let same_numbers = spelled_numbers(seal, totals) == line_at(page, 32, 48);
    if !same_numbers {
        return false;
    }
    if !heads_seal(header) {
        return false;
    }
    if !has_totals(header.format, totals) {
        return false;
    }
    is_zero_from(page, 80)
}

/// The header and the numbers of a seal, with its totals if its format is 2. They are there exactly when the page is a
/// seal.
pub fn read_seal(page: &Block) -> Option<(Header, Seal, Option<Totals>)>
    ensures value { result ≡ seal_read page.now.0 }
    ensures grammar { MatchOption result ((h : HeaderValue) (s : SealValue) (t : Option TotalsValue) → ¬ IsSealOf page.now.0 h s t)
        (λ r. IsSealOf page.now.0 r.0 r.1 r.2) }
{
    let header = header_in(&header_line(page));
    let line = line_at(page, 32, 48);
    let seal = numbers_in(&line);
    let totals = totals_in(&line, header.format);
    if has_seal(page, &header, &seal, &totals) {
        return Some((header, seal, totals));
    }
    None
}
