//! The plain look at one page of a list: whether it is whole, and the header, seal or stamp that it has.
ghost use Rattle.std.specs.Prelude.{◌≡◌, ◌<◌, ◌≤◌, IfSome, option_map};
ghost use Rattle.ft_base.specs.Layout.{most_page_records};
ghost use Rattle.cache_model.specs.Loading as loading;
ghost use Rattle.recovery.specs.Plain as plain;

use cache_model::{Header, PageKind, Seal, Totals};
use ft_base::{Geometry, Page, Place};
use record_codec::{read_page_header, read_seal};

/// The format and the era of a page.
#[derive(Clone, Copy, Debug, PartialEq, Eq)]
pub(crate) struct Stamp {
    /// The format in which it is spelled, 1 or 2.
    pub(crate) format: u8,
    /// Its era, 0 to 2.
    pub(crate) era: u8,
}

/// The page at a place.
pub(crate) fn page_at(pages: &[Page], geometry: &Geometry, at: Place) -> Page
    ensures { result ≡ plain.page_listed geometry.now pages.now at }
{
    let number = at.block as usize * geometry.p as usize + at.page as usize;
    match pages.get(number) {
        Some(page) => *page,
        None => Page::Blank,
    }
}

/// Whether the page is whole.
pub(crate) fn is_whole(page: &Page) -> bool
    ensures { result ≡ loading.is_whole page.now }
{
    match page {
        Page::Whole(_, _) => true,
        Page::Blank | Page::Torn => false,
    }
}

/// The stamp of a page with this header.
fn stamp_of(header: &Header) -> Stamp
    ensures { plain.named result ≡ loading.stamp_of header.now }
{
    Stamp {
        format: header.format,
        era: header.era,
    }
}

/// Whether a page with this header has the stamp.
fn has_stamp(stamp: Stamp, header: &Header) -> bool
    ensures { result ≡ loading.has_stamp (plain.named stamp) header.now }
{
    header.format == stamp.format && header.era == stamp.era
}

/// Whether a header is of this kind and stamp, and says that its page is number `i` of its region.
fn is_page(header: &Header, kind: PageKind, stamp: Stamp, i: u32) -> bool
    ensures { result ≡ loading.is_page kind (plain.named stamp) i header.now }
{
    header.kind == kind && has_stamp(stamp, header) && header.sequence == i
}

/// The header of a page of records, if the page is of this kind and stamp, at its own place.
pub(crate) fn header_at(page: &Page, kind: PageKind, stamp: Stamp, i: u32) -> Option<Header>
    ensures value { result ≡ loading.header_at kind (plain.named stamp) i page.now }
    ensures few { IfSome result (λ h. h.count ≤ most_page_records) }
{
    let Page::Whole(block, _) = page else {
        return None;
    };
    let header = read_page_header(block)?;
    if !is_page(&header, kind, stamp, i) {
        return None;
    }
    Some(header)
}

/// The contents of a seal, if the page is a seal over `i` map pages of this stamp with `count` records.
pub(crate) fn seal_at(
    page: &Page,
    stamp: Stamp,
    i: u32,
    count: u32,
) -> Option<(Seal, Option<Totals>)>
    ensures { option_map plain.sealed_with result ≡ loading.seal_at (plain.named stamp) i count page.now }
{
    let Page::Whole(block, _) = page else {
        return None;
    };
    let (header, seal, totals) = read_seal(block)?;
    if !has_stamp(stamp, &header) || header.sequence != i || header.count != count {
        return None;
    }
    Some((seal, totals))
}

/// The stamp that a page of a checkpoint names.
pub(crate) fn stamp_in(page: &Page) -> Option<Stamp>
    ensures { option_map plain.named result ≡ loading.stamp_in page.now }
{
    let Page::Whole(block, _) = page else {
        return None;
    };
    if let Some(header) = read_page_header(block) {
        return Some(stamp_of(&header));
    }
    let (header, _, _) = read_seal(block)?;
    Some(stamp_of(&header))
}

/// Whether a seal has the numbers of this geometry.
pub(crate) fn is_wanted(geometry: &Geometry, seal: &Seal) -> bool
    ensures { result ≡ loading.is_wanted geometry.now seal.now }
{
    seal.p == geometry.p
        && seal.c == geometry.c
        && seal.l == geometry.l
        && seal.j == geometry.j
        && seal.size == geometry.size
}
