//! The plain replay: pages from a list, first the checkpoint and then its log, are applied to a map.
ghost use Rattle.std.specs.Prelude.{◌≡◌, ◌<◌, ◌≤◌, Some, None, IfOk, option_and_then, if◌then◌else◌};
ghost use Rattle.ft_base.specs.Layout.{checkpoint_pages};
ghost use Rattle.cache_model.specs.Reading.{read_records as records_read, read_page_header as header_read};
ghost use Rattle.cache_model.specs.Records.{no_entries};
ghost use Rattle.cache_model.specs.Loading as loading;
ghost use Rattle.recovery.specs.Plain.{IsApplied, after_part, page_listed, place_of, region_pages, complete_of, named};

use crate::plain::pages::{Stamp, header_at, page_at};
use crate::plain::regions::Sealed;
use cache_model::{Header, PageKind, Totals};
use ft_base::{Block, Geometry, Page, Place, Record};
use mapping::Map;
use record_codec::read_records;
use std::alloc::AllocError;

/// Pages of one kind and stamp, from the start of a region on.
#[derive(Clone, Copy, Debug, PartialEq, Eq)]
pub(crate) struct Part {
    /// Map pages or log pages.
    kind: PageKind,
    /// The region, 0 or 1.
    region: u32,
    /// Their format and their era.
    stamp: Stamp,
    /// How many pages there may be.
    pages: u32,
}

/// Applies a checkpoint and its log to an empty map, up to the first damaged page, which is the answer. Between the two
/// the entries are counted: the seal is damaged if it says another number.
pub(crate) fn replay(
    pages: &[Page],
    geometry: &Geometry,
    region: u32,
    sealed: &Sealed,
    map: &mut Map,
) -> Result<Option<Place>, AllocError>
    requires region { region < 2 }
    requires pages { sealed.now.pages < checkpoint_pages geometry.now }
    requires map { map.old.geometry ≡ geometry.now }
    requires nothing { map.old.entries ≡ no_entries }
    ensures geometry { map.new.geometry ≡ map.old.geometry }
    ensures replayed { IfOk result (λ damaged. IsApplied damaged map.new.entries
        (loading.replayed geometry.now (page_listed geometry.now pages.now) (region, complete_of sealed.now))) }
{
    let maps = Part {
        kind: PageKind::Map,
        region,
        stamp: sealed.stamp,
        pages: sealed.pages,
    };
    if let Some(at) = apply_part(pages, geometry, &maps, map)? {
        return Ok(Some(at));
    }
    if !are_totals(&sealed.totals, map) {
        return Ok(Some(geometry.checkpoint_at(region, sealed.pages)));
    }
    let log = Part {
        kind: PageKind::Log,
        region,
        stamp: sealed.stamp,
        pages: geometry.j * geometry.p,
    };
    let damaged = apply_part(pages, geometry, &log, map)?;
    Ok(damaged)
}

/// Whether a map has as many entries, and as many dirty ones, as the totals say, if there are any totals.
fn are_totals(totals: &Option<Totals>, map: &Map) -> bool
    ensures { result ≡ loading.are_totals totals.now map.now.entries }
{
    let Some(told) = *totals else {
        return true;
    };
    told.entries == map.held() && told.dirty == map.dirty_entries()
}

/// Applies pages in order, up to the first page that is no such page, or the first damaged one, which is the answer.
fn apply_part(
    pages: &[Page],
    geometry: &Geometry,
    part: &Part,
    map: &mut Map,
) -> Result<Option<Place>, AllocError>
    requires region { part.now.region < 2 }
    requires pages { part.now.pages ≤ region_pages part.now.kind geometry.now }
    requires map { map.old.geometry ≡ geometry.now }
    ensures geometry { map.new.geometry ≡ map.old.geometry }
    ensures applied { IfOk result (λ damaged. IsApplied damaged map.new.entries
        (after_part geometry.now pages.now part.now.kind (named part.now.stamp) part.now.region part.now.pages map.old.entries)) }
{
    for i in 0..part.pages {
        let at = place_in(geometry, part.kind, part.region, i);
        let page = page_at(pages, geometry, at);
        let Some(header) = header_at(&page, part.kind, part.stamp, i) else {
            return Ok(None);
        };
        if !apply_page(&page, &header, geometry.p, map)? {
            return Ok(Some(at));
        }
    }
    Ok(None)
}

/// The place of page `i` of a region of this kind.
fn place_in(geometry: &Geometry, kind: PageKind, region: u32, i: u32) -> Place
    requires region { region < 2 }
    requires page { i < region_pages kind geometry.now }
    ensures { result ≡ place_of kind geometry.now region i }
{
    match kind {
        PageKind::Log => geometry.log_at(region, i),
        PageKind::Map | PageKind::Seal => geometry.checkpoint_at(region, i),
    }
}

/// Applies the records of a page with this header, for a cache with `p` pages in an erase block. It answers false if
/// the page has no such records, or one doesn't fit when its turn comes.
fn apply_page(page: &Page, header: &Header, p: u32, map: &mut Map) -> Result<bool, AllocError>
    requires { loading.said header_read page.now ≡ Some header.now }
    ensures geometry { map.new.geometry ≡ map.old.geometry }
    ensures applied { IfOk result (λ fits. option_and_then (λ changes. loading.after_all map.old.geometry changes map.old.entries)
        (loading.said (records_read p header.now) page.now) ≡ (if fits then Some map.new.entries else None)) }
{
    let Page::Whole(block, _) = page else {
        return Ok(false);
    };
    let mut changes = [Record::Remove { lba: 0 }; 127];
    if !read_records(block, header, p, &mut changes) {
        return Ok(false);
    }
    apply_records(&changes[..header.count as usize], map)
}

/// Applies records in order. It answers false if one doesn't fit when its turn comes.
fn apply_records(changes: &[Record], map: &mut Map) -> Result<bool, AllocError>
    ensures geometry { map.new.geometry ≡ map.old.geometry }
    ensures applied { IfOk result (λ fits. loading.after_all map.old.geometry changes.now
        map.old.entries ≡ (if fits then Some map.new.entries else None)) }
{
    for change in changes {
        if !map.fits(change) {
            return Ok(false);
        }
        map.reserve(1, 1)?;
        map.apply(change);
    }
    Ok(true)
}
