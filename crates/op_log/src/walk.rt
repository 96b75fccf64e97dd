//! Pages of records, read and applied to a map, and the walk along a log up to the first page that doesn't continue it.
ghost use Rattle.std.specs.Prelude.{◌≡◌, ◌==◌, ◌<◌, ◌≤◌, ◌+◌, IfOk, IfErr, IfSome, if◌then◌else◌, IsTrue, Some, None, Ok, [], length};
ghost use Rattle.std.specs.Bool.{OnTrue};
ghost use Rattle.std.specs.Option.{unwrap_or};
ghost use Rattle.ft_base.specs.Layout.{blocks, log_at, most_page_records};
ghost use Rattle.ft_media.specs.Reads.{ReadsFlash};
ghost use Rattle.cache_model.specs.declared.format.PageKind.TheVariants.{Log as log_page};
ghost use Rattle.cache_model.specs.Loading.{after_all, after_pages, is_page, log_region, when};
ghost use Rattle.cache_model.specs.Reading.{read_page_header as header_read, read_records as records_read};
ghost use Rattle.mapping.specs.MapValue.{pages_taken, groups_taken};
ghost use Rattle.mapping.specs.Room.{HasNoMoreRoom, KeepsBuckets, KeepsFewBuckets};
ghost use Rattle.op_log.specs.Log.{FitsOn};
ghost use Rattle.op_log.specs.Walk.{page_step, pages_in_order, Stepped, IsReadAs, found_whole, pages_needed, groups_needed, after_records, records_at, TakesRoom};
ghost use Rattle.op_log.specs.Stamps.{named, stamped};
ghost use Rattle.op_log.specs.Refusals.{open_failed, open_lost, IsRefusal, IsOfFlash, IsOfPages};

use crate::OpenError;
use crate::error::of_media;
use crate::stamp::Stamp;
use cache_model::PageKind;
use ft_base::{Block, Geometry, Place, Record, Spare, zero_block};
use ft_media::{Media, PageRead};
use mapping::Map;
use record_codec::{Header, read_page_header, read_records};
use std::alloc::AllocError;

/// The page of records that is expected next.
#[derive(Clone, Copy, Debug, PartialEq, Eq)]
pub struct Expected {
    /// A map page or a log page.
    pub kind: PageKind,
    /// The stamp of its checkpoint.
    pub stamp: Stamp,
    /// Its place in its region, from 0.
    pub sequence: u32,
}

/// Reads a page. If it is the expected one, applies its records to the map. It answers false if the page isn't; then
/// the map is unchanged.
pub fn apply_page<M: Media>(
    media: &mut M,
    geometry: &Geometry,
    at: Place,
    expected: Expected,
    map: &mut Map,
) -> Result<bool, OpenError>
    requires shape { FitsOn geometry.now (M.state media.old).contents.shape }
    requires block { at.block < blocks geometry.now }
    requires page { at.page < geometry.now.p }
    requires map { map.old.geometry ≡ geometry.now }
    ensures geometry { map.new.geometry ≡ map.old.geometry }
    ensures kinds { IfErr result IsOfPages }
    ensures room { IfOk result (λ applied. TakesRoom (records_at geometry.now.p expected.kind (named expected.stamp) expected.sequence
        ((M.state media.old).contents.flash.page at)) map.old map.new) }
    ensures few { IfOk result (λ applied. KeepsFewBuckets map.old map.new) }
    ensures answers { Stepped result map.old.entries map.new.entries
        (page_step geometry.now expected.kind (named expected.stamp) expected.sequence at ((M.state media.old).contents.flash.page at) map.old.entries) }
    ensures reads { ReadsFlash (M.state media.old) (M.state media.new) (open_failed result) (open_lost result) }
{
    let mut block = zero_block();
    if !read_whole(media, at, &mut block)? {
        return Ok(false);
    }
    let Some(header) = header_of(&block, expected) else {
        return Ok(false);
    };
    if !apply_records(&block, &header, geometry.p, map)? {
        return Err(OpenError::Damaged {
            block: at.block,
            page: at.page,
        });
    }
    Ok(true)
}

/// Reads a page into `block`, and says whether it is whole.
fn read_whole<M: Media>(media: &mut M, at: Place, block: &mut Block) -> Result<bool, OpenError>
    requires block { at.block < (M.state media.old).contents.shape.blocks }
    requires page { at.page < (M.state media.old).contents.shape.pages }
    ensures whole { IfOk result (λ whole. IsReadAs whole ((M.state media.old).contents.flash.page at) block.new) }
    ensures refused { IfErr result IsOfFlash }
    ensures kinds { IfErr result IsOfPages }
    ensures reads { ReadsFlash (M.state media.old) (M.state media.new) (open_failed result) (open_lost result) }
{
    let mut spare = Spare([0; 32]);
    match media.read_page(at, block, &mut spare) {
        Ok(found) => Ok(is_whole(found)),
        Err(error) => Err(of_media(error)),
    }
}

fn is_whole(found: PageRead) -> bool
    ensures { result ≡ found_whole found }
{
    match found {
        PageRead::Whole => true,
        PageRead::Blank | PageRead::Torn => false,
    }
}

/// The header of a page of records, if the page is the expected one.
fn header_of(block: &Block, expected: Expected) -> Option<Header>
    ensures value { result ≡ when (is_page expected.kind (named expected.stamp) expected.sequence) (header_read block.now.0) }
    ensures read { IfSome result (λ h. header_read block.now.0 ≡ Some h) }
{
    let header = read_page_header(block)?;
    if !is_page(&header, expected) {
        return None;
    }
    Some(header)
}

/// Whether a header is that of the expected page.
fn is_page(header: &Header, expected: Expected) -> bool
    ensures { result ≡ is_page expected.kind (named expected.stamp) expected.sequence header.now }
{
    header.kind == expected.kind
        && expected.stamp.is_of(header)
        && header.sequence == expected.sequence
}

/// Applies the records of a page in order, for a cache with `p` pages in an erase block. It answers false if the page
/// has no such records, or one of them doesn't fit when its turn comes.
fn apply_records(page: &Block, header: &Header, p: u32, map: &mut Map) -> Result<bool, AllocError>
    requires p { p ≡ map.old.geometry.p }
    requires header { header_read page.now.0 ≡ Some header.now }
    ensures geometry { map.new.geometry ≡ map.old.geometry }
    ensures room { IfOk result (λ applied. IsTrue applied → TakesRoom (unwrap_or (records_read p header.now page.now.0) []) map.old map.new) }
    ensures few { IfOk result (λ applied. IsTrue applied → KeepsFewBuckets map.old map.new) }
    ensures value { IfOk result (λ applied. after_records map.old.geometry header.now page.now.0
        map.old.entries ≡ (if applied then Some map.new.entries else None)) }
{
    let mut buffer = [Record::Remove { lba: 0 }; 127];
    if !read_records(page, header, p, &mut buffer) {
        return Ok(false);
    }
    let changes = &buffer[..header.count as usize];
    map.reserve(count_pages(changes), count_groups(changes))?;
    Ok(apply_all(changes, map))
}

/// How many records set a page.
fn count_pages(changes: &[Record]) -> u32
    requires { length changes.now ≤ most_page_records }
    ensures needed { result ≡ pages_needed changes.now }
    ensures few { result ≤ most_page_records }
{
    changes.iter().filter(|change| sets_page(change)).count() as u32
}

/// How many records set a group.
fn count_groups(changes: &[Record]) -> u32
    requires { length changes.now ≤ most_page_records }
    ensures needed { result ≡ groups_needed changes.now }
    ensures few { result ≤ most_page_records }
{
    changes.iter().filter(|change| sets_group(change)).count() as u32
}

fn sets_page(change: &Record) -> bool
    ensures { result ≡ (pages_taken change.now == 1) }
{
    matches!(*change, Record::SetPage { .. })
}

fn sets_group(change: &Record) -> bool
    ensures { result ≡ (groups_taken change.now == 1) }
{
    matches!(*change, Record::SetGroup { .. })
}

/// Applies records in order. There is room for all of them. It answers false if one of them doesn't fit when its turn
/// comes.
fn apply_all(changes: &[Record], map: &mut Map) -> bool
    requires pages { pages_needed changes.now ≤ map.old.spare_pages }
    requires groups { groups_needed changes.now ≤ map.old.spare_groups }
    ensures geometry { map.new.geometry ≡ map.old.geometry }
    ensures pages { OnTrue result (map.new.spare_pages + pages_needed changes.now ≡ map.old.spare_pages) }
    ensures groups { OnTrue result (map.new.spare_groups + groups_needed changes.now ≡ map.old.spare_groups) }
    ensures buckets { KeepsBuckets map.old map.new }
    ensures value { after_all map.old.geometry changes.now map.old.entries ≡ (if result then Some map.new.entries else None) }
{
    for change in changes {
        if !map.fits(change) {
            return false;
        }
        map.apply(change);
    }
    true
}

/// Applies the pages of the log of a region to a map, and says how many there are. `era` and `format` belong to the
/// chosen checkpoint: a page of another era or format ends the log.
pub fn roll<M: Media>(
    media: &mut M,
    geometry: &Geometry,
    region: u32,
    era: u8,
    format: u8,
    map: &mut Map,
) -> Result<u32, OpenError>
    requires region { region < 2 }
    requires shape { FitsOn geometry.now (M.state media.old).contents.shape }
    requires map { map.old.geometry ≡ geometry.now }
    ensures geometry { map.new.geometry ≡ map.old.geometry }
    ensures applied { IfOk result (λ n. after_pages geometry.now log_page (stamped format era) (log_at geometry.now region) 0
        (log_region geometry.now (M.state media.old).contents.flash.page region) map.old.entries ≡ Ok map.new.entries) }
    ensures count { IfOk result (λ n. n ≡ pages_in_order log_page (stamped format era) 0
        (log_region geometry.now (M.state media.old).contents.flash.page region)) }
    ensures room { IfOk result (λ n. HasNoMoreRoom map.old map.new) }
    ensures few { IfOk result (λ n. KeepsFewBuckets map.old map.new) }
    ensures refused { IfErr result (λ e. IsRefusal geometry.now e
        (after_pages geometry.now log_page (stamped format era) (log_at geometry.now region) 0
        (log_region geometry.now (M.state media.old).contents.flash.page region) map.old.entries)) }
    ensures kinds { IfErr result IsOfPages }
    ensures reads { ReadsFlash (M.state media.old) (M.state media.new) (open_failed result) (open_lost result) }
{
    let stamp = Stamp { format, era };
    let pages = geometry.j * geometry.p;
    for i in 0..pages {
        let at = geometry.log_at(region, i);
        let expected = Expected {
            kind: PageKind::Log,
            stamp,
            sequence: i,
        };
        if !apply_page(media, geometry, at, expected, map)? {
            return Ok(i);
        }
    }
    Ok(pages)
}
