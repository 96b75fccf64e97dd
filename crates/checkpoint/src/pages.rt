//! The bytes of a checkpoint in format 2: a map page from its records, and the seal from the numbers of the cache.
ghost use Rattle.std.specs.Prelude.{◌≡◌, ◌≤◌, true, length, Some};
ghost use Rattle.std.specs.List.{list_all};
ghost use Rattle.cache_model.specs.declared.format.PageKind.TheVariants as PageKind;
ghost use Rattle.cache_model.specs.Spelling.{IsPage, IsSealOf, is_wide, may_stand_in, most_records_of};
ghost use Rattle.op_log.specs.Refusals.{seal_of};
ghost use Rattle.checkpoint.specs.Regions.{map_header, seal_header};

use cache_model::{Header, PageKind, Seal, Totals};
use ft_base::{Block, Geometry, Record};
use record_codec::{write_page, write_seal};

/// Writes a map page of these records, for a cache with `p` pages in an erase block.
pub(crate) fn write_map(out: &mut Block, p: u32, records: &[Record], era: u8, sequence: u32)
    requires kinds { list_all (may_stand_in (is_wide 2 p) PageKind.Map) records.now ≡ true }
    requires some { 1 ≤ length records.now }
    requires few { length records.now ≤ most_records_of (is_wide 2 p) }
    requires era { era ≤ 2 }
    ensures { IsPage p out.new.0 (map_header era sequence records.now) records.now }
{
    let header = Header {
        format: 2,
        kind: PageKind::Map,
        era,
        sequence,
        count: records.len() as u32,
    };
    write_page(out, &header, p, records);
}

/// Writes the seal over this many map pages with this many records, with the totals of their entries.
pub(crate) fn write_numbers(
    out: &mut Block,
    geometry: &Geometry,
    era: u8,
    pages: u32,
    records: u32,
    totals: &Totals,
)
    requires era { era ≤ 2 }
    ensures { IsSealOf out.new.0 (seal_header era pages records) (seal_of geometry.now) (Some totals.now) }
{
    let header = Header {
        format: 2,
        kind: PageKind::Seal,
        era,
        sequence: pages,
        count: records,
    };
    let seal = Seal {
        p: geometry.p,
        c: geometry.c,
        l: geometry.l,
        j: geometry.j,
        size: geometry.size,
    };
    write_seal(out, &header, &seal, totals);
}
