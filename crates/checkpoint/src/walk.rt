//! The walk along a checkpoint region, page by page, as steps on values: no page is read here.
ghost use Rattle.std.specs.Prelude.{◌≡◌, ◌≤◌, ◌*◌, ◌^◌, Option, Some, None};
ghost use Rattle.ft_base.specs.declared.block.Page.{Page};
ghost use Rattle.ft_base.specs.Layout.{most_page_records};
ghost use Rattle.cache_model.specs.declared.format.Seal.{Seal as SealValue};
ghost use Rattle.cache_model.specs.declared.format.Totals.{Totals as TotalsValue};
ghost use Rattle.cache_model.specs.Reading.{read_page_header, read_seal};
ghost use Rattle.cache_model.specs.Loading.{said, is_page, is_seal_of};
ghost use Rattle.op_log.specs.Stamps.{named};
ghost use Rattle.cache_model.specs.declared.format.PageKind.TheVariants.{Map as map_page};
ghost use Rattle.checkpoint.specs.Walk.{IsFoundAs, IsFew, StepsOn};

use crate::reading::Found;
use cache_model::{Header, PageKind, Seal, Totals};
use op_log::Stamp;

/// The checkpoint that counts.
#[derive(Clone, Copy, Debug, PartialEq, Eq)]
pub struct Newest {
    /// The region of the checkpoint, 0 or 1.
    pub region: u32,
    /// Its era, 0 to 2, which its log has too.
    pub era: u8,
    /// How many map pages it has.
    pub pages: u32,
    /// The numbers for which it was made.
    pub seal: Seal,
    /// The format in which its pages are spelled, and its log's pages too: 1 or 2.
    pub format: u8,
    /// How many entries its map pages have, if its format says it.
    pub totals: Option<Totals>,
}

/// The findings of a walk along a checkpoint region so far: how many records, and the stamp of the first page, which
/// isn't known before that page.
#[derive(Clone, Copy, Debug, PartialEq, Eq)]
pub(crate) struct Walk {
    pub(crate) stamp: Option<Stamp>,
    pub(crate) records: u32,
}

/// The walk after its next page.
#[derive(Clone, Copy, Debug, PartialEq, Eq)]
pub(crate) enum Step {
    /// The page is a map page, and the walk goes on.
    On(Walk),
    /// The page is the seal.
    Complete {
        stamp: Stamp,
        seal: Seal,
        totals: Option<Totals>,
    },
    /// The page is neither.
    Ends,
}

/// The walk after page `sequence` of a region, from a walk that stands at it.
pub(crate) fn after_page(walk: Walk, sequence: u32, found: Found) -> Step
    requires records { walk.records ≤ most_page_records * 2 ^ 16 }
    requires few { IsFew found }
    ensures { (page : Page) → IsFoundAs page found → StepsOn walk sequence page result }
{
    match found {
        Found::Records(header) => after_records(walk, sequence, &header),
        Found::Sealed(header, seal, totals) => {
            after_seal(walk, sequence, &header, &seal, &totals)
        }
        Found::Other => Step::Ends,
    }
}

/// The walk after a page of records.
fn after_records(walk: Walk, sequence: u32, header: &Header) -> Step
    requires records { walk.records ≤ most_page_records * 2 ^ 16 }
    requires few { header.now.count ≤ most_page_records }
    ensures { (page : Page) → said read_page_header page ≡ Some header.now → StepsOn walk sequence page result }
{
    let stamp = walk.stamp.unwrap_or(Stamp::of(header));
    if !is_map_page(header, stamp, sequence) {
        return Step::Ends;
    }
    Step::On(Walk {
        stamp: Some(stamp),
        records: walk.records + header.count,
    })
}

/// Whether the header is the header of a map page of this stamp, at its own place.
fn is_map_page(header: &Header, stamp: Stamp, sequence: u32) -> bool
    ensures { result ≡ is_page map_page (named stamp) sequence header.now }
{
    header.kind == PageKind::Map && stamp.is_of(header) && header.sequence == sequence
}

/// The walk after a seal.
fn after_seal(
    walk: Walk,
    sequence: u32,
    header: &Header,
    seal: &Seal,
    totals: &Option<Totals>,
) -> Step
    ensures { (page : Page) → said read_page_header page ≡ None → said read_seal page ≡ Some (header.now, seal.now, totals.now)
        → StepsOn walk sequence page result }
{
    let stamp = walk.stamp.unwrap_or(Stamp::of(header));
    if !ends(header, stamp, sequence, walk.records) {
        return Step::Ends;
    }
    Step::Complete {
        stamp,
        seal: *seal,
        totals: *totals,
    }
}

/// Whether a seal ends this many map pages of this stamp, with this many records.
fn ends(header: &Header, stamp: Stamp, pages: u32, records: u32) -> bool
    ensures { (seal : SealValue) (totals : Option TotalsValue) → result ≡ is_seal_of (named stamp) pages records (header.now, seal, totals) }
{
    stamp.is_of(header) && header.sequence == pages && header.count == records
}
