//! The records of a checkpoint. They are asked of the map for several pages at once, because each question walks over
//! the groups of the map.
ghost use Rattle.std.specs.Prelude.{◌≡◌, ◌<◌, ◌≤◌, ◌+◌, ◌*◌, ◌%◌, ◌^◌, length};
ghost use Rattle.ft_base.specs.Layout.{page_records};
ghost use Rattle.checkpoint.specs.Asked.{HasRun, IsAskedFor, asked_pages, asked_records};
ghost use Rattle.checkpoint.specs.Regions.{part};

use ft_base::{Geometry, Record};
use mapping::Map;

/// For how many pages the records are asked at once.
pub(crate) const PAGES: u32 = 16;

/// The number of the first record of a page.
fn first_of(geometry: &Geometry, sequence: u32) -> u32
    requires { page_records geometry.now * sequence < 2 ^ 32 }
    ensures { result ≡ page_records geometry.now * sequence }
{
    geometry.q() * sequence
}

/// The place at which the records of a page begin in the list that was asked for.
fn place_of(geometry: &Geometry, sequence: u32) -> u32
    ensures place { result ≡ page_records geometry.now * (sequence % asked_pages) }
    ensures within { result + page_records geometry.now ≤ asked_records geometry.now }
{
    geometry.q() * (sequence % PAGES)
}

/// Asks the map for the records of a page and of the pages that follow, unless they came with an earlier page.
pub(crate) fn ask(geometry: &Geometry, map: &Map, asked: &mut [Record], sequence: u32)
    requires room { length asked.old ≡ asked_records geometry.now }
    requires few { length map.now.records < 2 ^ 32 }
    requires some { page_records geometry.now * sequence < length map.now.records }
    requires asked { IsAskedFor geometry.now map.now.records sequence asked.old }
    ensures room { length asked.new ≡ asked_records geometry.now }
    ensures run { HasRun geometry.now map.now.records sequence asked.new }
{
    if sequence % PAGES == 0 {
        let _count = map.checkpoint_part(first_of(geometry, sequence), asked);
    }
}

/// The records of a page in the list that was asked for.
pub(crate) fn records_of<'a>(
    geometry: &Geometry,
    map: &Map,
    asked: &'a [Record],
    sequence: u32,
) -> &'a [Record]
    requires room { length asked.now ≡ asked_records geometry.now }
    requires some { page_records geometry.now * sequence < length map.now.records }
    requires run { HasRun geometry.now map.now.records sequence asked.now }
    ensures { result.now ≡ part geometry.now map.now.records sequence }
{
    let left = map.checkpoint_len() - first_of(geometry, sequence);
    let first = place_of(geometry, sequence) as usize;
    let count = geometry.q().min(left) as usize;
    &asked[first..first + count]
}
