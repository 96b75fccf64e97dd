//! Random maps as checkpoints of format 2. Loading gives the map. With a bit of a page flipped, it gives the same
//! answer as the plain program.

use crate::flash::{assert_none, fit, fits_on, program_next};
use crate::loads::{is_plainly_on, is_same_map};
use ft_base::{Block, Geometry, Place, Record, zero_block};
use mapping::Map;
use mem_rig::MemRig;
use rand_core::SeedableRng;
use rand_core::utils::NextWord;
use rand_pcg::Lcg64Xsh32;
use record_codec::{Header, PageKind, Seal, Totals};
use recovery::load;
use std::alloc::Global;
use test_plain_format::{spelled_page, spelled_seal};

// ---- maps

/// A page of the pool.
fn place(geometry: &Geometry, words: &mut Lcg64Xsh32) -> Place {
    let block = words.next_word() % 5;
    Place {
        block: geometry.first_pool().saturating_add(block),
        page: words.next_word() % geometry.p,
    }
}

/// A set of pages of an erase block.
fn set(geometry: &Geometry, words: &mut Lcg64Xsh32) -> u128 {
    let mut pages: u128 = 0;
    for _ in 0..4 {
        pages = pages << 32 | u128::from(words.next_word());
    }
    pages & u128::MAX >> (128 - geometry.p) | 1
}

fn set_page(geometry: &Geometry, words: &mut Lcg64Xsh32) -> Record {
    Record::SetPage {
        lba: u64::from(words.next_word()) % geometry.size,
        place: place(geometry, words),
        dirty: words.next_word() % 2 == 1,
    }
}

fn set_group(geometry: &Geometry, words: &mut Lcg64Xsh32) -> Record {
    let present = set(geometry, words);
    Record::SetGroup {
        group: u64::from(words.next_word() % 16),
        block: place(geometry, words).block,
        present,
        dirty: present & set(geometry, words) & set(geometry, words),
    }
}

/// A change that a map may make or not.
fn change(geometry: &Geometry, words: &mut Lcg64Xsh32) -> Record {
    match words.next_word() % 16 {
        0 => set_group(geometry, words),
        1 => Record::Clean {
            lba: u64::from(words.next_word()) % geometry.size,
        },
        _ => set_page(geometry, words),
    }
}

/// Makes a change, if it fits. False if there is no memory.
fn make_change(map: &mut Map, change: &Record) -> bool {
    if map.reserve(1, 1).is_err() {
        return false;
    }
    if map.fits(change) {
        map.apply(change);
    }
    true
}

/// A map after this many changes were drawn, and those that fit were made.
fn drawn(alloc: Global, geometry: &Geometry, words: &mut Lcg64Xsh32, changes: u32) -> Option<Map> {
    let Ok(mut map) = Map::new(alloc, geometry) else {
        return None;
    };
    for _ in 0..changes {
        if !make_change(&mut map, &change(geometry, words)) {
            return None;
        }
    }
    Some(map)
}

// ---- their checkpoints

/// The map page of this number.
fn map_page(geometry: &Geometry, map: &Map, i: u32) -> Option<Block> {
    let mut part = [Record::Remove { lba: 0 }; 127];
    let from = i.saturating_mul(geometry.q());
    if from > map.checkpoint_len() {
        return None;
    }
    let count = map.checkpoint_part(from, &mut part[..geometry.q() as usize]);
    if count > 127 {
        return None;
    }
    let header = Header {
        format: 2,
        kind: PageKind::Map,
        era: 0,
        sequence: i,
        count,
    };
    Some(spelled_page(&header, geometry.p, &part[..count as usize]))
}

/// The seal over this many map pages.
fn seal_page(geometry: &Geometry, map: &Map, pages: u32) -> Block {
    let header = Header {
        format: 2,
        kind: PageKind::Seal,
        era: 0,
        sequence: pages,
        count: map.checkpoint_len(),
    };
    let seal = Seal {
        p: geometry.p,
        c: geometry.c,
        l: geometry.l,
        j: geometry.j,
        size: geometry.size,
    };
    let totals = Totals {
        entries: map.held(),
        dirty: map.dirty_entries(),
    };
    spelled_seal(&header, &seal, &totals)
}

/// A page of the checkpoint that has this many map pages.
fn page_of(geometry: &Geometry, map: &Map, pages: u32, i: u32) -> Option<Block> {
    if i < pages {
        return map_page(geometry, map, i);
    }
    Some(seal_page(geometry, map, pages))
}

/// A bit of a page of a checkpoint: the page, the byte and the value of the bit.
type Turned = (u32, usize, u8);

/// Programs the checkpoint of a map, in which a bit may be flipped.
fn put_checkpoint(rig: &mut MemRig, geometry: &Geometry, map: &Map, turned: Turned) -> bool {
    let pages = pages_of(geometry, map);
    for i in 0..=pages {
        let Some(page) = page_of(geometry, map, pages, i) else {
            return false;
        };
        let mut page = page;
        if i == turned.0 && turned.1 < 4096 {
            page.0[turned.1] ^= turned.2;
        }
        if !program_next(rig, 0, &page) {
            return false;
        }
    }
    true
}

/// How many map pages a checkpoint has.
fn pages_of(geometry: &Geometry, map: &Map) -> u32 {
    let most = geometry.q() - 1;
    map.checkpoint_len().saturating_add(most) / geometry.q()
}

/// Programs each page of an erase block with zeros.
fn fill(rig: &mut MemRig, block: u32, pages: u32) -> bool {
    for _ in 0..pages {
        if !program_next(rig, block, &zero_block()) {
            return false;
        }
    }
    true
}

/// Programs all pages of the pool.
fn fill_pool(rig: &mut MemRig, geometry: &Geometry) -> bool {
    for block in geometry.first_pool()..geometry.blocks() {
        if !fill(rig, block, geometry.p) {
            return false;
        }
    }
    true
}

/// Makes the media anew, with the checkpoint of a map.
fn put(alloc: Global, rig: &mut MemRig, geometry: &Geometry, map: &Map, turned: Turned) -> bool {
    fit(rig, alloc, geometry).is_ok()
        && fill_pool(rig, geometry)
        && put_checkpoint(rig, geometry, map, turned)
}

// ---- loading

/// Whether the map is loaded, and the plain program loads the same.
fn is_loaded(alloc: Global, rig: &mut MemRig, geometry: &Geometry, map: &Map) -> bool {
    if !fits_on(rig, geometry) {
        return false;
    }
    let fast = load(alloc, rig, geometry);
    let same = match &fast {
        Ok(loaded) => is_same_map(&loaded.map, map),
        Err(_) => false,
    };
    same && is_plainly_on(alloc, rig, geometry, &fast)
}

/// Whether both programs answer the same, whatever it is.
fn is_alike(alloc: Global, rig: &mut MemRig, geometry: &Geometry) -> bool {
    if !fits_on(rig, geometry) {
        return false;
    }
    let fast = load(alloc, rig, geometry);
    is_plainly_on(alloc, rig, geometry, &fast)
}

/// A bit of a checkpoint of this many map pages, mostly in front.
fn turned(words: &mut Lcg64Xsh32, pages: u32) -> Turned {
    let end = 1_u32 << (5 + words.next_word() % 8);
    (
        words.next_word() % pages.saturating_add(1),
        (words.next_word() % end) as usize,
        1 << (words.next_word() % 8),
    )
}

/// No bit is flipped.
const NONE: Turned = (0, 0, 0);

/// Whether a random map is loaded, and the plain program answers the same after a bit was flipped.
fn is_so(alloc: Global, geometry: &Geometry, words: &mut Lcg64Xsh32) -> bool {
    let changes = geometry.p.saturating_mul(3);
    let Some(map) = drawn(alloc, geometry, words, changes) else {
        return false;
    };
    let turned = turned(words, pages_of(geometry, &map));
    let mut rig = MemRig::new(alloc);
    put(alloc, &mut rig, geometry, &map, NONE)
        && is_loaded(alloc, &mut rig, geometry, &map)
        && put(alloc, &mut rig, geometry, &map, turned)
        && is_alike(alloc, &mut rig, geometry)
}

/// The first of `maps` random maps with which this isn't so.
fn first_other(alloc: Global, p: u32, maps: usize) -> Option<usize> {
    let Ok(geometry) = Geometry::new(p, 2, 2, 1, u64::from(p).saturating_mul(16)) else {
        return Some(0);
    };
    let mut words = Lcg64Xsh32::seed_from_u64(u64::from(p));
    for map in 0..maps {
        if !is_so(alloc, &geometry, &mut words) {
            return Some(map);
        }
    }
    None
}

#[test]
fn maps_of_few_pages_are_loaded(rt: HostRuntime) {
    assert_none(&rt, first_other(rt.alloc(), 4, 900));
}

#[test]
fn maps_of_64_pages_are_loaded(rt: HostRuntime) {
    assert_none(&rt, first_other(rt.alloc(), 64, 25));
    assert_none(&rt, first_other(rt.alloc(), 65, 25));
}

#[test]
fn maps_of_128_pages_are_loaded(rt: HostRuntime) {
    assert_none(&rt, first_other(rt.alloc(), 127, 25));
    assert_none(&rt, first_other(rt.alloc(), 128, 25));
}
