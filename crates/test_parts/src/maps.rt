//! The map: the changes that fit it, its counts, the place of an address and the owner of a page. Also the records of a
//! checkpoint, and the data blocks that may give way.

use ft_base::{Geometry, Place, Record};
use mapping::Map;
use std::alloc::Global;
use std::test::Fail;

/// The block and the page of a place.
type At = (u32, u32);

/// A fact that can be seen of a map.
#[derive(Clone, Copy)]
enum Fact {
    /// Whether a change fits it.
    Fits(Record, bool),
    /// Whether a change that puts an address at this page fits the map.
    FitsPage(u64, At, bool),
    /// How many entries there are, how many of them are dirty, and how many buckets there are.
    Entries([u64; 3]),
    /// How many groups have a dirty entry, how many have a data block, and how many blocks have pages of the log.
    Groups([u32; 3]),
    /// The held pages of a group, and its dirty pages.
    Pages(u64, [u128; 2]),
    /// The place of a dirty address.
    Dirty(u64, At),
    /// The address that a page belongs to.
    Owner(At, Option<u64>),
    /// How many numbers there are; entries have some of them.
    Numbers(u32),
    /// The entry of a number.
    Nth(u32, Option<(u64, At)>),
    /// Whether no entry stands in a block.
    StandsNoneIn(u32, bool),
    /// The group whose data block this block is.
    GroupIn(u32, Option<u64>),
    /// The data block of a group, and the pages that are present there.
    DataBlock(u64, Option<(u32, u128)>),
    /// How many held pages the data block of this number in the pool has, if it may give way.
    Candidate(usize, Option<u16>),
    /// How many records a checkpoint has.
    CheckpointLen(u32),
}

fn place((block, page): At) -> Place {
    Place { block, page }
}

fn set_page(lba: u64, at: At) -> Record {
    Record::SetPage {
        lba,
        place: place(at),
        dirty: true,
    }
}

/// Block 6 is the data block of group 1, with pages 0, 1 and 3, the last one dirty.
const GROUP_1: Record = Record::SetGroup {
    group: 1,
    block: 6,
    present: 0b1011,
    dirty: 0b1000,
};

fn is_so(map: &Map, fact: Fact) -> bool {
    match fact {
        Fact::Fits(change, wanted) => map.fits(&change) == wanted,
        Fact::FitsPage(lba, at, wanted) => map.fits(&set_page(lba, at)) == wanted,
        Fact::Entries(counts) => [map.held(), map.dirty_entries(), map.buckets()] == counts,
        Fact::Groups(counts) => {
            [map.dirty_groups(), map.data_blocks(), map.log_blocks()] == counts
        }
        Fact::Pages(group, sets) => [map.held_bits(group), map.dirty_bits(group)] == sets,
        Fact::Dirty(lba, at) => map.place(lba) == Some((place(at), true)),
        Fact::Owner(at, owner) => map.owner(place(at)) == owner,
        Fact::Numbers(numbers) => map.numbers() == numbers,
        Fact::Nth(number, entry) => map.nth(number).map(|e| (e.0, (e.1.block, e.1.page))) == entry,
        Fact::StandsNoneIn(block, wanted) => map.stands_none_in(block) == wanted,
        Fact::GroupIn(block, group) => map.group_in(block) == group,
        Fact::DataBlock(group, wanted) => {
            map.block_of(group).map(|at| (at.block(), at.present())) == wanted
        }
        Fact::Candidate(number, count) => map.candidates().get(number).copied() == count,
        Fact::CheckpointLen(len) => map.checkpoint_len() == len,
    }
}

/// The first fact that doesn't hold.
fn first_wrong(map: &Map, facts: &[Fact]) -> Option<usize> {
    for (i, fact) in facts.iter().enumerate() {
        if !is_so(map, *fact) {
            return Some(i);
        }
    }
    None
}

/// An empty map, over a flash whose pool is the blocks 4 to 8, of 4 pages each.
fn empty(alloc: Global) -> Result<Map, Fail> {
    let geometry = Geometry::new(4, 2, 2, 1, 64)?;
    let map = Map::new(alloc, &geometry)?;
    Ok(map)
}

/// Makes a change, if it fits.
fn change(map: &mut Map, change: &Record) -> Result<(), Fail> {
    map.reserve(1, 1)?;
    if !map.fits(change) {
        return Err(Fail::new("a change doesn't fit"));
    }
    map.apply(change);
    Ok(())
}

/// The same map with group 1 in its data block, and address 9 dirty in a log block.
fn built(alloc: Global) -> Result<Map, Fail> {
    let mut map = empty(alloc)?;
    change(&mut map, &GROUP_1)?;
    change(&mut map, &set_page(9, (4, 0)))?;
    Ok(map)
}

#[test]
fn what_fits_an_empty_map(rt: HostRuntime) -> Result<(), Fail> {
    const PAST_THE_LAST_PAGE: Record = Record::SetGroup {
        group: 0,
        block: 4,
        present: 16,
        dirty: 0,
    };
    const FACTS: [Fact; 5] = [
        Fact::FitsPage(5, (4, 0), true),
        // before the pool, after it, and past the size
        Fact::FitsPage(5, (3, 0), false),
        Fact::FitsPage(5, (9, 0), false),
        Fact::FitsPage(64, (4, 0), false),
        Fact::Fits(PAST_THE_LAST_PAGE, false),
    ];
    let map = empty(rt.alloc())?;
    assert_eq!(rt; first_wrong(&map, FACTS.as_slice()), None);
    Ok(())
}

#[test]
fn entries_are_counted_and_found(rt: HostRuntime) -> Result<(), Fail> {
    const FACTS: [Fact; 16] = [
        Fact::Entries([4, 2, 32]),
        Fact::Groups([2, 1, 1]),
        Fact::Pages(1, [0b1011, 0b1000]),
        Fact::Pages(2, [0b10, 0b10]),
        Fact::Dirty(9, (4, 0)),
        Fact::Owner((6, 3), Some(7)),
        Fact::Numbers(20),
        Fact::Nth(0, Some((9, (4, 0)))),
        Fact::Nth(8, Some((4, (6, 0)))),
        Fact::Nth(10, None),
        Fact::Nth(20, None),
        Fact::StandsNoneIn(5, true),
        Fact::StandsNoneIn(4, false),
        Fact::GroupIn(6, Some(1)),
        Fact::GroupIn(4, None),
        Fact::DataBlock(1, Some((6, 0b1011))),
    ];
    let map = built(rt.alloc())?;
    assert_eq!(rt; first_wrong(&map, FACTS.as_slice()), None);
    Ok(())
}

// Three quarters of 32 buckets are 24.
#[test]
fn room_for_pages_makes_buckets(rt: HostRuntime) -> Result<(), Fail> {
    let mut map = empty(rt.alloc())?;
    map.reserve(24, 1)?;
    assert_eq!(rt; map.buckets(), 32);
    map.reserve(25, 1)?;
    assert_eq!(rt; map.buckets(), 64);
    Ok(())
}

/// The sizes that a packed map's table has as it doubles.
const TABLES: [u32; 6] = [32, 64, 128, 256, 512, 1024];

/// How many buckets this many items need in a map that has none: the first table with a quarter of it free.
fn asked_by(items: u32) -> u32 {
    for buckets in TABLES {
        if 4 * items as u64 <= 3 * buckets as u64 {
            return buckets;
        }
    }
    0
}

/// Whether buckets are few for this many items, as the contracts define it.
fn are_few(items: u32, buckets: u32) -> bool {
    buckets <= 32 || 3 * (buckets as u64) < 8 * items as u64
}

// A table is few for a number of items exactly when it is at most as large as they need in a map without buckets.
#[test]
fn few_buckets_are_what_the_items_ask(rt: HostRuntime) -> Result<(), Fail> {
    for items in 0..768 {
        for buckets in TABLES {
            assert_eq!(rt; are_few(items, buckets), buckets <= asked_by(items));
        }
    }
    for items in [1, 24, 25, 48, 49, 127, 384, 385] {
        let mut map = empty(rt.alloc())?;
        map.reserve(items, 1)?;
        assert_eq!(rt; map.buckets(), asked_by(items) as u64);
    }
    Ok(())
}

/// Whether the whole of a checkpoint is these two records, written into a list with room for three.
fn is_checkpoint(map: &Map, first: &Record, second: &Record) -> bool {
    let mut out = [Record::Remove { lba: 0 }; 3];
    let written = map.checkpoint_part(0, out.as_mut_slice());
    written == 2 && out[0] == *first && out[1] == *second
}

#[test]
fn a_checkpoint_has_groups_and_then_pages(rt: HostRuntime) -> Result<(), Fail> {
    let map = built(rt.alloc())?;
    assert!(rt; is_so(&map, Fact::CheckpointLen(2)));
    assert!(rt; is_checkpoint(&map, &GROUP_1, &set_page(9, (4, 0))));
    Ok(())
}

/// Makes a change. Answers whether block 6 may give way after that, with this many held pages.
fn is_candidate_after(map: &mut Map, made: &Record, count: Option<u16>) -> Result<bool, Fail> {
    change(map, made)?;
    Ok(is_so(map, Fact::Candidate(2, count)))
}

#[test]
fn a_clean_data_block_is_a_candidate(rt: HostRuntime) -> Result<(), Fail> {
    // a dirty group, a clean one, and none
    const STEPS: [(Record, Option<u16>); 3] = [
        (GROUP_1, Some(u16::MAX)),
        (Record::Clean { lba: 7 }, Some(3)),
        (Record::RemoveGroup { group: 1 }, Some(u16::MAX)),
    ];
    let mut map = empty(rt.alloc())?;
    for (made, count) in STEPS {
        assert!(rt; is_candidate_after(&mut map, &made, count)?);
    }
    assert!(rt; is_so(&map, Fact::Candidate(4, Some(u16::MAX))));
    assert!(rt; is_so(&map, Fact::Candidate(5, None)));
    Ok(())
}
