//! The group that gives way, over worked maps: clean, with a data block, and with the fewest held pages in it.

use ft_base::{Geometry, Place, Record};
use mapping::Map;
use silent_evict::{Victims, plain};
use std::alloc::Global;
use std::marker::Model;
use std::test::Fail;

/// A fact that can be seen of a map, and of the group that gives way.
#[derive(Clone, Copy)]
enum Fact {
    /// This group gives way.
    Victim(Option<u64>),
    /// A group that may give way does.
    SomeVictim,
    /// Whether a group may give way, and no group that may has fewer held pages in its data block.
    MayBeVictim(u64, bool),
    /// Whether a group has a data block, and no dirty address.
    Candidate(u64, bool),
    /// Whether some address of a group is held, and none is dirty.
    WhollyClean(u64, bool),
    /// How many pages of a group's data block are held.
    PagesHeld(u64, u32),
    /// The pages of a group that are held.
    HeldBits(u64, u128),
}

/// A change of a map.
#[derive(Clone, Copy)]
enum Change {
    /// The present pages of a group stand in this data block, some of them dirty.
    SetGroup {
        group: u64,
        block: u32,
        present: u128,
        dirty: u128,
    },
    /// The address stands at this page of the first log block, dirty or clean.
    SetPage(u64, u32, bool),
    /// The address is clean.
    Clean(u64),
    /// No address of the group is held any longer.
    RemoveGroup(u64),
}

/// A line of an example.
#[derive(Clone, Copy)]
enum Line {
    /// A change that is made.
    Make(Change),
    /// The fact that is seen then.
    See(Fact),
}

/// The record of this change.
fn record_of(change: Change) -> Record {
    match change {
        Change::SetGroup {
            group,
            block,
            present,
            dirty,
        } => Record::SetGroup {
            group,
            block,
            present,
            dirty,
        },
        Change::SetPage(lba, page, dirty) => Record::SetPage {
            lba,
            place: Place { block: 4, page },
            dirty,
        },
        Change::Clean(lba) => Record::Clean { lba },
        Change::RemoveGroup(group) => Record::RemoveGroup { group },
    }
}

/// A map, and the chooser of its group that gives way.
#[derive(Drop)]
struct Bench {
    geometry: Geometry,
    map: Map,
    victims: Victims,
}

impl Model for Bench {
    ghost use Rattle.std.specs.Prelude.{◌≡◌};
    ghost use Rattle.ft_base.specs.declared.geometry.Geometry.{Geometry};

    ghost Value = { Geometry };

    ghost view = { λ b. b.geometry };

    ghost invariant = { λ b. (b.map.geometry ≡ b.geometry) × (b.victims ≡ b.geometry) };
}

impl Bench {
    /// An empty map, with P = 4, C = 4 and L = 2. Its pool is the erase blocks 4 to 10.
    fn new(alloc: Global) -> Result<Bench, Fail> {
        let geometry = Geometry::new(4, 4, 2, 1, 64)?;
        let map = Map::new(alloc, &geometry)?;
        let victims = Victims::new(alloc, &geometry)?;
        Ok(Bench {
            geometry,
            map,
            victims,
        })
    }

    /// Makes a change that fits.
    fn make(&mut self, change: Change) -> Result<(), Fail> {
        let change = record_of(change);
        self.map.reserve(1, 1)?;
        if !self.map.fits(&change) {
            return Err(Fail::from("a change that doesn't fit"));
        }
        self.map.apply(&change);
        Ok(())
    }

    fn holds(&mut self, fact: Fact) -> bool {
        match fact {
            Fact::Victim(group) => self.victims.victim(&self.map) == group,
            Fact::SomeVictim => self.chooses_a_victim(),
            Fact::MayBeVictim(group, may) => {
                plain::is_victim(&self.geometry, &self.map, group) == may
            }
            Fact::Candidate(group, is) => {
                plain::is_candidate(&self.geometry, &self.map, group) == is
            }
            Fact::WhollyClean(group, is) => {
                plain::is_wholly_clean(&self.geometry, &self.map, group) == is
            }
            Fact::PagesHeld(group, count) => plain::pages_held(&self.map, group) == count,
            Fact::HeldBits(group, bits) => self.map.held_bits(group) == bits,
        }
    }

    fn chooses_a_victim(&mut self) -> bool {
        match self.victims.victim(&self.map) {
            Some(group) => plain::is_victim(&self.geometry, &self.map, group),
            None => false,
        }
    }
}

/// Goes through the lines, beginning with an empty map. Answers the first line whose facts don't hold.
fn first_wrong(alloc: Global, lines: &[Line]) -> Result<Option<usize>, Fail> {
    let mut bench = Bench::new(alloc)?;
    for i in 0..lines.len() {
        match lines[i] {
            Line::Make(change) => bench.make(change)?,
            Line::See(fact) => {
                if !bench.holds(fact) {
                    return Ok(Some(i));
                }
            }
        }
    }
    Ok(None)
}

const NOTHING: [Line; 2] = [
    Line::See(Fact::Victim(None)),
    Line::See(Fact::WhollyClean(0, false)),
];

#[test]
fn nothing_gives_way_where_nothing_is_held(rt: HostRuntime) -> Result<(), Fail> {
    assert_eq!(rt; first_wrong(rt.alloc(), &NOTHING)?, None);
    Ok(())
}

const HALF_DIRTY: [Line; 6] = [
    Line::Make(Change::SetGroup {
        group: 2,
        block: 6,
        present: 0b1001,
        dirty: 0b1000,
    }),
    Line::See(Fact::Victim(None)),
    Line::See(Fact::Candidate(2, false)),
    Line::Make(Change::Clean(11)),
    Line::See(Fact::Candidate(2, true)),
    Line::See(Fact::Victim(Some(2))),
];

#[test]
fn dirty_groups_stay(rt: HostRuntime) -> Result<(), Fail> {
    assert_eq!(rt; first_wrong(rt.alloc(), &HALF_DIRTY)?, None);
    Ok(())
}

const DIRTY_LOG_PAGE: [Line; 6] = [
    Line::Make(Change::SetGroup {
        group: 1,
        block: 6,
        present: 0b0111,
        dirty: 0,
    }),
    Line::See(Fact::Victim(Some(1))),
    Line::Make(Change::SetPage(7, 0, true)),
    Line::See(Fact::Victim(None)),
    Line::See(Fact::WhollyClean(1, false)),
    Line::See(Fact::PagesHeld(1, 3)),
];

#[test]
fn a_dirty_page_in_a_log_block_keeps_its_group(rt: HostRuntime) -> Result<(), Fail> {
    assert_eq!(rt; first_wrong(rt.alloc(), &DIRTY_LOG_PAGE)?, None);
    Ok(())
}

const NO_DATA_BLOCK: [Line; 5] = [
    Line::Make(Change::SetPage(9, 0, false)),
    Line::See(Fact::Victim(None)),
    Line::See(Fact::WhollyClean(2, true)),
    Line::See(Fact::Candidate(2, false)),
    Line::See(Fact::PagesHeld(2, 0)),
];

#[test]
fn a_clean_group_without_a_data_block_stays(rt: HostRuntime) -> Result<(), Fail> {
    assert_eq!(rt; first_wrong(rt.alloc(), &NO_DATA_BLOCK)?, None);
    Ok(())
}

const FEWEST_PAGES: [Line; 9] = [
    Line::Make(Change::SetGroup {
        group: 0,
        block: 5,
        present: 0b0111,
        dirty: 0,
    }),
    Line::Make(Change::SetGroup {
        group: 3,
        block: 6,
        present: 0b1010,
        dirty: 0,
    }),
    Line::Make(Change::SetGroup {
        group: 15,
        block: 7,
        present: 0b0100,
        dirty: 0,
    }),
    Line::See(Fact::Victim(Some(15))),
    Line::See(Fact::MayBeVictim(15, true)),
    Line::See(Fact::MayBeVictim(3, false)),
    Line::Make(Change::RemoveGroup(15)),
    Line::See(Fact::Victim(Some(3))),
    Line::See(Fact::MayBeVictim(3, true)),
];

#[test]
fn the_group_of_the_fewest_pages_gives_way(rt: HostRuntime) -> Result<(), Fail> {
    assert_eq!(rt; first_wrong(rt.alloc(), &FEWEST_PAGES)?, None);
    Ok(())
}

const TWO_EQUALS: [Line; 7] = [
    Line::Make(Change::SetGroup {
        group: 0,
        block: 5,
        present: 0b1111,
        dirty: 0,
    }),
    Line::Make(Change::SetGroup {
        group: 1,
        block: 6,
        present: 0b0110,
        dirty: 0,
    }),
    Line::Make(Change::SetGroup {
        group: 2,
        block: 7,
        present: 0b1001,
        dirty: 0,
    }),
    Line::See(Fact::MayBeVictim(0, false)),
    Line::See(Fact::MayBeVictim(1, true)),
    Line::See(Fact::MayBeVictim(2, true)),
    Line::See(Fact::SomeVictim),
];

#[test]
fn any_of_two_equals_gives_way(rt: HostRuntime) -> Result<(), Fail> {
    assert_eq!(rt; first_wrong(rt.alloc(), &TWO_EQUALS)?, None);
    Ok(())
}

const LOG_PAGES_BESIDE: [Line; 7] = [
    Line::Make(Change::SetGroup {
        group: 0,
        block: 5,
        present: 0b0011,
        dirty: 0,
    }),
    Line::Make(Change::SetGroup {
        group: 1,
        block: 6,
        present: 0b0001,
        dirty: 0,
    }),
    Line::Make(Change::SetPage(5, 0, false)),
    Line::Make(Change::SetPage(6, 1, false)),
    Line::See(Fact::HeldBits(1, 0b0111)),
    Line::See(Fact::PagesHeld(1, 1)),
    Line::See(Fact::Victim(Some(1))),
];

#[test]
fn pages_of_log_blocks_do_not_count(rt: HostRuntime) -> Result<(), Fail> {
    assert_eq!(rt; first_wrong(rt.alloc(), &LOG_PAGES_BESIDE)?, None);
    Ok(())
}
