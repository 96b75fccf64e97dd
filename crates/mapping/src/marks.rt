//! The marks that an entry may have, and how many groups have an entry with each of them.
ghost use Rattle.std.specs.Prelude.{◌≡◌, ◌<◌, ◌≤◌, ◌+◌, ◌^◌, ◌↔◌, IsTrue, IfOk, length, true, if◌then◌else◌};
ghost use Rattle.ft_base.specs.declared.geometry.Geometry.{Geometry as GeometryValue};
ghost use Rattle.cache_model.specs.Records.{Entries, no_entries};
ghost use Rattle.cache_model.specs.Entries.{groups_with};
ghost use Rattle.mapping.specs.Counts.{has_mark};
ghost use Rattle.mapping.specs.Seeking.{HasMarkIn, MayHave};

use crate::dirty::DirtyGroups;
use crate::held::Held;
use ft_base::Geometry;
use std::alloc::{AllocError, Global};

/// A mark that an entry may have, counted by groups.
#[derive(Clone, Copy, Debug, PartialEq, Eq)]
pub enum Mark {
    /// The disk lacks the block.
    Dirty,
    /// The block stands in the data block of its group.
    BlockMapped,
}

/// The groups that have an entry with a mark.
#[derive(Drop)]
pub struct MarkedGroups {
    /// The dirty groups, each with how many of its addresses are dirty.
    pub dirty: DirtyGroups,
    /// How many groups have a data block.
    pub data_blocks: u32,
}

impl MarkedGroups {
    ghost use Rattle.mapping.specs.MarkedGroups.{AreMarkedGroups};

    /// No group with a mark, and room for C dirty ones.
    pub fn new(alloc: Global, geometry: &Geometry) -> Result<MarkedGroups, AllocError>
        ensures { IfOk result (AreMarkedGroups geometry.now no_entries) }
    {
        Ok(MarkedGroups {
            dirty: DirtyGroups::new(alloc, geometry.c)?,
            data_blocks: 0,
        })
    }

    /// How many groups have an entry with the mark.
    fn count(&self, mark: Mark) -> usize
        ensures { (g : GeometryValue) (m : Entries) → AreMarkedGroups g m self.now → result ≡ length (groups_with g (has_mark mark) m) }
    {
        match mark {
            Mark::Dirty => self.dirty.len(),
            Mark::BlockMapped => self.data_blocks as usize,
        }
    }

    /// Whether a group has an entry with the mark.
    fn has(&self, held: &Held, mark: Mark, group: u64) -> bool
        requires { AreMarkedGroups held.now.geometry held.now.entries self.now }
        ensures { IsTrue result ↔ HasMarkIn held.now.geometry held.now.entries mark group }
    {
        match mark {
            Mark::Dirty => self.dirty.count(group) > 0,
            Mark::BlockMapped => held.block_of(group).is_some(),
        }
    }

    /// Whether this group may come to have the mark, or not to have it. It may always be without it. It may have it if
    /// fewer than C groups have it, or this one already does.
    pub fn may_have(
        &self,
        held: &Held,
        geometry: &Geometry,
        mark: Mark,
        group: u64,
        has: bool,
    ) -> bool
        requires geometry { held.now.geometry ≡ geometry.now }
        requires counted { AreMarkedGroups geometry.now held.now.entries self.now }
        ensures { IsTrue result ↔ MayHave geometry.now held.now.entries mark group has }
    {
        if !has {
            return true;
        }
        if self.count(mark) < geometry.c as usize {
            return true;
        }
        self.has(held, mark, group)
    }
}

/// How many groups have a mark after a change of one of them: `had` says whether it had the mark, and `has` whether it
/// has it now.
pub fn recount(now: u32, had: bool, has: bool) -> u32
    requires some { had ≡ true → 1 ≤ now }
    requires few { now ≤ 2 ^ 20 }
    ensures { result + (if had then 1 else 0) ≡ now + (if has then 1 else 0) }
{
    let others = if had { now - 1 } else { now };
    if has { others + 1 } else { others }
}

/// How many addresses of a group are dirty after a change of the group alone. `before` and `now` are all dirty
/// addresses.
pub fn recount_dirty(count: u32, before: u32, now: u32) -> u32
    requires some { before ≤ count + now }
    requires few { count + now < 2 ^ 32 }
    ensures { result + before ≡ count + now }
{
    count + now - before
}
