//! How many dirty addresses each dirty group has. So whether a group is dirty costs one look-up, and none of its pages
//! is looked at.
ghost use Rattle.std.specs.Prelude.{◌≡◌, ◌⊎◌, ◌+◌, ◌<◌, ◌≤◌, ◌==◌, [], length, IfOk, IfErr, if◌then◌else◌};
ghost use Rattle.mapping.specs.DirtyGroups.{count_of, IsAt, IsGapFor, SetsOnly};

use std::alloc::{AllocError, Global};
use std::marker::Model;

/// The dirty groups, in ascending order, each with how many of its addresses are dirty. The list has its memory from
/// the start.
#[derive(Drop)]
pub struct DirtyGroups {
    pairs: Vec<(u64, u32)>,
}

impl Model for DirtyGroups {
    ghost use Rattle.std.specs.Vec.{vec_capacity};
    ghost use Rattle.mapping.specs.DirtyGroups.{DirtyCounts, IsCounted};

    ghost Value = { DirtyCounts };

    ghost view = { λ d. record { pairs = d.pairs.items; room = vec_capacity d.pairs } };

    ghost invariant = { λ d. IsCounted d.pairs.items };
}

impl DirtyGroups {
    /// No dirty group, and room for `most`.
    pub fn new(alloc: Global, most: u32) -> Result<DirtyGroups, AllocError>
        ensures { IfOk result (λ d. d ≡ record { pairs = []; room = most }) }
    {
        Ok(DirtyGroups {
            pairs: Vec::with_capacity(alloc, most as usize)?,
        })
    }

    /// How many groups are dirty.
    pub fn len(&self) -> usize
        ensures { result ≡ length self.now.pairs }
    {
        self.pairs.len()
    }

    /// How many addresses of a group are dirty.
    pub fn count(&self, group: u64) -> u32
        ensures { result ≡ count_of self.now.pairs group }
    {
        match self.search(group) {
            Ok(at) => self.pairs[at].1,
            Err(_) => 0,
        }
    }

    /// Sets how many addresses of a group are dirty. A group that becomes dirty needs room.
    pub fn set(&mut self, group: u64, count: u32)
        requires { (count ≡ 0) ⊎ ((0 < count_of self.old.pairs group) ⊎ (length self.old.pairs < self.old.room)) }
        ensures counts { SetsOnly self.old.pairs self.new.pairs group count }
        ensures len { length self.new.pairs + (if count_of self.old.pairs group == 0 then 0 else 1)
            ≡ length self.old.pairs + (if count == 0 then 0 else 1) }
        ensures room { self.old.room ≤ self.new.room }
    {
        match self.search(group) {
            Ok(at) => {
                if count > 0 {
                    self.pairs[at] = (group, count);
                } else {
                    let _ = self.pairs.remove(at);
                }
            }
            Err(at) => {
                if count > 0 {
                    let Ok(()) = self.pairs.insert(at, (group, count)) else {
                        unreachable!()
                    };
                }
            }
        }
    }

    /// Where the group is, or where it would go.
    fn search(&self, group: u64) -> Result<usize, usize>
        ensures found { IfOk result (IsAt self.now.pairs group) }
        ensures absent { IfErr result (IsGapFor self.now.pairs group) }
    {
        self.pairs.binary_search_by_key(&group, |&(key, _)| key)
    }
}
