//! The index beside the entries, so that none of it is counted or looked for anew. It has the owner of each page of the
//! pool, how many mapped pages each erase block has, and how many entries there are.
ghost use Rattle.std.specs.Prelude.{◌≡◌, Some, None, IfOk, vec_len, slice_index_or, if◌then◌else◌};
ghost use Rattle.std.specs.Vec.{vec_capacity};
ghost use Rattle.std.specs.FinMap.{get, remove};
ghost use Rattle.cache_model.specs.Records.{Entries, no_entries};
ghost use Rattle.cache_model.specs.Entries.{IsMap, InPool};
ghost use Rattle.mapping.specs.Numbers.{number_of};

use crate::numbers::{number_of, pool_pages};
use cache_model::Entry;
use ft_base::{Geometry, Place};
use std::alloc::{AllocError, Global};

/// How many mapped pages each erase block of the pool has, and how many of these blocks have some.
#[derive(Drop)]
pub struct LogCounts {
    /// By erase block, from the first one of the pool on.
    pub pages: Vec<u32>,
    /// How many blocks have some.
    pub used: u32,
    ghost pages_fit: { vec_capacity pages ≡ vec_len pages },
}

/// The index that is kept beside the entries.
#[derive(Drop)]
pub struct Index {
    /// The address whose block each page of the pool has, by the page's number.
    pub owners: Vec<Option<u64>>,
    /// The mapped pages of each erase block.
    pub logs: LogCounts,
    /// How many addresses have an entry.
    pub held: u32,
    /// How many of these entries are dirty.
    pub dirty: u32,
    ghost owners_fit: { vec_capacity owners ≡ vec_len owners },
}

/// 1 if the fact holds, and else 0.
fn bit(is_so: bool) -> u32
    ensures { result ≡ (if is_so then 1 else 0) }
{
    u32::from(is_so)
}

impl LogCounts {
    ghost use Rattle.mapping.specs.Index.{LogsAre};

    /// Takes note that the entry of an address is removed.
    fn leave(&mut self, geometry: &Geometry, lba: u64, entry: &Entry)
        requires { (m : Entries) × IsMap geometry.now m × LogsAre geometry.now m self.old × (get m lba ≡ Some entry.now) }
        ensures { (m : Entries) → IsMap geometry.now m → LogsAre geometry.now m self.old → get m lba ≡ Some entry.now
            → LogsAre geometry.now (remove m lba) self.new }
    {
        if entry.block_mapped {
            return;
        }
        let block = (entry.place.block - geometry.first_pool()) as usize;
        let left = self.pages[block] - 1;
        self.pages[block] = left;
        if left == 0 {
            self.used -= 1;
        }
    }

    /// Takes note that the entry of an address is added.
    fn enter(&mut self, geometry: &Geometry, lba: u64, entry: &Entry)
        requires { (m : Entries) × IsMap geometry.now m × LogsAre geometry.now (remove m lba) self.old × (get m lba ≡ Some entry.now) }
        ensures { (m : Entries) → IsMap geometry.now m → LogsAre geometry.now (remove m lba) self.old → get m lba ≡ Some entry.now
            → LogsAre geometry.now m self.new }
    {
        if entry.block_mapped {
            return;
        }
        let block = (entry.place.block - geometry.first_pool()) as usize;
        let before = self.pages[block];
        self.pages[block] = before + 1;
        if before == 0 {
            self.used += 1;
        }
    }
}

impl Index {
    ghost use Rattle.mapping.specs.Index.{IsIndex};

    /// The index of no entries.
    pub fn new(alloc: Global, geometry: &Geometry) -> Result<Index, AllocError>
        ensures { IfOk result (IsIndex geometry.now no_entries) }
    {
        let blocks = geometry.c + geometry.l + 1;
        let owners = vec![in alloc; None; pool_pages(geometry) as usize]?;
        let pages = vec![in alloc; 0; blocks as usize]?;
        // The lists that `vec!` makes have no more memory, but `vec!` doesn't promise that. So longer lists count as
        // out of memory.
        if owners.capacity() > owners.len() || pages.capacity() > pages.len() {
            return Err(AllocError);
        }
        Ok(Index {
            owners,
            logs: LogCounts { pages, used: 0 },
            held: 0,
            dirty: 0,
        })
    }

    /// The address whose block stands at a page of the pool.
    pub fn owner(&self, geometry: &Geometry, at: Place) -> Option<u64>
        requires { InPool geometry.now at }
        ensures { result ≡ slice_index_or self.now.owners.items (number_of geometry.now at) None }
    {
        match self.owners.get(number_of(geometry, at) as usize) {
            Some(owner) => *owner,
            None => None,
        }
    }

    /// Takes note that the entry of an address is removed.
    pub fn leave(&mut self, geometry: &Geometry, lba: u64, entry: &Entry)
        requires { (m : Entries) × IsMap geometry.now m × IsIndex geometry.now m self.old × (get m lba ≡ Some entry.now) }
        ensures { (m : Entries) → IsMap geometry.now m → IsIndex geometry.now m self.old → get m lba ≡ Some entry.now
            → IsIndex geometry.now (remove m lba) self.new }
    {
        self.owners[number_of(geometry, entry.place) as usize] = None;
        self.logs.leave(geometry, lba, entry);
        self.held -= 1;
        self.dirty -= bit(entry.dirty);
    }

    /// Takes note that the entry of an address is added.
    pub fn enter(&mut self, geometry: &Geometry, lba: u64, entry: &Entry)
        requires { (m : Entries) × IsMap geometry.now m × IsIndex geometry.now (remove m lba) self.old × (get m lba ≡ Some entry.now) }
        ensures { (m : Entries) → IsMap geometry.now m → IsIndex geometry.now (remove m lba) self.old → get m lba ≡ Some entry.now
            → IsIndex geometry.now m self.new }
    {
        self.owners[number_of(geometry, entry.place) as usize] = Some(lba);
        self.logs.enter(geometry, lba, entry);
        self.held += 1;
        self.dirty += bit(entry.dirty);
    }
}
