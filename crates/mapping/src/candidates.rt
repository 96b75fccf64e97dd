//! The data blocks of the groups that may give way. They are kept up to date with each change, so that a choice among
//! them looks only at the entries of one erase block.
ghost use Rattle.std.specs.Prelude.{◌≡◌, ◌<◌, ◌≤◌, ◌-◌, ◌+◌, ℕ, IfOk, IfSome, slice_set, length, vec_len};
ghost use Rattle.std.specs.Vec.{vec_capacity};
ghost use Rattle.ft_base.specs.Layout.{first_pool, blocks};
ghost use Rattle.cache_model.specs.Records.{Entries, no_entries};
ghost use Rattle.mapping.specs.Candidates.{AreCandidates, ChangesOne, StandsInPool, with_count};

use block_map::BlockAt;
use ft_base::Geometry;
use std::alloc::{AllocError, Global};

/// How many pages are held in the data block of each group that may give way.
#[derive(Drop)]
pub struct Candidates {
    /// By erase block, from the first one of the pool on: 1 to P for such a data block, and 65,535 for any other block.
    pub counts: Vec<u16>,
    ghost counts_fit: { vec_capacity counts ≡ vec_len counts },
}

impl Candidates {
    /// The candidates of no entries.
    pub fn new(alloc: Global, geometry: &Geometry) -> Result<Candidates, AllocError>
        ensures { IfOk result (λ candidates. AreCandidates geometry.now no_entries candidates.counts.items) }
    {
        let blocks = geometry.c + geometry.l + 1;
        let counts = vec![in alloc; u16::MAX; blocks as usize]?;
        // The list that `vec!` makes has no more memory, but `vec!` doesn't promise that. So a longer list counts as
        // out of memory.
        if counts.capacity() > counts.len() {
            return Err(AllocError);
        }
        Ok(Candidates { counts })
    }

    /// The counts of the erase blocks, from the first one of the pool on.
    pub fn counts(&self) -> &[u16]
        ensures { result.now ≡ self.now.counts.items }
    {
        self.counts.as_slice()
    }

    /// Takes note of a change of one group: its data block before and now, and whether it has a dirty page now.
    pub fn note(
        &mut self,
        geometry: &Geometry,
        before: Option<BlockAt>,
        now: Option<BlockAt>,
        is_dirty: bool,
    )
        requires { (m : Entries) × (n : Entries) × (group : ℕ) × ChangesOne geometry.now m n group before now is_dirty
            × AreCandidates geometry.now m self.old.counts.items }
        ensures { (m n : Entries) (group : ℕ) → ChangesOne geometry.now m n group before now is_dirty
            → AreCandidates geometry.now m self.old.counts.items → AreCandidates geometry.now n self.new.counts.items }
    {
        self.forget(geometry, before);
        if is_dirty {
            return;
        }
        match now {
            Some(block) => {
                let pages = block.count() as u16;
                self.put(geometry, block.block(), pages);
            }
            None => {}
        }
    }

    /// Notes that a data block, if there is one, may not give way.
    fn forget(&mut self, geometry: &Geometry, before: Option<BlockAt>)
        requires pool { IfSome before (StandsInPool geometry.now) }
        requires long { length self.old.counts.items ≡ geometry.now.c + geometry.now.l + 1 }
        ensures { self.new.counts.items ≡ with_count geometry.now before 65535 self.old.counts.items }
    {
        match before {
            Some(block) => self.put(geometry, block.block(), u16::MAX),
            None => {}
        }
    }

    /// Sets the count of an erase block of the pool.
    fn put(&mut self, geometry: &Geometry, block: u32, count: u16)
        requires above { first_pool geometry.now ≤ block }
        requires below { block < blocks geometry.now }
        requires long { length self.old.counts.items ≡ geometry.now.c + geometry.now.l + 1 }
        ensures { self.new.counts.items ≡ slice_set self.old.counts.items (block - first_pool geometry.now) count }
    {
        self.counts[(block - geometry.first_pool()) as usize] = count;
    }
}
