//! The search for the group that gives way, over one count for each erase block of the pool.
ghost use Rattle.std.specs.Prelude.{◌≡◌, ℕ, IfOk, IfSome, IfNone};
ghost use Rattle.silent_evict.specs.Candidates.{IsCandidate, IsVictim};

use ft_base::Geometry;
use lanes::least;
use mapping::Map;
use std::alloc::{AllocError, Global};
use std::marker::Model;

/// Chooses which clean group gives way.
#[derive(Drop)]
pub struct Victims {
    geometry: Geometry,
}

impl Model for Victims {
    ghost use Rattle.ft_base.specs.declared.geometry.Geometry.{Geometry};

    ghost Value = { Geometry };

    ghost view = { λ v. v.geometry };
}

impl Victims {
    /// A chooser for maps of this geometry. It allocates nothing.
    pub fn new(_alloc: Global, geometry: &Geometry) -> Result<Victims, AllocError>
        ensures { IfOk result (λ v. v ≡ geometry.now) }
    {
        Ok(Victims {
            geometry: *geometry,
        })
    }

    /// The group that gives way: it has a data block and no dirty address, and no such group has fewer held pages in
    /// its data block. `None` if there is no such group, and only then. It allocates nothing.
    pub fn victim(&mut self, map: &Map) -> Option<u64>
        requires { self.old ≡ map.now.geometry }
        ensures own { self.new ≡ self.old }
        ensures some { IfSome result (IsVictim map.now.geometry map.now.entries) }
        ensures none { IfNone result ((group : ℕ) → IsCandidate map.now.geometry map.now.entries group → ⊥) }
    {
        let counts = map.candidates();
        let place = least(counts)?;
        let fewest = counts[place];
        if fewest == u16::MAX {
            return None;
        }
        let block = self.geometry.first_pool() + place as u32;
        map.group_in(block)
    }
}
