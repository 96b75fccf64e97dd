//! Laws of victims on which the layers above rest.
ghost use Rattle.std.specs.Prelude.{ℕ, ◌≤◌, ◌-◌, ◌/◌};
ghost use Rattle.ft_base.specs.declared.geometry.Geometry.{Geometry};
ghost use Rattle.cache_model.specs.Records.{Entries};
ghost use Rattle.cache_model.specs.Entries.{IsMap};
ghost use Rattle.silent_evict.specs.Candidates.{IsCandidate, IsVictim, HoldsCleanAlone, pages_held};

/// A victim is a wholly clean group: some address of it is held, and none is dirty.
pub fn a_victim_is_wholly_clean()
    ensures { (g : Geometry) (m : Entries) (group : ℕ) → IsVictim g m group → HoldsCleanAlone g m group }
{}

/// The data block of a candidate has at least one held page, and at most P.
pub fn a_candidate_holds_pages()
    ensures some { (g : Geometry) (m : Entries) (group : ℕ) → IsCandidate g m group → 1 ≤ pages_held g m group }
    ensures most { (g : Geometry) (m : Entries) (group : ℕ) → pages_held g m group ≤ g.p }
{}

/// A candidate is one of the groups of the volume, so the record that removes it is in reach.
pub fn a_candidate_is_of_the_volume()
    ensures { (g : Geometry) (m : Entries) (group : ℕ) → IsMap g m → IsCandidate g m group → group ≤ (g.size - 1) / g.p }
{}
