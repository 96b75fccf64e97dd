//! The choices by which a set of pages of a group is made.
ghost use Rattle.std.specs.Prelude.{◌≡◌};

use cache_model::Entry;

/// Which pages of a group are chosen.
#[derive(Clone, Copy, Debug, PartialEq, Eq)]
pub enum Choice {
    /// Pages whose address is held.
    Held,
    /// Pages whose address is dirty.
    Dirty,
    /// Pages in the data block of the group.
    Mapped,
    /// Pages in the data block whose address is dirty.
    MappedDirty,
}

impl Choice {
    ghost use Rattle.mapping.specs.Bits.{is_chosen};

    /// Whether an entry, if there is one, is chosen.
    pub fn is_on(self, entry: Option<Entry>) -> bool
        ensures { result ≡ is_chosen self entry }
    {
        match entry {
            None => false,
            Some(found) => match self {
                Choice::Held => true,
                Choice::Dirty => found.dirty,
                Choice::Mapped => found.block_mapped,
                Choice::MappedDirty => found.block_mapped && found.dirty,
            },
        }
    }
}
