//! The entries that are looked for at one page, or in one erase block, page after page.
ghost use Rattle.std.specs.Prelude.{◌≡◌, ◌<◌, ◌≤◌, IfSome, IfNone, IsTrue, ◌↔◌, ◌/◌, true};
ghost use Rattle.ft_base.specs.Layout.{first_pool, blocks};
ghost use Rattle.cache_model.specs.Entries.{InPool};
ghost use Rattle.mapping.specs.Index.{IsIndexed};
ghost use Rattle.mapping.specs.Seeking.{seeks, IsFoundIn, IsNotIn, IsFoundAt, IsNotAt, IsTaken};

use crate::held::Held;
use crate::index::Index;
use cache_model::Entry;
use ft_base::{Geometry, Place};

/// Which entries are looked for.
#[derive(Clone, Copy, Debug, PartialEq, Eq)]
pub enum Sought {
    /// Any entry.
    Any,
    /// Entries of a data block.
    Mapped,
    /// Entries of a data block, except the entry of an address.
    MappedBeside {
        /// The address.
        lba: u64,
    },
    /// Entries of other groups.
    Outside {
        /// The group.
        group: u64,
    },
}

/// Whether the entry of an address is one of the sought entries.
fn is_sought(geometry: &Geometry, sought: Sought, lba: u64, entry: &Entry) -> bool
    ensures { result ≡ seeks geometry.now sought lba entry.now }
{
    match sought {
        Sought::Any => true,
        Sought::Mapped => entry.block_mapped,
        Sought::MappedBeside { lba: other } => lba != other && entry.block_mapped,
        Sought::Outside { group } => lba / geometry.p as u64 != group,
    }
}

/// The address of a sought entry at a page.
fn found_at(
    held: &Held,
    index: &Index,
    geometry: &Geometry,
    sought: Sought,
    at: Place,
) -> Option<u64>
    requires pool { InPool geometry.now at }
    requires indexed { IsIndexed geometry.now held.now.entries index.now }
    ensures some { IfSome result (IsFoundAt geometry.now sought held.now.entries at) }
    ensures none { IfNone result (IsNotAt geometry.now sought held.now.entries at) }
{
    match index.owner(geometry, at) {
        Some(owner) => match held.entry(owner) {
            Some(entry) => {
                if is_sought(geometry, sought, owner, &entry) {
                    Some(owner)
                } else {
                    None
                }
            }
            None => None,
        },
        None => None,
    }
}

/// The address of a sought entry in an erase block of the pool.
pub fn found_in(
    held: &Held,
    index: &Index,
    geometry: &Geometry,
    sought: Sought,
    block: u32,
) -> Option<u64>
    requires above { first_pool geometry.now ≤ block }
    requires below { block < blocks geometry.now }
    requires indexed { IsIndexed geometry.now held.now.entries index.now }
    ensures some { IfSome result (IsFoundIn geometry.now sought held.now.entries block) }
    ensures none { IfNone result (IsNotIn geometry.now sought held.now.entries block) }
{
    for page in 0..geometry.p {
        let found = found_at(held, index, geometry, sought, Place { block, page });
        if found.is_some() {
            return found;
        }
    }
    None
}

/// Whether another address has a page of the pool. The index says so; only the clauses name the entries.
pub fn is_taken(held: &Held, index: &Index, geometry: &Geometry, lba: u64, at: Place) -> bool
    requires pool { InPool geometry.now at }
    requires indexed { IsIndexed geometry.now held.now.entries index.now }
    ensures { IsTrue result ↔ IsTaken held.now.entries lba at }
{
    match index.owner(geometry, at) {
        Some(owner) => owner != lba,
        None => false,
    }
}
