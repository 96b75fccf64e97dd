//! What a map must offer to be measured, and how large it is.
ghost use Rattle.std.specs.Prelude.{◌≡◌, ◌↔◌, ℕ, ◌+◌, ◌-◌, ◌*◌, ◌/◌, ◌^◌, ◌≤◌, ◌==◌, min, Option, Some, None, OnOk, IsTrue, if◌then◌else◌, nat_eq};
ghost use Rattle.std.specs.FinMap as map;
ghost use Rattle.std.specs.HashMap as hash_map;
ghost use Rattle.sparse_map.specs.Packed.{map_of, len_of, buckets_of, lists_of, memory_of};

use sparse_map::SparseMap;
use std::alloc::{AllocError, Global};
use std::collections::HashMap;
use std::mem::size_of;

/// Bytes of an item: a key and a value.
const ITEM: u64 = size_of::<(u64, u64)>() as u64;

/// Bytes of a list of the sparse map without its places: 8 that say which of its 64 buckets are occupied, and 24 for
/// its header.
const LIST: u64 = 32;

/// The size of a map.
#[derive(Clone, Copy, Debug, PartialEq, Eq)]
pub struct Size {
    /// The number of keys with a value.
    pub entries: u64,
    /// The number of places that can hold a key.
    pub buckets: u64,
    /// The bytes of the map's own lists, without what the allocator adds to each.
    pub bytes: u64,
}

/// A map from 64-bit numbers to 64-bit numbers that can be measured.
pub trait Measured: Drop {
    /// Its name in the table.
    const NAME: &'static str;

    /// The value at a key, if it has one.
    ghost content: { Self → ℕ → Option ℕ };

    /// A map without entries.
    fn empty(alloc: Global) -> Self
        ensures { (k : ℕ) → content result k ≡ None };

    /// Sets the value of a key. It makes room first, if that is a call of its own. It fails with out of memory, or at
    /// the map's limit.
    fn set(&mut self, key: u64, value: u64) -> Result<(), AllocError>
        ensures { OnOk result ((k : ℕ) → content self.new k ≡ (if key == k then Some value else content self.old k)) };

    /// The value of a key.
    fn value(&self, key: u64) -> Option<u64>
        ensures { result ≡ content self.now key };

    /// Takes a key out, and gives its value.
    fn take(&mut self, key: u64) -> Option<u64>
        ensures value { result ≡ content self.old key }
        ensures content { (k : ℕ) → content self.new k ≡ (if key == k then None else content self.old k) };

    /// Whether one more key makes the map move into new lists, while the old lists are still there.
    fn moves_next(&self) -> bool;

    /// The bytes of old and new lists together in the map's last move, if the map's size before it was `before`.
    fn bytes_as_moved(&self, before: Size) -> u64;

    /// The size of the map.
    fn size(&self) -> Size;
}

/// Bytes of the lists of a sparse map of this many buckets, without their places: a list for each 64 buckets, and one
/// for 32.
fn list_bytes(buckets: u64) -> u64
    ensures { result ≡ 32 * (min (buckets + 32) (2 ^ 64 - 1) / 64) }
{
    buckets.saturating_add(32) / 64 * LIST
}

impl Measured for SparseMap<u64> {
    const NAME: &'static str = "sparse";

    ghost content = { λ m k. map.get (map_of m) k };

    fn empty(alloc: Global) -> Self {
        SparseMap::new(alloc)
    }

    /// Fails at 2^30 keys, the map's limit.
    fn set(&mut self, key: u64, value: u64) -> Result<(), AllocError> {
        if self.len() >= 1 << 30 {
            return Err(AllocError);
        }
        self.reserve(1)?;
        let _ = self.insert_ready(key, value);
        Ok(())
    }

    fn value(&self, key: u64) -> Option<u64> {
        self.get(key).copied()
    }

    fn take(&mut self, key: u64) -> Option<u64> {
        self.remove(key)
    }

    /// A quarter of the buckets stays free: 24 of each group's 32 may be taken.
    fn moves_next(&self) -> bool
        ensures { IsTrue result ↔ (3 * buckets_of self.now ≤ 4 * len_of self.now) }
    {
        24 * self.groups() <= self.len()
    }

    /// The map counts the places that its lists had as they moved.
    fn bytes_as_moved(&self, before: Size) -> u64
        ensures { result ≡ min (16 * self.now.peak + (32 * (min (before.buckets + 32) (2 ^ 64 - 1) / 64)
            + 32 * lists_of self.now)) (2 ^ 64 - 1) }
    {
        let lists = list_bytes(before.buckets) + list_bytes(self.buckets());
        self.peak_places()
            .saturating_mul(ITEM)
            .saturating_add(lists)
    }

    /// The map counts the places of its lists, including the free places and the places of blank lists. No bucket has
    /// a place of its own.
    fn size(&self) -> Size
        ensures entries { result.entries ≡ len_of self.now }
        ensures buckets { result.buckets ≡ buckets_of self.now }
        ensures bytes { result.bytes ≡ min (16 * memory_of self.now + 32 * lists_of self.now) (2 ^ 64 - 1) }
    {
        let buckets = self.buckets();
        let lists = list_bytes(buckets);
        Size {
            entries: self.len(),
            buckets,
            bytes: self.places().saturating_mul(ITEM).saturating_add(lists),
        }
    }
}

impl Measured for HashMap<u64, u64> {
    const NAME: &'static str = "std";

    ghost content = { λ m k. hash_map.get nat_eq m k };

    fn empty(alloc: Global) -> Self {
        HashMap::new(alloc)
    }

    fn set(&mut self, key: u64, value: u64) -> Result<(), AllocError> {
        let _ = self.insert(key, value)?;
        Ok(())
    }

    fn value(&self, key: u64) -> Option<u64> {
        self.get(&key).copied()
    }

    fn take(&mut self, key: u64) -> Option<u64> {
        self.remove(&key)
    }

    /// The lists grow in place.
    fn moves_next(&self) -> bool {
        false
    }

    fn bytes_as_moved(&self, _before: Size) -> u64 {
        self.size().bytes
    }

    /// Each place for an entry takes an item, and 8 bytes for its hash and its place in the index. The index has
    /// groups of 12 buckets in 64 bytes, and gives out 9 places for each group.
    fn size(&self) -> Size {
        let places = self.capacity() as u64;
        let groups = places.div_ceil(9);
        Size {
            entries: self.len() as u64,
            buckets: groups.saturating_mul(12),
            bytes: places
                .saturating_mul(ITEM + 8)
                .saturating_add(groups.saturating_mul(64)),
        }
    }
}
