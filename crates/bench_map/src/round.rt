//! Rounds in which a map is filled, asked and emptied, and the time of its operations.
ghost use Rattle.std.specs.Prelude.{◌≡◌, ℕ, ◌<◌, ◌≤◌, length, count_by, slice_index_or, Some, None, OnOk, nat_eq, ◌+◌};
ghost use Rattle.std.specs.Option.{option_eq};

use crate::keys::Keys;
use crate::measured::{Measured, Size};
use std::alloc::{AllocError, Global};
use std::io;
use std::rt::Clock;
use std::time::{Duration, Instant};

/// The time of all operations of some rounds together.
#[derive(Clone, Copy, Debug, PartialEq, Eq)]
pub struct Times {
    /// The time of the look-ups.
    pub lookups: Duration,
    /// The time of the insertions, each with the room that was made for it.
    pub insertions: Duration,
    /// The time of the removals.
    pub removals: Duration,
}

impl Times {
    const NONE: Times = Times {
        lookups: Duration::ZERO,
        insertions: Duration::ZERO,
        removals: Duration::ZERO,
    };

    /// The sums of these times and `more`.
    fn and(self, more: Times) -> Times {
        Times {
            lookups: self.lookups.saturating_add(more.lookups),
            insertions: self.insertions.saturating_add(more.insertions),
            removals: self.removals.saturating_add(more.removals),
        }
    }
}

/// The results of some rounds of a map.
#[derive(Clone, Copy, Debug, PartialEq, Eq)]
pub struct Rounds {
    /// The size of the map with all keys.
    pub size: Size,
    /// The time of its operations.
    pub times: Times,
}

impl Rounds {
    /// No round of a map.
    fn none<M: Measured>(alloc: Global) -> Rounds {
        Rounds {
            size: M::empty(alloc).size(),
            times: Times::NONE,
        }
    }

    /// The results of these rounds and one more.
    fn and_one<M: Measured>(
        self,
        rt: &(impl AllocGlobal + Clock),
        keys: &Keys,
    ) -> io::Result<Rounds> {
        let (size, took) = round::<M>(rt, keys)?;
        Ok(Rounds {
            size,
            times: self.times.and(took),
        })
    }
}

/// Runs `count` rounds of each of two maps, in turns, so that a cause that slows the machine for a while slows both.
pub fn rounds_in_turns<M: Measured, N: Measured>(
    rt: &(impl AllocGlobal + Clock),
    keys: &Keys,
    count: u32,
) -> io::Result<(Rounds, Rounds)> {
    let mut first = Rounds::none::<M>(rt.alloc());
    let mut second = Rounds::none::<N>(rt.alloc());
    for _ in 0..count {
        first = first.and_one::<M>(rt, keys)?;
        second = second.and_one::<N>(rt, keys)?;
    }
    Ok((first, second))
}

/// The most bytes that a map takes while the keys are set, one after another. If a key makes it move into new lists,
/// the new and the old lists are there at once.
pub fn peak<M: Measured>(alloc: Global, keys: &[u64]) -> Result<u64, AllocError> {
    let mut map = M::empty(alloc);
    let mut most = 0;
    for key in keys {
        most = most.max(bytes_while_set(&mut map, *key)?);
    }
    Ok(most.max(map.size().bytes))
}

/// Sets a key. Gives the bytes of old and new lists together if the key makes the map move, and otherwise 0.
fn bytes_while_set<M: Measured>(map: &mut M, key: u64) -> Result<u64, AllocError> {
    if !map.moves_next() {
        map.set(key, key)?;
        return Ok(0);
    }
    let before = map.size();
    map.set(key, key)?;
    Ok(map.bytes_as_moved(before))
}

/// Makes a map of the keys, looks each key up and takes each key out.
fn round<M: Measured>(rt: &(impl AllocGlobal + Clock), keys: &Keys) -> io::Result<(Size, Times)> {
    let mut map = M::empty(rt.alloc());

    let start = Instant::now(rt)?;
    fill(&mut map, keys.inserted.as_slice())?;
    let insertions = start.elapsed(rt)?;
    let size = map.size();

    let start = Instant::now(rt)?;
    let found = count_found(&map, keys.asked.as_slice());
    let lookups = start.elapsed(rt)?;

    let start = Instant::now(rt)?;
    let taken = take_all(&mut map, keys.asked.as_slice());
    let removals = start.elapsed(rt)?;

    // The counts are looked at, so that no compiler leaves the work out.
    if found != keys.asked.len() || taken != keys.asked.len() {
        return Err(io::Error::other("a map lost a key"));
    }
    Ok((
        size,
        Times {
            lookups,
            insertions,
            removals,
        },
    ))
}

/// Sets each key, with itself as its value.
fn fill<M: Measured>(map: &mut M, keys: &[u64]) -> Result<(), AllocError>
    ensures { OnOk result ((i : ℕ) → i < length keys.now
        → M.content map.new (slice_index_or keys.now i 0) ≡ Some (slice_index_or keys.now i 0)) }
{
    for key in keys {
        map.set(*key, *key)?;
    }
    Ok(())
}

/// How many of the keys have themselves as their value.
fn count_found<M: Measured>(map: &M, keys: &[u64]) -> usize
    ensures { result ≡ count_by (λ key. option_eq nat_eq (M.content map.now key) (Some key)) keys.now }
{
    keys.iter()
        .filter(|key| map.value(**key) == Some(**key))
        .count()
}

/// Takes each key out, and gives how many had themselves as their value.
fn take_all<M: Measured>(map: &mut M, keys: &[u64]) -> usize
    ensures taken { (i : ℕ) → i < length keys.now → M.content map.new (slice_index_or keys.now i 0) ≡ None }
    ensures count { result ≤ length keys.now }
{
    let mut taken = 0;
    for key in keys {
        if map.take(*key) == Some(*key) {
            taken += 1;
        }
    }
    taken
}
