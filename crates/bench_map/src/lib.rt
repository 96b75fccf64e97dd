//! The sparse map beside std's hash map. It measures bytes for each entry, the time of a look-up, an insertion and a
//! removal, and the time of a step. In a step an old address goes and a new one comes.
//!
//! A round makes a map of some entries, looks each of them up and takes each of them out. The two maps have their
//! rounds in turns, and the time of one operation is the mean over all rounds of its map. So insertions and removals
//! happen at every size from no entry to all entries, and insertions pay for the growth of the map. Bytes are counted
//! with all entries in the map, and at the peak of its filling, when it moves into longer lists.
#![tactic(auto)]

pub mod churn;
pub mod keys;
pub mod measured;
pub mod round;
pub mod row;

use churn::churn_in_turns;
use keys::Keys;
use measured::Measured;
use round::{Rounds, peak, rounds_in_turns};
use row::{Row, print_churn, print_churn_head, print_head};
use sparse_map::SparseMap;
use std::collections::HashMap;
use std::io;
use std::rt::Clock;

/// The numbers of entries. Each has the number of rounds with which there are three million operations of each kind.
const SIZES: [(u32, u32); 3] = [(1_000, 3_000), (100_000, 30), (1_000_000, 3)];

/// The addresses of a map whose entries come and go, and how many come.
const ADDRESSES: u32 = 4_000;

const STEPS: u32 = 1_000_000;

/// Prints a row for each map at each number of entries, and a row for each map whose entries come and go.
pub fn measure(rt: &(impl AllocGlobal + Clock + Print)) -> io::Result<()> {
    print_head(rt)?;
    for (entries, count) in SIZES {
        let keys = Keys::new(rt.alloc(), entries)?;
        let (sparse, dense) = rounds_in_turns::<SparseMap<u64>, HashMap<u64, u64>>(
            rt, &keys, count,
        )?;
        print_row::<SparseMap<u64>>(rt, &keys, count, sparse)?;
        print_row::<HashMap<u64, u64>>(rt, &keys, count, dense)?;
    }
    print_churn_head(rt)?;
    let (sparse, dense) = churn_in_turns::<SparseMap<u64>, HashMap<u64, u64>>(
        rt, ADDRESSES, STEPS,
    )?;
    print_churn(rt, <SparseMap<u64> as Measured>::NAME, &sparse)?;
    print_churn(rt, <HashMap<u64, u64> as Measured>::NAME, &dense)
}

/// Prints the row of one map, of which `count` rounds had these results.
fn print_row<M: Measured>(
    rt: &(impl AllocGlobal + Print),
    keys: &Keys,
    count: u32,
    shown: Rounds,
) -> io::Result<()> {
    let row = Row {
        name: M::NAME,
        size: shown.size,
        peak: peak::<M>(rt.alloc(), keys.inserted.as_slice())?,
        times: shown.times,
        rounds: count,
    };
    let row = row.line(rt.alloc())?;
    println!(rt; "{row}")
}
