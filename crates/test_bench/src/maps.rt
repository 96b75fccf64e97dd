//! Each map once, through the trait: a thousand keys, and the size of the map with them; and a row of each table.
use crate::clock::Slowing;
use bench_map::churn::churn_in_turns;
use bench_map::keys::Keys;
use bench_map::measured::Size;
use bench_map::round::{Times, peak, rounds_in_turns};
use bench_map::row::{Row, churn_line};
use sparse_map::SparseMap;
use std::collections::HashMap;
use std::mem::size_of;
use std::test::Fail;
use std::time::Duration;

#[test]
fn each_map_finds_and_loses_a_thousand_keys(rt: HostRuntime) -> Result<(), Fail> {
    let keys = Keys::new(rt.alloc(), 1_000)?;
    let (first, second) = rounds_in_turns::<SparseMap<u64>, HashMap<u64, u64>>(&rt, &keys, 2)?;
    let sparse = Size {
        entries: 1_000,
        buckets: 2_048,
        bytes: 20_400,
    };
    assert_eq!(rt; first.size, sparse);
    let dense = Size {
        entries: 1_000,
        buckets: 1_536,
        bytes: 35_840,
    };
    assert_eq!(rt; second.size, dense);
    Ok(())
}

#[test]
fn an_item_takes_16_bytes_and_a_list_has_a_header_of_24(rt: HostRuntime) {
    assert_eq!(rt; size_of::<(u64, u64)>(), 16);
    assert_eq!(rt; size_of::<Vec<(u64, u64)>>(), 24);
}

#[test]
fn a_row_has_means_for_each_entry_and_operation(rt: HostRuntime) -> Result<(), Fail> {
    let row = Row {
        name: "sparse",
        size: Size {
            entries: 1_000,
            buckets: 2_048,
            bytes: 19_712,
        },
        peak: 23_840,
        times: Times {
            lookups: Duration::from_millis(1),
            insertions: Duration::from_millis(20),
            removals: Duration::from_micros(4_260),
        },
        rounds: 100,
    };
    let line = row.line(rt.alloc())?;
    let wanted =
        "sparse     1000     2048        19.7       23.8       10.0        200.0       42.6";
    assert_eq!(rt; line.as_str(), wanted);
    Ok(())
}

#[test]
fn each_round_adds_the_time_of_each_operation(rt: HostRuntime) -> Result<(), Fail> {
    let clock = Slowing::after(0);
    let keys = Keys::new(rt.alloc(), 10)?;
    let shown = rounds_in_turns::<SparseMap<u64>, HashMap<u64, u64>>(
        &(clock, rt.alloc()),
        &keys,
        2,
    )?;
    // Between the two readings of a measurement there are 1, 3 and 5 milliseconds in the first round of the first
    // map. In the first round of the second map there are 7, 9 and 11. In the next rounds there are 13, 15 and 17,
    // and 19, 21 and 23.
    let sparse = Times {
        insertions: Duration::from_millis(14),
        lookups: Duration::from_millis(18),
        removals: Duration::from_millis(22),
    };
    let dense = Times {
        insertions: Duration::from_millis(26),
        lookups: Duration::from_millis(30),
        removals: Duration::from_millis(34),
    };
    assert_eq!(rt; (shown.0.times, shown.1.times), (sparse, dense));
    Ok(())
}

#[test]
fn a_map_is_largest_as_it_moves(rt: HostRuntime) -> Result<(), Fail> {
    let keys = Keys::new(rt.alloc(), 1_000)?;
    let peak = peak::<SparseMap<u64>>(rt.alloc(), keys.inserted.as_slice())?;
    assert!(rt; peak > 22_000 && peak <= 25_000, "{peak}");
    Ok(())
}

#[test]
fn a_map_keeps_its_size_while_entries_come_and_go(rt: HostRuntime) -> Result<(), Fail> {
    let (mut churned, dense) = churn_in_turns::<SparseMap<u64>, HashMap<u64, u64>>(&rt, 100, 250)?;
    assert_eq!(rt; [churned.size.entries, churned.size.buckets], [100, 256]);
    assert_eq!(rt; [dense.size.entries, u64::from(dense.steps)], [100, 250]);
    churned.time = Duration::from_micros(25);
    let row = churn_line(rt.alloc(), "sparse", &churned)?;
    assert!(rt; row.as_str().ends_with("      100.0"));
    Ok(())
}
