//! Worked examples, and each public call on its happy path.

use crate::SparseMap;
use crate::home::home_of;
use std::alloc::{AllocError, Global};
use std::process::Abort;
use std::test::Fail;

/// Makes room for a few keys in a map of few keys.
fn make_room(map: &mut SparseMap<u64>, n: u32) -> Result<(), AllocError> {
    if map.len() > 1000 || n > 1000 {
        return Ok(());
    }
    map.reserve(n)
}

/// Puts a key into a map of few keys.
fn put(map: &mut SparseMap<u64>, key: u64, value: u64) -> Result<Option<u64>, AllocError> {
    if map.len() > 1000 {
        return Ok(None);
    }
    map.reserve(1)?;
    Ok(map.insert_ready(key, value))
}

/// Puts the keys from `from` up to `to` into the map, each with itself and 100 more as its value.
fn fill(map: &mut SparseMap<u64>, from: u64, to: u64) -> Result<(), AllocError> {
    for key in from..to {
        put(map, key, key.wrapping_add(100))?;
    }
    Ok(())
}

/// Checks the value of a key.
fn holds(rt: &impl Abort, map: &SparseMap<u64>, key: u64, value: Option<u64>) {
    assert_eq!(rt; map.get(key).copied(), value, "at key {key}");
}

/// Checks the occupancy number and the items of the first group.
fn first_group(rt: &impl Abort, map: &SparseMap<u64>, bits: u32, items: &[(u64, u64)]) {
    assert!(rt; map.groups() > 0);
    let (found_bits, found_items) = map.group_at(0);
    assert_eq!(rt; found_bits, bits);
    assert_eq!(rt; found_items, items);
}

/// A map with three keys whose home is the last bucket.
fn three_at_the_end(alloc: Global) -> Result<SparseMap<u64>, AllocError> {
    let mut map = SparseMap::new(alloc);
    map.reserve(3)?;
    put(&mut map, 21, 210)?;
    put(&mut map, 55, 550)?;
    put(&mut map, 144, 1440)?;
    Ok(map)
}

#[test]
fn homes_in_32_buckets(rt: HostRuntime) {
    let homes = [0, 1, 2, 3, 4, 5, 8, 21, 55, 144].map(|key| home_of(5, key));
    assert_eq!(rt; homes, [0, 19, 7, 27, 15, 2, 30, 31, 31, 31]);
}

#[test]
fn keys_with_one_home_go_round_the_end(rt: HostRuntime) -> Result<(), Fail> {
    let mut map = three_at_the_end(rt.alloc())?;
    assert_eq!(rt; map.buckets(), 32);
    first_group(
        &rt,
        &map,
        0x8000_0003,
        [(55, 550), (144, 1440), (21, 210)].as_slice(),
    );
    assert_eq!(rt; map.remove(21), Some(210));
    first_group(&rt, &map, 0x8000_0001, [(144, 1440), (55, 550)].as_slice());
    holds(&rt, &map, 55, Some(550));
    holds(&rt, &map, 144, Some(1440));
    holds(&rt, &map, 21, None);
    assert_eq!(rt; map.len(), 2);
    Ok(())
}

#[test]
fn a_value_is_replaced(rt: HostRuntime) -> Result<(), Fail> {
    let mut map = three_at_the_end(rt.alloc())?;
    assert!(rt; !map.is_empty() && map.spare() < 32);
    assert_eq!(rt; put(&mut map, 144, 7)?, Some(1440));
    assert_eq!(rt; put(&mut map, 55, 9)?, Some(550));
    first_group(
        &rt,
        &map,
        0x8000_0003,
        [(55, 9), (144, 7), (21, 210)].as_slice(),
    );
    Ok(())
}

#[test]
fn a_quarter_of_the_buckets_stays_free(rt: HostRuntime) -> Result<(), Fail> {
    let mut map = SparseMap::new(rt.alloc());
    fill(&mut map, 0, 23)?;
    make_room(&mut map, 1)?;
    assert_eq!(rt; map.buckets(), 32);
    fill(&mut map, 23, 24)?;
    make_room(&mut map, 1)?;
    assert_eq!(rt; map.buckets(), 64);
    Ok(())
}

/// A map with the keys 1 and 3 in 64 buckets, put in with or without a reservation before each, and then 128 buckets.
fn doubled(alloc: Global, reserved: bool) -> Result<SparseMap<u64>, AllocError> {
    let mut map = SparseMap::new(alloc);
    make_room(&mut map, 30)?;
    for key in [1, 3] {
        if reserved {
            make_room(&mut map, 1)?;
        }
        if map.spare() > 0 {
            let _ = map.insert_ready(key, 10 * key);
        }
    }
    make_room(&mut map, 60)?;
    Ok(map)
}

#[test]
fn a_doubling_hands_a_list_on(rt: HostRuntime) -> Result<(), Fail> {
    let map = doubled(rt.alloc(), true)?;
    assert_eq!(rt; map.buckets(), 128);
    // The list of five places belongs to the second group, for which a new list would have three. Two blank lists have
    // 64 each.
    assert_eq!(rt; map.places(), 1 + 5 + 128);
    // It was there only once, and so was the one blank list before.
    assert_eq!(rt; map.peak_places(), 5 + 64 + 1 + 128);
    holds(&rt, &map, 1, Some(10));
    holds(&rt, &map, 3, Some(30));
    Ok(())
}

#[test]
fn a_doubling_leaves_a_list_with_too_many_free_places(rt: HostRuntime) -> Result<(), Fail> {
    let map = doubled(rt.alloc(), false)?;
    assert_eq!(rt; map.buckets(), 128);
    // The second key went into the blank list, which has 62 free places.
    assert_eq!(rt; map.places(), 1 + 3 + 128);
    assert_eq!(rt; map.peak_places(), 64 + 1 + 3 + 128);
    holds(&rt, &map, 1, Some(10));
    holds(&rt, &map, 3, Some(30));
    Ok(())
}

/// How many buckets and places a map has with the keys below `to`, put in one after another.
fn places_below(alloc: Global, to: u64) -> Result<[u64; 2], AllocError> {
    let mut map = SparseMap::new(alloc);
    fill(&mut map, 0, to)?;
    Ok([map.buckets(), map.places()])
}

#[test]
fn a_full_list_grows_by_eight_where_the_lists_may_have_them(rt: HostRuntime) -> Result<(), Fail> {
    let alloc = rt.alloc();
    // One list alone grows by four.
    assert_eq!(rt; places_below(alloc, 45)?, [64, 45]);
    assert_eq!(rt; places_below(alloc, 46)?, [64, 49]);
    // Of two lists each is made with one free place, and both grow by eight.
    assert_eq!(rt; places_below(alloc, 49)?, [128, 50]);
    assert_eq!(rt; places_below(alloc, 51)?, [128, 66]);
    // A list of 42 gets 48 places, and one of 48 grows by four.
    assert_eq!(rt; places_below(alloc, 82)?, [128, 90]);
    assert_eq!(rt; places_below(alloc, 83)?, [128, 96]);
    assert_eq!(rt; places_below(alloc, 95)?, [128, 100]);
    Ok(())
}

#[test]
fn many_keys_are_found_through_doublings_and_removals(rt: HostRuntime) -> Result<(), Fail> {
    let mut map = SparseMap::new(rt.alloc());
    fill(&mut map, 0, 200)?;
    assert_eq!(rt; map.buckets(), 512);
    for key in 0..100 {
        assert_eq!(rt; map.remove(2 * key), Some(2 * key + 100));
    }
    for key in 0..100 {
        holds(&rt, &map, 2 * key, None);
        holds(&rt, &map, 2 * key + 1, Some(2 * key + 101));
    }
    Ok(())
}

/// A key after `key`, far from it.
fn far_key(key: u64) -> u64 {
    key.wrapping_mul(6_364_136_223_846_793_005)
        .wrapping_add(1_442_695_040_888_963_407)
}

/// How many keys lie in the group of their home among 1,024 buckets, and how many items all groups have.
fn keys_at_home(map: &SparseMap<u64>) -> (usize, usize) {
    let mut at_home = 0usize;
    let mut all = 0usize;
    for i in 0..map.groups() {
        let (_, items) = map.group_at(i);
        let here = items.iter().filter(|item| home_of(10, item.0) / 32 == i);
        at_home = at_home.saturating_add(here.count());
        all = all.saturating_add(items.len());
    }
    (at_home, all)
}

#[test]
fn most_keys_of_a_full_map_lie_in_the_group_of_their_home(rt: HostRuntime) -> Result<(), Fail> {
    let mut map = SparseMap::new(rt.alloc());
    map.reserve(768)?;
    let mut key = 0;
    for _ in 0..768 {
        key = far_key(key);
        put(&mut map, key, key)?;
    }
    assert_eq!(rt; [map.len(), map.buckets()], [768, 1024]);
    // A look-up of the other 38 goes on into the next group.
    assert_eq!(rt; keys_at_home(&map), (730, 768));
    Ok(())
}

/// Takes the keys from `from` up to `to` out of the map.
fn clear(map: &mut SparseMap<u64>, from: u64, to: u64) {
    for key in from..to {
        let _ = map.remove(key);
    }
}

#[test]
fn all_lists_are_trimmed_after_more_removals_than_lists(rt: HostRuntime) -> Result<(), Fail> {
    let mut map = SparseMap::new(rt.alloc());
    fill(&mut map, 0, 100)?;
    let full = map.places();
    clear(&mut map, 0, 60);
    assert_eq!(rt; map.places(), full);
    make_room(&mut map, 1)?;
    // Four lists with 40 items, and four free places each.
    assert_eq!(rt; [map.buckets(), map.places()], [256, 40 + 4 * 4]);
    for key in 100..1000 {
        clear(&mut map, key - 40, key - 39);
        put(&mut map, key, key)?;
    }
    make_room(&mut map, 1)?;
    // However long this goes on, at most four places for each 32 buckets stay free, and one for each list.
    assert!(rt; map.len() == 40 && map.places() <= 40 + 8 * 4 + 4);
    Ok(())
}
