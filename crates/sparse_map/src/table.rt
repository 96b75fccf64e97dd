//! The buckets of all groups as one table: bucket b is bucket b % 64 of group b / 64.
ghost use Rattle.std.specs.Prelude.{◌≡◌, ◌≢◌, ℕ, ◌+◌, ◌*◌, ◌%◌, ◌^◌, ◌<◌, ◌≤◌, length, vec_len, Some, None, IfSome, IfOk, MatchOption, is_some, option_map, OnOk, OnErr, is_ok, slice_set, ◌/◌, ◌-◌, ◌⊎◌, ◌==◌, if◌then◌else◌, IsTrue, true, false, min, max};
ghost use Rattle.std.specs.Ordering.{nat_cmp};
ghost use Rattle.std.specs.FinMap.{find};
ghost use Rattle.std.specs.Vec.{vec_capacity};
ghost use Rattle.sparse_map.specs.Slots.{slot_at, key_at, items_of, exchanged};
ghost use Rattle.sparse_map.specs.Home.{buckets_for};
ghost use Rattle.sparse_map.specs.Groups.{slots_in, all_slots, slots_of, IsTable};
ghost use Rattle.sparse_map.specs.Packed.{IsPacked};
ghost use Rattle.sparse_map.specs.Ranks.{IsRankOf, IsRankAt, IsSeated};
ghost use Rattle.sparse_map.specs.Kept.{HasFreeBucket};
ghost use Rattle.sparse_map.specs.Probe.{IsPlaceOf, IsFirstFree, IsShifted};
ghost use Rattle.sparse_map.specs.Removal.{shifted_back};
ghost use Rattle.sparse_map.specs.Trimmed.{MayBeTouched};
ghost use Rattle.sparse_map.specs.Places.{sizes_of, places_of, loose_of, lacking, past_of, most_loose};
ghost use Rattle.sparse_map.specs.Plan.{lens_of, rooms_of, TellsFree};
ghost use Rattle.sparse_map.specs.declared.table.Touched.{Touched};
ghost use Rattle.sparse_map.specs.declared.table.Touched.TheVariants.{Nowhere, In, Anywhere};

use crate::group::{Blank, Group, MORE_SLACK, SLACK};
use crate::home::{bucket_count, home_of, leads_over, next_bucket};
use std::alloc::{AllocError, Global};

/// The bucket that has a key, or the bucket into which it would go.
#[derive(Clone, Copy)]
pub enum Place {
    /// This bucket has the key.
    Found(u64),
    /// No bucket has the key, and this free bucket is the first on its way from home.
    Free(u64),
}

/// Where a look-up ends: a bucket, and its rank, which is the place that its item has or would get in the list of its
/// group. A caller that goes on with the bucket counts nothing again.
#[derive(Clone, Copy)]
pub struct Spot {
    /// The bucket.
    pub at: Place,
    /// How many items of that group stand before the bucket.
    pub rank: u32,
}

/// A bucket and its rank.
#[derive(Clone, Copy)]
pub struct Seat {
    /// Its number in the whole table.
    pub bucket: u64,
    /// How many items of its group stand before it.
    pub rank: u32,
}

/// Which groups may have been touched since their lists were last made to fit. A group is touched when a new key takes
/// the last free place of its list, or its list gives way to a blank one.
#[derive(Clone, Copy)]
pub enum Touched {
    /// No group.
    Nowhere,
    /// No group but the group of this bucket.
    In(u64),
    /// Any group.
    Anywhere,
}

impl Touched {
    /// The same groups after a new key went into a bucket, with the bucket's group if it was touched.
    pub fn with(self, touched: bool, bucket: u64) -> Self
        ensures added { IsTrue touched → MayBeTouched result (bucket / 64) }
        ensures kept { (i : ℕ) → MayBeTouched self i → MayBeTouched result i }
        ensures first { IsTrue touched → self ≡ Nowhere → result ≡ In bucket }
        ensures same { touched ≡ false → result ≡ self }
    {
        // It can't be guessed whether a list became full, so the common case is one choice of two values.
        if let Touched::Nowhere = self {
            return if touched {
                Touched::In(bucket)
            } else {
                Touched::Nowhere
            };
        }
        match self {
            _ if !touched => self,
            Touched::In(last) if last / 64 == bucket / 64 => self,
            _ => Touched::Anywhere,
        }
    }

    /// The bound of the free places beyond a few of all lists that weren't touched, after a new key went into one that
    /// has `left` free places. It is one less if no group was touched and that list had a free place beyond a few. The
    /// largest number bounds nothing, and stays.
    pub fn counted(self, beyond: u64, left: usize) -> u64
        ensures bounds { (before after : ℕ) → min before (2 ^ 64 - 1) ≤ beyond → after ≤ before
            → (self ≡ Nowhere → 4 ≤ left → after + 1 ≤ before) → min after (2 ^ 64 - 1) ≤ result }
        ensures less { self ≡ Nowhere → 4 ≤ left → beyond < 2 ^ 64 - 1 → result ≡ beyond - 1 }
    {
        match self {
            Touched::Nowhere if left >= SLACK && beyond < u64::MAX => beyond.saturating_sub(1),
            _ => beyond,
        }
    }
}

/// The rank of the bucket after an occupied bucket of this rank.
fn next_rank(rank: u32, bucket: u64) -> u32
    requires { rank ≤ 64 }
    ensures { result ≡ (if bucket % 64 == 0 then 0 else rank + 1) }
{
    if bucket % 64 == 0 { 0 } else { rank + 1 }
}

/// The key in a bucket.
fn key_at<V: Drop>(groups: &[Group<V>], bucket: u64, rank: u32) -> Option<u64>
    requires within { bucket < 64 * length groups.now }
    requires rank { IsRankOf groups.now bucket rank }
    ensures { result ≡ key_at (all_slots groups.now) bucket }
{
    groups[(bucket / 64) as usize].key((bucket % 64) as u32, rank)
}

/// The value in an occupied bucket.
pub fn value_at<V: Drop>(groups: &[Group<V>], bucket: u64, rank: u32) -> &V
    requires seat { IsSeated groups.now bucket rank }
    ensures { option_map (λ e. e.1) (slot_at (all_slots groups.now) bucket) ≡ Some result.now }
{
    groups[(bucket / 64) as usize].value((bucket % 64) as u32, rank)
}

/// Makes room for one item in a group that has a free bucket: a full list gives way to a blank one. The answer says
/// whether it did.
fn make_room<V: Drop>(alloc: Global, group: &mut Group<V>, stock: &mut Vec<Blank<V>>) -> bool
    requires below { vec_len group.old.items < 64 }
    requires stocked { vec_len group.old.items ≡ vec_capacity group.old.items → 0 < vec_len stock.old }
    ensures slots { slots_in group.new ≡ slots_in group.old }
    ensures occupied { group.new.occupied ≡ group.old.occupied }
    ensures room { vec_len group.new.items < vec_capacity group.new.items }
    ensures len { vec_len group.new.items ≡ vec_len group.old.items }
    ensures stock_room { vec_capacity stock.new ≡ vec_capacity stock.old }
    ensures widened { ((result ≡ false) × (vec_capacity group.new.items ≡ vec_capacity group.old.items)
        × (vec_len stock.new ≡ vec_len stock.old))
        ⊎ ((result ≡ true) × (vec_len group.old.items ≡ vec_capacity group.old.items) × (vec_capacity group.new.items ≡ 64)
        × (vec_len stock.old ≡ vec_len stock.new + 1)) }
{
    if !group.is_full() {
        return false;
    }
    match stock.pop() {
        Some(blank) => group.move_to(alloc, blank),
        None => unreachable!(),
    }
    true
}

/// How many places of a list count as free. A list that replaced a full one counts as having none.
fn left_in(grew: bool, free: usize) -> usize
    ensures blank { IsTrue grew → result ≡ 0 }
    ensures own { grew ≡ false → result ≡ free }
{
    if grew { 0 } else { free }
}

/// Sets the item of a free bucket. A group whose own list is full gets a blank list. The answer is the number of places
/// of the list that are then free, or 0 if the group took a blank one. After an answer of 0 the group was touched.
pub fn put<V: Drop>(
    alloc: Global,
    groups: &mut [Group<V>],
    stock: &mut Vec<Blank<V>>,
    bucket: u64,
    rank: u32,
    item: (u64, V),
) -> usize
    requires within { bucket < 64 * length groups.old }
    requires free { slot_at (all_slots groups.old) bucket ≡ None }
    requires rank { IsRankOf groups.old bucket rank }
    requires stocked { 0 < lacking 1 Nowhere (sizes_of groups.old) → 0 < vec_len stock.old }
    ensures slots { all_slots groups.new ≡ slice_set (all_slots groups.old) bucket (Some item) }
    ensures one_less { vec_len stock.old ≤ vec_len stock.new + 1 }
    ensures no_more { vec_len stock.new ≤ vec_len stock.old }
    ensures stock_room { vec_capacity stock.new ≡ vec_capacity stock.old }
    ensures fewer_lack { (n : ℕ) → vec_len stock.old + lacking n Nowhere (sizes_of groups.new)
        ≤ vec_len stock.new + lacking (n + 1) Nowhere (sizes_of groups.old) }
    ensures places { places_of (sizes_of groups.new) + 64 * vec_len stock.new ≤ places_of (sizes_of groups.old) + 64 * vec_len stock.old }
    ensures free { TellsFree (lens_of groups.new) (rooms_of groups.old) (rooms_of groups.new) (bucket / 64) result }
    ensures short { past_of (sizes_of groups.new) ≤ past_of (sizes_of groups.old) }
    ensures less { 4 ≤ result → loose_of Nowhere (sizes_of groups.new) + 1 ≤ loose_of Nowhere (sizes_of groups.old) }
    ensures loose { (before after : Touched) → (result ≡ 0 → MayBeTouched after (bucket / 64))
        → ((i : ℕ) → MayBeTouched before i → MayBeTouched after i)
        → loose_of after (sizes_of groups.new) ≤ loose_of before (sizes_of groups.old) }
    ensures ready { (before after : Touched) → (result ≡ 0 → MayBeTouched after (bucket / 64))
        → ((i : ℕ) → MayBeTouched before i → MayBeTouched after i)
        → lacking 1 after (sizes_of groups.new) ≤ lacking 1 before (sizes_of groups.old) }
{
    let group = &mut groups[(bucket / 64) as usize];
    let grew = make_room(alloc, group, stock);
    group.insert((bucket % 64) as u32, rank, item);
    left_in(grew, group.free_places())
}

/// Sets the item of an occupied bucket, and gives the old one.
pub fn replace<V: Drop>(groups: &mut [Group<V>], bucket: u64, rank: u32, item: (u64, V)) -> (u64, V)
    requires seat { IsSeated groups.old bucket rank }
    ensures item { slot_at (all_slots groups.old) bucket ≡ Some result }
    ensures slots { all_slots groups.new ≡ slice_set (all_slots groups.old) bucket (Some item) }
    ensures sizes { sizes_of groups.new ≡ sizes_of groups.old }
{
    groups[(bucket / 64) as usize].replace((bucket % 64) as u32, rank, item)
}

/// Frees an occupied bucket.
fn take<V: Drop>(groups: &mut [Group<V>], bucket: u64, rank: u32) -> (u64, V)
    requires seat { IsSeated groups.old bucket rank }
    ensures item { slot_at (all_slots groups.old) bucket ≡ Some result }
    ensures slots { all_slots groups.new ≡ slice_set (all_slots groups.old) bucket None }
    ensures places { places_of (sizes_of groups.new) ≡ places_of (sizes_of groups.old) }
    ensures short { past_of (sizes_of groups.new) ≤ past_of (sizes_of groups.old) }
    ensures loose { (t : Touched) → loose_of t (sizes_of groups.new) ≤ loose_of t (sizes_of groups.old) + 1 }
    ensures lacking { (n : ℕ) (t : Touched) → lacking n t (sizes_of groups.new) ≤ lacking n t (sizes_of groups.old) }
{
    groups[(bucket / 64) as usize].remove((bucket % 64) as u32, rank)
}

/// Exchanges the items of two occupied buckets of one group.
fn exchange_within<V: Drop>(groups: &mut [Group<V>], a: u64, a_rank: u32, b: u64, b_rank: u32)
    requires a { IsSeated groups.old a a_rank }
    requires b { IsSeated groups.old b b_rank }
    requires together { a / 64 ≡ b / 64 }
    ensures slots { all_slots groups.new ≡ exchanged (all_slots groups.old) a b }
    ensures sizes { sizes_of groups.new ≡ sizes_of groups.old }
{
    groups[(a / 64) as usize].exchange((a % 64) as u32, a_rank, (b % 64) as u32, b_rank);
}

/// Exchanges the items of occupied buckets of two groups.
fn exchange_across<V: Drop>(groups: &mut [Group<V>], a: u64, a_rank: u32, b: u64, b_rank: u32)
    requires a { IsSeated groups.old a a_rank }
    requires b { IsSeated groups.old b b_rank }
    requires apart { a / 64 ≢ b / 64 }
    ensures slots { all_slots groups.new ≡ exchanged (all_slots groups.old) a b }
    ensures sizes { sizes_of groups.new ≡ sizes_of groups.old }
{
    let first = groups[(a / 64) as usize].remove((a % 64) as u32, a_rank);
    let second = groups[(b / 64) as usize].replace((b % 64) as u32, b_rank, first);
    groups[(a / 64) as usize].insert((a % 64) as u32, a_rank, second);
}

/// Exchanges the items of two occupied buckets.
fn exchange<V: Drop>(groups: &mut [Group<V>], a: u64, a_rank: u32, b: u64, b_rank: u32)
    requires a { IsSeated groups.old a a_rank }
    requires b { IsSeated groups.old b b_rank }
    requires apart { a ≢ b }
    ensures slots { all_slots groups.new ≡ exchanged (all_slots groups.old) a b }
    ensures sizes { sizes_of groups.new ≡ sizes_of groups.old }
    ensures occupied { (c : ℕ) → is_some (slot_at (all_slots groups.new) c) ≡ is_some (slot_at (all_slots groups.old) c) }
    ensures ranks { (c place : ℕ) → IsRankOf groups.old c place → IsRankOf groups.new c place }
{
    if a / 64 == b / 64 {
        exchange_within(groups, a, a_rank, b, b_rank);
    } else {
        exchange_across(groups, a, a_rank, b, b_rank);
    }
}

/// The first free bucket from a bucket on, going round. No key is read: the groups' numbers say which buckets are
/// occupied.
pub fn first_free<V: Drop>(groups: &[Group<V>], bits: u32, from: u64) -> Seat
    requires table { HasFreeBucket bits groups.now }
    requires within { from < 2 ^ bits }
    ensures first { IsFirstFree (slots_of (2 ^ bits) groups.now) from result.bucket }
    ensures rank { IsRankOf groups.now result.bucket result.rank }
{
    // While the buckets double most homes are free. A test of the home alone is guessed right, and nothing waits for
    // it.
    let start = &groups[(from / 64) as usize];
    if !start.is_occupied((from % 64) as u32) {
        return Seat {
            bucket: from,
            rank: start.rank_at((from % 64) as u32),
        };
    }
    let buckets = bucket_count(bits);
    let width = buckets.min(64);
    let mut bucket = from;
    let mut passed = 0;
    while passed < buckets {
        let group = &groups[(bucket / 64) as usize];
        let start = bucket - bucket % 64;
        let end = group.run_end((bucket % 64) as u32);
        if u64::from(end) < width {
            return Seat {
                bucket: start + u64::from(end),
                rank: group.rank_at(end),
            };
        }
        passed += width - bucket % 64;
        bucket = next_bucket(buckets, start + width - 1);
    }
    // There are fewer items than buckets, so one round meets a free bucket.
    unreachable!()
}

/// Looks for a key from its home on, going round.
pub fn probe<V: Drop>(groups: &[Group<V>], bits: u32, key: u64) -> Spot
    requires table { HasFreeBucket bits groups.now }
    ensures place { IsPlaceOf (slots_of (2 ^ bits) groups.now) key result.at }
    ensures rank { IsRankAt groups.now result.at result.rank }
{
    let buckets = bucket_count(bits);
    // A table of 32 buckets uses the lower half of its group.
    let width = buckets.min(64);
    let mut bucket = home_of(bits, key);
    let mut passed = 0;
    while passed < buckets {
        let group = &groups[(bucket / 64) as usize];
        let start = bucket - bucket % 64;
        let first = (bucket % 64) as u32;
        let place = group.rank_at(first);
        // Most keys that are in the map stand at home, so this is tested before the end of the run is looked for.
        if group.has_key(first, place, key) {
            return Spot {
                at: Place::Found(bucket),
                rank: place,
            };
        }
        let end = group.run_end(first);
        if let Some(k) = group.find_in_run(first, end, place, key) {
            return Spot {
                at: Place::Found(start + u64::from(k)),
                rank: place + (k - first),
            };
        }
        if u64::from(end) < width {
            return Spot {
                at: Place::Free(start + u64::from(end)),
                rank: place + (end - first),
            };
        }
        passed += width - bucket % 64;
        bucket = next_bucket(buckets, start + width - 1);
    }
    // Some bucket is free, so a run ends within one round.
    unreachable!()
}

/// The bucket of a key, if the key is in the table.
pub fn find<V: Drop>(groups: &[Group<V>], bits: u32, key: u64) -> Option<Seat>
    requires table { 0 < bits → HasFreeBucket bits groups.now }
    ensures found { MatchOption result ((b : ℕ) → key_at (slots_of (buckets_for bits) groups.now) b ≢ Some key)
        (λ seat. key_at (slots_of (buckets_for bits) groups.now) seat.bucket ≡ Some key) }
    ensures rank { IfSome result (λ seat. IsRankOf groups.now seat.bucket seat.rank) }
{
    if bits == 0 {
        return None;
    }
    let spot = probe(groups, bits, key);
    match spot.at {
        Place::Found(bucket) => Some(Seat {
            bucket,
            rank: spot.rank,
        }),
        Place::Free(_) => None,
    }
}

/// Moves an item that is to be removed to a bucket that can be freed, so that each other item stays reachable from its
/// home. An item further on whose way from home leads over the hole takes its place. Gives the last such bucket, and
/// its rank.
fn shift_back<V: Drop>(groups: &mut [Group<V>], bits: u32, bucket: u64, rank: u32) -> (u64, u32)
    requires table { HasFreeBucket bits groups.old }
    requires seat { IsSeated groups.old bucket rank }
    ensures shifted { IsShifted (slots_of (2 ^ bits) groups.old) (slots_of (2 ^ bits) groups.new) bucket result.0 }
    ensures rank { IsRankOf groups.new result.0 result.1 }
    ensures walk { slice_set (slots_of (2 ^ bits) groups.new) result.0 None ≡ shifted_back (2 ^ bits) (2 ^ bits - 1) bucket bucket
        (slice_set (slots_of (2 ^ bits) groups.old) bucket None) }
    ensures table { IsTable (2 ^ bits) groups.new }
    ensures sizes { sizes_of groups.new ≡ sizes_of groups.old }
{
    let buckets = bucket_count(bits);
    let mut hole = bucket;
    let mut hole_rank = rank;
    let mut at = bucket;
    let mut at_rank = rank;
    for _step in 1..buckets {
        at = next_bucket(buckets, at);
        at_rank = next_rank(at_rank, at);
        match key_at(groups, at, at_rank) {
            None => return (hole, hole_rank),
            Some(key) => {
                if leads_over(bits, key, hole, at) {
                    exchange(groups, hole, hole_rank, at, at_rank);
                    hole = at;
                    hole_rank = at_rank;
                }
            }
        }
    }
    (hole, hole_rank)
}

/// Takes the item of an occupied bucket out of the table.
pub fn remove_at<V: Drop>(groups: &mut [Group<V>], bits: u32, bucket: u64, rank: u32) -> (u64, V)
    requires table { HasFreeBucket bits groups.old }
    requires seat { IsSeated groups.old bucket rank }
    ensures item { slot_at (slots_of (2 ^ bits) groups.old) bucket ≡ Some result }
    ensures found { (key : ℕ) → find nat_cmp key (items_of (slots_of (2 ^ bits) groups.new))
        ≡ (if key == result.0 then None else find nat_cmp key (items_of (slots_of (2 ^ bits) groups.old))) }
    ensures count { length (items_of (slots_of (2 ^ bits) groups.new)) + 1 ≡ length (items_of (slots_of (2 ^ bits) groups.old)) }
    ensures packed { IsPacked (slots_of (2 ^ bits) groups.new) }
    ensures table { IsTable (2 ^ bits) groups.new }
    ensures walk { slots_of (2 ^ bits) groups.new ≡ shifted_back (2 ^ bits) (2 ^ bits - 1) bucket bucket
        (slice_set (slots_of (2 ^ bits) groups.old) bucket None) }
    ensures places { places_of (sizes_of groups.new) ≡ places_of (sizes_of groups.old) }
    ensures short { past_of (sizes_of groups.new) ≤ past_of (sizes_of groups.old) }
    ensures loose { (t : Touched) → loose_of t (sizes_of groups.new) ≤ loose_of t (sizes_of groups.old) + 1 }
    ensures lacking { (n : ℕ) (t : Touched) → lacking n t (sizes_of groups.new) ≤ lacking n t (sizes_of groups.old) }
{
    let (hole, hole_rank) = shift_back(groups, bits, bucket, rank);
    take(groups, hole, hole_rank)
}

/// Gives back the memory that the groups' lists have beyond their items and a few places. It fails at the first list
/// for which there is no memory.
fn trim_all<V: Drop>(groups: &mut [Group<V>]) -> Result<(), AllocError>
    ensures slots { all_slots groups.new ≡ all_slots groups.old }
    ensures fewer { places_of (sizes_of groups.new) ≤ places_of (sizes_of groups.old) }
    ensures short { past_of (sizes_of groups.new) ≤ past_of (sizes_of groups.old) }
    ensures loose { (t : Touched) → loose_of t (sizes_of groups.new) ≤ loose_of t (sizes_of groups.old) }
    ensures lacking { (t : Touched) → lacking 1 t (sizes_of groups.new) ≤ lacking 1 t (sizes_of groups.old) }
    ensures none_loose { OnOk result (loose_of Nowhere (sizes_of groups.new) ≡ 0) }
{
    for group in groups.iter_mut() {
        group.trim()?;
    }
    Ok(())
}

/// Gives each group whose list is full, with fewer than 64 items, a slightly longer list. It fails at the first list
/// for which there is no memory.
fn grow_all<V: Drop>(alloc: Global, groups: &mut [Group<V>]) -> Result<(), AllocError>
    ensures slots { all_slots groups.new ≡ all_slots groups.old }
    ensures short { past_of (sizes_of groups.new) ≤ past_of (sizes_of groups.old) }
    ensures loose { (t : Touched) → loose_of t (sizes_of groups.new) ≤ loose_of t (sizes_of groups.old) }
    ensures lacking { (t : Touched) → lacking 1 t (sizes_of groups.new) ≤ lacking 1 t (sizes_of groups.old) }
    ensures none_lacks { OnOk result (lacking 1 Nowhere (sizes_of groups.new) ≡ 0) }
{
    for group in groups.iter_mut() {
        group.grow(alloc, SLACK)?;
    }
    Ok(())
}

/// Makes the list of the group of a bucket fit, with at most `more` more places if it is full. The answer is the number
/// of free places beyond a few that it then has.
fn fit_one<V: Drop>(
    alloc: Global,
    groups: &mut [Group<V>],
    bucket: u64,
    more: usize,
) -> Result<usize, AllocError>
    requires { 4 ≤ more }
    ensures slots { all_slots groups.new ≡ all_slots groups.old }
    ensures few { IfOk result (λ n. n + 4 ≤ more) }
    ensures short { past_of (sizes_of groups.new) ≤ past_of (sizes_of groups.old) }
    ensures loose { loose_of (In bucket) (sizes_of groups.new) ≤ loose_of (In bucket) (sizes_of groups.old) }
    ensures lacking { (t : Touched) → lacking 1 t (sizes_of groups.new) ≤ lacking 1 t (sizes_of groups.old) }
    ensures not_loose { IfOk result (λ n. loose_of Nowhere (sizes_of groups.new) ≤ loose_of (In bucket) (sizes_of groups.old) + n) }
    ensures not_lacking { OnOk result (lacking 1 Nowhere (sizes_of groups.new) ≤ lacking 1 (In bucket) (sizes_of groups.old)) }
    ensures err { OnErr result (places_of (sizes_of groups.new) ≤ places_of (sizes_of groups.old)) }
{
    let i = (bucket / 64) as usize;
    if i >= groups.len() {
        return Ok(0);
    }
    groups[i].fit(alloc, more)
}

/// Makes the lists of all groups fit. The answer says whether each list has a free place, or places for a whole group:
/// a full list stays full if its memory fails. On `Err`, when memory fails for a shorter list, no list got longer.
fn fit_all<V: Drop>(alloc: Global, groups: &mut [Group<V>]) -> Result<bool, AllocError>
    ensures slots { all_slots groups.new ≡ all_slots groups.old }
    ensures short { past_of (sizes_of groups.new) ≤ past_of (sizes_of groups.old) }
    ensures loose { (t : Touched) → loose_of t (sizes_of groups.new) ≤ loose_of t (sizes_of groups.old) }
    ensures lacking { (t : Touched) → lacking 1 t (sizes_of groups.new) ≤ lacking 1 t (sizes_of groups.old) }
    ensures none_loose { OnOk result (loose_of Nowhere (sizes_of groups.new) ≡ 0) }
    ensures none_lacks { IfOk result (λ all. IsTrue all → lacking 1 Nowhere (sizes_of groups.new) ≡ 0) }
    ensures err { OnErr result (places_of (sizes_of groups.new) ≤ places_of (sizes_of groups.old)) }
{
    trim_all(groups)?;
    Ok(grow_all(alloc, groups).is_ok())
}

/// By how many places a full list grows at most. It is eight if four more free places beyond a few leave the lists with
/// at most eight of them for each two lists; else it is four.
fn places_more(beyond: u64, lists: usize) -> usize
    requires small { lists < 2 ^ 32 }
    ensures { ((result ≡ 8) × (beyond + 4 ≤ 8 * (lists / 2))) ⊎ ((result ≡ 4) × (8 * (lists / 2) < beyond + 4)) }
{
    let room = (2 * SLACK * (lists / 2)) as u64;
    if beyond.saturating_add((MORE_SLACK - SLACK) as u64) <= room {
        MORE_SLACK
    } else {
        SLACK
    }
}

/// How many free places beyond a few this many untouched lists may have, all together, before all are trimmed. They are
/// the places by which full lists grow, and one more for each list. After a trim only removals can pass this number,
/// and it takes more of them than there are lists. So each removal pays for one list.
pub fn most_beyond(lists: usize) -> u64
    requires { lists < 2 ^ 32 }
    ensures { result ≡ most_loose lists }
{
    (2 * SLACK * (lists / 2) + lists) as u64
}

/// Trims all lists if the untouched ones may have more free places than `most_beyond`, and then counts from 0. On
/// `Err`, when memory fails, the lists have at most as many places as before, and the count stays.
fn trim_due<V: Drop>(groups: &mut [Group<V>], beyond: &mut u64) -> Result<(), AllocError>
    requires small { length groups.old < 2 ^ 32 }
    ensures slots { all_slots groups.new ≡ all_slots groups.old }
    ensures fewer { places_of (sizes_of groups.new) ≤ places_of (sizes_of groups.old) }
    ensures short { past_of (sizes_of groups.new) ≤ past_of (sizes_of groups.old) }
    ensures loose { (t : Touched) → loose_of t (sizes_of groups.new) ≤ loose_of t (sizes_of groups.old) }
    ensures lacking { (t : Touched) → lacking 1 t (sizes_of groups.new) ≤ lacking 1 t (sizes_of groups.old) }
    ensures counted { (t : Touched) → min (loose_of t (sizes_of groups.old)) (2 ^ 64 - 1) ≤ beyond.old
        → min (loose_of t (sizes_of groups.new)) (2 ^ 64 - 1) ≤ beyond.new }
    ensures kept { beyond.old ≤ most_loose (length groups.old)
        → (sizes_of groups.new ≡ sizes_of groups.old) × (beyond.new ≡ beyond.old) }
    ensures trimmed { most_loose (length groups.old) < beyond.old
        → OnOk result ((loose_of Nowhere (sizes_of groups.new) ≡ 0) × (beyond.new ≡ 0)) }
    ensures few { OnOk result (beyond.new ≤ most_loose (length groups.old)) }
{
    if *beyond <= most_beyond(groups.len()) {
        return Ok(());
    }
    trim_all(groups)?;
    *beyond = 0;
    Ok(())
}

/// Makes the lists that may have been touched fit, and keeps `beyond` a bound of the free places beyond a few of the
/// untouched ones. If `beyond` got too large, all lists are trimmed. If `touched` is `Anywhere`, and memory fails for a
/// full list, it stays `Anywhere`. On `Err`, when memory fails, the lists have together at most as many places as
/// before.
pub fn fit_touched<V: Drop>(
    alloc: Global,
    groups: &mut [Group<V>],
    touched: &mut Touched,
    beyond: &mut u64,
) -> Result<(), AllocError>
    requires small { length groups.old < 2 ^ 32 }
    requires counted { min (loose_of touched.old (sizes_of groups.old)) (2 ^ 64 - 1) ≤ beyond.old }
    ensures slots { all_slots groups.new ≡ all_slots groups.old }
    ensures counted { min (loose_of touched.new (sizes_of groups.new)) (2 ^ 64 - 1) ≤ beyond.new }
    ensures loose { loose_of touched.new (sizes_of groups.new)
        ≤ max (loose_of touched.old (sizes_of groups.old)) (8 * (length groups.old / 2)) }
    ensures few { OnOk result (beyond.new ≤ most_loose (length groups.old)) }
    ensures short { past_of (sizes_of groups.new) ≤ past_of (sizes_of groups.old) }
    ensures ready { lacking 1 touched.new (sizes_of groups.new) ≤ lacking 1 touched.old (sizes_of groups.old) }
    ensures lacking { lacking 1 Nowhere (sizes_of groups.new) ≤ lacking 1 Nowhere (sizes_of groups.old) }
    ensures none_loose { OnOk result (loose_of Nowhere (sizes_of groups.new) ≤ loose_of touched.new (sizes_of groups.new)) }
    ensures settled { OnOk result (touched.old ≢ Anywhere → touched.new ≡ Nowhere) }
    ensures err { OnErr result (places_of (sizes_of groups.new) ≤ places_of (sizes_of groups.old)) }
{
    match *touched {
        Touched::Nowhere => trim_due(groups, beyond)?,
        Touched::In(bucket) => {
            trim_due(groups, beyond)?;
            let more = places_more(*beyond, groups.len());
            let here = fit_one(alloc, groups, bucket, more)?;
            *beyond = beyond.saturating_add(here as u64);
        }
        Touched::Anywhere => {
            let all = fit_all(alloc, groups)?;
            *beyond = 0;
            if !all {
                return Ok(());
            }
        }
    }
    *touched = Touched::Nowhere;
    Ok(())
}

/// How many blank lists are kept for this many new keys: none for a single one, unless any list may be full.
pub fn blanks_for(touched: Touched, spare: u64, groups: u64) -> u64
    ensures few { result ≤ min spare groups }
    ensures one { spare ≤ 1 → touched ≢ Anywhere → result ≡ 0 }
    ensures enough { (min spare groups ≤ result) ⊎ ((spare ≤ 1) × (touched ≢ Anywhere)) }
{
    match touched {
        Touched::Nowhere | Touched::In(_) if spare <= 1 => 0,
        _ => spare.min(groups),
    }
}

/// How many free places beyond a few the lists of all groups have. The count ends at 2^64 - 1.
pub fn beyond_of<V: Drop>(groups: &[Group<V>]) -> u64
    ensures { result ≡ min (loose_of Nowhere (sizes_of groups.now)) (2 ^ 64 - 1) }
{
    let mut beyond = 0u64;
    for group in groups {
        beyond = beyond.saturating_add(group.beyond_few() as u64);
    }
    beyond
}

/// How many places the lists of all groups have, free ones included. The count ends at 2^64 - 1.
pub fn places_of<V: Drop>(groups: &[Group<V>]) -> u64
    ensures { result ≡ min (places_of (sizes_of groups.now)) (2 ^ 64 - 1) }
{
    let mut places = 0u64;
    for group in groups {
        places = places.saturating_add(group.items.capacity() as u64);
    }
    places
}
