//! How many items each group of a wider table gets, and which groups take over an old list. All is counted before any
//! item moves, so that the new lists fit.
ghost use Rattle.std.specs.Prelude.{◌≡◌, ℕ, ◌+◌, ◌-◌, ◌*◌, ◌/◌, ◌^◌, ◌<◌, ◌≤◌, ◌⊎◌, ◌↔◌, true, false, Some, None, length, vec_len, replicate, IfOk, IfSome, IsTrue, slice_index_or};
ghost use Rattle.std.specs.Vec.{vec_capacity};
ghost use Rattle.sparse_map.specs.Home.{home, IsTableSize};
ghost use Rattle.sparse_map.specs.Groups.{lists_for};
ghost use Rattle.sparse_map.specs.Moved.{items_in};
ghost use Rattle.sparse_map.specs.Plan.{first_unmarked, planned, with_key, with_items, blank_plan, rooms_of, CanCount};
ghost use Rattle.sparse_map.specs.Heirs.{IsFit, beyond_four, brought, all_brought, GetsMore, IsChosen, IsPassedOver, AreClear, AllAreNoted, AreHeirs};

use crate::group::{Group, SLACK};
use crate::home::{bucket_count, home_of, next_bucket};
use std::alloc::{AllocError, Global};

/// The first bucket from the home of a key on, going round, that isn't marked.
fn first_unmarked(marks: &[bool], bits: u32, key: u64) -> u64
    requires size { IsTableSize bits }
    requires buckets { length marks.now ≡ 2 ^ bits }
    ensures first { result ≡ first_unmarked (2 ^ bits) (2 ^ bits) (home (2 ^ bits) key) marks.now }
    ensures within { result < 2 ^ bits }
{
    let buckets = bucket_count(bits);
    let mut bucket = home_of(bits, key);
    for _step in 0..buckets {
        if !marks[bucket as usize] {
            return bucket;
        }
        bucket = next_bucket(buckets, bucket);
    }
    bucket
}

/// Marks the bucket that a new key takes, and counts it in its group.
fn mark_key(marks: &mut [bool], counts: &mut [u32], bits: u32, key: u64)
    requires size { IsTableSize bits }
    requires buckets { length marks.old ≡ 2 ^ bits }
    requires groups { length counts.old ≡ lists_for (2 ^ bits) }
    requires small { CanCount 1 counts.old }
    ensures { planned marks.new counts.new ≡ with_key (2 ^ bits) (planned marks.old counts.old) key }
{
    let bucket = first_unmarked(marks, bits, key);
    marks[bucket as usize] = true;
    counts[(bucket / 64) as usize] += 1;
}

/// Marks the buckets that new keys take, one after another.
fn mark_items<V: Drop>(marks: &mut [bool], counts: &mut [u32], bits: u32, items: &[(u64, V)])
    requires size { IsTableSize bits }
    requires buckets { length marks.old ≡ 2 ^ bits }
    requires groups { length counts.old ≡ lists_for (2 ^ bits) }
    requires small { CanCount (length items.now) counts.old }
    ensures { planned marks.new counts.new ≡ with_items (2 ^ bits) (planned marks.old counts.old) items.now }
{
    for item in items {
        mark_key(marks, counts, bits, item.0);
    }
}

/// Notes of the two new groups of an old one whether nothing goes to them from the groups before that one. They have
/// twice the old number, and one more. If the groups double, a key whose home was in the old group has its home in
/// these two.
fn note_clear(clear: &mut [bool], counts: &[u32], source: usize)
    requires level { length clear.old ≡ length counts.now }
    ensures all { (q : ℕ) → q / 2 ≡ source → source < length counts.now / 2 → slice_index_or counts.now q 0 ≡ 0
        → slice_index_or clear.new q false ≡ true }
    ensures others { (q : ℕ) → slice_index_or clear.old q false ≡ true
        → (slice_index_or clear.new q false ≡ true) ⊎ (q / 2 ≡ source) }
    ensures none { (q : ℕ) → slice_index_or clear.new q false ≡ true
        → (slice_index_or clear.old q false ≡ true) ⊎ ((q / 2 ≡ source) × (slice_index_or counts.now q 0 ≡ 0)) }
{
    if source < counts.len() / 2 {
        clear[2 * source] = counts[2 * source] == 0;
        clear[2 * source + 1] = counts[2 * source + 1] == 0;
    }
}

/// Marks the buckets that the keys of all these groups take, and notes which new groups are clear when their old
/// group's turn comes.
fn mark_groups<V: Drop>(
    marks: &mut [bool],
    counts: &mut [u32],
    clear: &mut [bool],
    bits: u32,
    groups: &[Group<V>],
)
    requires size { IsTableSize bits }
    requires buckets { length marks.old ≡ 2 ^ bits }
    requires groups { length counts.old ≡ lists_for (2 ^ bits) }
    requires small { CanCount (length (items_in groups.now)) counts.old }
    requires level { length clear.old ≡ length counts.old }
    requires none { (q : ℕ) → slice_index_or clear.old q false ≡ false }
    ensures plan { planned marks.new counts.new ≡ with_items (2 ^ bits) (planned marks.old counts.old) (items_in groups.now) }
    ensures clear { AreClear (2 ^ bits) (planned marks.old counts.old) groups.now (length groups.now) clear.new }
    ensures all { AllAreNoted (2 ^ bits) (planned marks.old counts.old) groups.now (length groups.now) clear.new }
{
    for (source, group) in groups.iter().enumerate() {
        note_clear(clear, counts, source);
        mark_items(marks, counts, bits, group.items.as_slice());
    }
}

/// How many free places beyond a few a list with `places` places has with `count` items.
fn beyond_few(places: usize, count: u32) -> usize
    ensures { result ≡ beyond_four places count }
{
    places.saturating_sub(count as usize + SLACK)
}

/// Whether a list with `places` places fits `count` items: it then has a free place, and at most `left` free places
/// beyond a few.
fn fits(places: usize, count: u32, left: usize) -> bool
    ensures { IsTrue result ↔ (IsFit places count × (beyond_four places count ≤ left)) }
{
    (count as usize) < places && beyond_few(places, count) <= left
}

/// The new group that takes over the list of an old group. It is the one of the two that gets more, if the list fits
/// there, and nothing goes there before the list is handed on.
fn heir_of(counts: &[u32], clear: &[bool], source: usize, places: usize, left: usize) -> Option<u32>
    requires level { length clear.now ≡ length counts.now }
    requires small { length counts.now < 2 ^ 32 }
    ensures more { IfSome result (λ q. GetsMore counts.now source q) }
    ensures inside { IfSome result (λ q. q < length counts.now) }
    ensures clear { IfSome result (λ q. slice_index_or clear.now q false ≡ true) }
    ensures fits { IfSome result (λ q. IsFit places (slice_index_or counts.now q 0)) }
    ensures few { brought counts.now result places ≤ left }
    ensures kept { result ≡ None → IsPassedOver counts.now clear.now source places left }
{
    if source >= counts.len() / 2 {
        return None;
    }
    let mut heir = 2 * source;
    if counts[heir] < counts[heir + 1] {
        heir += 1;
    }
    if clear[heir] && fits(places, counts[heir], left) {
        return Some(heir as u32);
    }
    None
}

/// How many free places beyond a few a list with `places` places brings to its heir.
fn brought(counts: &[u32], heir: Option<u32>, places: usize) -> usize
    requires { IfSome heir (λ q. q < length counts.now) }
    ensures { result ≡ brought counts.now heir places }
{
    match heir {
        Some(q) => beyond_few(places, counts[q as usize]),
        None => 0,
    }
}

/// The heirs of all old groups. Together their lists bring at most eight free places beyond a few for each two new
/// groups.
fn heirs_of<V: Drop>(
    alloc: Global,
    counts: &[u32],
    clear: &[bool],
    groups: &[Group<V>],
) -> Result<Vec<Option<u32>>, AllocError>
    requires level { length clear.now ≡ length counts.now }
    requires small { length counts.now < 2 ^ 32 }
    ensures level { IfOk result (λ hs. length hs.items ≡ length groups.now) }
    ensures room { IfOk result (λ hs. vec_capacity hs ≡ length groups.now) }
    ensures heirs { IfOk result (λ hs. (s q : ℕ) → slice_index_or hs.items s None ≡ Some q
        → IsChosen (rooms_of groups.now) counts.now clear.now s q) }
    ensures few { IfOk result (λ hs. all_brought (rooms_of groups.now) counts.now hs.items (length groups.now)
        ≤ 8 * (length counts.now / 2)) }
    ensures kept { IfOk result (λ hs. (s : ℕ) → s < length groups.now → slice_index_or hs.items s None ≡ None
        → IsPassedOver counts.now clear.now s (slice_index_or (rooms_of groups.now) s 0)
        (8 * (length counts.now / 2) - all_brought (rooms_of groups.now) counts.now hs.items s)) }
{
    let mut heirs = Vec::with_capacity(alloc, groups.len())?;
    let mut left = 2 * SLACK * (counts.len() / 2);
    for (source, group) in groups.iter().enumerate() {
        let places = group.items.capacity();
        let heir = heir_of(counts, clear, source, places, left);
        left -= brought(counts, heir, places);
        heirs.push_reserved(heir);
    }
    Ok(heirs)
}

/// `n` marks, none of which is set, in a list that has memory for no more. A longer list counts as out of memory.
fn no_marks(alloc: Global, n: usize) -> Result<Vec<bool>, AllocError>
    ensures items { IfOk result (λ v. v.items ≡ replicate n false) }
    ensures len { IfOk result (λ v. vec_len v ≡ n) }
    ensures room { IfOk result (λ v. vec_capacity v ≡ n) }
{
    let marks = vec![in alloc; false; n]?;
    if marks.capacity() > n {
        return Err(AllocError);
    }
    Ok(marks)
}

/// `n` counts of 0, in a list that has memory for no more. A longer list counts as out of memory.
fn no_counts(alloc: Global, n: usize) -> Result<Vec<u32>, AllocError>
    ensures items { IfOk result (λ v. v.items ≡ replicate n 0) }
    ensures len { IfOk result (λ v. vec_len v ≡ n) }
    ensures room { IfOk result (λ v. vec_capacity v ≡ n) }
{
    let counts = vec![in alloc; 0u32; n]?;
    if counts.capacity() > n {
        return Err(AllocError);
    }
    Ok(counts)
}

/// The facts about a wider table before any item moves.
#[derive(Drop)]
pub struct Ahead {
    /// How many items each group gets.
    pub counts: Vec<u32>,
    /// For each old group the new group that takes over its list, if there is one.
    pub heirs: Vec<Option<u32>>,
    ghost counts_fit: { vec_capacity counts ≡ vec_len counts },
    ghost heirs_fit: { vec_capacity heirs ≡ vec_len heirs },
}

/// How many items each group of a table of `2^bits` buckets gets when the items of these groups go into it in order.
/// Also which new groups take over a list.
pub fn count_ahead<V: Drop>(
    alloc: Global,
    groups: &[Group<V>],
    bits: u32,
) -> Result<Ahead, AllocError>
    requires size { IsTableSize bits }
    requires small { length (items_in groups.now) < 2 ^ 32 }
    ensures len { IfOk result (λ a. length a.counts.items ≡ lists_for (2 ^ bits)) }
    ensures counts { IfOk result (λ a. a.counts.items
        ≡ (with_items (2 ^ bits) (blank_plan (2 ^ bits)) (items_in groups.now)).counts) }
    ensures heirs { IfOk result (λ a. AreHeirs (2 ^ bits) (blank_plan (2 ^ bits)) groups.now a.heirs.items) }
    ensures few { IfOk result (λ a. all_brought (rooms_of groups.now) a.counts.items a.heirs.items (length groups.now)
        ≤ 8 * (lists_for (2 ^ bits) / 2)) }
{
    let buckets = bucket_count(bits);
    let mut marks = no_marks(alloc, buckets as usize)?;
    let count = ((buckets + 32) / 64) as usize;
    let mut counts = no_counts(alloc, count)?;
    let mut clear = no_marks(alloc, count)?;
    mark_groups(
        marks.as_mut_slice(),
        counts.as_mut_slice(),
        clear.as_mut_slice(),
        bits,
        groups,
    );
    let heirs = heirs_of(alloc, counts.as_slice(), clear.as_slice(), groups)?;
    Ok(Ahead { counts, heirs })
}
