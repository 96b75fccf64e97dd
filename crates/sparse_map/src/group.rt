//! A group of 64 buckets: a number whose bit k says that bucket k is occupied, and the items of the occupied buckets.
ghost use Rattle.std.specs.Prelude.{insert, ◌≡◌, ◌+◌, ◌++◌, ◌^◌, ◌<◌, ◌≤◌, ◌↔◌, length, vec_len, Some, None, IfOk, IfSome, IsTrue, count_ones, option_map, slice_set, ℕ};
ghost use Rattle.std.specs.Vec.{vec_capacity};

use std::alloc::{AllocError, Global};
use std::mem::{self, size_of};

/// A few free places. A list that is trimmed keeps no more than this. A full list grows by at least this many, up to 64
/// places, so that not every insertion lengthens it.
pub const SLACK: usize = 4;

/// By how many places a full list grows at most, if all lists together may have more free ones.
pub const MORE_SLACK: usize = 8;

/// Three quarters of the 64 buckets of a list: on average the lists have no more items than this. A full list with more
/// places than this grows only by a few.
const ITEMS_AT_DOUBLING: usize = 48;

/// An empty list with room for the items of a whole group, kept ready for a group whose own list is full.
#[derive(Drop)]
pub struct Blank<V> {
    list: Vec<(u64, V)>,
    ghost is_empty: { vec_len list ≡ 0 },
    ghost has_room: { vec_capacity list ≡ 64 },
}

impl<V: Drop> Blank<V> {
    /// A list with room for 64 items.
    pub fn new(alloc: Global) -> Result<Self, AllocError>
        ensures { IfOk result (λ b. vec_capacity b.list ≡ 64) }
    {
        let list = Vec::with_capacity(alloc, 64)?;
        Ok(Blank { list })
    }
}

/// The buckets of one group. The place of bucket k's item in the list is the number of occupied buckets below k.
#[derive(Drop)]
pub struct Group<V> {
    /// Bit k is set if bucket k is occupied.
    pub occupied: u64,
    /// The items of the occupied buckets, in bucket order.
    pub items: Vec<(u64, V)>,
    ghost fits: { occupied < 2 ^ 64 },
    ghost counted: { length items.items ≡ count_ones occupied },
}

// The bytes that a group takes beside its items: 8 for its bits, and 24 for the list's header.
const _: [(); 32] = [(); size_of::<Group<u64>>()];

/// Moves items to the end of a list that has room for them.
fn move_items<V: Drop>(items: Vec<(u64, V)>, list: &mut Vec<(u64, V)>)
    requires room { vec_len list.old + vec_len items ≤ vec_capacity list.old }
    ensures items { list.new.items ≡ list.old.items ++ items.items }
    ensures capacity { vec_capacity list.new ≡ vec_capacity list.old }
{
    for item in items {
        list.push_reserved(item);
    }
}

/// Puts an item into a list that has room for it.
fn insert_item<V: Drop>(items: &mut Vec<(u64, V)>, place: usize, item: (u64, V))
    requires within { place ≤ vec_len items.old }
    requires room { vec_len items.old < vec_capacity items.old }
    ensures items { items.new.items ≡ insert items.old.items place item }
    ensures capacity { vec_capacity items.new ≡ vec_capacity items.old }
{
    match items.insert(place, item) {
        Ok(()) => {}
        Err(_) => unreachable!(),
    }
}

/// Does the same as `insert_item` from the end of the list: the item changes places with each that comes after it. This
/// takes less time if there are few of those.
fn insert_from_end<V: Drop>(items: &mut Vec<(u64, V)>, place: usize, item: (u64, V))
    requires within { place ≤ vec_len items.old }
    requires room { vec_len items.old < vec_capacity items.old }
    ensures items { items.new.items ≡ insert items.old.items place item }
    ensures capacity { vec_capacity items.new ≡ vec_capacity items.old }
{
    let mut at = items.len();
    items.push_reserved(item);
    while at > place {
        items.swap(at - 1, at);
        at -= 1;
    }
}

impl<V: Drop> Group<V> {
    ghost use Rattle.std.specs.Prelude.{◌≡◌, ◌≢◌, ◌+◌, ◌-◌, ◌*◌, ◌<◌, ◌≤◌, ◌↔◌, ℕ, length, count_ones, vec_len, min, max, Some, None, IsSome, IfSome, IfNone, IfOk, IsTrue, OnOk, OnErr, is_some, option_map, slice_set};
    ghost use Rattle.std.specs.Vec.{vec_capacity};
    ghost use Rattle.sparse_map.specs.Slots.{slot_at, key_at, rank, exchanged, unpacked, items_of, group};
    ghost use Rattle.sparse_map.specs.Groups.{slots_in};
    ghost use Rattle.sparse_map.specs.Trimmed.{IsTrimmed, IsReady};
    ghost use Rattle.sparse_map.specs.Places.{grown_to};

    /// A group with no item, which takes no memory.
    pub fn new(alloc: Global) -> Self
        ensures slots { (k : ℕ) → slot_at (slots_in result) k ≡ None }
        ensures small { vec_capacity result.items ≡ 0 }
    {
        Group {
            occupied: 0,
            items: Vec::new(alloc),
        }
    }

    /// A group with no item, whose list has `places` places.
    pub fn with_places(alloc: Global, places: usize) -> Result<Self, AllocError>
        ensures slots { IfOk result (λ g. (k : ℕ) → slot_at (slots_in g) k ≡ None) }
        ensures len { IfOk result (λ g. vec_len g.items ≡ 0) }
        ensures places { IfOk result (λ g. vec_capacity g.items ≡ places) }
    {
        let items = Vec::with_capacity(alloc, places)?;
        Ok(Group { occupied: 0, items })
    }

    /// Whether bucket `k` is occupied.
    pub fn is_occupied(&self, k: u32) -> bool
        requires { k < 64 }
        ensures { result ≡ is_some (slot_at (slots_in self.now) k) }
    {
        (self.occupied >> k) & 1 == 1
    }

    /// How many buckets below bucket `k` are occupied: the place that its item has, or would get, in the list. A
    /// look-up counts it once for each group that it comes to, and hands it on.
    #[tactic(auto, using(crate::proofs::RankLemmas::rank_by_mask))]
    pub fn rank_at(&self, k: u32) -> u32
        requires { k < 64 }
        ensures { result ≡ rank self.now.occupied k }
    {
        (self.occupied & ((1 << k) - 1)).count_ones()
    }

    /// The first free bucket from bucket `from` on.
    pub fn first_free(&self, from: u32) -> Option<u32>
        requires { from < 64 }
        ensures within { IfSome result (λ k. (from ≤ k) × (k < 64)) }
        ensures free { IfSome result (λ k. slot_at (slots_in self.now) k ≡ None) }
        ensures passed { IfSome result (λ k. (j : ℕ) → from ≤ j → j < k → IsSome (slot_at (slots_in self.now) j)) }
        ensures none { IfNone result ((j : ℕ) → from ≤ j → j < 64 → IsSome (slot_at (slots_in self.now) j)) }
    {
        let free = !self.occupied >> from;
        if free == 0 {
            return None;
        }
        Some(from + free.trailing_zeros())
    }

    /// The end of the run of occupied buckets from bucket `from` on.
    pub fn run_end(&self, from: u32) -> u32
        requires { from < 64 }
        ensures from { from ≤ result }
        ensures within { result ≤ 64 }
        ensures occupied { (j : ℕ) → from ≤ j → j < result → IsSome (slot_at (slots_in self.now) j) }
        ensures free { result < 64 → slot_at (slots_in self.now) result ≡ None }
    {
        if let Some(k) = self.first_free(from) {
            return k;
        }
        64
    }

    /// The bucket that has a key, in a run of occupied buckets from `from` up to `end`; bucket `from` doesn't have the
    /// key. As no bucket of a run is free, its items stand one after another in the list.
    pub fn find_in_run(&self, from: u32, end: u32, place: u32, key: u64) -> Option<u32>
        requires from { from < 64 }
        requires end { end ≤ 64 }
        requires place { place ≡ rank self.now.occupied from }
        requires occupied { (j : ℕ) → from ≤ j → j < end → IsSome (slot_at (slots_in self.now) j) }
        requires home { key_at (slots_in self.now) from ≢ Some key }
        ensures within { IfSome result (λ k. (from ≤ k) × (k < end)) }
        ensures found { IfSome result (λ k. key_at (slots_in self.now) k ≡ Some key) }
        ensures none { IfNone result ((j : ℕ) → from ≤ j → j < end → key_at (slots_in self.now) j ≢ Some key) }
    {
        let mut at = place as usize + 1;
        for k in from + 1..end {
            if self.items[at].0 == key {
                return Some(k);
            }
            at += 1;
        }
        None
    }

    /// The lower (i = 0) or the upper (i = 1) 32 buckets: which of them are occupied, and their items.
    pub fn half(&self, i: u64) -> (u32, &[(u64, V)])
        requires { i < 2 }
        ensures counted { length result.1.now ≡ count_ones result.0 }
        ensures placed { (k : ℕ) → k < 32 → unpacked result.0 result.1.now k ≡ slot_at (slots_in self.now) (32 * i + k) }
        ensures items { result.1.now ≡ items_of (group (slots_in self.now) i) }
    {
        let low = (self.occupied % (1 << 32)) as u32;
        let (lower, upper) = self.items.as_slice().split_at(low.count_ones() as usize);
        if i == 0 {
            (low, lower)
        } else {
            ((self.occupied >> 32) as u32, upper)
        }
    }

    /// The key in bucket `k`.
    pub fn key(&self, k: u32, place: u32) -> Option<u64>
        requires within { k < 64 }
        requires place { place ≡ rank self.now.occupied k }
        ensures { result ≡ key_at (slots_in self.now) k }
    {
        if !self.is_occupied(k) {
            return None;
        }
        Some(self.items[place as usize].0)
    }

    /// Whether bucket `k` has a key. The item at its rank is compared before the bucket's bit is read: for a new key
    /// the comparison nearly always fails, while the bit can't be guessed.
    pub fn has_key(&self, k: u32, place: u32, key: u64) -> bool
        requires within { k < 64 }
        requires place { place ≡ rank self.now.occupied k }
        ensures { IsTrue result ↔ (key_at (slots_in self.now) k ≡ Some key) }
    {
        if place as usize >= self.items.len() {
            return false;
        }
        if self.items[place as usize].0 != key {
            return false;
        }
        self.is_occupied(k)
    }

    /// The value in the occupied bucket `k`.
    pub fn value(&self, k: u32, place: u32) -> &V
        requires within { k < 64 }
        requires place { place ≡ rank self.now.occupied k }
        requires occupied { IsSome (slot_at (slots_in self.now) k) }
        ensures { option_map (λ e. e.1) (slot_at (slots_in self.now) k) ≡ Some result.now }
    {
        &self.items[place as usize].1
    }

    /// How many places of the list are free.
    pub fn free_places(&self) -> usize
        ensures { result ≡ vec_capacity self.now.items - vec_len self.now.items }
    {
        self.items.capacity() - self.items.len()
    }

    /// How many free places beyond a few the list has.
    pub fn beyond_few(&self) -> usize
        ensures { result ≡ vec_capacity self.now.items - (vec_len self.now.items + 4) }
    {
        self.free_places().saturating_sub(SLACK)
    }

    /// Whether an insertion would need memory.
    pub fn is_full(&self) -> bool
        ensures { IsTrue result ↔ (vec_len self.now.items ≡ vec_capacity self.now.items) }
    {
        self.items.len() == self.items.capacity()
    }

    /// Occupies a free bucket, in a list that has a free place.
    pub fn insert(&mut self, k: u32, place: u32, item: (u64, V))
        requires within { k < 64 }
        requires place { place ≡ rank self.old.occupied k }
        requires free { slot_at (slots_in self.old) k ≡ None }
        requires room { vec_len self.old.items < vec_capacity self.old.items }
        ensures slots { slots_in self.new ≡ slice_set (slots_in self.old) k (Some item) }
        ensures len { vec_len self.new.items ≡ vec_len self.old.items + 1 }
        ensures capacity { vec_capacity self.new.items ≡ vec_capacity self.old.items }
    {
        insert_item(&mut self.items, place as usize, item);
        self.occupied |= 1 << k;
    }

    /// Does the same as `insert` from the end of the list, in less time if few occupied buckets come after this one.
    pub fn insert_late(&mut self, k: u32, place: u32, item: (u64, V))
        requires within { k < 64 }
        requires place { place ≡ rank self.old.occupied k }
        requires free { slot_at (slots_in self.old) k ≡ None }
        requires room { vec_len self.old.items < vec_capacity self.old.items }
        ensures slots { slots_in self.new ≡ slice_set (slots_in self.old) k (Some item) }
        ensures len { vec_len self.new.items ≡ vec_len self.old.items + 1 }
        ensures capacity { vec_capacity self.new.items ≡ vec_capacity self.old.items }
    {
        insert_from_end(&mut self.items, place as usize, item);
        self.occupied |= 1 << k;
    }

    /// Frees an occupied bucket.
    pub fn remove(&mut self, k: u32, place: u32) -> (u64, V)
        requires within { k < 64 }
        requires place { place ≡ rank self.old.occupied k }
        requires occupied { IsSome (slot_at (slots_in self.old) k) }
        ensures item { slot_at (slots_in self.old) k ≡ Some result }
        ensures slots { slots_in self.new ≡ slice_set (slots_in self.old) k None }
        ensures len { vec_len self.new.items + 1 ≡ vec_len self.old.items }
        ensures capacity { vec_capacity self.new.items ≡ vec_capacity self.old.items }
        ensures room { vec_len self.new.items < vec_capacity self.new.items }
        ensures rank { rank self.new.occupied k ≡ rank self.old.occupied k }
    {
        self.occupied &= !(1 << k);
        self.items.remove(place as usize)
    }

    /// Sets the item of an occupied bucket, and gives the old one.
    pub fn replace(&mut self, k: u32, place: u32, item: (u64, V)) -> (u64, V)
        requires within { k < 64 }
        requires place { place ≡ rank self.old.occupied k }
        requires occupied { IsSome (slot_at (slots_in self.old) k) }
        ensures item { slot_at (slots_in self.old) k ≡ Some result }
        ensures slots { slots_in self.new ≡ slice_set (slots_in self.old) k (Some item) }
        ensures capacity { vec_capacity self.new.items ≡ vec_capacity self.old.items }
        ensures room { vec_len self.new.items ≡ vec_len self.old.items }
    {
        mem::replace(&mut self.items[place as usize], item)
    }

    /// Exchanges the items of two occupied buckets.
    pub fn exchange(&mut self, k: u32, k_place: u32, l: u32, l_place: u32)
        requires k_within { k < 64 }
        requires l_within { l < 64 }
        requires k_place { k_place ≡ rank self.old.occupied k }
        requires l_place { l_place ≡ rank self.old.occupied l }
        requires k_occupied { IsSome (slot_at (slots_in self.old) k) }
        requires l_occupied { IsSome (slot_at (slots_in self.old) l) }
        ensures slots { slots_in self.new ≡ exchanged (slots_in self.old) k l }
        ensures len { vec_len self.new.items ≡ vec_len self.old.items }
        ensures capacity { vec_capacity self.new.items ≡ vec_capacity self.old.items }
    {
        self.items.swap(k_place as usize, l_place as usize);
    }

    /// Takes over a list without items, in a group that has none.
    pub fn take_list(&mut self, list: Vec<(u64, V)>)
        requires free { vec_len self.old.items ≡ 0 }
        requires none { vec_len list ≡ 0 }
        ensures slots { slots_in self.new ≡ slots_in self.old }
        ensures len { vec_len self.new.items ≡ vec_len self.old.items }
        ensures capacity { vec_capacity self.new.items ≡ vec_capacity list }
    {
        self.items = list;
    }

    /// Moves the items into the blank list, which has room for all that the group can hold.
    pub fn move_to(&mut self, alloc: Global, blank: Blank<V>)
        ensures occupied { self.new.occupied ≡ self.old.occupied }
        ensures items { self.new.items.items ≡ self.old.items.items }
        ensures capacity { vec_capacity self.new.items ≡ 64 }
    {
        let Blank { mut list } = blank;
        move_items(mem::replace(&mut self.items, Vec::new(alloc)), &mut list);
        self.items = list;
    }

    /// Gives back the memory that the list has beyond its items and a few places. On `Err`, when memory fails, it has
    /// at most as much as it had.
    pub fn trim(&mut self) -> Result<(), AllocError>
        ensures occupied { self.new.occupied ≡ self.old.occupied }
        ensures items { self.new.items.items ≡ self.old.items.items }
        ensures capacity { vec_capacity self.new.items ≤ vec_capacity self.old.items }
        ensures room { min (vec_capacity self.old.items) (vec_len self.old.items + 4) ≤ vec_capacity self.new.items }
        ensures ok { OnOk result (IsTrimmed self.new) }
    {
        let wanted = self.items.len() + SLACK;
        self.items.shrink_to(wanted);
        if self.items.capacity() > wanted {
            return Err(AllocError);
        }
        Ok(())
    }

    /// Moves the items of a full list into one with `more` more places. But the new list has at most 48 places, or a
    /// few more than items if that is more, and at most as many as a whole group needs. On `Err`, when memory fails,
    /// the list is unchanged.
    pub fn grow(&mut self, alloc: Global, more: usize) -> Result<(), AllocError>
        requires { 4 ≤ more }
        ensures occupied { self.new.occupied ≡ self.old.occupied }
        ensures items { self.new.items.items ≡ self.old.items.items }
        ensures capacity { vec_capacity self.old.items ≤ vec_capacity self.new.items }
        ensures few { vec_capacity self.new.items ≤ max (vec_capacity self.old.items) (vec_len self.new.items + more) }
        ensures short { vec_capacity self.new.items ≤ max (vec_capacity self.old.items) 64 }
        ensures grown { OnOk result (vec_len self.old.items ≡ vec_capacity self.old.items → vec_len self.old.items < 64
            → vec_capacity self.new.items ≡ grown_to (vec_len self.old.items) more) }
        ensures same { vec_len self.old.items < vec_capacity self.old.items → vec_capacity self.new.items ≡ vec_capacity self.old.items }
        ensures ok { OnOk result (IsReady self.new) }
        ensures err { OnErr result (vec_capacity self.new.items ≡ vec_capacity self.old.items) }
    {
        let len = self.items.len();
        if len < self.items.capacity() || len >= 64 {
            return Ok(());
        }
        let most = ITEMS_AT_DOUBLING.max(len + SLACK);
        let places = more.saturating_add(len).min(most).min(64);
        let mut list = Vec::with_capacity(alloc, places)?;
        let mut full = mem::replace(&mut self.items, Vec::new(alloc));
        match list.append(&mut full) {
            Ok(()) => {}
            // The new list has room for all the items.
            Err(_) => unreachable!(),
        }
        // `append` doesn't lengthen a list that has room, but it doesn't promise that. So a longer list counts as out
        // of memory.
        if list.capacity() > places {
            move_items(list, &mut full);
            self.items = full;
            return Err(AllocError);
        }
        self.items = list;
        Ok(())
    }

    /// Makes the list fit: it then has a free place, or places for a whole group. A list with free places keeps at most
    /// a few of them, and a full list grows as `grow` says. The answer is the number of free places beyond a few. On
    /// `Err`, when memory fails, the list has at most as many places as before.
    pub fn fit(&mut self, alloc: Global, more: usize) -> Result<usize, AllocError>
        requires { 4 ≤ more }
        ensures occupied { self.new.occupied ≡ self.old.occupied }
        ensures items { self.new.items.items ≡ self.old.items.items }
        ensures room { min (vec_capacity self.old.items) (vec_len self.old.items + 4) ≤ vec_capacity self.new.items }
        ensures few { vec_capacity self.new.items ≤ max (vec_capacity self.old.items) (vec_len self.new.items + more) }
        ensures short { vec_capacity self.new.items ≤ max (vec_capacity self.old.items) 64 }
        ensures trimmed { OnOk result (vec_capacity self.new.items ≤ vec_len self.new.items + more) }
        ensures own { OnOk result (vec_len self.old.items < vec_capacity self.old.items
            → vec_capacity self.new.items ≡ min (vec_capacity self.old.items) (vec_len self.old.items + 4)) }
        ensures grown { OnOk result (vec_len self.old.items ≡ vec_capacity self.old.items → vec_len self.old.items < 64
            → vec_capacity self.new.items ≡ grown_to (vec_len self.old.items) more) }
        ensures beyond { IfOk result (λ n. n ≡ vec_capacity self.new.items - (vec_len self.new.items + 4)) }
        ensures ready { OnOk result (IsReady self.new) }
        ensures err { OnErr result (vec_capacity self.new.items ≤ vec_capacity self.old.items) }
    {
        self.trim()?;
        self.grow(alloc, more)?;
        Ok(self.beyond_few())
    }
}
