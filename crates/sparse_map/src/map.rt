//! The map.
ghost use Rattle.std.specs.Prelude.{◌≡◌, ◌≢◌, ◌⊎◌, ℕ, ◌+◌, ◌-◌, ◌*◌, ◌/◌, ◌^◌, ◌<◌, ◌≤◌, ◌==◌, true, length, min, max, vec_len, Some, None, IfSome, IfNone, OnOk, OnErr, is_some, count_ones, option_copied, MatchOption, if◌then◌else◌};
ghost use Rattle.std.specs.FinMap as map;
ghost use Rattle.std.specs.FinMap.{find};
ghost use Rattle.std.specs.Vec.{vec_capacity};
ghost use Rattle.sparse_map.specs.Home.{IsDoubledFor, IsTableSize};
ghost use Rattle.sparse_map.specs.Slots.{slot_at, items_of, unpacked, group};
ghost use Rattle.sparse_map.specs.Packed.{map_of, len_of, buckets_of, lists_of, memory_of, IsFitted, IsWidened, IsSound};
ghost use Rattle.sparse_map.specs.Places.{sizes_of, places_of};
ghost use Rattle.sparse_map.specs.Probe.{IsPut, IsReplaced};
ghost use Rattle.sparse_map.specs.Removal.{IsItemTaken};

use crate::group::{Blank, Group};
use crate::home::{bits_for, bucket_count};
use crate::moving::{Widening, groups_ahead, place_groups};
use crate::table::{
    Place, Touched, beyond_of, blanks_for, find, fit_touched, most_beyond, places_of, probe, put,
    remove_at, replace, value_at,
};
use std::alloc::{AllocError, Global};
use std::marker::Model;
use std::mem;

/// A map from 64-bit keys to values, with room that is taken ahead.
#[derive(Drop)]
pub struct SparseMap<V> {
    alloc: Global,
    bits: u32,
    groups: Vec<Group<V>>,
    len: u64,
    spare: u64,
    stock: Vec<Blank<V>>,
    // The groups whose lists may have become full, or given way to a blank list, since they were last made to fit.
    touched: Touched,
    // At least the number of free places beyond four that the lists of other groups have, all together. The largest
    // number bounds nothing.
    beyond: u64,
    peak: u64,
}

impl<V> Model for SparseMap<V> {
    ghost use Rattle.std.specs.Prelude.{vec_len};
    ghost use Rattle.std.specs.Vec.{vec_capacity};
    ghost use Rattle.sparse_map.specs.Packed.{PackedTable, table_code};
    ghost use Rattle.sparse_map.specs.Seen.{seen_of};
    ghost use Rattle.sparse_map.specs.Kept.{KeepsBound};

    ghost Value = { PackedTable V };

    ghost coded = { table_code V.code };

    ghost view = { λ m. seen_of m.bits m.groups.items m.spare (vec_len m.stock) m.touched m.peak };

    ghost invariant = { λ m. KeepsBound m.bits m.len m.spare (vec_len m.stock) m.touched m.beyond m.groups.items
        (vec_capacity m.groups) (vec_capacity m.stock) };
}

impl<V: Drop> SparseMap<V> {
    /// An empty map with no bucket, which takes no memory.
    pub fn new(alloc: Global) -> Self
        ensures none { buckets_of result ≡ 0 }
        ensures spare { result.spare ≡ 0 }
        ensures empty { map_of result ≡ map.empty }
        ensures memory { memory_of result ≡ 0 }
        ensures loose { result.loose ≡ 0 }
        ensures peak { result.peak ≡ 0 }
        ensures sound { IsSound result }
    {
        SparseMap {
            alloc,
            bits: 0,
            groups: Vec::new(alloc),
            len: 0,
            spare: 0,
            stock: Vec::new(alloc),
            touched: Touched::Nowhere,
            beyond: 0,
            peak: 0,
        }
    }

    /// How many keys the map has.
    pub fn len(&self) -> u64
        ensures len { result ≡ len_of self.now }
        ensures sound { IsSound self.now }
    {
        self.len
    }

    /// Whether the map has no key.
    pub fn is_empty(&self) -> bool
        ensures { result ≡ (len_of self.now == 0) }
    {
        self.len == 0
    }

    /// How many buckets there are: none, or a power of two from 32 to 2^31.
    pub fn buckets(&self) -> u64
        ensures buckets { result ≡ buckets_of self.now }
        ensures few { result ≤ 2 ^ 31 }
        ensures sound { IsSound self.now }
    {
        32 * self.groups()
    }

    /// How many groups of 32 buckets there are.
    pub fn groups(&self) -> u64
        ensures groups { 32 * result ≡ buckets_of self.now }
        ensures few { result ≤ 2 ^ 26 }
        ensures sound { IsSound self.now }
    {
        if self.bits == 0 {
            return 0;
        }
        bucket_count(self.bits) / 32
    }

    /// How many new keys can go in before the next `reserve`.
    pub fn spare(&self) -> u64
        ensures { result ≡ self.now.spare }
    {
        self.spare
    }

    /// How many items the map has memory for: the places of all groups' lists, free ones included, and 64 for each blank
    /// list that is kept ready. The count ends at 2^64 - 1.
    pub fn places(&self) -> u64
        ensures { result ≡ min (memory_of self.now) (2 ^ 64 - 1) }
    {
        places_with(self.groups.as_slice(), self.stock.as_slice())
    }

    /// The places that old and new lists had together when the number of buckets last rose, blank lists included. It is
    /// at least as many as the map had before or after, and at most both together. The count ends at 2^64 - 1, and is 0
    /// before there are buckets.
    pub fn peak_places(&self) -> u64
        ensures { result ≡ self.now.peak }
    {
        self.peak
    }

    /// Group `i` as it is packed: a number whose bit k says whether bucket k of the group is occupied, and the items of
    /// the occupied buckets, in bucket order. The place of bucket k's item among them is the number of set bits below
    /// bit k.
    pub fn group_at(&self, i: u64) -> (u32, &[(u64, V)])
        requires { 32 * i < buckets_of self.now }
        ensures counted { length result.1.now ≡ count_ones result.0 }
        ensures placed { (k : ℕ) → k < 32 → unpacked result.0 result.1.now k ≡ slot_at self.now.slots (32 * i + k) }
        ensures items { result.1.now ≡ items_of (group self.now.slots i) }
        ensures sound { IsSound self.now }
    {
        self.groups[(i / 2) as usize].half(i % 2)
    }

    /// The value of a key.
    pub fn get(&self, key: u64) -> Option<&V>
        ensures { option_copied result ≡ map.get (map_of self.now) key }
    {
        let groups = self.groups.as_slice();
        let seat = find(groups, self.bits, key)?;
        Some(value_at(groups, seat.bucket, seat.rank))
    }

    /// Sets the value of a key, and gives the old one. It allocates nothing and can't fail: a new key takes room that
    /// `reserve` made.
    pub fn insert_ready(&mut self, key: u64, value: V) -> Option<V>
        requires { (map.contains_key (map_of self.old) key ≡ true) ⊎ (1 ≤ self.old.spare) }
        ensures old { result ≡ map.get (map_of self.old) key }
        ensures map { map_of self.new ≡ map.insert (map_of self.old) key value }
        ensures buckets { buckets_of self.new ≡ buckets_of self.old }
        ensures spare { self.new.spare ≡ (if is_some result then self.old.spare else self.old.spare - 1) }
        ensures placed { MatchOption result (IsPut self.old.slots self.new.slots key value)
            (λ _. IsReplaced self.old.slots self.new.slots key value) }
        ensures memory { memory_of self.new ≤ memory_of self.old }
        ensures loose { self.new.loose ≤ self.old.loose }
        ensures peak { self.new.peak ≡ self.old.peak }
        ensures sound { IsSound self.new }
    {
        let spot = probe(self.groups.as_slice(), self.bits, key);
        match spot.at {
            Place::Found(bucket) => {
                let (_, old) = replace(self.groups.as_mut_slice(), bucket, spot.rank, (key, value));
                Some(old)
            }
            Place::Free(bucket) => {
                let left = put(
                    self.alloc,
                    self.groups.as_mut_slice(),
                    &mut self.stock,
                    bucket,
                    spot.rank,
                    (key, value),
                );
                self.len += 1;
                self.spare -= 1;
                self.beyond = self.touched.counted(self.beyond, left);
                self.touched = self.touched.with(left == 0, bucket);
                None
            }
        }
    }

    /// Takes a key out of the map, and gives its value. The buckets and the room stay, and so does the number that
    /// `places` gives.
    pub fn remove(&mut self, key: u64) -> Option<V>
        ensures value { result ≡ map.get (map_of self.old) key }
        ensures map { map_of self.new ≡ map.remove (map_of self.old) key }
        ensures absent { IfNone result (self.new ≡ self.old) }
        ensures shifts { IfSome result (λ _. IsItemTaken self.old.slots self.new.slots key) }
        ensures buckets { buckets_of self.new ≡ buckets_of self.old }
        ensures spare { self.new.spare ≡ self.old.spare }
        ensures memory { memory_of self.new ≡ memory_of self.old }
        ensures loose { self.new.loose ≤ self.old.loose + 1 }
        ensures peak { self.new.peak ≡ self.old.peak }
        ensures sound { IsSound self.new }
    {
        let seat = find(self.groups.as_slice(), self.bits, key)?;
        let (_, value) = remove_at(
            self.groups.as_mut_slice(),
            self.bits,
            seat.bucket,
            seat.rank,
        );
        self.len -= 1;
        self.beyond = self.beyond.saturating_add(1);
        Some(value)
    }

    /// Makes room for `n` new keys. A map with no bucket gets 32. Then the buckets double as often as more than three
    /// quarters of them would be taken, and no oftener. If they don't double, each item stays in its bucket. On `Err`,
    /// when memory fails, map, buckets and room are unchanged.
    pub fn reserve(&mut self, n: u32) -> Result<(), AllocError>
        requires { len_of self.old + n ≤ 2 ^ 30 }
        ensures map { map_of self.new ≡ map_of self.old }
        ensures buckets { OnOk result (IsDoubledFor (len_of self.old + n) (buckets_of self.old) (buckets_of self.new)) }
        ensures spare { OnOk result (self.new.spare ≡ max self.old.spare n) }
        ensures stays { buckets_of self.new ≡ buckets_of self.old → self.new.slots ≡ self.old.slots }
        ensures fitted { OnOk result (IsFitted self.new) }
        ensures loose { self.new.loose ≤ self.old.loose }
        ensures peak { buckets_of self.new ≡ buckets_of self.old → self.new.peak ≡ self.old.peak }
        ensures doubled { OnOk result (buckets_of self.new ≢ buckets_of self.old → IsWidened self.old self.new) }
        ensures err { OnErr result ((self.new.slots ≡ self.old.slots) × (self.new.spare ≡ self.old.spare)) }
        ensures refused { OnErr result ((self.new.places ≤ self.old.places)
            × (self.new.blanks ≤ max self.old.blanks (max self.old.spare n))) }
        ensures sound { IsSound self.new }
    {
        let n = u64::from(n);
        let bits = bits_for(self.bits, self.len + n);
        if bits == self.bits {
            self.stock_up(n)
        } else {
            self.widen(bits, n)
        }
    }

    /// Makes room for `n` new keys within the present buckets. The lists of the groups that may have been touched are
    /// made to fit. After as many removals as there are lists, all lists are trimmed. Blank lists are made for more
    /// than one key, or if any list may be full. The steps that can fail and that add memory to a list come last.
    fn stock_up(&mut self, n: u64) -> Result<(), AllocError>
        requires { 4 * (len_of self.old + n) ≤ 3 * buckets_of self.old }
        ensures slots { self.new.slots ≡ self.old.slots }
        ensures spare { OnOk result (self.new.spare ≡ max self.old.spare n) }
        ensures fitted { OnOk result (IsFitted self.new) }
        ensures loose { self.new.loose ≤ self.old.loose }
        ensures peak { self.new.peak ≡ self.old.peak }
        ensures err { OnErr result (self.new.spare ≡ self.old.spare) }
        ensures refused { OnErr result ((self.new.places ≤ self.old.places)
            × (self.new.blanks ≤ max self.old.blanks (max self.old.spare n))) }
        ensures places { self.new.places ≤ 65 * lists_of self.new }
        ensures blanks { self.new.blanks ≤ lists_of self.new }
    {
        let spare = self.spare.max(n);
        // If no list was touched, each list with a free bucket has a place for one key. If also not too many places are
        // free, all lists stay unchanged.
        let lists = self.groups.len();
        if spare <= 1 && self.stock.is_empty() && self.beyond <= most_beyond(lists) {
            if let Touched::Nowhere = self.touched {
                self.spare = spare;
                return Ok(());
            }
        }
        let wanted = blanks_for(self.touched, spare, lists as u64);
        add_blanks(self.alloc, &mut self.stock, wanted)?;
        fit_touched(
            self.alloc,
            self.groups.as_mut_slice(),
            &mut self.touched,
            &mut self.beyond,
        )?;
        self.stock.truncate(wanted as usize);
        self.spare = spare;
        Ok(())
    }

    /// Places every item anew in `2^bits` buckets, in the order of the old ones. It first counts which group each item
    /// goes to. So it makes lists that fit, or hands old ones on, and takes all memory before the first item moves.
    fn widen(&mut self, bits: u32, n: u64) -> Result<(), AllocError>
        requires size { IsTableSize bits }
        requires wider { buckets_of self.old ≤ 2 ^ bits }
        requires room { 4 * (len_of self.old + n) ≤ 3 * 2 ^ bits }
        ensures map { map_of self.new ≡ map_of self.old }
        ensures buckets { OnOk result (buckets_of self.new ≡ 2 ^ bits) }
        ensures spare { OnOk result (self.new.spare ≡ max self.old.spare n) }
        ensures fitted { OnOk result (IsFitted self.new) }
        ensures widened { OnOk result (IsWidened self.old self.new) }
        ensures err { OnErr result (self.new ≡ self.old) }
        ensures sound { OnOk result (IsSound self.new) }
    {
        let spare = self.spare.max(n);
        let ahead = groups_ahead(self.alloc, self.groups.as_slice(), bits)?;
        let Widening {
            mut groups,
            heirs,
            held,
        } = ahead;
        let mut stock = Vec::new(self.alloc);
        let wanted = blanks_for(Touched::Nowhere, spare, groups.len() as u64);
        add_blanks(self.alloc, &mut stock, wanted)?;
        let before = self.places();
        let peak = before.saturating_add(places_with(groups.as_slice(), stock.as_slice()));
        let old = mem::replace(&mut self.groups, Vec::new(self.alloc));
        place_groups(groups.as_mut_slice(), bits, heirs.as_slice(), held, old);
        self.bits = bits;
        self.beyond = beyond_of(groups.as_slice());
        self.groups = groups;
        self.spare = spare;
        self.stock = stock;
        self.touched = Touched::Nowhere;
        self.peak = peak;
        Ok(())
    }
}

/// How many places the lists of these groups and these blank lists have, 64 for each blank list. The count ends at
/// 2^64 - 1.
fn places_with<V: Drop>(groups: &[Group<V>], stock: &[Blank<V>]) -> u64
    ensures { result ≡ min (places_of (sizes_of groups.now) + 64 * length stock.now) (2 ^ 64 - 1) }
{
    let blanks = stock.len() as u64;
    places_of(groups).saturating_add(blanks.saturating_mul(64))
}

/// Adds blank lists until there are `wanted`.
fn add_blanks<V: Drop>(
    alloc: Global,
    stock: &mut Vec<Blank<V>>,
    wanted: u64,
) -> Result<(), AllocError>
    ensures ok { OnOk result (vec_len stock.new ≡ max (vec_len stock.old) wanted) }
    ensures kept { vec_len stock.old ≤ vec_len stock.new }
    ensures few { vec_len stock.new ≤ max (vec_len stock.old) wanted }
    ensures room { vec_capacity stock.new ≤ max (vec_capacity stock.old) wanted }
{
    let missing = wanted.saturating_sub(stock.len() as u64);
    stock.reserve_exact(missing as usize)?;
    for _more in 0..missing {
        let blank = Blank::new(alloc)?;
        stock.push_reserved(blank);
    }
    Ok(())
}
