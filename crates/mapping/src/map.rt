//! The map that the layers above use: look-ups, counts, room, and changes with a test whether they fit.
ghost use Rattle.std.specs.Prelude.{◌≡◌, ◌⊎◌, ◌<◌, ◌≤◌, ◌+◌, ◌*◌, ◌-◌, ◌^◌, ℕ, length, min, take, drop, IfOk, OnOk, OnErr, IfSome, IfNone, option_map, max, IsTrue, ◌↔◌};
ghost use Rattle.std.specs.FinMap.{get};
ghost use Rattle.cache_model.specs.Records.{no_entries, after};
ghost use Rattle.cache_model.specs.Entries.{Fits, IsMap, blocks_with, page_mapped};
ghost use Rattle.mapping.specs.MapValue.{pages_taken, groups_taken};
ghost use Rattle.mapping.specs.Counts.{held_count, dirty_count, dirty_group_count, data_block_count, Owns, place_and_mark, place_if_logged};
ghost use Rattle.mapping.specs.declared.bits.Choice.TheVariants.{Held as held_choice, Dirty, Mapped};
ghost use Rattle.mapping.specs.Checkpoint.{IsCheckpointOf};
ghost use Rattle.mapping.specs.Candidates.{AreCandidates};
ghost use Rattle.mapping.specs.Numbers.{pool_pages, HasNumber, HasNone, AreNumbered, StandsNoneIn, IsGroupIn, IsNoDataBlock};
ghost use Rattle.mapping.specs.Bits.{chosen_of, IsDataBlock};
ghost use Rattle.cache_model.specs.Buckets.{AreBucketsFor};
ghost use Rattle.mapping.specs.Room.{GrewForPages, GrewForGroups};

use crate::bits::Choice;
use crate::candidates::Candidates;
use crate::fitting::is_in_pool;
use crate::grouping::fits;
use crate::held::Held;
use crate::index::Index;
use crate::marks::{MarkedGroups, recount, recount_dirty};
use crate::numbers::{pool_pages, pool_place};
use crate::ranges::{change_entries, span_of};
use crate::seeking::{Sought, found_in};
use crate::sets::{PageSets, chosen_any, page_sets};
use block_map::BlockAt;
use block_map::page_set::PageSet;
use ft_base::{Geometry, Place, Record};
use std::alloc::{AllocError, Global};
use std::marker::Model;

/// Which page of the flash has the block of each held address.
#[derive(Drop)]
pub struct Map {
    geometry: Geometry,
    held: Held,
    index: Index,
    candidates: Candidates,
    marked: MarkedGroups,
    spare_pages: u32,
    spare_groups: u32,
}

impl Model for Map {
    ghost use Rattle.std.specs.Coded.{codes};
    ghost use Rattle.ft_base.specs.contracts.geometry.Geometry as geometry_row;
    ghost use Rattle.ft_base.specs.contracts.record.Record as record_row;
    ghost use Rattle.mapping.specs.MapValue.{MapValue, entries_code};
    ghost use Rattle.mapping.specs.Kept.{KeepsMap};

    ghost Value = { MapValue };

    ghost coded = { Prim.hlevel (codes, entries_code, geometry_row.the_row.coded, record_row.the_row.coded) };

    ghost view = { λ m. record {
      geometry = m.geometry;
      entries = m.held.entries;
      spare_pages = m.spare_pages;
      spare_groups = m.spare_groups;
      records = m.held.records;
      buckets = m.held.buckets;
      group_buckets = m.held.group_buckets;
    } };

    ghost invariant = { λ m. KeepsMap m.geometry m.held m.index m.candidates.counts.items m.marked m.spare_pages m.spare_groups };
}

impl Map {
    /// A map without entries, with no room and no bucket.
    pub fn new(alloc: Global, geometry: &Geometry) -> Result<Map, AllocError>
        ensures geometry { IfOk result (λ m. m.geometry ≡ geometry.now) }
        ensures entries { IfOk result (λ m. m.entries ≡ no_entries) }
        ensures pages { IfOk result (λ m. m.spare_pages ≡ 0) }
        ensures groups { IfOk result (λ m. m.spare_groups ≡ 0) }
        ensures buckets { IfOk result (λ m. (m.buckets ≡ 0) × (m.group_buckets ≡ 0)) }
    {
        Ok(Map {
            geometry: *geometry,
            held: Held::new(alloc, geometry),
            index: Index::new(alloc, geometry)?,
            candidates: Candidates::new(alloc, geometry)?,
            marked: MarkedGroups::new(alloc, geometry)?,
            spare_pages: 0,
            spare_groups: 0,
        })
    }

    /// The page of an address, and whether it is dirty.
    pub fn place(&self, lba: u64) -> Option<(Place, bool)>
        ensures place { result ≡ option_map place_and_mark (get self.now.entries lba) }
        ensures is_map { IsMap self.now.geometry self.now.entries }
    {
        match self.held.entry(lba) {
            Some(entry) => Some((entry.place, entry.dirty)),
            None => None,
        }
    }

    /// The page of an address in a log block, and whether it is dirty. `None` if the address isn't held, or stands in
    /// the data block of its group. It costs one look-up, for a caller that has the data block in hand.
    pub fn logged_place(&self, lba: u64) -> Option<(Place, bool)>
        ensures { result ≡ place_if_logged (get self.now.entries lba) }
    {
        self.held.logged(lba)
    }

    /// How many numbers the entries have, from 0 on: one for each page of the pool.
    pub fn numbers(&self) -> u32
        ensures count { result ≡ pool_pages self.now.geometry }
        ensures each { AreNumbered self.now.geometry self.now.entries result }
        ensures is_map { IsMap self.now.geometry self.now.entries }
    {
        pool_pages(&self.geometry)
    }

    /// The entry of number `i`, in the order of the pool's pages: the address and its page. `None` if no entry has the
    /// number.
    pub fn nth(&self, i: u32) -> Option<(u64, Place)>
        ensures some { IfSome result (HasNumber self.now.geometry self.now.entries i) }
        ensures none { IfNone result (HasNone self.now.geometry self.now.entries i) }
        ensures is_map { IsMap self.now.geometry self.now.entries }
    {
        if i >= self.numbers() {
            return None;
        }
        let at = pool_place(&self.geometry, i);
        match self.owner(at) {
            Some(lba) => Some((lba, at)),
            None => None,
        }
    }

    /// The address whose block stands at this place.
    pub fn owner(&self, at: Place) -> Option<u64>
        ensures owner { IfSome result (Owns self.now.entries at) }
        ensures none { IfNone result ((a : ℕ) → ¬ Owns self.now.entries at a) }
    {
        if !is_in_pool(&self.geometry, at) {
            return None;
        }
        self.index.owner(&self.geometry, at)
    }

    /// Whether no entry stands in an erase block.
    pub fn stands_none_in(&self, block: u32) -> bool
        ensures { IsTrue result ↔ StandsNoneIn self.now.entries block }
    {
        if block < self.geometry.first_pool() {
            return true;
        }
        if block >= self.geometry.blocks() {
            return true;
        }
        found_in(&self.held, &self.index, &self.geometry, Sought::Any, block).is_none()
    }

    /// The group whose data block an erase block is. `None` if it is not a data block.
    pub fn group_in(&self, block: u32) -> Option<u64>
        ensures some { IfSome result (IsGroupIn self.now.geometry self.now.entries block) }
        ensures none { IfNone result (IsNoDataBlock self.now.entries block) }
    {
        if block < self.geometry.first_pool() {
            return None;
        }
        if block >= self.geometry.blocks() {
            return None;
        }
        match found_in(
            &self.held,
            &self.index,
            &self.geometry,
            Sought::Mapped,
            block,
        ) {
            Some(lba) => Some(lba / self.geometry.p as u64),
            None => None,
        }
    }

    /// Whether a change may be applied next. It may if it names only addresses, groups and pages of this geometry, and
    /// leaves a map of it, and only then.
    pub fn fits(&self, change: &Record) -> bool
        ensures { IsTrue result ↔ Fits self.now.geometry change.now self.now.entries }
    {
        fits(
            &self.held,
            &self.index,
            &self.marked,
            &self.geometry,
            change,
        )
    }

    /// Makes room for `pages` changes of a page and `groups` changes of a group. The buckets double as often as the
    /// entries and that room ask, and no oftener; they start from 32 if there are none. On `Err` the entries and the
    /// room are unchanged, though the page-mapped part may have got its buckets.
    pub fn reserve(&mut self, pages: u32, groups: u32) -> Result<(), AllocError>
        requires pages { pages ≤ 2 ^ 20 }
        requires groups { groups ≤ 2 ^ 20 }
        ensures geometry { self.new.geometry ≡ self.old.geometry }
        ensures entries { self.new.entries ≡ self.old.entries }
        ensures pages { OnOk result (self.new.spare_pages ≡ max self.old.spare_pages pages) }
        ensures groups { OnOk result (self.new.spare_groups ≡ max self.old.spare_groups groups) }
        ensures buckets { OnOk result (GrewForPages self.old self.new self.new.spare_pages) }
        ensures group_buckets { OnOk result (GrewForGroups self.old self.new self.new.spare_groups) }
        ensures err_pages { OnErr result (self.new.spare_pages ≡ self.old.spare_pages) }
        ensures err_groups { OnErr result (self.new.spare_groups ≡ self.old.spare_groups) }
        ensures err_buckets { OnErr result ((self.new.buckets ≡ self.old.buckets)
            ⊎ GrewForPages self.old self.new (max self.old.spare_pages pages)) }
        ensures err_group_buckets { OnErr result (self.new.group_buckets ≡ self.old.group_buckets) }
    {
        let pages = self.spare_pages.max(pages);
        let groups = self.spare_groups.max(groups);
        self.held.reserve_pages(pages)?;
        self.held.reserve_blocks(groups)?;
        self.spare_pages = pages;
        self.spare_groups = groups;
        Ok(())
    }

    /// Applies a change that fits and has room.
    pub fn apply(&mut self, change: &Record)
        requires fits { Fits self.old.geometry change.now self.old.entries }
        requires pages { pages_taken change.now ≤ self.old.spare_pages }
        requires groups { groups_taken change.now ≤ self.old.spare_groups }
        ensures geometry { self.new.geometry ≡ self.old.geometry }
        ensures entries { self.new.entries ≡ after self.old.geometry change.now self.old.entries }
        ensures pages { self.new.spare_pages + pages_taken change.now ≡ self.old.spare_pages }
        ensures groups { self.new.spare_groups + groups_taken change.now ≡ self.old.spare_groups }
        ensures buckets { self.new.buckets ≡ self.old.buckets }
        ensures group_buckets { self.new.group_buckets ≡ self.old.group_buckets }
    {
        let geometry = self.geometry;
        let span = span_of(&geometry, change);
        let all_dirty = self.index.dirty;
        let before = self.held.block_of(span.group);
        let now = change_entries(
            &mut self.held,
            &mut self.index,
            &geometry,
            change,
            &before,
            span,
        );
        // The change concerns this group alone. So its count changes as the count of all does.
        let count = self.marked.dirty.count(span.group);
        let dirty = recount_dirty(count, all_dirty, self.index.dirty);
        self.marked.dirty.set(span.group, dirty);
        self.marked.data_blocks = recount(self.marked.data_blocks, before.is_some(), now.is_some());
        self.candidates.note(&geometry, before, now, dirty > 0);
        self.spare_pages -= taken_pages(change);
        self.spare_groups -= taken_groups(change);
    }

    /// A number for each erase block of the pool, from the first one on. For the data block of a group with no dirty
    /// address it is how many of its pages are held. For every other block it is 65,535.
    pub fn candidates(&self) -> &[u16]
        ensures candidates { AreCandidates self.now.geometry self.now.entries result.now }
        ensures is_map { IsMap self.now.geometry self.now.entries }
    {
        self.candidates.counts()
    }

    /// How many addresses are held.
    pub fn held(&self) -> u64
        ensures count { result ≡ held_count self.now.entries }
        ensures is_map { IsMap self.now.geometry self.now.entries }
    {
        self.index.held as u64
    }

    /// How many addresses are dirty.
    pub fn dirty_entries(&self) -> u64
        ensures { result ≡ dirty_count self.now.entries }
    {
        self.index.dirty as u64
    }

    /// How many groups have a dirty address: at most C.
    pub fn dirty_groups(&self) -> u32
        ensures count { result ≡ dirty_group_count self.now.geometry self.now.entries }
        ensures most { result ≤ self.now.geometry.c }
    {
        self.marked.dirty.len() as u32
    }

    /// How many groups have a data block: at most C.
    pub fn data_blocks(&self) -> u32
        ensures count { result ≡ data_block_count self.now.geometry self.now.entries }
        ensures most { result ≤ self.now.geometry.c }
    {
        self.marked.data_blocks
    }

    /// The data block of a group, with its present and its dirty pages. `None` if no address of the group stands in a
    /// data block.
    pub fn block_of(&self, group: u64) -> Option<BlockAt>
        ensures some { IfSome result (IsDataBlock self.now.geometry self.now.entries group) }
        ensures none { IfNone result (chosen_of Mapped self.now.geometry self.now.entries group ≡ 0) }
    {
        self.held.block_of(group)
    }

    /// The held pages of a group: the bit of value 2^i for its address i.
    pub fn held_bits(&self, group: u64) -> PageSet
        ensures { result ≡ chosen_of held_choice self.now.geometry self.now.entries group }
    {
        chosen_any(&self.held, &self.geometry, Choice::Held, group)
    }

    /// The dirty pages of a group: the bit of value 2^i for its address i.
    pub fn dirty_bits(&self, group: u64) -> PageSet
        ensures { result ≡ chosen_of Dirty self.now.geometry self.now.entries group }
    {
        if self.marked.dirty.count(group) == 0 {
            return 0;
        }
        chosen_any(&self.held, &self.geometry, Choice::Dirty, group)
    }

    /// The held and the dirty pages of a group, in one walk over its pages.
    pub fn page_sets(&self, group: u64) -> PageSets
        ensures held { result.held ≡ chosen_of held_choice self.now.geometry self.now.entries group }
        ensures dirty { result.dirty ≡ chosen_of Dirty self.now.geometry self.now.entries group }
    {
        page_sets(&self.held, &self.geometry, group)
    }

    /// How many records a checkpoint of this map has: one for each group with a data block, and one for
    /// each page-mapped address.
    pub fn checkpoint_len(&self) -> u32
        ensures count { result ≡ length self.now.records }
        ensures listing { IsCheckpointOf self.now.geometry self.now.entries self.now.records }
        ensures is_map { IsMap self.now.geometry self.now.entries }
    {
        self.held.checkpoint_len() as u32
    }

    /// Puts the records of a checkpoint at the front of `out`, from number `from` on, as far as they or `out` go, and
    /// says how many. Their order stays while the map isn't changed.
    pub fn checkpoint_part(&self, from: u32, out: &mut [Record]) -> u32
        requires { from ≤ length self.now.records }
        ensures count { result ≡ min (length out.old) (length self.now.records - from) }
        ensures records { take result out.new ≡ take result (drop from self.now.records) }
    {
        self.held.offer_records(from, out);
        let left = (self.checkpoint_len() - from) as usize;
        let count = out.len().min(left);
        count as u32
    }

    /// How many erase blocks have page-mapped entries: at most L.
    pub fn log_blocks(&self) -> u32
        ensures count { result ≡ length (blocks_with page_mapped self.now.entries) }
        ensures most { result ≤ self.now.geometry.l }
    {
        self.index.logs.used
    }

    /// The buckets of the page-mapped part: none, or a power of two that is at least 32. At least a quarter of them is
    /// free.
    pub fn buckets(&self) -> u64
        ensures count { result ≡ self.now.buckets }
        ensures bound { AreBucketsFor self.now.entries result }
    {
        self.held.buckets()
    }
}

/// How much room for pages a change takes.
fn taken_pages(change: &Record) -> u32
    ensures { result ≡ pages_taken change.now }
{
    match *change {
        Record::SetPage { .. } => 1,
        _ => 0,
    }
}

/// How much room for groups a change takes.
fn taken_groups(change: &Record) -> u32
    ensures { result ≡ groups_taken change.now }
{
    match *change {
        Record::SetGroup { .. } => 1,
        _ => 0,
    }
}
