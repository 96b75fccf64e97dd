//! The entries in two packed maps: log blocks' entries by address, and data blocks by group.
ghost use Rattle.std.specs.Prelude.{◌≡◌, ◌<◌, ◌≤◌, ◌+◌, ◌-◌, ◌*◌, ◌/◌, ◌%◌, ◌^◌, ◌==◌, ℕ, None, false, length, max, IfSome, IfNone, IsSome, OnOk, OnErr, if◌then◌else◌};
ghost use Rattle.std.specs.FinMap as map;
ghost use Rattle.cache_model.specs.Records.{no_entries, after, has_bit, in_log_block};
ghost use Rattle.ft_base.specs.declared.record.Record.TheVariants.{SetPage, Remove, Clean, SetGroup, RemoveGroup};
ghost use Rattle.block_map.specs.PageSets.{IsSoundBlock};
ghost use Rattle.sparse_map.specs.Packed.{map_of, buckets_of, IsSound};
ghost use Rattle.mapping.specs.declared.bits.Choice.TheVariants.{Mapped};
ghost use Rattle.mapping.specs.Bits.{chosen_of, IsDataBlock, IsBlockOf};
ghost use Rattle.mapping.specs.Checkpoint.{IsCheckpointOf, HasWindow};
ghost use Rattle.mapping.specs.Room.{LogsGrew, BlocksGrew, KeepsTables, KeepsReserved};
ghost use Rattle.cache_model.specs.Buckets.{AreBucketsFor};
ghost use Rattle.mapping.specs.Counts.{place_if_logged};
ghost use Rattle.mapping.specs.Packed.{page_in, IsLeftOut};

use crate::checkpoint::{offer_all_blocks, offer_all_pages};
use crate::page_at::PageAt;
use block_map::BlockAt;
use block_map::page_set::PAGES;
use cache_model::Entry;
use ft_base::{Geometry, Place, Record};
use sparse_map::SparseMap;
use std::alloc::{AllocError, Global};
use std::marker::Model;

/// The entries of a map, and room for more.
#[derive(Drop)]
pub struct Held {
    geometry: Geometry,
    pages: SparseMap<PageAt>,
    blocks: SparseMap<BlockAt>,
}

impl Model for Held {
    ghost use Rattle.std.specs.Coded.{codes};
    ghost use Rattle.ft_base.specs.contracts.geometry.Geometry as geometry_row;
    ghost use Rattle.ft_base.specs.contracts.record.Record as record_row;
    ghost use Rattle.sparse_map.specs.Packed.{map_of, buckets_of};
    ghost use Rattle.sparse_map.specs.Slots.{items_of};
    ghost use Rattle.mapping.specs.MapValue.{entries_code};
    ghost use Rattle.mapping.specs.Packed.{HeldValue, packed_entries, records_of, IsPackedMap};

    ghost Value = { HeldValue };

    ghost coded = { Prim.hlevel (codes, entries_code, geometry_row.the_row.coded, record_row.the_row.coded) };

    ghost view = { λ h. record {
      geometry = h.geometry;
      entries = packed_entries h.geometry (map_of h.pages) (map_of h.blocks);
      spare_pages = h.pages.spare;
      spare_blocks = h.blocks.spare;
      records = records_of h.geometry
          (packed_entries h.geometry (map_of h.pages) (map_of h.blocks)) (items_of h.pages.slots) (items_of h.blocks.slots);
      buckets = buckets_of h.pages;
      group_buckets = buckets_of h.blocks;
    } };

    ghost invariant = { λ h. IsPackedMap h.geometry h.pages h.blocks };
}

impl Held {
    /// No entries, and no room.
    pub fn new(alloc: Global, geometry: &Geometry) -> Held
        ensures geometry { result.geometry ≡ geometry.now }
        ensures entries { result.entries ≡ no_entries }
        ensures spare { (result.spare_pages ≡ 0) × (result.spare_blocks ≡ 0) }
        ensures buckets { (result.buckets ≡ 0) × (result.group_buckets ≡ 0) }
    {
        Held {
            geometry: *geometry,
            pages: SparseMap::new(alloc),
            blocks: SparseMap::new(alloc),
        }
    }

    /// The entry of an address.
    pub fn entry(&self, lba: u64) -> Option<Entry>
        ensures { result ≡ map.get self.now.entries lba }
    {
        match mapped_page(&self.pages, lba) {
            Some(page) => Some(log_entry(&page)),
            None => entry_in_block(&self.geometry, &self.blocks, lba),
        }
    }

    /// The page and the mark of an address in a log block. `None` if the address isn't held, or stands in a data block.
    pub fn logged(&self, lba: u64) -> Option<(Place, bool)>
        ensures { result ≡ place_if_logged (map.get self.now.entries lba) }
    {
        match mapped_page(&self.pages, lba) {
            Some(page) => Some((page.place(), page.is_dirty())),
            None => None,
        }
    }

    /// The entry of a page of a group, whose data block is given. Only a page that the block lacks is looked up.
    pub fn entry_beside(&self, block: &Option<BlockAt>, group: u64, page: u32) -> Option<Entry>
        requires group { group ≤ (self.now.geometry.size - 1) / self.now.geometry.p }
        requires page { page < self.now.geometry.p }
        requires block { IsBlockOf self.now.geometry self.now.entries group block.now }
        ensures { result ≡ map.get self.now.entries (group * self.now.geometry.p + page) }
    {
        match entry_in(block, page) {
            Some(entry) => Some(entry),
            None => match mapped_page(&self.pages, group * self.geometry.p as u64 + page as u64) {
                Some(at) => Some(log_entry(&at)),
                None => None,
            },
        }
    }

    /// The data block of a group, with its present and its dirty pages.
    pub fn block_of(&self, group: u64) -> Option<BlockAt>
        ensures some { IfSome result (IsDataBlock self.now.geometry self.now.entries group) }
        ensures none { IfNone result (chosen_of Mapped self.now.geometry self.now.entries group ≡ 0) }
    {
        block_at(&self.blocks, group)
    }

    /// Makes room for `pages` new mapped pages.
    pub fn reserve_pages(&mut self, pages: u32) -> Result<(), AllocError>
        requires { length (map.entries self.old.entries) + pages ≤ 2 ^ 30 }
        ensures geometry { self.new.geometry ≡ self.old.geometry }
        ensures entries { self.new.entries ≡ self.old.entries }
        ensures pages { OnOk result (self.new.spare_pages ≡ max self.old.spare_pages pages) }
        ensures buckets { OnOk result (LogsGrew self.old self.new pages) }
        ensures group_buckets { self.new.group_buckets ≡ self.old.group_buckets }
        ensures blocks { self.new.spare_blocks ≡ self.old.spare_blocks }
        ensures err { OnErr result (self.new ≡ self.old) }
    {
        self.pages.reserve(pages)
    }

    /// Makes room for `blocks` new data blocks.
    pub fn reserve_blocks(&mut self, blocks: u32) -> Result<(), AllocError>
        requires { length (map.entries self.old.entries) + blocks ≤ 2 ^ 30 }
        ensures geometry { self.new.geometry ≡ self.old.geometry }
        ensures entries { self.new.entries ≡ self.old.entries }
        ensures blocks { OnOk result (self.new.spare_blocks ≡ max self.old.spare_blocks blocks) }
        ensures pages { self.new.spare_pages ≡ self.old.spare_pages }
        ensures buckets { self.new.buckets ≡ self.old.buckets }
        ensures group_buckets { OnOk result (BlocksGrew self.old self.new blocks) }
        ensures err { OnErr result (self.new ≡ self.old) }
    {
        self.blocks.reserve(blocks)
    }

    /// Puts in a mapped page of an address that has no entry.
    pub fn put_page(&mut self, lba: u64, place: Place, dirty: bool)
        requires absent { map.get self.old.entries lba ≡ None }
        requires page { place.page < self.old.geometry.p }
        requires room { 1 ≤ self.old.spare_pages }
        ensures tables { KeepsTables self.old self.new }
        ensures entries { self.new.entries ≡ after self.old.geometry (SetPage lba place dirty) self.old.entries }
        ensures pages { self.new.spare_pages + 1 ≡ self.old.spare_pages }
        ensures blocks { self.new.spare_blocks ≡ self.old.spare_blocks }
    {
        let _ = self.pages.insert_ready(lba, PageAt::new(place, dirty));
    }

    /// Puts in the data block of a group that has no entry.
    pub fn put_block(&mut self, group: u64, block: BlockAt)
        requires absent { (i : ℕ) → i < self.old.geometry.p → map.get self.old.entries (group * self.old.geometry.p + i) ≡ None }
        requires sound { IsSoundBlock block }
        requires below { (i : ℕ) → self.old.geometry.p ≤ i → has_bit block.present i ≡ false }
        requires room { 1 ≤ self.old.spare_blocks }
        ensures tables { KeepsTables self.old self.new }
        ensures entries { self.new.entries ≡ after self.old.geometry (SetGroup group block.block block.present block.dirty)
            self.old.entries }
        ensures pages { self.new.spare_pages ≡ self.old.spare_pages }
        ensures blocks { self.new.spare_blocks + 1 ≡ self.old.spare_blocks }
    {
        let _ = self.blocks.insert_ready(group, block);
    }

    /// Takes out the entry of an address.
    pub fn remove(&mut self, lba: u64)
        ensures room { KeepsReserved self.old self.new }
        ensures entries { self.new.entries ≡ after self.old.geometry (Remove lba) self.old.entries }
    {
        let pages = self.geometry.p as u64;
        let _ = self.pages.remove(lba);
        take_out(
            &self.geometry,
            &mut self.blocks,
            lba / pages,
            (lba % pages) as u32,
        );
    }

    /// Makes the entry of an address clean, if there is one.
    pub fn clean(&mut self, lba: u64)
        ensures room { KeepsReserved self.old self.new }
        ensures entries { self.new.entries ≡ after self.old.geometry (Clean lba) self.old.entries }
    {
        let pages = self.geometry.p as u64;
        match mapped_page(&self.pages, lba) {
            Some(page) => {
                let _ = self.pages.insert_ready(lba, page.cleaned());
            }
            None => match block_at(&self.blocks, lba / pages) {
                Some(block) => {
                    let clean = block.cleaned((lba % pages) as u32);
                    let _ = self.blocks.insert_ready(lba / pages, clean);
                }
                None => {}
            },
        }
    }

    /// Takes out the entries of a group.
    pub fn remove_group(&mut self, group: u64)
        requires { group ≤ (self.old.geometry.size - 1) / self.old.geometry.p }
        ensures room { KeepsReserved self.old self.new }
        ensures entries { self.new.entries ≡ after self.old.geometry (RemoveGroup group) self.old.entries }
    {
        let block = self.blocks.remove(group);
        remove_pages(&mut self.pages, &self.geometry, group, &block);
    }

    /// The buckets of the mapped pages: none, or a power of two that is at least 32. At least a quarter of them is
    /// free.
    pub fn buckets(&self) -> u64
        ensures count { result ≡ self.now.buckets }
        ensures bound { AreBucketsFor self.now.entries result }
    {
        self.pages.buckets()
    }

    /// How many records a checkpoint has.
    pub fn checkpoint_len(&self) -> u64
        ensures count { result ≡ length self.now.records }
        ensures listing { IsCheckpointOf self.now.geometry self.now.entries self.now.records }
    {
        self.blocks.len() + self.pages.len()
    }

    /// Puts the records of a checkpoint into a window that begins with number `from`.
    pub fn offer_records(&self, from: u32, out: &mut [Record])
        ensures { HasWindow self.now.records from out.new }
    {
        let before = offer_all_blocks(&self.blocks, 0, from as usize, out);
        let _ = offer_all_pages(&self.pages, before, from as usize, out);
    }
}

/// The mapped page of an address.
fn mapped_page(pages: &SparseMap<PageAt>, lba: u64) -> Option<PageAt>
    ensures { result ≡ map.get (map_of pages.now) lba }
{
    match pages.get(lba) {
        Some(page) => Some(*page),
        None => None,
    }
}

/// The entry of an address that stands in a mapped page.
fn log_entry(page: &PageAt) -> Entry
    ensures { result ≡ in_log_block page.now.place page.now.dirty }
{
    Entry {
        place: page.place(),
        dirty: page.is_dirty(),
        block_mapped: false,
    }
}

/// The data block of a group.
fn block_at(blocks: &SparseMap<BlockAt>, group: u64) -> Option<BlockAt>
    ensures { result ≡ map.get (map_of blocks.now) group }
{
    match blocks.get(group) {
        Some(block) => Some(*block),
        None => None,
    }
}

/// The entry of a page of a data block.
fn entry_in(block: &Option<BlockAt>, page: u32) -> Option<Entry>
    requires { page < PAGES }
    ensures { result ≡ page_in block.now page }
{
    match block {
        Some(found) if found.has(page) => Some(Entry {
            place: Place {
                block: found.block(),
                page,
            },
            dirty: found.is_dirty(page),
            block_mapped: true,
        }),
        _ => None,
    }
}

/// The entry of an address in the data block of its group.
fn entry_in_block(geometry: &Geometry, blocks: &SparseMap<BlockAt>, lba: u64) -> Option<Entry>
    ensures { result ≡ page_in (map.get (map_of blocks.now) (lba / geometry.now.p)) (lba % geometry.now.p) }
{
    let pages = geometry.p as u64;
    entry_in(&block_at(blocks, lba / pages), (lba % pages) as u32)
}

/// Leaves a page out of the data block of a group.
fn take_out(geometry: &Geometry, blocks: &mut SparseMap<BlockAt>, group: u64, page: u32)
    requires page { page < geometry.now.p }
    requires sound { IsSound blocks.old }
    ensures left { IsLeftOut geometry.now (map_of blocks.old) (map_of blocks.new) group page }
    ensures spare { blocks.new.spare ≡ blocks.old.spare }
    ensures buckets { buckets_of blocks.new ≡ buckets_of blocks.old }
    ensures sound { IsSound blocks.new }
{
    let Some(block) = block_at(blocks, group) else {
        return;
    };
    match block.without(page) {
        Some(rest) => {
            let _ = blocks.insert_ready(group, rest);
        }
        None => {
            let _ = blocks.remove(group);
        }
    }
}

/// Takes out the mapped page of an address. It has none if the data block of its group has its page.
fn remove_beside(pages: &mut SparseMap<PageAt>, lba: u64, block: &Option<BlockAt>, page: u32)
    requires page { page < PAGES }
    requires apart { IsSome (page_in block.now page) → map.get (map_of pages.old) lba ≡ None }
    requires sound { IsSound pages.old }
    ensures map { map_of pages.new ≡ map.remove (map_of pages.old) lba }
    ensures spare { pages.new.spare ≡ pages.old.spare }
    ensures buckets { buckets_of pages.new ≡ buckets_of pages.old }
    ensures sound { IsSound pages.new }
{
    match entry_in(block, page) {
        Some(_) => {}
        None => {
            let _ = pages.remove(lba);
        }
    }
}

/// Takes out the mapped pages of a group, which has this data block. A page of the block has no mapped page beside it.
fn remove_pages(
    pages: &mut SparseMap<PageAt>,
    geometry: &Geometry,
    group: u64,
    block: &Option<BlockAt>,
)
    requires apart { (i : ℕ) → i < geometry.now.p → IsSome (page_in block.now i) → map.get (map_of pages.old) (group * geometry.now.p + i) ≡ None }
    requires group { group ≤ (geometry.now.size - 1) / geometry.now.p }
    requires sound { IsSound pages.old }
    ensures pages { (q : ℕ) → map.get (map_of pages.new) q ≡ (if q / geometry.now.p == group then None else map.get (map_of pages.old) q) }
    ensures spare { pages.new.spare ≡ pages.old.spare }
    ensures buckets { buckets_of pages.new ≡ buckets_of pages.old }
    ensures sound { IsSound pages.new }
{
    for page in 0..geometry.p {
        remove_beside(pages, group * geometry.p as u64 + page as u64, block, page);
    }
}
