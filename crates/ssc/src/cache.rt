//! The state of a cache, its counts, and the memory that is taken ahead of a write.
ghost use Rattle.std.specs.Prelude.{◌≡◌, ◌≤◌, ◌+◌, ◌*◌, true, false, IsOk, OnOk, OnErr, count_by, length};
ghost use Rattle.std.specs.FinMap.{entries};
ghost use Rattle.ft_base.specs.Contents.{Contents};
ghost use Rattle.ft_base.specs.Layout.{most_page_records};
ghost use Rattle.cache_model.specs.Buckets.{AreBucketsFor, AreFewFor};
ghost use Rattle.cache_model.specs.Cache.{dirty_groups, is_write};
ghost use Rattle.cache_model.specs.CacheList.{CacheList};
ghost use Rattle.mapping.specs.Bits.{chosen_of};
ghost use Rattle.mapping.specs.Counts.{held_count};
ghost use Rattle.mapping.specs.declared.bits.Choice.TheVariants.{Dirty};
ghost use Rattle.ssc.specs.Listed.{dirty_pages};
ghost use Rattle.ssc.specs.CacheState.{Holds, HoldsBeside, HasMemory, IsAsBefore, TookRoom, entries_of, geometry_of, log_room, open_room, pending};

use crate::earlier::Places;
use merge_engine::Parts;
use std::alloc::AllocError;

/// A cache over the flash that it left.
#[derive(Drop)]
pub struct Ssc {
    pub(crate) parts: Parts,
    // What the address of each write that is only buffered had just before it.
    pub(crate) before: Places,
    // The memory of the next write is ready.
    pub(crate) ready: bool,
    // A command that writes failed or was cut: the flash must be opened again.
    pub(crate) stopped: bool,
}

impl Ssc {
    /// Whether a command that writes failed or was cut, so that the flash must be opened again. A read or a scrub that
    /// fails doesn't set this.
    pub fn is_stopped(&self) -> bool
        ensures { result ≡ self.now.stopped }
    {
        self.stopped
    }

    /// How many groups have a dirty block: at most C.
    pub fn dirty_groups(&self) -> u32
        ensures count { (contents : Contents) (s : CacheList) → Holds self.now contents s
            → result ≡ length (dirty_groups (geometry_of self.now) s) }
        ensures most { (contents : Contents) (s : CacheList) → Holds self.now contents s → result ≤ (geometry_of self.now).c }
    {
        self.parts.map.dirty_groups()
    }

    /// The dirty pages of a group: the bit of value 2^i for its address i.
    pub fn dirty_bits(&self, group: u64) -> u128
        ensures bits { (contents : Contents) (s : CacheList) → Holds self.now contents s
            → result ≡ chosen_of Dirty (geometry_of self.now) (entries_of self.now) group }
        ensures list { (contents : Contents) (s : CacheList) → Holds self.now contents s
            → result ≡ dirty_pages (geometry_of self.now) s group }
    {
        self.parts.map.dirty_bits(group)
    }

    /// How many addresses are held.
    pub fn held(&self) -> u64
        ensures count { result ≡ held_count (entries_of self.now) }
        ensures list { (contents : Contents) (s : CacheList) → Holds self.now contents s → result ≡ length (entries s) }
    {
        self.parts.map.held()
    }

    /// The buckets of the map of page-mapped addresses: none, or a power of two that is at least 32. At least a quarter
    /// of them is free. There are at most 32, or a number half of which is too few for the pages of the log blocks and
    /// the records of one page.
    pub fn buckets(&self) -> u64
        ensures count { result ≡ self.now.parts.map.buckets }
        ensures bound { AreBucketsFor (entries_of self.now) result }
        ensures few { (contents : Contents) (s : CacheList) → Holds self.now contents s
            → AreFewFor ((geometry_of self.now).l * (geometry_of self.now).p + most_page_records) result }
    {
        self.parts.map.buckets()
    }

    /// How many changes are buffered.
    pub fn buffered(&self) -> u32
        ensures { result ≡ length (pending self.now) }
    {
        self.parts.log.buffered()
    }

    /// How many of them are writes.
    pub fn later(&self) -> u32
        ensures { (contents : Contents) (s : CacheList) → Holds self.now contents s
            → result ≡ count_by is_write (pending self.now) }
    {
        self.before.len()
    }

    /// The log pages that are left before a checkpoint.
    pub fn log_room(&self) -> u32
        ensures { (contents : Contents) (s : CacheList) → Holds self.now contents s → result ≡ log_room self.now }
    {
        self.parts.log.room()
    }

    /// The pages of the open log block that are left.
    pub fn open_room(&self) -> u32
        ensures { result ≡ open_room self.now }
    {
        self.parts.log_blocks.room()
    }

    /// Takes the memory of the next write: for its page, and for the groups that it may merge. On `Err` nothing has
    /// changed, except the order of the map's records and its buckets, which may have doubled as that memory needs.
    pub fn reserve(&mut self) -> Result<(), AllocError>
        ensures holds { (contents : Contents) (s : CacheList) (h : Holds self.old contents s)
            → HoldsBeside self.new contents s h.waiting }
        ensures same { geometry_of self.new ≡ geometry_of self.old }
        ensures parts { self.new.parts ≡ record self.old.parts { map = self.new.parts.map } }
        ensures entries { entries_of self.new ≡ entries_of self.old }
        ensures pending { pending self.new ≡ pending self.old }
        ensures stopped { self.new.stopped ≡ self.old.stopped }
        ensures places { self.new.before ≡ self.old.before }
        ensures ready { OnOk result (self.new.ready ≡ true) }
        ensures memory { OnOk result (self.old.ready ≡ false → HasMemory self.new.parts) }
        ensures room { OnOk result (self.old.ready ≡ false → TookRoom self.old.parts self.new.parts) }
        ensures there { self.old.ready ≡ true → IsOk result × (self.new ≡ self.old) }
        ensures refused { OnErr result ((self.old.ready ≡ false) × IsAsBefore self.old self.new) }
    {
        if !self.ready {
            self.parts.map.reserve(1, self.parts.geometry.p())?;
            self.ready = true;
        }
        Ok(())
    }
}
