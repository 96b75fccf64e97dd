//! The commands of the cache: what each does to the list, what a crash within it leaves, and what it costs.
ghost use Rattle.std.specs.Prelude.{◌≡◌, ◌≤◌, ◌<◌, ◌+◌, ◌-◌, ◌++◌, [], ℕ, length, true, false, Some, None, OnOk, OnErr, IfOk, IsOk, IsErrOf};
ghost use Rattle.std.specs.FinMap.{get};
ghost use Rattle.ft_base.specs.Contents.{Contents};
ghost use Rattle.ft_base.specs.Layout.{page_records};
ghost use Rattle.ft_media.specs.Drives.{OnlyDrives};
ghost use Rattle.ft_media.specs.Reads.{ReadsFlash};
ghost use Rattle.ft_media.specs.Media.{program_counted};
ghost use Rattle.cache_model.specs.Cache.{Inserted, Cleaned, Written, undo, written_dirty, written_clean, evicted, made_clean, dirty_between, written_block};
ghost use Rattle.cache_model.specs.CacheList.{CacheList};
ghost use Rattle.cache_model.specs.declared.entry.Entry.{Entry};
ghost use Rattle.merge_engine.specs.Agreement.{PartsAgree, Lists};
ghost use Rattle.ssc.specs.Errors.{ssc_failed, ssc_lost};
ghost use Rattle.ssc.specs.CacheState.{HasMemory, Holds, IsUp, entries_of, geometry_of, log_room, open_room, pending};
ghost use Rattle.ssc.specs.Kept.{CostsCheckpoint, CostsClean, CostsCommit, CostsDirty, CostsLater, KeepsInRoom, TakesNoMemory, RefusesWrite, RunsCommand, RunsInPlace};
ghost use Rattle.ssc.specs.Own.{KeepsOwn};
ghost use Rattle.ssc.specs.Steps.{IsPushed, LeavesPut, MayStep, PutsBlock, PutsPages};
ghost use Rattle.ssc.specs.Commands.{ImagesOf, ImagesOfWrite, FullExactly, HoldsBuffered, HoldsPending, HoldsWritten, IsDirtyIn, IsHeldIn, ReadOf, UnlessFound};

use crate::error::of_media;
use crate::putting::{mark_clean, take_out, write_buffered, write_committed};
use crate::{Ssc, SscError};
use ft_base::{Block, Spare};
use ft_media::{Media, MediaError, PageRead};
use std::alloc::AllocError;

impl Ssc {
    /// Holds the block at an address, dirty. It is on the flash when the call answers `Ok`.
    ///
    /// `Full` is decided first, and then `OutOfMemory`. `Full` changes nothing. `OutOfMemory` changes only the order of
    /// the map's records and its buckets, which may have doubled as `reserve` says.
    pub fn write_dirty<M: Media>(
        &mut self,
        media: &mut M,
        lba: u64,
        block: &Block,
    ) -> Result<(), SscError>
        requires up { IsUp self.old (M.state media.old).contents }
        requires lba { lba < (geometry_of self.old).size }
        ensures runs { RunsCommand self.old self.new (M.state media.old) (M.state media.new) result }
        ensures full { (s : CacheList) → Holds self.old (M.state media.old).contents s → FullExactly (geometry_of self.old) s lba result }
        ensures refused { RefusesWrite self.old self.new (M.state media.old) (M.state media.new) result }
        ensures done { OnOk result ((s : CacheList) → Holds self.old (M.state media.old).contents s
            → HoldsWritten self.new (M.state media.new).contents s lba (written_dirty lba block.now)) }
        ensures nothing_waits { OnOk result (pending self.new ≡ []) }
        // Whatever the call answers, and whenever power goes off.
        ensures images { (s : CacheList) (h : Holds self.old (M.state media.old).contents s)
            → ImagesOfWrite self.old (M.state media.new).contents (undo h.waiting s) s lba (written_dirty lba block.now) }
        // Blocks that were each written for their own address stay so.
        ensures own { KeepsOwn self.old (M.state media.old).contents self.new (M.state media.new).contents }
        ensures in_room { KeepsInRoom self.old self.new (M.state media.old) (M.state media.new) (written_dirty lba block.now) result }
        ensures costs { CostsDirty self.old (M.state media.old) (M.state media.new) result }
    {
        if self.is_full(lba) {
            return Err(SscError::Full {
                dirty_groups: self.parts.geometry.c + 1,
                limit: self.parts.geometry.c,
            });
        }
        if self.reserve().is_err() {
            return Err(SscError::OutOfMemory);
        }
        self.ready = false;
        match write_committed(&mut self.parts, media, lba, block, true) {
            Ok(()) => {
                self.before.clear();
                Ok(())
            }
            Err(error) => Err(self.give_up(error)),
        }
    }

    /// Holds the block at an address, dirty. A crash may bring back what was there before, until the write is committed.
    ///
    /// It fails when `write_dirty` would, and leaves the same.
    pub fn write_later<M: Media>(
        &mut self,
        media: &mut M,
        lba: u64,
        block: &Block,
    ) -> Result<(), SscError>
        requires up { IsUp self.old (M.state media.old).contents }
        requires lba { lba < (geometry_of self.old).size }
        ensures runs { RunsCommand self.old self.new (M.state media.old) (M.state media.new) result }
        ensures full { (s : CacheList) → Holds self.old (M.state media.old).contents s → FullExactly (geometry_of self.old) s lba result }
        ensures refused { RefusesWrite self.old self.new (M.state media.old) (M.state media.new) result }
        ensures done { OnOk result ((s : CacheList) (h : Holds self.old (M.state media.old).contents s)
            → HoldsBuffered self.new (M.state media.new).contents s h.waiting lba (written_dirty lba block.now)
            (λ v. Written lba (get v lba))) }
        // Whatever the call answers, and whenever power goes off.
        ensures images { (s : CacheList) (h : Holds self.old (M.state media.old).contents s)
            → ImagesOfWrite self.old (M.state media.new).contents (undo h.waiting s) s lba (written_dirty lba block.now) }
        // Blocks that were each written for their own address stay so.
        ensures own { KeepsOwn self.old (M.state media.old).contents self.new (M.state media.new).contents }
        ensures in_room { KeepsInRoom self.old self.new (M.state media.old) (M.state media.new) (written_dirty lba block.now) result }
        ensures costs { CostsLater self.old self.new lba (M.state media.old) (M.state media.new) result }
    {
        if self.is_full(lba) {
            return Err(SscError::Full {
                dirty_groups: self.parts.geometry.c + 1,
                limit: self.parts.geometry.c,
            });
        }
        if self.reserve().is_err() {
            return Err(SscError::OutOfMemory);
        }
        self.ready = false;
        match write_buffered(&mut self.parts, media, lba, block, true) {
            Ok(before) => {
                self.before.note(self.parts.log.buffered(), before);
                Ok(())
            }
            Err(error) => Err(self.give_up(error)),
        }
    }

    /// Holds the block at an address, clean. If the address was absent, a crash may drop the block.
    pub fn write_clean<M: Media>(
        &mut self,
        media: &mut M,
        lba: u64,
        block: &Block,
    ) -> Result<(), SscError>
        requires up { IsUp self.old (M.state media.old).contents }
        requires lba { lba < (geometry_of self.old).size }
        ensures runs { RunsCommand self.old self.new (M.state media.old) (M.state media.new) result }
        ensures full { (n l : ℕ) → IsErrOf result (SscError.Full n l) → ⊥ }
        ensures refused { RefusesWrite self.old self.new (M.state media.old) (M.state media.new) result }
        ensures done { OnOk result ((s : CacheList) → Holds self.old (M.state media.old).contents s
            → HoldsWritten self.new (M.state media.new).contents s lba (written_clean lba block.now)) }
        ensures over_held { OnOk result ((s : CacheList) → Holds self.old (M.state media.old).contents s → IsHeldIn s lba
            → pending self.new ≡ []) }
        ensures at_absent { OnOk result ((s : CacheList) (h : Holds self.old (M.state media.old).contents s) → get s lba ≡ None
            → HoldsBuffered self.new (M.state media.new).contents s h.waiting lba (written_clean lba block.now) (λ v. Inserted lba)) }
        // Whatever the call answers, and whenever power goes off.
        ensures images { (s : CacheList) (h : Holds self.old (M.state media.old).contents s)
            → ImagesOfWrite self.old (M.state media.new).contents (undo h.waiting s) s lba (written_clean lba block.now) }
        // Blocks that were each written for their own address stay so.
        ensures own { KeepsOwn self.old (M.state media.old).contents self.new (M.state media.new).contents }
        ensures in_room { KeepsInRoom self.old self.new (M.state media.old) (M.state media.new) (written_clean lba block.now) result }
        ensures costs { CostsClean self.old self.new lba (M.state media.old) (M.state media.new) result }
    {
        if self.reserve().is_err() {
            return Err(SscError::OutOfMemory);
        }
        self.ready = false;
        match self.put_clean(media, lba, block) {
            Ok(()) => {
                self.before.forget(self.parts.log.buffered());
                Ok(())
            }
            Err(error) => Err(self.give_up(error)),
        }
    }

    /// Puts a block at an address, clean. If the address is held, this is committed at once. Otherwise a crash would
    /// bring the old block back.
    fn put_clean<M: Media>(
        &mut self,
        media: &mut M,
        lba: u64,
        block: &Block,
    ) -> Result<(), MediaError>
        requires may { MayStep self.old.parts (M.state media.old).contents lba }
        requires memory { HasMemory self.old.parts }
        ensures cache { self.new ≡ record self.old { parts = self.new.parts } }
        ensures kept { TakesNoMemory self.old.parts self.new.parts }
        ensures agree { OnOk result (PartsAgree self.new.parts (M.state media.new).contents) }
        ensures few { OnOk result (length self.new.parts.log.buffered < page_records self.new.parts.log.geometry) }
        ensures lists { OnOk result ((list durable : CacheList) → Lists self.old.parts (M.state media.old).contents.flash.page list durable
            → PutsBlock self.old.parts lba (written_block lba block.now false) self.new.parts (M.state media.new).contents.flash.page
            durable list) }
        ensures over_held { OnOk result ((e : Entry) → get (entries_of self.old) lba ≡ Some e → self.new.parts.log.buffered ≡ []) }
        ensures leaves { LeavesPut self.old.parts (M.state media.old).contents.flash.page (M.state media.new).contents.flash.page lba
            (written_block lba block.now false) }
        ensures one_program { OnOk result (get (entries_of self.old) lba ≡ None → 1 ≤ open_room self.old
            → length self.old.parts.log.buffered + 2 ≤ page_records self.old.parts.log.geometry
            → IsPushed self.old.parts lba false self.new.parts
            × ((M.state media.new).counts ≡ program_counted (M.state media.old).counts)) }
        ensures pages { OnOk result (PutsPages 1 self.old.parts self.new.parts (M.state media.old) (M.state media.new)) }
        ensures drives { OnlyDrives (M.state media.old) (M.state media.new) result }
    {
        if self.is_held(lba) {
            return write_committed(&mut self.parts, media, lba, block, false);
        }
        write_buffered(&mut self.parts, media, lba, block, false)?;
        Ok(())
    }

    /// Reads the block of an address. It answers false if the address isn't held. It changes nothing, and `block` gets
    /// only a block that was found.
    pub fn read<M: Media>(
        &mut self,
        media: &mut M,
        lba: u64,
        block: &mut Block,
    ) -> Result<bool, SscError>
        requires up { IsUp self.old (M.state media.old).contents }
        requires lba { lba < (geometry_of self.old).size }
        ensures same { self.new ≡ self.old }
        ensures found { IfOk result (λ found. (s : CacheList) → Holds self.old (M.state media.old).contents s
            → ReadOf (get s lba) found block.new) }
        ensures buffer { UnlessFound result (block.new ≡ block.old) }
        ensures full { (n l : ℕ) → IsErrOf result (SscError.Full n l) → ⊥ }
        ensures memory { IsErrOf result SscError.OutOfMemory → ⊥ }
        ensures reads { ReadsFlash (M.state media.old) (M.state media.new) (ssc_failed result) (ssc_lost result) }
    {
        let Some((place, _)) = self.parts.map.place(lba) else {
            return Ok(false);
        };
        let mut spare = Spare([0; 32]);
        match media.read_page(place, block, &mut spare) {
            Ok(PageRead::Whole) => Ok(true),
            // The page of an address that is held is whole: it isn't blank,
            Ok(PageRead::Blank) => unreachable!(),
            // and it isn't torn.
            Ok(PageRead::Torn) => unreachable!(),
            Err(error) => Err(of_media(error)),
        }
    }

    /// Stops holding an address. This is on the flash when the call answers `Ok`. It allocates nothing.
    pub fn evict<M: Media>(&mut self, media: &mut M, lba: u64) -> Result<(), SscError>
        requires up { IsUp self.old (M.state media.old).contents }
        requires lba { lba < (geometry_of self.old).size }
        ensures runs { RunsInPlace self.old self.new (M.state media.old) (M.state media.new) result }
        ensures done { OnOk result ((s : CacheList) → Holds self.old (M.state media.old).contents s
            → Holds self.new (M.state media.new).contents (evicted lba s)) }
        ensures held { OnOk result ((s : CacheList) → Holds self.old (M.state media.old).contents s → IsHeldIn s lba
            → pending self.new ≡ []) }
        ensures absent { OnOk result ((s : CacheList) → Holds self.old (M.state media.old).contents s → get s lba ≡ None
            → (self.new ≡ self.old) × (M.state media.new ≡ M.state media.old)) }
        ensures images { (s : CacheList) (h : Holds self.old (M.state media.old).contents s)
            → ImagesOf self.old (M.state media.new).contents (undo h.waiting s) s (evicted lba s) }
        // Blocks that were each written for their own address stay so.
        ensures own { KeepsOwn self.old (M.state media.old).contents self.new (M.state media.new).contents }
        ensures one_program { OnOk result ((s : CacheList) → Holds self.old (M.state media.old).contents s → IsHeldIn s lba
            → 1 ≤ log_room self.old → (M.state media.new).counts ≡ program_counted (M.state media.old).counts) }
    {
        if !self.is_held(lba) {
            return Ok(());
        }
        match take_out(&mut self.parts, media, lba) {
            Ok(()) => {
                self.before.clear();
                Ok(())
            }
            Err(error) => Err(self.give_up(error)),
        }
    }

    /// Marks a dirty block clean. A crash may make it dirty again. It allocates nothing.
    pub fn clean<M: Media>(&mut self, media: &mut M, lba: u64) -> Result<(), SscError>
        requires up { IsUp self.old (M.state media.old).contents }
        requires lba { lba < (geometry_of self.old).size }
        ensures runs { RunsInPlace self.old self.new (M.state media.old) (M.state media.new) result }
        ensures done { OnOk result ((s : CacheList) → Holds self.old (M.state media.old).contents s
            → Holds self.new (M.state media.new).contents (made_clean lba s)) }
        ensures of_dirty { OnOk result ((s : CacheList) (h : Holds self.old (M.state media.old).contents s) → IsDirtyIn s lba
            → HoldsPending self.new (M.state media.new).contents (made_clean lba s) h.waiting (Cleaned lba)) }
        ensures of_other { OnOk result ((s : CacheList) → Holds self.old (M.state media.old).contents s → (IsDirtyIn s lba → ⊥)
            → (self.new ≡ self.old) × (M.state media.new ≡ M.state media.old)) }
        ensures no_write { OnOk result (length (pending self.old) + 2 ≤ page_records (geometry_of self.old)
            → M.state media.new ≡ M.state media.old) }
        ensures images { (s : CacheList) (h : Holds self.old (M.state media.old).contents s)
            → ImagesOf self.old (M.state media.new).contents (undo h.waiting s) s (made_clean lba s) }
        // Blocks that were each written for their own address stay so.
        ensures own { KeepsOwn self.old (M.state media.old).contents self.new (M.state media.new).contents }
    {
        if !self.is_dirty(lba) {
            return Ok(());
        }
        match mark_clean(&mut self.parts, media, lba) {
            Ok(()) => {
                self.before.forget(self.parts.log.buffered());
                Ok(())
            }
            Err(error) => Err(self.give_up(error)),
        }
    }

    /// Adds the dirty addresses among the `count` addresses from `from` on, ascending. On `Err` the items of `out` are
    /// unchanged.
    pub fn exists(&self, from: u64, count: u64, out: &mut Vec<u64>) -> Result<(), AllocError>
        requires { from + count ≤ (geometry_of self.now).size }
        ensures done { OnOk result ((contents : Contents) (s : CacheList) → Holds self.now contents s → out.new.items ≡ out.old.items
            ++ dirty_between from count s) }
        ensures refused { OnErr result (out.new.items ≡ out.old.items) }
    {
        self.list_between(from, count, out)
    }

    /// Puts all buffered changes on the flash. It allocates nothing.
    pub fn commit<M: Media>(&mut self, media: &mut M) -> Result<(), SscError>
        requires up { IsUp self.old (M.state media.old).contents }
        ensures runs { RunsInPlace self.old self.new (M.state media.old) (M.state media.new) result }
        ensures nothing { pending self.old ≡ [] → IsOk result × (self.new ≡ self.old) × (M.state media.new ≡ M.state media.old) }
        ensures done { OnOk result ((s : CacheList) → Holds self.old (M.state media.old).contents s
            → Holds self.new (M.state media.new).contents s) }
        ensures nothing_waits { OnOk result (pending self.new ≡ []) }
        ensures images { (s : CacheList) (h : Holds self.old (M.state media.old).contents s)
            → ImagesOf self.old (M.state media.new).contents (undo h.waiting s) s s }
        // Blocks that were each written for their own address stay so.
        ensures own { KeepsOwn self.old (M.state media.old).contents self.new (M.state media.new).contents }
        ensures costs { CostsCommit self.old self.new (M.state media.old) (M.state media.new) result }
    {
        match merge_engine::commit(&mut self.parts, media) {
            Ok(()) => {
                self.before.clear();
                Ok(())
            }
            Err(error) => Err(self.give_up(error)),
        }
    }

    /// Makes a checkpoint of the whole map. It allocates nothing.
    pub fn checkpoint<M: Media>(&mut self, media: &mut M) -> Result<(), SscError>
        requires up { IsUp self.old (M.state media.old).contents }
        ensures runs { RunsInPlace self.old self.new (M.state media.old) (M.state media.new) result }
        ensures done { OnOk result ((s : CacheList) → Holds self.old (M.state media.old).contents s
            → Holds self.new (M.state media.new).contents s) }
        ensures nothing_waits { OnOk result (pending self.new ≡ []) }
        ensures log { OnOk result (self.new.parts.log.next ≡ 0) }
        ensures costs { CostsCheckpoint self.old self.new (M.state media.old) (M.state media.new) result }
        ensures images { (s : CacheList) (h : Holds self.old (M.state media.old).contents s)
            → ImagesOf self.old (M.state media.new).contents (undo h.waiting s) s s }
        // Blocks that were each written for their own address stay so.
        ensures own { KeepsOwn self.old (M.state media.old).contents self.new (M.state media.new).contents }
    {
        match merge_engine::make_checkpoint(&mut self.parts, media) {
            Ok(()) => {
                self.before.clear();
                Ok(())
            }
            Err(error) => Err(self.give_up(error)),
        }
    }
}
