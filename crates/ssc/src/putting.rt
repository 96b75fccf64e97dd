//! Entries put in, taken out and marked clean, and whether this is committed at once or when the buffer is full.
ghost use Rattle.std.specs.Prelude.{◌≡◌, ◌≢◌, ◌↔◌, ◌⊎◌, ◌≤◌, ◌<◌, ◌+◌, [], length, true, false, IsTrue, IsOk, Some, OnOk};
ghost use Rattle.std.specs.FinMap.{get, insert};
ghost use Rattle.ft_base.specs.declared.record.Record.TheVariants.{Clean};
ghost use Rattle.ft_base.specs.Layout.{log_pages, page_records};
ghost use Rattle.ft_media.specs.Drives.{OnlyDrives};
ghost use Rattle.ft_media.specs.Media.{program_counted};
ghost use Rattle.cache_model.specs.CacheList.{CacheList};
ghost use Rattle.cache_model.specs.Cache.{evicted, written_block, made_clean};
ghost use Rattle.cache_model.specs.declared.entry.Entry.{Entry};
ghost use Rattle.merge_engine.specs.Agreement.{PartsAgree, Lists};
ghost use Rattle.merge_engine.specs.Room.{FlashStandsForGiven};
ghost use Rattle.merge_engine.specs.Steps.{HasLogBlock, HasRoomFor, dirty_groups_with};
ghost use Rattle.ssc.specs.Errors as errors;
ghost use Rattle.ssc.specs.CacheState.{HasMemory, entries_of, geometry_of};
ghost use Rattle.ssc.specs.Kept.{TakesNoMemory};
ghost use Rattle.ssc.specs.Steps.{IsPushed, LeavesPut, LeftOf, ListsAfter, MayStep, PutsBlock, PutsPages, FlashStandsForEither};

use crate::earlier::Before;
use crate::error::of_media;
use crate::{Ssc, SscError};
use ft_base::Block;
use ft_media::{Media, MediaError};
use merge_engine::{Parts, append, commit, note_clean, put_out, put_page};

// The steps of the commands once nothing refuses them.
impl Ssc {
    /// Whether there would be more than C groups with a dirty address, counting the group of this address.
    pub(crate) fn is_full(&self, lba: u64) -> bool
        requires of_one { self.now.parts.map.geometry ≡ geometry_of self.now }
        ensures full { IsTrue result → dirty_groups_with (geometry_of self.now) (entries_of self.now) lba ≡ (geometry_of self.now).c + 1 }
        ensures room { result ≡ false → HasRoomFor (geometry_of self.now) (entries_of self.now) lba }
    {
        if self.parts.map.dirty_groups() < self.parts.geometry.c {
            return false;
        }
        let group = lba / self.parts.geometry.p as u64;
        self.parts.map.dirty_bits(group) == 0
    }

    /// Whether an address is held.
    pub(crate) fn is_held(&self, lba: u64) -> bool
        ensures { IsTrue result ↔ ((e : Entry) × (get (entries_of self.now) lba ≡ Some e)) }
    {
        self.parts.map.place(lba).is_some()
    }

    /// Whether an address is held dirty.
    pub(crate) fn is_dirty(&self, lba: u64) -> bool
        ensures { IsTrue result ↔ ((e : Entry) × (get (entries_of self.now) lba ≡ Some e) × (e.dirty ≡ true)) }
    {
        match self.parts.map.place(lba) {
            Some((_, dirty)) => dirty,
            None => false,
        }
    }

    /// Gives the cache up after the device failed a call of a command that writes.
    pub(crate) fn give_up(&mut self, error: MediaError) -> SscError
        ensures error { result ≡ errors.of_media error }
        ensures cache { self.new ≡ record self.old { stopped = true } }
    {
        self.stopped = true;
        of_media(error)
    }
}

/// Puts a block at an address, dirty or clean, and commits this.
pub(crate) fn write_committed<M: Media>(
    parts: &mut Parts,
    media: &mut M,
    lba: u64,
    block: &Block,
    dirty: bool,
) -> Result<(), MediaError>
    requires may { MayStep parts.old (M.state media.old).contents lba }
    requires memory { HasMemory parts.old }
    requires dirty { dirty ≡ true → HasRoomFor parts.old.geometry parts.old.map.entries lba }
    ensures kept { TakesNoMemory parts.old parts.new }
    ensures agree { OnOk result (PartsAgree parts.new (M.state media.new).contents) }
    ensures nothing_waits { OnOk result (parts.new.log.buffered ≡ []) }
    ensures lists { OnOk result ((list durable : CacheList) → Lists parts.old (M.state media.old).contents.flash.page list durable
        → (v : CacheList) × LeftOf parts.old list v × Lists parts.new (M.state media.new).contents.flash.page
        (insert v lba (written_block lba block.now dirty)) (insert v lba (written_block lba block.now dirty))) }
    ensures leaves { LeavesPut parts.old (M.state media.old).contents.flash.page (M.state media.new).contents.flash.page lba
        (written_block lba block.now dirty) }
    ensures two_programs { OnOk result (1 ≤ parts.old.log_blocks.room → parts.old.log.next < log_pages parts.old.geometry
        → (M.state media.new).counts ≡ program_counted (program_counted (M.state media.old).counts)) }
    ensures pages { OnOk result (PutsPages 2 parts.old parts.new (M.state media.old) (M.state media.new)) }
    ensures drives { OnlyDrives (M.state media.old) (M.state media.new) result }
{
    write_page(parts, media, lba, block, dirty)?;
    commit(parts, media)
}

/// Puts a block at an address, dirty or clean, and answers what the address had. This is only buffered, unless
/// the buffer is full.
pub(crate) fn write_buffered<M: Media>(
    parts: &mut Parts,
    media: &mut M,
    lba: u64,
    block: &Block,
    dirty: bool,
) -> Result<Option<Before>, MediaError>
    requires may { MayStep parts.old (M.state media.old).contents lba }
    requires memory { HasMemory parts.old }
    requires dirty { dirty ≡ true → HasRoomFor parts.old.geometry parts.old.map.entries lba }
    ensures kept { TakesNoMemory parts.old parts.new }
    ensures agree { OnOk result (PartsAgree parts.new (M.state media.new).contents) }
    ensures few { OnOk result (length parts.new.log.buffered < page_records parts.new.log.geometry) }
    ensures lists { OnOk result ((list durable : CacheList) → Lists parts.old (M.state media.old).contents.flash.page list durable
        → PutsBlock parts.old lba (written_block lba block.now dirty) parts.new (M.state media.new).contents.flash.page durable list) }
    ensures leaves { LeavesPut parts.old (M.state media.old).contents.flash.page (M.state media.new).contents.flash.page lba
        (written_block lba block.now dirty) }
    ensures one_program { OnOk result (1 ≤ parts.old.log_blocks.room
        → length parts.old.log.buffered + 2 ≤ page_records parts.old.log.geometry
        → IsPushed parts.old lba dirty parts.new × ((M.state media.new).counts ≡ program_counted (M.state media.old).counts)) }
    ensures pages { OnOk result (PutsPages 1 parts.old parts.new (M.state media.old) (M.state media.new)) }
    ensures drives { OnlyDrives (M.state media.old) (M.state media.new) result }
{
    let before = write_page(parts, media, lba, block, dirty)?;
    commit_if_full(parts, media)?;
    Ok(before)
}

/// Appends a block, puts its address at its page, and answers what the address had.
fn write_page<M: Media>(
    parts: &mut Parts,
    media: &mut M,
    lba: u64,
    block: &Block,
    dirty: bool,
) -> Result<Option<Before>, MediaError>
    requires may { MayStep parts.old (M.state media.old).contents lba }
    requires memory { HasMemory parts.old }
    requires dirty { dirty ≡ true → HasRoomFor parts.old.geometry parts.old.map.entries lba }
    ensures kept { TakesNoMemory parts.old parts.new }
    ensures agree { OnOk result (PartsAgree parts.new (M.state media.new).contents) }
    ensures waits { OnOk result (parts.new.log.buffered ≢ []) }
    ensures lists { OnOk result ((list durable : CacheList) → Lists parts.old (M.state media.old).contents.flash.page list durable
        → PutsBlock parts.old lba (written_block lba block.now dirty) parts.new (M.state media.new).contents.flash.page durable list) }
    ensures stands { (list durable : CacheList) → Lists parts.old (M.state media.old).contents.flash.page list durable
        → FlashStandsForGiven parts.old.geometry (M.state media.new).contents.flash.page durable list }
    ensures list_stands { HasLogBlock parts.old → (list durable : CacheList)
        → Lists parts.old (M.state media.old).contents.flash.page list durable
        → FlashStandsForEither parts.old.geometry (M.state media.new).contents.flash.page durable list }
    // If the open log block has a page left: one program, and all changes that were buffered still are.
    ensures one_program { OnOk result (1 ≤ parts.old.log_blocks.room → IsPushed parts.old lba dirty parts.new
        × ((M.state media.new).counts ≡ program_counted (M.state media.old).counts)) }
    ensures pages { OnOk result (PutsPages 1 parts.old parts.new (M.state media.old) (M.state media.new)) }
    ensures drives { OnlyDrives (M.state media.old) (M.state media.new) result }
{
    // The page is programmed first, because a log page may name only whole pages.
    let place = append(parts, media, lba, block)?;
    // A merge may have moved the address, so it is looked up here.
    let before = before_of(parts, lba);
    put_page(parts, lba, place, dirty);
    Ok(before)
}

/// The page of an address, and whether it is dirty.
fn before_of(parts: &Parts, lba: u64) -> Option<Before> {
    let (place, dirty) = parts.map.place(lba)?;
    Some(Before { place, dirty })
}

/// Takes an address out, and commits this.
pub(crate) fn take_out<M: Media>(
    parts: &mut Parts,
    media: &mut M,
    lba: u64,
) -> Result<(), MediaError>
    requires may { MayStep parts.old (M.state media.old).contents lba }
    ensures kept { TakesNoMemory parts.old parts.new }
    ensures log_blocks { parts.new.log_blocks ≡ parts.old.log_blocks }
    ensures reserved { HasMemory parts.old → HasMemory parts.new }
    ensures agree { OnOk result (PartsAgree parts.new (M.state media.new).contents) }
    ensures nothing_waits { OnOk result (parts.new.log.buffered ≡ []) }
    ensures lists { OnOk result ((list durable : CacheList) → Lists parts.old (M.state media.old).contents.flash.page list durable
        → Lists parts.new (M.state media.new).contents.flash.page (evicted lba list) (evicted lba list)) }
    // Whatever the call answers, and whenever power goes off.
    ensures stands { (list durable : CacheList) → Lists parts.old (M.state media.old).contents.flash.page list durable
        → FlashStandsForEither parts.old.geometry (M.state media.new).contents.flash.page durable (evicted lba list) }
    ensures one_program { OnOk result (parts.old.log.next < log_pages parts.old.geometry
        → (M.state media.new).counts ≡ program_counted (M.state media.old).counts) }
    ensures drives { OnlyDrives (M.state media.old) (M.state media.new) result }
{
    put_out(parts, lba);
    commit(parts, media)
}

/// Marks an address clean.
pub(crate) fn mark_clean<M: Media>(
    parts: &mut Parts,
    media: &mut M,
    lba: u64,
) -> Result<(), MediaError>
    requires may { MayStep parts.old (M.state media.old).contents lba }
    ensures kept { TakesNoMemory parts.old parts.new }
    ensures log_blocks { parts.new.log_blocks ≡ parts.old.log_blocks }
    ensures reserved { HasMemory parts.old → HasMemory parts.new }
    ensures agree { OnOk result (PartsAgree parts.new (M.state media.new).contents) }
    ensures room { OnOk result (length parts.new.log.buffered < page_records parts.new.log.geometry) }
    ensures lists { OnOk result ((list durable : CacheList) → Lists parts.old (M.state media.old).contents.flash.page list durable
        → ListsAfter parts.old.log.buffered (Clean lba) parts.new (M.state media.new).contents.flash.page durable list
        (made_clean lba list)) }
    // Whatever the call answers, and whenever power goes off.
    ensures stands { (list durable : CacheList) → Lists parts.old (M.state media.old).contents.flash.page list durable
        → FlashStandsForEither parts.old.geometry (M.state media.new).contents.flash.page durable (made_clean lba list) }
    ensures no_write { length parts.old.log.buffered + 2 ≤ page_records parts.old.log.geometry → M.state media.new ≡ M.state media.old }
    ensures drives { OnlyDrives (M.state media.old) (M.state media.new) result }
{
    note_clean(parts, lba);
    commit_if_full(parts, media)
}

/// Commits if no more changes may be buffered.
fn commit_if_full<M: Media>(parts: &mut Parts, media: &mut M) -> Result<(), MediaError>
    requires agree { PartsAgree parts.old (M.state media.old).contents }
    ensures cache { parts.new ≡ record parts.old { log = parts.new.log } }
    ensures few { OnOk result (length parts.new.log.buffered < page_records parts.new.log.geometry) }
    ensures agree { OnOk result (PartsAgree parts.new (M.state media.new).contents) }
    ensures lists { OnOk result ((list durable : CacheList) → Lists parts.old (M.state media.old).contents.flash.page list durable
        → ((parts.new.log ≡ parts.old.log) × Lists parts.new (M.state media.new).contents.flash.page list durable)
        ⊎ ((parts.new.log.buffered ≡ []) × Lists parts.new (M.state media.new).contents.flash.page list list)) }
    ensures stands { (list durable : CacheList) → Lists parts.old (M.state media.old).contents.flash.page list durable
        → FlashStandsForEither parts.old.geometry (M.state media.new).contents.flash.page durable list }
    ensures no_write { length parts.old.log.buffered < page_records parts.old.log.geometry → IsOk result × (parts.new ≡ parts.old)
        × (M.state media.new ≡ M.state media.old) }
    ensures drives { OnlyDrives (M.state media.old) (M.state media.new) result }
{
    if parts.log.buffered() < parts.geometry.q() {
        return Ok(());
    }
    commit(parts, media)
}
