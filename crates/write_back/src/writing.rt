//! Writes to a volume that writes back. If a new dirty group finds the table full, the oldest is written back first.
ghost use Rattle.std.specs.Prelude.{◌≡◌, ◌<◌, ◌≤◌, ◌+◌, ◌/◌, ℕ, length, [], true, false, OnOk, OnErr};
ghost use Rattle.std.specs.FinMap.{get};
ghost use Rattle.ft_base.specs.declared.told.Ack.TheVariants as acks;
ghost use Rattle.ft_base.specs.Table.{is_full, last_size, put_first, without_last};
ghost use Rattle.ft_media.specs.Passes.{ProgramsPages};
ghost use Rattle.ft_volume.specs.Volume.{AsksDevices, Costs, HoldsAfter, Writes};
ghost use Rattle.cache_model.specs.Cache.{Written, undo, written_dirty};
ghost use Rattle.cache_model.specs.CacheList.{CacheList};
ghost use Rattle.ssc.specs.CacheState.{Holds, IsUp, geometry_of, pending};
ghost use Rattle.ssc.specs.Commands.{FullExactly, HoldsBuffered, ImagesOfWrite};
ghost use Rattle.ssc.specs.Kept.{RefusesWrite, RunsCommand};
ghost use Rattle.cached_disk.specs.Kept as kept;
ghost use Rattle.cached_disk.specs.Kept.{AsksNoDisk, StaysOwing, WritesDisk, told_of};
ghost use Rattle.write_back.specs.Left.{DoesOwing, IsLeft, MayWrite, StaysAs, Steps, state_of};
ghost use Rattle.write_back.specs.Writing.{CostsBlock, HasTableRoom, backs_made, flushes_made, room_made};

use crate::WriteBack;
use crate::cleaning::write_group_back;
use cached_disk::cache_error;
use ft_base::Block;
use ft_media::Media;
use ft_volume::{Ack, VolumeError};
use ssc::{Ssc, SscError};

impl WriteBack {
    /// Writes a block to the cache. If its group would be one too many that the disk lacks, the last group of the table
    /// is written back first.
    pub(crate) fn write_up<M: Media>(
        &mut self,
        media: &mut M,
        lba: u64,
        block: &Block,
    ) -> Result<(), VolumeError>
        requires may { MayWrite self.old (M.state media.old).contents lba }
        ensures steps { Steps self.old self.new (M.state media.old) (M.state media.new) result }
        ensures does { DoesOwing (Writes lba block.now) self.old self.new (M.state media.old).contents (M.state media.new).contents
            result }
        ensures costs { Costs (Writes lba block.now) (state_of self.old) (state_of self.new) (M.state media.old) (M.state media.new)
            result }
        ensures asks { AsksDevices (Writes lba block.now) (state_of self.old) (state_of self.old) (state_of self.new) (M.state media.old)
            (M.state media.new) result }
        ensures programs { OnOk result (ProgramsPages 1 (M.state media.old) (M.state media.new)) }
    {
        let group = lba / self.disk.options.geometry.p() as u64;
        if self.disk.cache.reserve().is_err() {
            return Err(VolumeError::OutOfMemory);
        }
        match self.make_room(media, group) {
            Ok(()) => self.put_dirty(media, lba, block),
            Err(error) => Err(error),
        }
    }

    /// Writes the last group of the table back, if this group is not in it and the table is full.
    fn make_room<M: Media>(&mut self, media: &mut M, group: u64) -> Result<(), VolumeError>
        requires left { IsLeft self.old (M.state media.old).contents }
        requires up { kept.is_down self.old.disk ≡ false }
        ensures steps { Steps self.old self.new (M.state media.old) (M.state media.new) result }
        ensures keeps { StaysOwing self.old.disk self.new.disk (M.state media.old).contents (M.state media.new).contents }
        ensures room { OnOk result (HasTableRoom self.new.dirty group) }
        ensures table { OnOk result ((state_of self.new).table ≡ room_made self.old.disk.options.geometry.c group
            (state_of self.old).table) }
        ensures held { kept.is_down self.new.disk ≡ false → (a : ℕ) → (state_of self.new).held a ≡ (state_of self.old).held a }
        ensures ready { self.new.disk.cache.ready ≡ self.old.disk.cache.ready }
        ensures writes { WritesDisk (backs_made self.old.disk.options.geometry.c group (state_of self.old).table) (M.state media.old)
            (M.state media.new) result }
        ensures flushes { (M.state media.new).counts.disk_flushes ≤ (M.state media.old).counts.disk_flushes
            + flushes_made self.old.disk.options.geometry.c group (state_of self.old).table }
        ensures same { OnErr result (kept.is_down self.new.disk ≡ false → StaysAs self.old self.new) }
        ensures there { is_full self.old.disk.options.geometry.c group (state_of self.old).table ≡ false
            → (self.new ≡ self.old) × (M.state media.new ≡ M.state media.old) }
    {
        if self.dirty.has(group) {
            return Ok(());
        }
        if self.dirty.len() < self.disk.options.geometry.c() {
            return Ok(());
        }
        self.write_oldest_back(media)
    }

    /// Writes back the last group of the table.
    pub(crate) fn write_oldest_back<M: Media>(&mut self, media: &mut M) -> Result<(), VolumeError>
        requires left { IsLeft self.old (M.state media.old).contents }
        requires up { kept.is_down self.old.disk ≡ false }
        requires some { 0 < length self.old.dirty.order }
        ensures steps { Steps self.old self.new (M.state media.old) (M.state media.new) result }
        ensures keeps { StaysOwing self.old.disk self.new.disk (M.state media.old).contents (M.state media.new).contents }
        ensures table { OnOk result ((state_of self.new).table ≡ without_last (state_of self.old).table) }
        ensures held { kept.is_down self.new.disk ≡ false → (a : ℕ) → (state_of self.new).held a ≡ (state_of self.old).held a }
        ensures ready { self.new.disk.cache.ready ≡ self.old.disk.cache.ready }
        ensures writes { WritesDisk (last_size (state_of self.old).table) (M.state media.old) (M.state media.new) result }
        ensures flushes { (M.state media.new).counts.disk_flushes ≤ (M.state media.old).counts.disk_flushes + 1 }
        ensures same { OnErr result (kept.is_down self.new.disk ≡ false → StaysAs self.old self.new) }
    {
        let Some(group) = self.dirty.oldest() else {
            unreachable!()
        };
        match write_group_back(&mut self.disk, media, group) {
            Ok(()) => {
                let _was_there = self.dirty.remove(group);
                Ok(())
            }
            Err(error) => Err(error),
        }
    }

    /// Notes the group of an address, which has room in the table, and writes the block to the cache, which has the
    /// memory for it.
    fn put_dirty<M: Media>(
        &mut self,
        media: &mut M,
        lba: u64,
        block: &Block,
    ) -> Result<(), VolumeError>
        requires may { MayWrite self.old (M.state media.old).contents lba }
        requires room { HasTableRoom self.old.dirty (lba / self.old.disk.options.geometry.p) }
        requires ready { self.old.disk.cache.ready ≡ true }
        ensures steps { Steps self.old self.new (M.state media.old) (M.state media.new) result }
        ensures does { DoesOwing (Writes lba block.now) self.old self.new (M.state media.old).contents (M.state media.new).contents
            result }
        ensures table { OnOk result ((state_of self.new).table ≡ put_first (lba / self.old.disk.options.geometry.p) lba
            (state_of self.old).table) }
        ensures held { OnOk result (HoldsAfter (state_of self.old).told (Writes lba block.now) (state_of self.old).held
            (state_of self.new).held) }
        ensures no_disk { AsksNoDisk (M.state media.old) (M.state media.new) }
        ensures costs { CostsBlock (told_of self.old.disk).ack self.old.disk.cache (M.state media.old) (M.state media.new) result }
        ensures same { OnErr result (kept.is_down self.new.disk ≡ false → self.new ≡ self.old) }
    {
        let group = lba / self.disk.options.geometry.p() as u64;
        if self.dirty.touch(group).is_err() {
            return Err(VolumeError::OutOfMemory);
        }
        let ack = self.disk.ack();
        match write_cached(&mut self.disk.cache, ack, media, lba, block) {
            Ok(()) => Ok(()),
            Err(error) => Err(cache_error(error)),
        }
    }
}

/// Writes a block to the cache, dirty. The write is on the flash when the call answers `Ok`, or it may wait for the next
/// flush.
fn write_cached<M: Media>(
    cache: &mut Ssc,
    ack: Ack,
    media: &mut M,
    lba: u64,
    block: &Block,
) -> Result<(), SscError>
    requires up { IsUp cache.old (M.state media.old).contents }
    requires lba { lba < (geometry_of cache.old).size }
    ensures runs { RunsCommand cache.old cache.new (M.state media.old) (M.state media.new) result }
    ensures full { (s : CacheList) → Holds cache.old (M.state media.old).contents s → FullExactly (geometry_of cache.old) s lba result }
    ensures refused { RefusesWrite cache.old cache.new (M.state media.old) (M.state media.new) result }
    ensures done { OnOk result ((s : CacheList) (h : Holds cache.old (M.state media.old).contents s)
        → HoldsBuffered cache.new (M.state media.new).contents s h.waiting lba (written_dirty lba block.now)
        (λ v. Written lba (get v lba))) }
    ensures at_write { ack ≡ acks.Write → OnOk result (pending cache.new ≡ []) }
    // Whatever the call answers, and whenever power goes off.
    ensures images { (s : CacheList) (h : Holds cache.old (M.state media.old).contents s)
        → ImagesOfWrite cache.old (M.state media.new).contents (undo h.waiting s) s lba (written_dirty lba block.now) }
    ensures costs { CostsBlock ack cache.old (M.state media.old) (M.state media.new) result }
{
    match ack {
        Ack::Write => cache.write_dirty(media, lba, block),
        Ack::Flush => cache.write_later(media, lba, block),
    }
}
