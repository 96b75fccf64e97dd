//! The order of a write through the cache: memory, the old block dropped, the disk written and flushed, the block held.
ghost use Rattle.std.specs.Prelude.{◌≡◌, ◌⊎◌, ◌<◌, ◌≤◌, ◌+◌, ◌==◌, if◌then◌else◌, ℕ, true, false, OnOk, OnErr, IfErr, IsErrOf};
ghost use Rattle.ft_base.specs.Contents.{Contents, HasValue, flushed, set};
ghost use Rattle.ft_base.specs.Count.{RoseBy};
ghost use Rattle.ft_base.specs.PlainDisk.{PlainDisk};
ghost use Rattle.ft_base.specs.declared.block.Block.{Block};
ghost use Rattle.ft_media.specs.Media.{Crashed, DiskCause, FlashStays, after_write};
ghost use Rattle.ft_media.specs.Passes.{Passes, ProgramsPages};
ghost use Rattle.ft_media.specs.State.{failed, lost};
ghost use Rattle.ft_volume.specs.Opening.{ImageIs, KeepsPlainDisk};
ghost use Rattle.ft_volume.specs.Volume.{AsksDevices, Costs, FaultDowns, HoldsAfter, WasDone, Writes};
ghost use Rattle.ft_volume.specs.Standing.{StandFor};
ghost use Rattle.cached_disk.specs.Kept.{AsksNoDisk, IsMadeAs, WritesDisk};
ghost use Rattle.cached_disk.specs.Kept as kept;
ghost use Rattle.write_through.specs.Left.{IsLeft, MayWrite, Steps, state_of};

use crate::WriteThrough;
use cached_disk::cache_error;
use ft_base::Block;
use ft_media::{Media, MediaError};
use ft_volume::VolumeError;

impl WriteThrough {
    /// Writes a block to the disk, and then to the cache.
    ///
    /// The cache drops its old block before the disk gets the new one. Otherwise a crash would leave the old block in
    /// the cache, in front of the new one.
    pub(crate) fn write_up<M: Media>(
        &mut self,
        media: &mut M,
        lba: u64,
        block: &Block,
    ) -> Result<(), VolumeError>
        requires may { MayWrite self.old (M.state media.old).contents lba }
        ensures steps { Steps self.old self.new (M.state media.old) (M.state media.new) result }
        ensures was { (base : PlainDisk) → StandFor (ImageIs (state_of self.old).told) (M.state media.old).contents base
            → WasDone ImageIs (Writes lba block.now) (state_of self.old) (state_of self.new) (M.state media.new).contents result base }
        ensures faulted { FaultDowns result (kept.is_down self.new.disk) }
        ensures costs { Costs (Writes lba block.now) (state_of self.old) (state_of self.new) (M.state media.old) (M.state media.new)
            result }
        ensures asks { AsksDevices (Writes lba block.now) (state_of self.old) (state_of self.old) (state_of self.new) (M.state media.old)
            (M.state media.new) result }
        ensures programs { OnOk result (ProgramsPages 1 (M.state media.old) (M.state media.new)) }
    {
        self.reserve()?;
        self.take_out(media, lba)?;
        self.put_on_disk(media, lba, block)?;
        self.put_in_cache(media, lba, block)
    }

    /// Takes the memory of the write, before anything is changed.
    fn reserve(&mut self) -> Result<(), VolumeError>
        ensures left { (contents : Contents) → IsLeft self.old contents → IsLeft self.new contents }
        ensures same { state_of self.new ≡ state_of self.old }
        ensures made { IsMadeAs self.old.disk self.new.disk }
        ensures ready { OnOk result (self.new.disk.cache.ready ≡ true) }
        ensures refused { IfErr result (λ e. e ≡ VolumeError.OutOfMemory) }
    {
        if self.disk.cache.reserve().is_err() {
            return Err(VolumeError::OutOfMemory);
        }
        Ok(())
    }

    /// Drops the old block of an address from the cache. It is the disk's own block, so reads answer the same.
    fn take_out<M: Media>(&mut self, media: &mut M, lba: u64) -> Result<(), VolumeError>
        requires may { MayWrite self.old (M.state media.old).contents lba }
        ensures steps { Steps self.old self.new (M.state media.old) (M.state media.new) result }
        ensures stands { KeepsPlainDisk (state_of self.old).told (M.state media.old).contents (M.state media.new).contents }
        ensures absent { OnOk result ((state_of self.new).held lba ≡ false) }
        ensures held { OnOk result ((a : ℕ) → (state_of self.new).held a ≡ (if a == lba then false else (state_of self.old).held a)) }
        ensures made { IsMadeAs self.old.disk self.new.disk }
        ensures ready { self.new.disk.cache.ready ≡ self.old.disk.cache.ready }
        ensures refused { OnErr result (kept.is_down self.new.disk ≡ true) }
        ensures no_disk { AsksNoDisk (M.state media.old) (M.state media.new) }
    {
        match self.disk.cache.evict(media, lba) {
            Ok(()) => Ok(()),
            Err(error) => Err(cache_error(error)),
        }
    }

    /// Puts a block on the disk, at an address that the cache doesn't hold. If the disk failed, it may have either
    /// block. So the volume is opened again, with a flush, before it is used.
    fn put_on_disk<M: Media>(
        &mut self,
        media: &mut M,
        lba: u64,
        block: &Block,
    ) -> Result<(), VolumeError>
        requires may { MayWrite self.old (M.state media.old).contents lba }
        requires absent { (state_of self.old).held lba ≡ false }
        ensures steps { Steps self.old self.new (M.state media.old) (M.state media.new) result }
        ensures was { (base : PlainDisk) → StandFor (ImageIs (state_of self.old).told) (M.state media.old).contents base
            → WasDone ImageIs (Writes lba block.now) (state_of self.old) (state_of self.new) (M.state media.new).contents result base }
        ensures stands { OnOk result ((d : PlainDisk) → StandFor (ImageIs (state_of self.old).told) (M.state media.old).contents d
            → StandFor (ImageIs (state_of self.old).told) (M.state media.new).contents (set d lba block.now)) }
        ensures newest { OnOk result (block.now ≡ ((M.state media.new).contents.disk lba).newest) }
        ensures cache { self.new.disk.cache ≡ self.old.disk.cache }
        ensures made { IsMadeAs self.old.disk self.new.disk }
        ensures faulted { FaultDowns result (kept.is_down self.new.disk) }
        ensures writes { WritesDisk 1 (M.state media.old) (M.state media.new) result }
        ensures flushes { (M.state media.new).counts.disk_flushes ≤ (M.state media.old).counts.disk_flushes + 1 }
        ensures same { OnErr result (kept.is_down self.new.disk ≡ false → self.new ≡ self.old) }
    {
        match put_block(media, lba, block) {
            Ok(()) => Ok(()),
            Err(MediaError::Failed) => {
                self.disk.down = true;
                Err(VolumeError::DiskFault)
            }
            Err(MediaError::PowerLost) => {
                self.disk.down = true;
                Err(VolumeError::PowerLost)
            }
            Err(MediaError::OutOfMemory) => Err(VolumeError::OutOfMemory),
        }
    }

    /// Holds the block that the disk has at an address, clean. The memory for it was taken before.
    fn put_in_cache<M: Media>(
        &mut self,
        media: &mut M,
        lba: u64,
        block: &Block,
    ) -> Result<(), VolumeError>
        requires may { MayWrite self.old (M.state media.old).contents lba }
        requires absent { (state_of self.old).held lba ≡ false }
        requires newest { block.now ≡ ((M.state media.old).contents.disk lba).newest }
        requires ready { self.old.disk.cache.ready ≡ true }
        ensures steps { Steps self.old self.new (M.state media.old) (M.state media.new) result }
        ensures stands { KeepsPlainDisk (state_of self.old).told (M.state media.old).contents (M.state media.new).contents }
        ensures held { OnOk result (HoldsAfter (state_of self.old).told (Writes lba block.now) (state_of self.old).held
            (state_of self.new).held) }
        ensures refused { OnErr result (kept.is_down self.new.disk ≡ true) }
        ensures no_disk { AsksNoDisk (M.state media.old) (M.state media.new) }
        ensures programs { OnOk result (ProgramsPages 1 (M.state media.old) (M.state media.new)) }
        ensures memory { IsErrOf result VolumeError.OutOfMemory → ⊥ }
    {
        match self.disk.cache.write_clean(media, lba, block) {
            Ok(()) => Ok(()),
            Err(error) => Err(cache_error(error)),
        }
    }
}

/// Writes a block to the disk, and flushes it.
fn put_block<M: Media>(media: &mut M, lba: u64, block: &Block) -> Result<(), MediaError>
    requires { lba < (M.state media.old).contents.shape.size }
    ensures ok { OnOk result ((at : ℕ) → (M.state media.new).contents.disk at ≡ flushed
        (after_write (M.state media.old).contents.disk lba block.now at)) }
    // Whatever the call answers, a disk block has a value that it had, or the value that is written.
    ensures values { (at : ℕ) (b : Block) → HasValue ((M.state media.new).contents.disk at) b
        → HasValue ((M.state media.old).contents.disk at) b ⊎ ((at ≡ lba) × (b ≡ block.now)) }
    ensures memory { IsErrOf result MediaError.OutOfMemory → M.state media.new ≡ M.state media.old }
    ensures flash { FlashStays (M.state media.old).contents (M.state media.new).contents (lost result) }
    ensures crash { lost result ≡ true → Crashed (M.state media.new).contents }
    ensures reads { (M.state media.new).counts.disk_reads ≡ (M.state media.old).counts.disk_reads }
    ensures writes { OnOk result (RoseBy 1 (M.state media.old).counts.disk_writes (M.state media.new).counts.disk_writes) }
    ensures most { (M.state media.new).counts.disk_writes ≤ (M.state media.old).counts.disk_writes + 1 }
    ensures flushes { (M.state media.new).counts.disk_flushes ≤ (M.state media.old).counts.disk_flushes + 1 }
    ensures cause { DiskCause (M.state media.old).faults (M.state media.new).faults (failed result) (lost result) }
    ensures passes { Passes (M.state media.old) (M.state media.new) (lost result) }
{
    media.write_block(lba, block)?;
    media.flush_disk()?;
    Ok(())
}
