//! Writing a group back, step by step: owed writes, its dirty blocks, a flush of the disk, and then clean marks.
ghost use Rattle.std.specs.Prelude.{◌≡◌, ◌<◌, ◌≤◌, ◌==◌, ◌+◌, ◌*◌, ℕ, true, false, not, ◌&&◌, length, OnOk, OnErr, IfOk};
ghost use Rattle.ft_base.specs.Contents.{Contents};
ghost use Rattle.std.specs.FinMap.{get};
ghost use Rattle.std.specs.List.{list_any};
ghost use Rattle.std.specs.Option.{is_some};
ghost use Rattle.ft_base.specs.declared.told.Ack.TheVariants as ack;
ghost use Rattle.ft_base.specs.declared.told.Mode.TheVariants.{Back};
ghost use Rattle.ft_volume.specs.Volume.{Flushes};
ghost use Rattle.cache_model.specs.Cache.{is_write};
ghost use Rattle.ssc.specs.CacheState.{entries_of, pending};
ghost use Rattle.cached_disk.specs.Kept.{AsksNoDisk, MayServe, Serves, dirty_of, told_of};
ghost use Rattle.cached_disk.specs.Kept as kept;
ghost use Rattle.write_back.specs.Cleaning.{IsFlushed, IsOnDisk, Proceeds, WritesBack, is_among};
ghost use Rattle.write_back.specs.Left.{StaysDirty, in_group, out_of_group};

use block_map::page_set;
use cached_disk::{CachedDisk, cache_error, disk_error};
use ft_base::{Block, zero_block};
use ft_media::{Media, MediaError};
use ft_volume::{Ack, VolumeError};
use std::alloc::AllocError;

/// Writes a group back, once all owed writes are on the flash.
pub(crate) fn write_group_back<M: Media>(
    disk: &mut CachedDisk,
    media: &mut M,
    group: u64,
) -> Result<(), VolumeError>
    requires may { MayServe disk.old (M.state media.old).contents }
    requires back { disk.old.mode ≡ Back }
    requires group { group * disk.old.options.geometry.p < disk.old.options.geometry.size }
    ensures back { WritesBack (length (in_group disk.old.options.geometry.p group (dirty_of disk.old))) disk.old disk.new
        (M.state media.old) (M.state media.new) result }
    ensures cleaned { OnOk result (dirty_of disk.new ≡ out_of_group disk.old.options.geometry.p group (dirty_of disk.old)) }
    ensures same { OnErr result (kept.is_down disk.new ≡ false → StaysDirty disk.old disk.new) }
    ensures flushes { (M.state media.new).counts.disk_flushes ≤ (M.state media.old).counts.disk_flushes + 1 }
{
    match settle_writes(disk, media) {
        Ok(()) => copy_group_back(disk, media, group),
        Err(error) => Err(error),
    }
}

/// Puts the owed writes on the flash. If the disk got the block of an owed write, and power was cut, the cache would have
/// the older block again. It might be clean, in front of the newer one on the disk.
fn settle_writes<M: Media>(disk: &mut CachedDisk, media: &mut M) -> Result<(), VolumeError>
    requires may { MayServe disk.old (M.state media.old).contents }
    ensures serves { Serves Flushes disk.old disk.new (M.state media.old) (M.state media.new) result }
    ensures settled { OnOk result (list_any is_write (pending disk.new.cache) ≡ false) }
    ensures held { OnOk result ((a : ℕ) → is_some (get (entries_of disk.new.cache) a) ≡ is_some (get (entries_of disk.old.cache) a)) }
    ensures no_disk { AsksNoDisk (M.state media.old) (M.state media.new) }
    ensures ready { disk.new.cache.ready ≡ disk.old.cache.ready }
    ensures refused { OnErr result (kept.is_down disk.new ≡ true) }
    ensures at_write { (told_of disk.old).ack ≡ ack.Write → disk.new ≡ disk.old }
{
    match disk.ack() {
        Ack::Write => Ok(()),
        Ack::Flush => disk.flush(media),
    }
}

/// Writes the dirty blocks of a group to the disk, flushes the disk, and marks the blocks clean. The plain disk is
/// unchanged, whatever the answer is.
fn copy_group_back<M: Media>(
    disk: &mut CachedDisk,
    media: &mut M,
    group: u64,
) -> Result<(), VolumeError>
    requires may { MayServe disk.old (M.state media.old).contents }
    requires settled { list_any is_write (pending disk.old.cache) ≡ false }
    requires back { disk.old.mode ≡ Back }
    requires group { group * disk.old.options.geometry.p < disk.old.options.geometry.size }
    ensures proceeds { Proceeds (length (in_group disk.old.options.geometry.p group (dirty_of disk.old))) disk.old disk.new
        (M.state media.old) (M.state media.new) result }
    ensures cleaned { OnOk result (dirty_of disk.new ≡ out_of_group disk.old.options.geometry.p group (dirty_of disk.old)) }
    ensures same { OnErr result (kept.is_down disk.new ≡ false → disk.new ≡ disk.old) }
    ensures flushes { (M.state media.new).counts.disk_flushes ≤ (M.state media.old).counts.disk_flushes + 1 }
{
    let Ok(lbas) = dirty_in_group(disk, group) else {
        return Err(VolumeError::OutOfMemory);
    };
    copy_blocks(disk, media, lbas.as_slice())?;
    flush_copies(disk, media)?;
    clean_blocks(disk, media, lbas.as_slice())
}

/// The dirty addresses of a group, ascending. It looks only at the pages of the group.
fn dirty_in_group(disk: &CachedDisk, group: u64) -> Result<Vec<u64>, AllocError>
    requires may { (contents : Contents) × MayServe disk.now contents }
    requires group { group * disk.now.options.geometry.p < disk.now.options.geometry.size }
    ensures { IfOk result (λ lbas. lbas.items ≡ in_group disk.now.options.geometry.p group (dirty_of disk.now)) }
{
    let pages = disk.options.geometry.p();
    let first = group * pages as u64;
    let dirty = disk.cache.dirty_bits(group);
    let mut lbas = Vec::new(disk.alloc);
    for page in 0..pages {
        // No address past the size is held, so none is dirty.
        if page_set::contains(dirty, page) {
            lbas.push(first + page as u64)?;
        }
    }
    Ok(lbas)
}

/// Writes the held blocks of these dirty addresses to the disk, in order. They stay dirty.
fn copy_blocks<M: Media>(
    disk: &mut CachedDisk,
    media: &mut M,
    lbas: &[u64],
) -> Result<(), VolumeError>
    requires may { MayServe disk.old (M.state media.old).contents }
    requires settled { list_any is_write (pending disk.old.cache) ≡ false }
    requires dirty { (a : ℕ) → is_among lbas.now a ≡ true → is_among (dirty_of disk.old) a ≡ true }
    ensures proceeds { Proceeds (length lbas.now) disk.old disk.new (M.state media.old) (M.state media.new) result }
    ensures same { disk.new ≡ record disk.old { down = disk.new.down } }
    ensures copied { OnOk result ((a : ℕ) → is_among lbas.now a ≡ true → IsOnDisk disk.new (M.state media.new).contents a) }
    ensures flushes { (M.state media.new).counts.disk_flushes ≡ (M.state media.old).counts.disk_flushes }
{
    let mut block = zero_block();
    for &lba in lbas {
        copy_block(disk, media, lba, &mut block)?;
    }
    Ok(())
}

/// Writes the held block of a dirty address to the disk. It goes through `block`, one buffer for all addresses.
///
/// On `Err` the volume is down, except if it fails with out of memory. Then the blocks written so far are still dirty,
/// so it doesn't matter which of their values a crash leaves.
fn copy_block<M: Media>(
    disk: &mut CachedDisk,
    media: &mut M,
    lba: u64,
    block: &mut Block,
) -> Result<(), VolumeError>
    requires may { MayServe disk.old (M.state media.old).contents }
    requires settled { list_any is_write (pending disk.old.cache) ≡ false }
    requires dirty { is_among (dirty_of disk.old) lba ≡ true }
    ensures proceeds { Proceeds 1 disk.old disk.new (M.state media.old) (M.state media.new) result }
    ensures same { disk.new ≡ record disk.old { down = disk.new.down } }
    ensures copied { OnOk result (IsOnDisk disk.new (M.state media.new).contents lba) }
    ensures others { OnOk result ((a : ℕ) → IsOnDisk disk.old (M.state media.old).contents a
        → IsOnDisk disk.new (M.state media.new).contents a) }
    ensures flushes { (M.state media.new).counts.disk_flushes ≡ (M.state media.old).counts.disk_flushes }
{
    if let Err(error) = disk.cache.read(media, lba, block) {
        disk.down = true;
        return Err(cache_error(error));
    }
    match media.write_block(lba, block) {
        Ok(()) => Ok(()),
        Err(error) => match error {
            MediaError::OutOfMemory => Err(VolumeError::OutOfMemory),
            _ => {
                disk.down = true;
                Err(disk_error(error))
            }
        },
    }
}

/// Flushes the disk. Until this is done a crash may leave the older block of an address, so none may be marked clean.
/// On `Err` the volume is down.
fn flush_copies<M: Media>(disk: &mut CachedDisk, media: &mut M) -> Result<(), VolumeError>
    requires may { MayServe disk.old (M.state media.old).contents }
    requires settled { list_any is_write (pending disk.old.cache) ≡ false }
    ensures proceeds { Proceeds 0 disk.old disk.new (M.state media.old) (M.state media.new) result }
    ensures same { disk.new ≡ record disk.old { down = disk.new.down } }
    ensures flushed { OnOk result (IsFlushed (M.state media.new).contents) }
    ensures copied { OnOk result ((a : ℕ) → IsOnDisk disk.old (M.state media.old).contents a
        → IsOnDisk disk.new (M.state media.new).contents a) }
    ensures refused { OnErr result (kept.is_down disk.new ≡ true) }
    ensures flushes { (M.state media.new).counts.disk_flushes ≤ (M.state media.old).counts.disk_flushes + 1 }
{
    match media.flush_disk() {
        Ok(()) => Ok(()),
        Err(error) => {
            disk.down = true;
            Err(disk_error(error))
        }
    }
}

/// Marks the blocks of these addresses clean, in order. The disk, which is flushed, has them.
fn clean_blocks<M: Media>(
    disk: &mut CachedDisk,
    media: &mut M,
    lbas: &[u64],
) -> Result<(), VolumeError>
    requires may { MayServe disk.old (M.state media.old).contents }
    requires settled { list_any is_write (pending disk.old.cache) ≡ false }
    requires back { disk.old.mode ≡ Back }
    requires lbas { (a : ℕ) → is_among lbas.now a ≡ true → a < disk.old.options.geometry.size }
    requires flushed { IsFlushed (M.state media.old).contents }
    requires copied { (a : ℕ) → is_among lbas.now a ≡ true → IsOnDisk disk.old (M.state media.old).contents a }
    ensures proceeds { Proceeds 0 disk.old disk.new (M.state media.old) (M.state media.new) result }
    ensures cleaned { OnOk result ((a : ℕ) → is_among (dirty_of disk.new)
        a ≡ (is_among (dirty_of disk.old) a && not (is_among lbas.now a))) }
    ensures refused { OnErr result (kept.is_down disk.new ≡ true) }
    ensures flushes { (M.state media.new).counts.disk_flushes ≡ (M.state media.old).counts.disk_flushes }
{
    for &lba in lbas {
        clean_block(disk, media, lba)?;
    }
    Ok(())
}

/// Marks the block of an address clean. On `Err` the cache was given up, and the volume is down.
fn clean_block<M: Media>(disk: &mut CachedDisk, media: &mut M, lba: u64) -> Result<(), VolumeError>
    requires may { MayServe disk.old (M.state media.old).contents }
    requires settled { list_any is_write (pending disk.old.cache) ≡ false }
    requires back { disk.old.mode ≡ Back }
    requires lba { lba < disk.old.options.geometry.size }
    requires flushed { IsFlushed (M.state media.old).contents }
    requires copied { IsOnDisk disk.old (M.state media.old).contents lba }
    ensures proceeds { Proceeds 0 disk.old disk.new (M.state media.old) (M.state media.new) result }
    ensures cleaned { OnOk result ((a : ℕ) → is_among (dirty_of disk.new) a ≡ (is_among (dirty_of disk.old) a && not (lba == a))) }
    ensures flushed { OnOk result (IsFlushed (M.state media.new).contents) }
    ensures copied { OnOk result ((a : ℕ) → IsOnDisk disk.old (M.state media.old).contents a
        → IsOnDisk disk.new (M.state media.new).contents a) }
    ensures refused { OnErr result (kept.is_down disk.new ≡ true) }
    ensures disk_flushes { (M.state media.new).counts.disk_flushes ≡ (M.state media.old).counts.disk_flushes }
{
    match disk.cache.clean(media, lba) {
        Ok(()) => Ok(()),
        Err(error) => Err(cache_error(error)),
    }
}
