//! Reads of a block. The cache answers if it holds the address. If not, the disk answers, and the block is held.
ghost use Rattle.std.specs.Prelude.{◌≡◌, ◌<◌, ℕ, List, None, OnErr};
ghost use Rattle.std.specs.FinMap.{get};
ghost use Rattle.ft_volume.specs.Volume.{AsksDevices, Costs, Reads};
ghost use Rattle.ssc.specs.CacheState.{entries_of};
ghost use Rattle.cached_disk.specs.Kept.{MayServe, Serves, state_in};

use crate::CachedDisk;
use crate::errors::{cache_error, disk_error};
use ft_base::Block;
use ft_media::Media;
use ft_volume::VolumeError;

impl CachedDisk {
    /// Reads a block from the cache, or else from the disk. When the call answers `Ok`, a block that came from the disk
    /// is held, clean.
    pub fn read<M: Media>(
        &mut self,
        media: &mut M,
        lba: u64,
        block: &mut Block,
    ) -> Result<(), VolumeError>
        requires may { MayServe self.old (M.state media.old).contents }
        requires lba { lba < self.old.options.geometry.size }
        ensures serves { Serves (Reads lba block.new) self.old self.new (M.state media.old) (M.state media.new) result }
        ensures costs { (order : List ℕ) → Costs (Reads lba block.new) (state_in order self.old) (state_in order self.new)
            (M.state media.old) (M.state media.new) result }
        ensures asks { (order : List ℕ) → AsksDevices (Reads lba block.new) (state_in order self.old) (state_in order self.old)
            (state_in order self.new) (M.state media.old) (M.state media.new) result }
        ensures buffer { OnErr result (block.new ≡ block.old) }
    {
        match self.cache.read(media, lba, block) {
            Ok(true) => Ok(()),
            Ok(false) => self.read_missing(media, lba, block),
            Err(error) => Err(cache_error(error)),
        }
    }

    /// Reads from the disk a block that the cache doesn't hold, and holds it. The memory is taken first. On `Err` the
    /// caller's block is unchanged, so the block is first read into a buffer here.
    fn read_missing<M: Media>(
        &mut self,
        media: &mut M,
        lba: u64,
        block: &mut Block,
    ) -> Result<(), VolumeError>
        requires may { MayServe self.old (M.state media.old).contents }
        requires lba { lba < self.old.options.geometry.size }
        requires absent { get (entries_of self.old.cache) lba ≡ None }
        ensures serves { Serves (Reads lba block.new) self.old self.new (M.state media.old) (M.state media.new) result }
        ensures costs { (order : List ℕ) → Costs (Reads lba block.new) (state_in order self.old) (state_in order self.new)
            (M.state media.old) (M.state media.new) result }
        ensures disk_flushes { (M.state media.new).counts.disk_flushes ≡ (M.state media.old).counts.disk_flushes }
        ensures buffer { OnErr result (block.new ≡ block.old) }
    {
        let mut found = Block([0; 4096]);
        if self.cache.reserve().is_err() {
            return Err(VolumeError::OutOfMemory);
        }
        if let Err(error) = media.read_block(lba, &mut found) {
            return Err(disk_error(error));
        }
        match self.cache.write_clean(media, lba, &found) {
            Ok(()) => {
                *block = found;
                Ok(())
            }
            Err(error) => Err(cache_error(error)),
        }
    }
}
