//! New volumes, and openings in two steps: the disk is flushed and the cache loaded, and then its checkpoint is made.
ghost use Rattle.std.specs.Prelude.{◌≡◌, List, [], OnOk, IfOk, IfErr};
ghost use Rattle.ft_base.specs.PlainDisk.{BlockWrite};
ghost use Rattle.ft_media.specs.State.{State};
ghost use Rattle.ft_volume.specs.Opening.{Creates, MayOpen, OpensOver, nothing_held};
ghost use Rattle.ft_volume.specs.Volume.{told_for};
ghost use Rattle.op_log.specs.Log.{FitsOn};
ghost use Rattle.op_log.specs.Refusals.{IsOfFlash};
ghost use Rattle.ssc.specs.CacheState.{entries_of};
ghost use Rattle.cached_disk.specs.Kept.{IsFresh, IsLeft, IsOpenCache, IsOpening, Owes, Reopens, StandsOpened, WritesNothingRefused, is_down, told_of};
ghost use Rattle.cached_disk.specs.Opened.{LoadedSince, OpensDisk};

use crate::CachedDisk;
use crate::errors::{cache_error, flush_error, open_error};
use ft_base::Geometry;
use ft_media::Media;
use ft_volume::{Mode, Options, VolumeError};
use op_log::OpenError;
use ssc::{LoadedCache, Ssc};
use std::alloc::Global;

/// A disk that was flushed, and a loaded cache in front of it, before its checkpoint is made. It is the first of the
/// two steps of an opening: a caller that stops between them has written nothing but that flush.
#[derive(Drop)]
pub struct LoadedDisk {
    /// The allocator.
    pub alloc: Global,
    /// The options with which it is opened.
    pub options: Options,
    /// How writes will get to the disk.
    pub mode: Mode,
    /// The cache that was loaded.
    pub cache: LoadedCache,
}

impl CachedDisk {
    /// Formats the flash and opens it, whatever it was before. The plain disk then has the disk's blocks.
    pub fn create<M: Media>(
        alloc: Global,
        media: &mut M,
        options: &Options,
        mode: Mode,
    ) -> Result<CachedDisk, VolumeError>
        requires shape { FitsOn options.now.geometry (M.state media.old).contents.shape }
        ensures owns { IfOk result (λ v. IsLeft v (M.state media.new).contents) }
        ensures owes { IfOk result (λ v. Owes v (M.state media.new).contents []) }
        ensures opened { IfOk result (λ v. IsFresh mode options.now nothing_held v) }
        ensures creates { Creates (told_for mode options.now) (M.state media.old) (M.state media.new) result }
    {
        if let Err(error) = Ssc::format(media, &options.geometry) {
            return Err(cache_error(error));
        }
        match open_cache(alloc, media, &options.geometry) {
            Ok(cache) => Ok(CachedDisk {
                alloc,
                options: *options,
                mode,
                cache,
                down: false,
            }),
            Err(error) => Err(open_error(error)),
        }
    }

    /// Opens the flash that the volume left, after a flush of the disk. Its clean blocks are the disk's blocks. On
    /// `Err` it has written nothing but that flush, unless a device failed or power was lost.
    pub fn open<M: Media>(
        alloc: Global,
        media: &mut M,
        options: &Options,
        mode: Mode,
    ) -> Result<CachedDisk, OpenError>
        requires shape { FitsOn options.now.geometry (M.state media.old).contents.shape }
        requires agrees { MayOpen (told_for mode options.now) (M.state media.old).contents }
        ensures owns { IfOk result (λ v. IsLeft v (M.state media.new).contents) }
        ensures owes { IfOk result (λ v. Owes v (M.state media.new).contents []) }
        ensures opened { IfOk result (λ v. OpensOver (told_for mode options.now) (M.state media.old).contents.flash.page
            (λ s. IsFresh mode options.now s v) (told_of v) (is_down v) (entries_of v.cache)) }
        ensures opening { IsOpening options.now.geometry (M.state media.old) (M.state media.new) result }
        ensures reads { WritesNothingRefused (M.state media.old) (M.state media.new) result }
        ensures stands { OnOk result (StandsOpened (told_for mode options.now) (M.state media.old).contents (M.state media.new).contents) }
    {
        let loaded = LoadedDisk::load(alloc, media, options, mode)?;
        loaded.seal(media)
    }

    /// Opens the cache again if it was cut off or given up.
    pub fn bring_up<M: Media>(&mut self, media: &mut M) -> Result<(), VolumeError>
        requires { IsLeft self.old (M.state media.old).contents }
        ensures left { IsLeft self.new (M.state media.new).contents }
        ensures reopens { Reopens self.old self.new (M.state media.old) (M.state media.new) result }
        ensures owes { (owed : List BlockWrite) → Owes self.old (M.state media.old).contents owed
            → Owes self.new (M.state media.new).contents owed }
    {
        if !self.is_down() {
            return Ok(());
        }
        match open_cache(self.alloc, media, &self.options.geometry) {
            Ok(cache) => {
                self.cache = cache;
                self.down = false;
                Ok(())
            }
            Err(error) => Err(open_error(error)),
        }
    }
}

impl LoadedDisk {
    /// Flushes the disk, and loads the list for which the flash stands. On `Err` it has written nothing but that flush,
    /// unless a device failed or power was lost.
    pub fn load<M: Media>(
        alloc: Global,
        media: &mut M,
        options: &Options,
        mode: Mode,
    ) -> Result<LoadedDisk, OpenError>
        requires shape { FitsOn options.now.geometry (M.state media.old).contents.shape }
        ensures made { IfOk result (λ v. (v.options ≡ options.now) × (v.mode ≡ mode)) }
        ensures loaded { IfOk result (λ v. LoadedSince options.now.geometry (M.state media.old) (M.state media.new) v.cache) }
        ensures opening { IsOpening options.now.geometry (M.state media.old) (M.state media.new) result }
        ensures reads { WritesNothingRefused (M.state media.old) (M.state media.new) result }
    {
        let cache = load_cache(alloc, media, &options.geometry)?;
        Ok(LoadedDisk {
            alloc,
            options: *options,
            mode,
            cache,
        })
    }

    /// Makes the checkpoint of the loaded cache. It allocates nothing, and makes no call of the disk.
    pub fn seal<M: Media>(self, media: &mut M) -> Result<CachedDisk, OpenError>
        requires { (start : State) × LoadedSince self.options.geometry start (M.state media.old) self.cache }
        ensures entries { IfOk result (λ v. entries_of v.cache ≡ entries_of self.cache.cache) }
        // The flash failed or power was lost; memory never fails.
        ensures refused { IfErr result IsOfFlash }
        // All effects of an opening, on the media before the load.
        ensures opens { (start : State) → LoadedSince self.options.geometry start (M.state media.old) self.cache
            → MayOpen (told_for self.mode self.options) start.contents → OpensDisk self.mode self.options start (M.state media.new) result }
    {
        match self.cache.seal(media) {
            Ok(cache) => Ok(CachedDisk {
                alloc: self.alloc,
                options: self.options,
                mode: self.mode,
                cache,
                down: false,
            }),
            Err(error) => Err(error),
        }
    }
}

/// Loads a cache after a flush of the disk. On `Err` it has only read since the flush, unless a device failed or power
/// was lost.
fn load_cache<M: Media>(
    alloc: Global,
    media: &mut M,
    geometry: &Geometry,
) -> Result<LoadedCache, OpenError>
    requires shape { FitsOn geometry.now (M.state media.old).contents.shape }
    ensures loaded { IfOk result (LoadedSince geometry.now (M.state media.old) (M.state media.new)) }
    ensures opening { IsOpening geometry.now (M.state media.old) (M.state media.new) result }
    ensures reads { WritesNothingRefused (M.state media.old) (M.state media.new) result }
{
    match media.flush_disk() {
        Ok(()) => LoadedCache::load(alloc, media, geometry),
        Err(error) => Err(flush_error(error)),
    }
}

/// Opens a cache after a flush of the disk, so that no value of the disk waits while the cache is used. If it fails or
/// is cut, the media still stand for the same plain disk. On `Err` it has only read since the flush, unless a device
/// failed or power was lost.
fn open_cache<M: Media>(alloc: Global, media: &mut M, geometry: &Geometry) -> Result<Ssc, OpenError>
    requires shape { FitsOn geometry.now (M.state media.old).contents.shape }
    ensures opened { IfOk result (λ c. IsOpenCache geometry.now (M.state media.old).contents (M.state media.new).contents c) }
    ensures opening { IsOpening geometry.now (M.state media.old) (M.state media.new) result }
    ensures reads { WritesNothingRefused (M.state media.old) (M.state media.new) result }
{
    let loaded = load_cache(alloc, media, geometry)?;
    loaded.seal(media)
}
