//! Openings of a cache, in two steps: the list is loaded, and then a checkpoint of it is made.
ghost use Rattle.std.specs.Prelude.{◌≡◌, ◌<◌, ◌≤◌, ◌+◌, ◌++◌, Ok, IfOk, IfErr, OnOk, OnErr};
ghost use Rattle.ft_base.specs.declared.geometry.Geometry.{Geometry};
ghost use Rattle.ft_base.specs.declared.block.Place.{Place};
ghost use Rattle.ft_base.specs.declared.block.Page.{Page};
ghost use Rattle.ft_base.specs.Contents.{Image, Now};
ghost use Rattle.ft_media.specs.Drives.{DrivesFlash};
ghost use Rattle.ft_media.specs.Reads.{ReadsFlash};
ghost use Rattle.cache_model.specs.Cache.{dirty_between};
ghost use Rattle.cache_model.specs.CacheList.{CacheList};
ghost use Rattle.cache_model.specs.Entries.{IsMap};
ghost use Rattle.cache_model.specs.Loading.{load};
ghost use Rattle.cache_model.specs.Stands.{FlashStandsFor};
ghost use Rattle.op_log.specs.Log.{FitsOn};
ghost use Rattle.op_log.specs.Refusals.{open_failed, open_lost, IsOfFlash, IsRefusal};
ghost use Rattle.ssc.specs.CacheState.{Holds, IsUp, entries_of, geometry_of};
ghost use Rattle.ssc.specs.Kept.{IsJustOpened};
ghost use Rattle.ssc.specs.Opened.{CostsOpening, IsLoadedFrom, IsOpenedOver, StandsStill};
ghost use Rattle.ssc.specs.Own.{HoldsOwn, LoadsOwn};
ghost use Rattle.ssc.specs.Steps.{IsLoadedAs};

use crate::Ssc;
use crate::earlier::Places;
use ft_base::Geometry;
use ft_media::{Media, MediaError};
use merge_engine::{Parts, make_checkpoint};
use op_log::OpenError;
use recovery::{Loaded, load};
use std::alloc::{AllocError, Global};

/// A cache that was loaded, before its checkpoint is made. It is the first of the two steps of an opening: a caller
/// that stops between them has written nothing.
#[derive(Drop)]
pub struct LoadedCache {
    pub(crate) cache: Ssc,
}

impl Ssc {
    /// Loads the list for which the flash stands, in either format. It makes a checkpoint of it in format 2, in the
    /// region that lacks the checkpoint that was found. If it fails or is cut, the flash still stands for the same
    /// list. On `Err` it has written nothing, unless the flash failed or power was lost.
    pub fn open<M: Media>(
        alloc: Global,
        media: &mut M,
        geometry: &Geometry,
    ) -> Result<Ssc, OpenError>
        requires shape { FitsOn geometry.now (M.state media.old).contents.shape }
        ensures geometry { IfOk result (λ c. geometry_of c ≡ geometry.now) }
        ensures holds { IfOk result (λ c. (s : CacheList) → FlashStandsFor geometry.now (M.state media.old).contents.flash.page s
            → Holds c (M.state media.new).contents s) }
        ensures loads { IfOk result (λ c. load geometry.now (M.state media.old).contents.flash.page ≡ Ok (entries_of c)) }
        ensures opened { IfOk result (IsJustOpened geometry.now) }
        // Whatever the flash was, commands may be called.
        ensures is_up { IfOk result (λ c. IsUp c (M.state media.new).contents) }
        ensures refused { IfErr result (λ e. IsRefusal geometry.now e (load geometry.now (M.state media.old).contents.flash.page)) }
        // Whatever the call answers, and whenever power goes off, nothing is lost and nothing comes back.
        ensures images { (s : CacheList) → FlashStandsFor geometry.now (M.state media.old).contents.flash.page s → (x : Image)
            → Now (M.state media.new).contents x → FlashStandsFor geometry.now x.page s }
        // Blocks that were each written for their own address stay so.
        ensures own { IfOk result (λ c. LoadsOwn geometry.now (M.state media.old).contents.flash.page
            → HoldsOwn c (M.state media.new).contents) }
        ensures same { load geometry.now (M.state media.new).contents.flash.page ≡ load geometry.now
            (M.state media.old).contents.flash.page }
        // It makes one checkpoint; and an error that isn't the flash's or power's writes nothing.
        ensures costs { CostsOpening geometry.now (M.state media.old) (M.state media.new) result }
        ensures drives { DrivesFlash (M.state media.old) (M.state media.new) (open_failed result) (open_lost result) }
    {
        let loaded = LoadedCache::load(alloc, media, geometry)?;
        loaded.seal(media)
    }
}

impl LoadedCache {
    /// Loads the list for which the flash stands, in either format, and allocates the parts. It writes nothing.
    pub fn load<M: Media>(
        alloc: Global,
        media: &mut M,
        geometry: &Geometry,
    ) -> Result<LoadedCache, OpenError>
        requires shape { FitsOn geometry.now (M.state media.old).contents.shape }
        ensures loaded { IfOk result (IsLoadedFrom geometry.now (M.state media.old).contents.flash.page) }
        ensures loads { IfOk result (λ c. load geometry.now (M.state media.old).contents.flash.page ≡ Ok (entries_of c.cache)) }
        ensures refused { IfErr result (λ e. IsRefusal geometry.now e (load geometry.now (M.state media.old).contents.flash.page)) }
        ensures reads { ReadsFlash (M.state media.old) (M.state media.new) (open_failed result) (open_lost result) }
    {
        let loaded = load(alloc, media, geometry)?;
        let parts = parts_of(alloc, geometry, loaded)?;
        let before = Places::new(alloc)?;
        Ok(LoadedCache {
            cache: Ssc {
                parts,
                before,
                ready: false,
                stopped: false,
            },
        })
    }

    /// Adds the dirty addresses among the `count` addresses from `from` on, ascending. On `Err` the items of `out` are
    /// unchanged.
    pub fn exists(&self, from: u64, count: u64, out: &mut Vec<u64>) -> Result<(), AllocError>
        requires { from + count ≤ (geometry_of self.now.cache).size }
        ensures done { OnOk result ((g : Geometry) (page : Place → Page) (s : CacheList) → IsLoadedFrom g page self.now
            → FlashStandsFor g page s → out.new.items ≡ out.old.items ++ dirty_between from count s) }
        ensures refused { OnErr result (out.new.items ≡ out.old.items) }
    {
        self.cache.list_between(from, count, out)
    }

    /// Makes a checkpoint of the loaded list, in format 2, in the region that lacks the checkpoint that was found. It
    /// allocates nothing. If it fails or is cut, the flash still stands for the same list.
    pub fn seal<M: Media>(self, media: &mut M) -> Result<Ssc, OpenError>
        requires shape { FitsOn (geometry_of self.cache) (M.state media.old).contents.shape }
        requires loaded { IsLoadedFrom (geometry_of self.cache) (M.state media.old).contents.flash.page self }
        ensures entries { IfOk result (λ c. entries_of c ≡ entries_of self.cache) }
        ensures opened { IfOk result (IsOpenedOver (geometry_of self.cache) (M.state media.old).contents.flash.page
            (M.state media.new).contents) }
        // The flash failed or power was lost; memory never fails.
        ensures refused { IfErr result IsOfFlash }
        // Whatever the call answers, and whenever power goes off, nothing is lost and nothing comes back.
        ensures stands { StandsStill (geometry_of self.cache) (M.state media.old).contents.flash.page (M.state media.new).contents }
        ensures costs { CostsOpening (geometry_of self.cache) (M.state media.old) (M.state media.new) result }
        ensures drives { DrivesFlash (M.state media.old) (M.state media.new) (open_failed result) (open_lost result) }
    {
        let mut cache = self.cache;
        match make_checkpoint(&mut cache.parts, media) {
            Ok(()) => Ok(cache),
            Err(MediaError::Failed) => Err(OpenError::FlashFault),
            Err(MediaError::PowerLost) => Err(OpenError::PowerLost),
            Err(MediaError::OutOfMemory) => unreachable!(),
        }
    }
}

/// The parts over a loaded map.
fn parts_of(alloc: Global, geometry: &Geometry, loaded: Loaded) -> Result<Parts, AllocError>
    requires map { loaded.map.geometry ≡ geometry.now }
    requires is_map { IsMap geometry.now loaded.map.entries }
    requires region { loaded.region < 2 }
    requires era { loaded.era ≤ 2 }
    ensures { IfOk result (IsLoadedAs geometry.now loaded) }
{
    merge_engine::loaded(alloc, geometry, loaded.map, loaded.region, loaded.era)
}
