//! An opening in two steps: the loaded cache knows the dirty addresses before anything is written.
ghost use Rattle.std.specs.Prelude.{◌≡◌, ◌<◌, OnOk, IfOk};
ghost use Rattle.mem_rig.specs.Rig.{state_of};
ghost use Rattle.op_log.specs.Log.{FitsOn};
ghost use Rattle.ssc.specs.CacheState.{IsUp};

use crate::steps::block_of;
use cached_disk::LoadedDisk;
use ft_base::Geometry;
use ft_media::{Counts, Rig};
use ft_volume::{Ack, Mode, Options};
use mem_rig::MemRig;
use ssc::{LoadedCache, Ssc};
use std::alloc::Global;
use std::test::Fail;

/// A cache of 64 blocks on erase blocks of 4 pages.
fn options() -> Result<Options, Fail>
    ensures { IfOk result (λ options. 6 < options.geometry.size) }
{
    Ok(Options {
        geometry: Geometry::new(4, 2, 2, 1, 64)?,
        dirty: 1,
        ack: Ack::Write,
    })
}

/// A rig just large enough, with flash on which a cache left one dirty block.
fn left(alloc: Global, options: &Options) -> Result<MemRig, Fail>
    requires { 6 < options.now.geometry.size }
    ensures { IfOk result (λ rig. FitsOn options.now.geometry (state_of rig).contents.shape) }
{
    let geometry = options.geometry;
    let mut rig = MemRig::new(alloc);
    rig.fit(alloc, geometry.blocks(), geometry.p(), geometry.size())?;
    Ssc::format(&mut rig, &geometry)?;
    let mut cache = Ssc::open(alloc, &mut rig, &geometry)?;
    cache.write_dirty(&mut rig, 6, &block_of(6, 1))?;
    Ok(rig)
}

/// How many pages were programmed and erase blocks erased between two counts.
fn written(before: Counts, after: Counts) -> (u64, u64) {
    (
        after.programs.wrapping_sub(before.programs),
        after.erases.wrapping_sub(before.erases),
    )
}

/// The addresses from 1 on that a loaded cache lists.
fn listed(alloc: Global) -> Result<Vec<u64>, Fail> {
    let options = options()?;
    let mut rig = left(alloc, &options)?;
    let loaded = LoadedCache::load(alloc, &mut rig, &options.geometry)?;
    let mut lbas = Vec::new(alloc);
    loaded.exists(1, 6, &mut lbas)?;
    Ok(lbas)
}

#[test]
fn a_loaded_cache_lists_its_dirty_addresses(rt: HostRuntime) -> Result<(), Fail> {
    assert_eq!(rt; listed(rt.alloc())?.as_slice(), [6].as_slice());
    Ok(())
}

/// The programs and erases of a cache's load.
fn written_by_load(alloc: Global) -> Result<(u64, u64), Fail> {
    let options = options()?;
    let mut rig = left(alloc, &options)?;
    let before = rig.counts();
    LoadedCache::load(alloc, &mut rig, &options.geometry)?;
    Ok(written(before, rig.counts()))
}

#[test]
fn a_load_writes_nothing(rt: HostRuntime) -> Result<(), Fail> {
    assert_eq!(rt; written_by_load(rt.alloc())?, (0, 0));
    Ok(())
}

/// How many addresses a cache holds after it was loaded and sealed.
fn held_when_sealed(alloc: Global) -> Result<u64, Fail> {
    let options = options()?;
    let mut rig = left(alloc, &options)?;
    let loaded = LoadedCache::load(alloc, &mut rig, &options.geometry)?;
    Ok(loaded.seal(&mut rig)?.held())
}

#[test]
fn a_sealed_cache_holds_what_was_loaded(rt: HostRuntime) -> Result<(), Fail> {
    assert_eq!(rt; held_when_sealed(rt.alloc())?, 1);
    Ok(())
}

/// How often the load of a cached disk flushes the disk.
fn flushed_by_load(alloc: Global) -> Result<u64, Fail> {
    let options = options()?;
    let mut rig = left(alloc, &options)?;
    let before = rig.counts().disk_flushes;
    LoadedDisk::load(alloc, &mut rig, &options, Mode::Back)?;
    Ok(rig.counts().disk_flushes.wrapping_sub(before))
}

#[test]
fn the_load_of_a_cached_disk_flushes_the_disk_once(rt: HostRuntime) -> Result<(), Fail> {
    assert_eq!(rt; flushed_by_load(rt.alloc())?, 1);
    Ok(())
}

/// Whether a cached disk must be opened again after it was loaded and sealed.
fn down_when_sealed(alloc: Global) -> Result<bool, Fail> {
    let options = options()?;
    let mut rig = left(alloc, &options)?;
    let loaded = LoadedDisk::load(alloc, &mut rig, &options, Mode::Back)?;
    Ok(loaded.seal(&mut rig)?.is_down())
}

#[test]
fn a_sealed_disk_is_up(rt: HostRuntime) -> Result<(), Fail> {
    assert_eq!(rt; down_when_sealed(rt.alloc())?, false);
    Ok(())
}
