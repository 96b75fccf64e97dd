//! The table of dirty groups, made from the dirty addresses that a cache lists after it was loaded.
ghost use Rattle.std.specs.Prelude.{◌≡◌, ◌≤◌, ◌/◌, IfOk, length, map};
ghost use Rattle.ft_base.specs.declared.block.Place.{Place};
ghost use Rattle.ft_base.specs.declared.block.Page.{Page};
ghost use Rattle.ft_base.specs.Contents.{Contents};
ghost use Rattle.ft_volume.specs.Volume.{dirty_lbas};
ghost use Rattle.cache_model.specs.Entries.{each_once};
ghost use Rattle.merge_engine.specs.Loaded.{AreAscending};
ghost use Rattle.ssc.specs.CacheState.{entries_of};
ghost use Rattle.ssc.specs.Opened.{IsLoadedFrom};
ghost use Rattle.cached_disk.specs.Kept.{IsOrderOf, MayServe, dirty_of};
ghost use Rattle.write_back.specs.Left.{IsExact, IsDirtyTable};
ghost use Rattle.write_back.specs.Tables.{IsTableOf};

use cached_disk::{CachedDisk, LoadedDisk};
use dirty_table::DirtyTable;
use ft_base::Geometry;
use std::alloc::{AllocError, Global};

/// The table of the groups that have a dirty block in a cache.
pub(crate) fn dirty_table_of(disk: &CachedDisk) -> Result<DirtyTable, AllocError>
    requires may { (contents : Contents) × MayServe disk.now contents }
    ensures table { IfOk result (λ table. IsDirtyTable disk.now.options.geometry table) }
    ensures exact { IfOk result (λ table. IsExact disk.now.options.geometry.p table.order (dirty_of disk.now)) }
    ensures order { IfOk result (λ table. IsOrderOf table.order disk.now) }
{
    let geometry = &disk.options.geometry;
    let mut lbas = Vec::new(disk.alloc);
    disk.cache.exists(0, geometry.size(), &mut lbas)?;
    table_of_addresses(disk.alloc, geometry, lbas.as_slice())
}

/// The same table for a cache that was loaded, before its checkpoint is made.
pub(crate) fn loaded_table_of(disk: &LoadedDisk) -> Result<DirtyTable, AllocError>
    requires { (page : Place → Page) × IsLoadedFrom disk.now.options.geometry page disk.now.cache }
    ensures { IfOk result (IsTableOf disk.now.options.geometry (dirty_lbas (entries_of disk.now.cache.cache))) }
{
    let geometry = &disk.options.geometry;
    let mut lbas = Vec::new(disk.alloc);
    disk.cache.exists(0, geometry.size(), &mut lbas)?;
    table_of_addresses(disk.alloc, geometry, lbas.as_slice())
}

/// The table of the groups of these addresses, which ascend. The group of the highest address is in front, because the
/// flash doesn't say which was written last.
fn table_of_addresses(
    alloc: Global,
    geometry: &Geometry,
    lbas: &[u64],
) -> Result<DirtyTable, AllocError>
    requires ascend { AreAscending lbas.now }
    requires few { length (each_once (map (λ a. a / geometry.now.p) lbas.now)) ≤ geometry.now.c }
    ensures { IfOk result (IsTableOf geometry.now lbas.now) }
{
    let mut table = DirtyTable::new(alloc, geometry.c())?;
    for &lba in lbas {
        table.touch(lba / geometry.p() as u64)?;
    }
    Ok(table)
}
