//! The parts over a loaded map: the role of each erase block and the list of log blocks follow from its entries.
ghost use Rattle.std.specs.Prelude.{◌≡◌, ◌<◌, ◌≤◌, ◌+◌, ℕ, [], None, Some, IfOk};
ghost use Rattle.std.specs.FinMap.{get};
ghost use Rattle.cache_model.specs.declared.entry.Entry.{Entry};
ghost use Rattle.cache_model.specs.Entries.{IsMap};
ghost use Rattle.block_pool.specs.Pool.{IsFree, IsInPool};
ghost use Rattle.merge_engine.specs.Agreement.{AreOfOne, RolesAgree};
ghost use Rattle.merge_engine.specs.Loaded.{AreInUse, RolesOf, RolesSoFar, role_for, AreFoundLogs};

use crate::Parts;
use block_pool::{Pool, Role};
use checkpoint::Checkpoints;
use ft_base::Geometry;
use log_blocks::LogBlocks;
use mapping::Map;
use op_log::OpLog;
use silent_evict::Victims;
use std::alloc::{AllocError, Global};

/// The parts over a map that was loaded, with the log of this region and era, at its first page and with nothing
/// buffered. The log blocks are in the order of their numbers, and none is open. It fails only with out of memory.
pub fn loaded(
    alloc: Global,
    geometry: &Geometry,
    map: Map,
    region: u32,
    era: u8,
) -> Result<Parts, AllocError>
    requires region { region < 2 }
    requires era { era ≤ 2 }
    requires own { map.geometry ≡ geometry.now }
    requires map { IsMap geometry.now map.entries }
    ensures of_one { IfOk result (λ parts. AreOfOne parts) }
    ensures geometry { IfOk result (λ parts. parts.geometry ≡ geometry.now) }
    ensures map { IfOk result (λ parts. parts.map ≡ map) }
    ensures log { IfOk result (λ parts. parts.log ≡ record {
      geometry = geometry.now;
      region = region;
      era = era;
      next = 0;
      buffered = [];
    }) }
    ensures roles { IfOk result (λ parts. RolesAgree parts) }
    ensures log_blocks { IfOk result (λ parts. AreFoundLogs parts.log_blocks) }
{
    let mut parts = unused(alloc, geometry, map, region, era)?;
    set_roles(&mut parts);
    adopt_log_blocks(&mut parts);
    Ok(parts)
}

/// The parts over a map, before any block has a role.
fn unused(
    alloc: Global,
    geometry: &Geometry,
    map: Map,
    region: u32,
    era: u8,
) -> Result<Parts, AllocError>
    requires region { region < 2 }
    requires era { era ≤ 2 }
    requires own { map.geometry ≡ geometry.now }
    ensures of_one { IfOk result (λ parts. AreOfOne parts) }
    ensures geometry { IfOk result (λ parts. parts.geometry ≡ geometry.now) }
    ensures map { IfOk result (λ parts. parts.map ≡ map) }
    ensures log { IfOk result (λ parts. parts.log ≡ record {
      geometry = geometry.now;
      region = region;
      era = era;
      next = 0;
      buffered = [];
    }) }
    ensures free { IfOk result (λ parts. (b : ℕ) → IsInPool geometry.now b → IsFree parts.pool b) }
    ensures log_blocks { IfOk result (λ parts. parts.log_blocks
        ≡ record { geometry = geometry.now; used = []; open_block = None; room = 0 }) }
{
    let log = OpLog::new(alloc, geometry, region, era)?;
    let pool = Pool::new(alloc, geometry)?;
    let victims = Victims::new(alloc, geometry)?;
    let log_blocks = LogBlocks::new(alloc, geometry)?;
    let checkpoints = Checkpoints::new(alloc, geometry)?;
    Ok(Parts {
        geometry: *geometry,
        map,
        log,
        pool,
        victims,
        log_blocks,
        checkpoints,
    })
}

/// Gives each block the role that its entries say. All blocks were free.
fn set_roles(parts: &mut Parts)
    requires of_one { AreOfOne parts.old }
    requires map { IsMap parts.old.geometry parts.old.map.entries }
    requires free { (b : ℕ) → IsInPool parts.old.geometry b → IsFree parts.old.pool b }
    ensures parts { parts.new ≡ record parts.old { pool = parts.new.pool } }
    ensures of_one { AreOfOne parts.new }
    ensures roles { RolesOf parts.old.geometry parts.old.map.entries parts.new.pool }
{
    for i in 0..parts.map.numbers() {
        set_role_at(parts, i);
    }
}

/// Gives the block of entry number `i` the role that the entry says, if there is such an entry.
fn set_role_at(parts: &mut Parts, i: u32)
    requires of_one { AreOfOne parts.old }
    requires map { IsMap parts.old.geometry parts.old.map.entries }
    ensures parts { parts.new ≡ record parts.old { pool = parts.new.pool } }
    ensures of_one { AreOfOne parts.new }
    ensures roles { RolesSoFar parts.old.geometry parts.old.map.entries parts.old.pool i
        → RolesSoFar parts.old.geometry parts.old.map.entries parts.new.pool (i + 1) }
{
    let Some((lba, at)) = parts.map.nth(i) else {
        return;
    };
    let role = role_at(parts, lba, at.block);
    parts.pool.set_role(at.block, role);
}

/// The role of a block in which an address stands.
fn role_at(parts: &Parts, lba: u64, block: u32) -> Role
    requires of_one { AreOfOne parts.now }
    requires map { IsMap parts.now.geometry parts.now.map.entries }
    ensures { (e : Entry) → get parts.now.map.entries lba ≡ Some e → e.place.block ≡ block → result ≡ role_for e.block_mapped }
{
    let Some(own) = parts.map.block_of(lba / parts.geometry.p as u64) else {
        return Role::Log;
    };
    if own.block() == block {
        Role::Data
    } else {
        Role::Log
    }
}

/// Puts the log blocks into their list, which is empty, in the order of their numbers.
fn adopt_log_blocks(parts: &mut Parts)
    requires of_one { AreOfOne parts.old }
    requires map { IsMap parts.old.geometry parts.old.map.entries }
    requires roles { RolesOf parts.old.geometry parts.old.map.entries parts.old.pool }
    requires none { parts.old.log_blocks ≡ record { geometry = parts.old.geometry; used = []; open_block = None; room = 0 } }
    ensures parts { parts.new ≡ record parts.old { log_blocks = parts.new.log_blocks } }
    ensures of_one { AreOfOne parts.new }
    ensures in_use { AreInUse parts.old.geometry parts.old.pool parts.new.log_blocks }
    ensures log_blocks { AreFoundLogs parts.new.log_blocks }
{
    for block in parts.geometry.first_pool()..parts.geometry.blocks() {
        if parts.pool.role(block) == Role::Log {
            parts.log_blocks.adopt(block);
        }
    }
}
