//! The two calls that bring buffered changes to the flash, commit and checkpoint, with memory that is taken once.
ghost use Rattle.std.specs.Prelude.{◌≡◌, ◌≢◌, ◌<◌, ◌≤◌, [], IfOk, OnOk, IsOk};
ghost use Rattle.ft_base.specs.Layout.{log_pages};
ghost use Rattle.ft_media.specs.Drives.{OnlyDrives};
ghost use Rattle.checkpoint.specs.Commits.{CanCheckpoint, LogGoesOn, LeavesPool, AddsLogPage, AddsCheckpoint};
ghost use Rattle.ft_media.specs.Passes.{ProgramsPages};
ghost use Rattle.checkpoint.specs.Current.{IsOpenLog, IsCommitted, LogGoesLast, log_committed, log_checkpointed};

use crate::asking::PAGES;
use crate::writing::{Target, write_checkpoint};
use ft_base::{Block, Geometry, Record, zero_block};
use ft_media::{Media, MediaError};
use mapping::Map;
use op_log::OpLog;
use std::alloc::{AllocError, Global};
use std::marker::Model;

/// Makes checkpoints, with a page and a list of records of its own.
#[derive(Drop)]
pub struct Checkpoints {
    geometry: Geometry,
    page: Box<Block>,
    asked: Vec<Record>,
}

impl Model for Checkpoints {
    ghost use Rattle.std.specs.Prelude.{◌≡◌, length, vec_len};
    ghost use Rattle.std.specs.Vec.{vec_capacity};
    ghost use Rattle.ft_base.specs.declared.geometry.Geometry.{Geometry};
    ghost use Rattle.checkpoint.specs.Asked.{asked_records};

    ghost Value = { Geometry };

    ghost view = { λ c. c.geometry };

    ghost invariant = { λ c. (length c.asked.items ≡ asked_records c.geometry) × (vec_capacity c.asked ≡ vec_len c.asked) };
}

impl Checkpoints {
    /// Allocates the page in which checkpoints are written, and the list for their records.
    pub fn new(alloc: Global, geometry: &Geometry) -> Result<Checkpoints, AllocError>
        ensures { IfOk result (λ c. c ≡ geometry.now) }
    {
        let Ok(page) = Box::new(alloc, zero_block()) else {
            return Err(AllocError);
        };
        let room = (PAGES * geometry.q()) as usize;
        let asked = vec![in alloc; Record::Remove { lba: 0 }; room]?;
        // The list that `vec!` makes has no more memory, but `vec!` doesn't promise that. So a longer list counts as
        // out of memory.
        if asked.capacity() > asked.len() {
            return Err(AllocError);
        }
        Ok(Checkpoints {
            geometry: *geometry,
            page,
            asked,
        })
    }

    /// Puts all buffered changes on the flash: with one log page, or with a checkpoint if the log has no page left. If
    /// nothing is buffered, it does nothing. It allocates nothing.
    pub fn commit<M: Media>(
        &mut self,
        media: &mut M,
        map: &Map,
        log: &mut OpLog,
    ) -> Result<(), MediaError>
        requires can { CanCheckpoint self.old map.now log.old (M.state media.old).contents }
        requires open { IsOpenLog (M.state media.old).contents.flash log.old }
        ensures own { self.new ≡ self.old }
        ensures nothing { log.old.buffered ≡ [] → IsOk result × (log.new ≡ log.old) × (M.state media.new ≡ M.state media.old) }
        ensures done { OnOk result (IsCommitted (M.state media.new).contents.flash log.new map.now.entries) }
        ensures log { LogGoesOn (log_committed log.old) log.old log.new result }
        ensures flash { LeavesPool log.old.geometry map.now.entries (M.state media.old).contents.flash (M.state media.new).contents.flash
            result }
        ensures one_page { OnOk result (log.old.buffered ≢ [] → log.old.next < log_pages log.old.geometry
            → AddsLogPage log.old (M.state media.old) (M.state media.new)) }
        ensures whole_checkpoint { OnOk result (log.old.buffered ≢ [] → log_pages log.old.geometry ≤ log.old.next
            → AddsCheckpoint log.old map.now.records (M.state media.old) (M.state media.new)) }
        ensures programs { OnOk result (log.old.buffered ≢ [] → ProgramsPages 1 (M.state media.old) (M.state media.new)) }
        ensures drives { OnlyDrives (M.state media.old) (M.state media.new) result }
    {
        if log.buffered() == 0 {
            return Ok(());
        }
        if log.room() > 0 {
            return log.flush(media);
        }
        self.checkpoint(media, map, log)
    }

    /// Erases the other checkpoint region and its log, programs the map with the buffered changes, and seals it. It
    /// allocates nothing.
    pub fn checkpoint<M: Media>(
        &mut self,
        media: &mut M,
        map: &Map,
        log: &mut OpLog,
    ) -> Result<(), MediaError>
        requires can { CanCheckpoint self.old map.now log.old (M.state media.old).contents }
        ensures own { self.new ≡ self.old }
        ensures done { OnOk result (IsCommitted (M.state media.new).contents.flash log.new map.now.entries) }
        ensures log { LogGoesOn (log_checkpointed log.old) log.old log.new result }
        ensures flash { LeavesPool log.old.geometry map.now.entries (M.state media.old).contents.flash (M.state media.new).contents.flash
            result }
        ensures log_last { LogGoesLast log.old (M.state media.old).contents.flash.page (M.state media.new).contents.flash.page }
        ensures whole_checkpoint { OnOk result (AddsCheckpoint log.old map.now.records (M.state media.old) (M.state media.new)) }
        ensures programs { OnOk result (ProgramsPages 1 (M.state media.old) (M.state media.new)) }
        ensures drives { OnlyDrives (M.state media.old) (M.state media.new) result }
    {
        let target = Target {
            geometry: self.geometry,
            region: 1 - log.region(),
            era: (log.era() + 1) % 3,
        };
        let asked = self.asked.as_mut_slice();
        write_checkpoint(media, &mut self.page, asked, map, &target)?;
        log.restart(target.region, target.era);
        Ok(())
    }
}
