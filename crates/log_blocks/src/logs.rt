//! The list of log blocks: blocks are begun, adopted and released, and pages of the open one are programmed in order.
ghost use Rattle.std.specs.Prelude.{◌≡◌, ◌<◌, ◌≤◌, ◌-◌, [], length, slice_get, Some, None, IfOk, IfSome, OnOk, OnErr, IsErrOf};
ghost use Rattle.std.specs.Vec.{vec_capacity};
ghost use Rattle.ft_base.specs.Contents.{set};
ghost use Rattle.ft_media.specs.Media.{IsNextPage, LeavesPage, after_program, if_ok, program_counted};
ghost use Rattle.ft_media.specs.Passes.{Spends};
ghost use Rattle.ft_media.specs.Drives.{OnlyDrives};
ghost use Rattle.log_blocks.specs.Logs.{IsInUse, AreSoundLogs, TakesNext, without_block, block_begun, adopted, released, append_place};
ghost use Rattle.cache_model.specs.Spelling.{data_spare};

use cache_model::SpareKind;
use ft_base::{Block, Geometry, Place};
use ft_media::{Media, MediaError};
use page_oob::write_spare;
use std::alloc::{AllocError, Global};
use std::marker::Model;

/// The log blocks in use, at most L. Each stands in the list after the blocks that were there when it was put in.
#[derive(Drop)]
pub struct LogBlocks {
    geometry: Geometry,
    used: Vec<u32>,
    open_block: Option<u32>,
    room: u32,
}

impl Model for LogBlocks {
    ghost use Rattle.std.specs.Prelude.{◌≡◌};
    ghost use Rattle.std.specs.Vec.{vec_capacity};
    ghost use Rattle.log_blocks.specs.Logs.{LogBlocksValue, AreSoundLogs};

    ghost Value = { LogBlocksValue };

    ghost view = { λ b. record { geometry = b.geometry; used = b.used.items; open_block = b.open_block; room = b.room } };

    ghost invariant = { λ b. AreSoundLogs (record { geometry = b.geometry; used = b.used.items; open_block = b.open_block; room = b.room })
        × (vec_capacity b.used ≡ b.geometry.l) };
}

impl LogBlocks {
    /// No block in use, and room for the numbers of L blocks and no more.
    pub fn new(alloc: Global, geometry: &Geometry) -> Result<LogBlocks, AllocError>
        ensures { IfOk result (λ logs. logs ≡ record { geometry = geometry.now; used = []; open_block = None; room = 0 }) }
    {
        Ok(LogBlocks {
            geometry: *geometry,
            used: Vec::with_capacity(alloc, geometry.l as usize)?,
            open_block: None,
            room: 0,
        })
    }

    /// The pages of the open block that are left, 0 to P. It is 0 if no block is open.
    pub fn room(&self) -> u32
        ensures room { result ≡ self.now.room }
        ensures sound { AreSoundLogs self.now }
    {
        self.room
    }

    /// The front block of the list, which has been in it longest, and `None` if none is in use, and only then.
    pub fn oldest(&self) -> Option<u32>
        ensures oldest { result ≡ slice_get self.now.used 0 }
        ensures in_use { IfSome result (IsInUse self.now) }
    {
        self.used.first().copied()
    }

    /// How many blocks are in use, 0 to L.
    pub fn used(&self) -> u32
        ensures used { result ≡ length self.now.used }
        ensures sound { AreSoundLogs self.now }
    {
        self.used.len() as u32
    }

    /// Block `i` of the list, counted from its front.
    pub fn nth(&self, i: u32) -> u32
        requires { i < length self.now.used }
        ensures nth { Some result ≡ slice_get self.now.used i }
        ensures in_use { IsInUse self.now result }
    {
        self.used[i as usize]
    }

    /// Puts a block at the end. It is the open one, with all its P pages left.
    pub fn begin(&mut self, block: u32)
        requires fresh { ¬ IsInUse self.old block }
        requires few { length self.old.used < self.old.geometry.l }
        ensures begun { self.new ≡ block_begun block self.old }
        ensures sound { AreSoundLogs self.new }
    {
        self.adopt(block);
        self.open_block = Some(block);
        self.room = self.geometry.p;
    }

    /// Puts a block at the end whose pages are not to be programmed. After that no block is open.
    pub fn adopt(&mut self, block: u32)
        requires fresh { ¬ IsInUse self.old block }
        requires few { length self.old.used < self.old.geometry.l }
        ensures adopted { self.new ≡ adopted block self.old }
        ensures sound { AreSoundLogs self.new }
    {
        // The list was made with room for all L log blocks, and it has fewer.
        self.used.push_reserved(block);
        self.open_block = None;
        self.room = 0;
    }

    /// Takes a block out of the list. If it was the open one, none is open after that.
    pub fn release(&mut self, block: u32)
        requires { IsInUse self.old block }
        ensures released { self.new ≡ released block self.old }
        ensures sound { AreSoundLogs self.new }
    {
        take_out(&mut self.used, block);
        if self.open_block == Some(block) {
            self.open_block = None;
            self.room = 0;
        }
    }

    /// Programs a block into the next page of the open log block, as a data page of the address. On `Err` the list, the
    /// open block and its room are unchanged; after `Failed` that block is not ready.
    pub fn append<M: Media>(
        &mut self,
        media: &mut M,
        lba: u64,
        block: &Block,
    ) -> Result<Place, MediaError>
        requires room { 1 ≤ self.old.room }
        requires shape { (M.state media.old).contents.shape.pages ≡ self.old.geometry.p }
        requires ready { IsNextPage (append_place self.old) (M.state media.old).contents.flash }
        ensures taken { IfOk result (TakesNext self.old self.new) }
        ensures programmed { OnOk result ((M.state media.new).contents.flash ≡ after_program (M.state media.old).contents.flash
            (append_place self.old) block.now (data_spare lba)) }
        ensures refused { OnErr result (self.new ≡ self.old) }
        // Whatever the answer is, and whenever power goes off, no other page changes.
        ensures page { LeavesPage (M.state media.old).contents.flash (M.state media.new).contents.flash (append_place self.old) block.now
            (data_spare lba) }
        ensures not_ready { IsErrOf result MediaError.Failed
            → (M.state media.new).contents.flash.next ≡ set (M.state media.old).contents.flash.next (append_place self.old).block None }
        ensures sound { AreSoundLogs self.new }
        ensures counts { (M.state media.new).counts ≡ if_ok result (program_counted (M.state media.old).counts) (M.state media.old).counts }
        ensures spends { OnOk result (Spends 1 (M.state media.old) (M.state media.new)) }
        ensures drives { OnlyDrives (M.state media.old) (M.state media.new) result }
    {
        let at = self.append_place();
        let spare = write_spare(SpareKind::Page, 0, lba);
        media.program(at, block, &spare)?;
        self.room -= 1;
        Ok(at)
    }

    /// The page of the open block to program next.
    fn append_place(&self) -> Place
        requires { 1 ≤ self.now.room }
        ensures place { result ≡ append_place self.now }
        ensures page { result.page < self.now.geometry.p }
    {
        // Pages are left only if a block is open.
        let Some(block) = self.open_block else {
            unreachable!()
        };
        Place {
            block,
            page: self.geometry.p - self.room,
        }
    }
}

/// Takes a block out of a list, whose others stay in their order.
fn take_out(used: &mut Vec<u32>, block: u32)
    ensures items { used.new.items ≡ without_block block used.old.items }
    ensures capacity { vec_capacity used.new ≡ vec_capacity used.old }
{
    used.retain(|one| block != *one);
}
