//! What each disk was asked for.
ghost use Rattle.std.specs.Prelude.{◌≡◌, ◌≤◌, ◌<◌, ◌+◌, ◌*◌, ◌∷◌, ◌++◌, ℕ, [], List, IfOk, OnErr, OnOk, IsErrOf};
ghost use Rattle.std.specs.Int.{w64, to_be_bytes};
ghost use Rattle.sha2.specs.Hashers.{Holds256};
ghost use Rattle.sha2.specs.Sha256.{sha256};
ghost use Rattle.ft_base.specs.PlainDisk.{BlockWrite};
ghost use Rattle.trace_model.specs.declared.answer.Answer.TheVariants as kind;
ghost use Rattle.trace_model.specs.declared.line.Line.{Line};
ghost use Rattle.trace_model.specs.Lines.{IsRunnable};
ghost use Rattle.trace_model.specs.Run.{read_count, write_count};
ghost use Rattle.trace_model.specs.Text.{IsTold};
ghost use Rattle.many_disks.specs.Lines.{shifted};
ghost use Rattle.many_disks.specs.Tally.{AreTalliesOf, CountAtMost, IsUncounted, end_printed, ends_by};
ghost use Rattle.many_disks.specs.Told.{printed_text};

use crate::printing::put_disk;
use ft_base::Block;
use sha2::{Digest, Sha256};
use std::alloc::{AllocError, Global};
use std::array;
use trace_model::{Answer, Line};
use trace_replay::Ended;
use trace_text::put_answer;

/// At most this many disks share a volume.
const DISK_LIMIT: usize = 16;

/// What a disk was asked for.
#[derive(Drop)]
pub(crate) struct Tally {
    /// The number of its `w` lines.
    writes: u64,
    /// The number of its `r` lines.
    reads: u64,
    /// The number of its touched addresses.
    touched: u64,
    /// Takes these addresses, each with its block.
    hasher: Sha256,
}

impl Tally {
    /// Nothing was asked for.
    fn new() -> Tally
        ensures { IsUncounted result }
    {
        Tally {
            writes: 0,
            reads: 0,
            touched: 0,
            hasher: Sha256::new(),
        }
    }

    /// Counts a line.
    fn count(&mut self, line: &Line)
        requires few { self.old.writes + self.old.reads ≤ 4294967296 }
        ensures { self.new ≡ record self.old {
          writes = self.old.writes + write_count line.now;
          reads = self.old.reads + read_count line.now;
        } }
    {
        match *line {
            Line::Write { .. } => self.writes += 1,
            Line::Read { .. } => self.reads += 1,
            _ => {}
        }
    }

    /// Takes a touched address and its block, or nothing if it can count no more.
    fn take(&mut self, lba: u64, block: &Block) -> Result<(), Ended>
        ensures writes { self.new.writes ≡ self.old.writes }
        ensures reads { self.new.reads ≡ self.old.reads }
        ensures touched { OnOk result (self.new.touched ≡ self.old.touched + 1) }
        ensures holds { OnOk result ((bytes : List ℕ) → Holds256 self.old.hasher bytes
            → Holds256 self.new.hasher (bytes ++ (to_be_bytes w64 lba ++ block.now.0))) }
        ensures same { OnErr result (self.new ≡ self.old) }
        ensures only { OnErr result (IsErrOf result Ended.Memory) }
    {
        let Some(touched) = self.touched.checked_add(1) else {
            return Err(Ended::Memory);
        };
        self.touched = touched;
        self.hasher.update(lba.to_be_bytes());
        self.hasher.update(block.0.as_slice());
        Ok(())
    }

    /// The end line.
    fn end(&self) -> Result<Answer, AllocError>
        ensures told { IfOk result IsTold }
        ensures end { IfOk result (λ end. (bytes : List ℕ) → Holds256 self.now.hasher bytes
            → end ≡ kind.End self.now.writes self.now.reads self.now.touched (sha256 bytes)) }
    {
        let hasher = self.hasher.clone()?;
        Ok(Answer::End {
            writes: self.writes,
            reads: self.reads,
            touched: self.touched,
            digest: hasher.finalize(),
        })
    }
}

/// What each disk was asked for.
#[derive(Drop)]
pub(crate) struct Tallies {
    each: [Tally; DISK_LIMIT],
}

impl Tallies {
    /// Nothing was asked for.
    pub(crate) fn new() -> Tallies
        ensures none { (share : ℕ) → AreTalliesOf share 0 [] [] result.each }
        ensures few { CountAtMost 0 result.each }
    {
        Tallies {
            each: array::from_fn(|_| Tally::new()),
        }
    }

    /// Counts a line of this disk.
    pub(crate) fn count(&mut self, disk: u32, line: &Line)
        requires within { disk < 16 }
        requires few { CountAtMost 4294967296 self.old.each }
        ensures counted { (share : ℕ) → (lines : List Line) → (blocks : List BlockWrite) → IsRunnable share line.now
            → AreTalliesOf share 0 lines blocks self.old.each → AreTalliesOf share 0 (lines ++ shifted (disk * share) line.now ∷ []) blocks self.new.each }
        ensures few { (n : ℕ) → CountAtMost n self.old.each → CountAtMost (n + 1) self.new.each }
    {
        self.each[disk as usize].count(line);
    }

    /// Takes a touched address of the volume and its block, for the disk on which it lies. Takes nothing if that disk
    /// can count no more. Each disk has `share` blocks. An address behind all disks is taken for none.
    pub(crate) fn take(&mut self, share: u64, lba: u64, block: &Block) -> Result<(), Ended>
        requires some { 1 ≤ share }
        ensures taken { OnOk result ((lines : List Line) → (blocks : List BlockWrite) → AreTalliesOf share 0 lines blocks self.old.each
            → AreTalliesOf share 0 lines (blocks ++ (record { lba = lba; block = block.now }) ∷ []) self.new.each) }
        ensures same { OnErr result (self.new ≡ self.old) }
        ensures only { OnErr result (IsErrOf result Ended.Memory) }
        ensures few { (n : ℕ) → CountAtMost n self.old.each → CountAtMost n self.new.each }
    {
        let disk = lba / share;
        if disk >= DISK_LIMIT as u64 {
            return Ok(());
        }
        self.each[disk as usize].take(lba - disk * share, block)
    }

    /// The printed end of each of the first `disks` disks.
    pub(crate) fn ends(&self, alloc: Global, disks: u32) -> Result<Vec<u8>, AllocError>
        requires few { disks ≤ 16 }
        ensures { IfOk result (λ text. (share : ℕ) → (lines : List Line) → (blocks : List BlockWrite)
            → AreTalliesOf share 0 lines blocks self.now.each → text.items ≡ printed_text (ends_by share disks lines blocks)) }
    {
        let mut text = Vec::new(alloc);
        for disk in 0..disks {
            self.put_end(&mut text, disk)?;
        }
        Ok(text)
    }

    /// Appends the printed end of this disk.
    fn put_end(&self, out: &mut Vec<u8>, disk: u32) -> Result<(), AllocError>
        requires within { disk < 16 }
        ensures { OnOk result ((share : ℕ) → (lines : List Line) → (blocks : List BlockWrite) → AreTalliesOf share 0 lines blocks self.now.each
            → out.new.items ≡ out.old.items ++ printed_text (end_printed share disk lines blocks)) }
    {
        let end = self.each[disk as usize].end()?;
        put_disk(out, disk)?;
        put_answer(out, &end)
    }
}
