//! The block writes of a run that count, kept as a list.
ghost use Rattle.std.specs.Prelude.{◌≡◌, ◌≤◌, ◌-◌, ◌↔◌, [], ◌∷◌, length, drop, IsTrue, OnOk};
ghost use Rattle.ft_base.specs.Pattern.{pat};
ghost use Rattle.trace_model.specs.Fits.{WasNew};
ghost use Rattle.trace_model.specs.Plain.{kept_disk, kept_in};
ghost use Rattle.trace_model.specs.Run.{disk_written};

use ft_base::{Block, is_same, pattern, zero_block};
use std::alloc::{AllocError, Global};
use std::collections::VecDeque;

/// A write of one block: the pattern of its address and a tag.
#[derive(Clone, Copy)]
pub(crate) struct PatternWrite {
    pub(crate) lba: u64,
    pub(crate) tag: u64,
}

/// The block writes that count, the newest first. A read looks at one after the other.
#[derive(Drop)]
pub(crate) struct KeptWrites {
    pub(crate) writes: VecDeque<PatternWrite>,
}

impl KeptWrites {
    pub(crate) fn new(alloc: Global) -> KeptWrites
        ensures { kept_in result ≡ [] }
    {
        KeptWrites {
            writes: VecDeque::new(alloc),
        }
    }

    pub(crate) fn add(&mut self, lba: u64, tag: u64) -> Result<(), AllocError>
        ensures { OnOk result (kept_in self.new ≡ (record { lba = lba; block = pat lba tag }) ∷ kept_in self.old) }
    {
        if self.writes.push_front(PatternWrite { lba, tag }).is_err() {
            return Err(AllocError);
        }
        Ok(())
    }

    /// Loses the newest block writes, this many at most.
    pub(crate) fn lose(&mut self, lost: u64)
        ensures { kept_in self.new ≡ drop lost (kept_in self.old) }
    {
        for _write in 0..lost {
            if self.writes.pop_front().is_none() {
                return;
            }
        }
    }

    pub(crate) fn count(&self) -> usize
        ensures { result ≡ length (kept_in self.now) }
    {
        self.writes.len()
    }

    /// The block at an address.
    pub(crate) fn read(&self, lba: u64) -> Block
        ensures { result ≡ kept_disk self.now lba }
    {
        self.read_without(0, lba)
    }

    /// The block at an address without the newest block writes, this many.
    pub(crate) fn read_without(&self, lost: u64, lba: u64) -> Block
        ensures { result ≡ disk_written (drop lost (kept_in self.now)) lba }
    {
        let mut at = lost as usize;
        while at < self.writes.len() {
            let write = &self.writes[at];
            if write.lba == lba {
                return block_of(write);
            }
            at += 1;
        }
        zero_block()
    }

    /// Whether the oldest of the newest block writes, this many, changed the disk.
    pub(crate) fn was_new(&self, lost: u64) -> bool
        requires { 1 ≤ lost }
        ensures { IsTrue result ↔ WasNew (drop (lost - 1) (kept_in self.now)) }
    {
        let first = (lost - 1) as usize;
        if first >= self.writes.len() {
            return true;
        }
        let write = &self.writes[first];
        !is_same(&self.read_without(lost, write.lba), &block_of(write))
    }
}

/// The block of a write.
fn block_of(write: &PatternWrite) -> Block
    ensures { result ≡ pat write.now.lba write.now.tag }
{
    let mut block = zero_block();
    pattern(write.lba, write.tag, &mut block);
    block
}
