//! The disk in memory and its calls: reads that may fail, and writes and flushes that may fail or be cut.
ghost use Rattle.std.specs.Prelude.{◌≡◌, ◌<◌, ◌≤◌, ◌^◌};
ghost use Rattle.ft_base.specs.Count.{last_count};

use crate::store::Store;
use device_calls::{Calls, Current, Ending};
use ft_base::{Block, Outcome, bump};
use ft_media::MediaError;
use std::alloc::{AllocError, Global};

/// A disk in memory: for each address every value that it had since the last flush, and how many of its
/// calls were done. The calls with the listed numbers fail. Only blocks that were written take memory.
#[derive(Drop)]
pub struct MemDisk {
    size: u64,
    store: Store,
    calls: Calls,
    reads: u64,
    writes: u64,
    flushes: u64,
    ghost size_small: { size < 2 ^ 64 },
    ghost reads_small: { reads ≤ last_count },
    ghost writes_small: { writes ≤ last_count },
    ghost flushes_small: { flushes ≤ last_count },
}

impl MemDisk {
    ghost use Rattle.std.specs.Prelude.{◌↔◌, true, OnOk, OnErr, IfOk, IfErr, IsErr, if◌then◌else◌};
    ghost use Rattle.ft_base.specs.Count.{bumped};
    ghost use Rattle.ft_media.specs.Rig.{after_cut};
    ghost use Rattle.ft_media.specs.Fitted.{new_contents};
    ghost use Rattle.device_calls.specs.Calls.{calls_made, fault_count, failing_numbers, is_listed, ending_of, bumped_if_done, CountsRead, CountsWrite};
    ghost use Rattle.disk_model.specs.Disk.{size_of, disk_lists, calls_of, reads_done, writes_done, flushes_done, SameNumbers};
    ghost use Rattle.disk_model.specs.Steps.{write_left, flush_left, TakesMemory};

    /// A disk without a block. The calls with these numbers, counted from 1, will fail.
    pub fn new(alloc: Global, failing: Vec<u64>) -> MemDisk
        ensures disk { disk_lists result ≡ (new_contents 0 0 0).disk }
        ensures size { size_of result ≡ 0 }
        ensures failing { failing_numbers (calls_of result) ≡ failing.items }
        ensures made { calls_made (calls_of result) ≡ 0 }
        ensures faults { fault_count (calls_of result) ≡ 0 }
        ensures reads { reads_done result ≡ 0 }
        ensures writes { writes_done result ≡ 0 }
        ensures flushes { flushes_done result ≡ 0 }
    {
        MemDisk {
            size: 0,
            store: Store::new(alloc),
            calls: Calls::new(failing),
            reads: 0,
            writes: 0,
            flushes: 0,
        }
    }

    /// Makes the disk anew, with zero in each block. Counts stay.
    pub fn fit(&mut self, alloc: Global, size: u64)
        ensures disk { disk_lists self.new ≡ (new_contents 0 0 0).disk }
        ensures size { size_of self.new ≡ size }
        ensures numbers { SameNumbers self.old self.new }
    {
        self.store = Store::new(alloc);
        self.size = size;
    }

    /// Blocks of the disk.
    pub fn size(&self) -> u64
        ensures { result ≡ size_of self.now }
    {
        self.size
    }

    /// Reads the newest value of a block, with power on.
    pub fn read(&mut self, lba: u64, block: &mut Block) -> Result<(), MediaError>
        ensures failed { IsErr result ↔ (is_listed (calls_of self.old) ≡ true) }
        ensures error { IfErr result (λ error. error ≡ MediaError.Failed) }
        ensures found { OnOk result (block.new ≡ (disk_lists self.old lba).newest) }
        ensures buffer { OnErr result (block.new ≡ block.old) }
        ensures disk { disk_lists self.new ≡ disk_lists self.old }
        ensures size { size_of self.new ≡ size_of self.old }
        ensures calls { CountsRead (is_listed (calls_of self.old)) (calls_of self.old) (calls_of self.new) }
        ensures reads { reads_done self.new ≡
            (if is_listed (calls_of self.old) then reads_done self.old else bumped (reads_done self.old)) }
        ensures writes { writes_done self.new ≡ writes_done self.old }
        ensures flushes { flushes_done self.new ≡ flushes_done self.old }
    {
        if self.calls.read_fails() {
            return Err(MediaError::Failed);
        }
        self.store.read(lba, block);
        self.reads = bump(self.reads);
        Ok(())
    }

    /// Writes a block. Only a write that is done or cut takes memory. On `Err`, when memory fails, nothing has changed
    /// and the call isn't counted.
    pub fn write(&mut self, lba: u64, block: &Block, current: Current) -> Result<Ending, AllocError>
        ensures ending { IfOk result (λ ending. ending ≡ ending_of current (is_listed (calls_of self.old))) }
        ensures disk { IfOk result (λ ending. disk_lists self.new ≡ write_left ending (disk_lists self.old) lba block.now) }
        ensures size { size_of self.new ≡ size_of self.old }
        ensures calls { IfOk result (λ ending. CountsWrite ending (calls_of self.old) (calls_of self.new)) }
        ensures writes { IfOk result (λ ending. writes_done self.new ≡ bumped_if_done ending (writes_done self.old)) }
        ensures reads { reads_done self.new ≡ reads_done self.old }
        ensures flushes { flushes_done self.new ≡ flushes_done self.old }
        ensures memory { OnErr result (TakesMemory (ending_of current (is_listed (calls_of self.old)))) }
        ensures refused { OnErr result (disk_lists self.new ≡ disk_lists self.old) }
        ensures uncounted { OnErr result (SameNumbers self.old self.new) }
    {
        let ending = self.calls.next_ending(current);
        match ending {
            Ending::Done => {
                self.store.write(lba, block)?;
                self.writes = bump(self.writes);
            }
            Ending::Cut(outcome) => {
                self.store.write(lba, block)?;
                self.store.settle(outcome);
            }
            Ending::Failed => {}
            Ending::Off => {}
        }
        self.calls.count_write(ending);
        Ok(ending)
    }

    /// Flushes every newest value. Its cost is proportional to the writes since the last flush.
    pub fn flush(&mut self, current: Current) -> Ending
        ensures ending { result ≡ ending_of current (is_listed (calls_of self.old)) }
        ensures disk { disk_lists self.new ≡ flush_left result (disk_lists self.old) }
        ensures size { size_of self.new ≡ size_of self.old }
        ensures calls { CountsWrite result (calls_of self.old) (calls_of self.new) }
        ensures flushes { flushes_done self.new ≡ bumped_if_done result (flushes_done self.old) }
        ensures reads { reads_done self.new ≡ reads_done self.old }
        ensures writes { writes_done self.new ≡ writes_done self.old }
    {
        let ending = self.calls.write_ends(current);
        match ending {
            Ending::Done => {
                self.store.flush();
                self.flushes = bump(self.flushes);
            }
            Ending::Cut(outcome) => self.store.settle(outcome),
            Ending::Failed => {}
            Ending::Off => {}
        }
        ending
    }

    /// Power went off while the disk was not written.
    pub fn settle(&mut self, outcome: Outcome)
        ensures disk { disk_lists self.new ≡ after_cut outcome (disk_lists self.old) }
        ensures size { size_of self.new ≡ size_of self.old }
        ensures numbers { SameNumbers self.old self.new }
    {
        self.store.settle(outcome);
    }

    /// Blocks read.
    pub fn reads(&self) -> u64
        ensures { result ≡ reads_done self.now }
    {
        self.reads
    }

    /// Blocks written.
    pub fn writes(&self) -> u64
        ensures { result ≡ writes_done self.now }
    {
        self.writes
    }

    /// Flushes done.
    pub fn flushes(&self) -> u64
        ensures { result ≡ flushes_done self.now }
    {
        self.flushes
    }

    /// How often the disk failed.
    pub fn faults(&self) -> u64
        ensures { result ≡ fault_count (calls_of self.now) }
    {
        self.calls.faults()
    }
}
