//! The rig in memory: flash and disk under one power, so that a cut within one device settles the other.
ghost use Rattle.std.specs.Prelude.{◌≡◌, ◌≤◌, false, []};
ghost use Rattle.ft_base.specs.Count.{last_count};
ghost use Rattle.nand_model.specs.Nand.{flash_of, nand_blocks, nand_pages, HasRoom};
ghost use Rattle.nand_model.specs.Nand as nand_numbers;
ghost use Rattle.disk_model.specs.Disk.{disk_lists, size_of};
ghost use Rattle.disk_model.specs.Disk as disk_numbers;
ghost use Rattle.mem_rig.specs.Off.{IsUnready, IsSettled};
ghost use Rattle.mem_rig.specs.Steps.{disk_beside, flash_beside, cuts_left};

use crate::supply::Supply;
use device_calls::Ending;
use disk_model::MemDisk;
use ft_base::{Block, Outcome, Place, Spare, bump};
use ft_media::{Counts, MediaError, PageRead};
use nand_model::MemNand;
use std::alloc::{AllocError, Global};

/// Flash, disk and power in memory, with a queue of at most 16 stops. Chosen calls of the flash and of the disk fail.
///
/// The calls here say exactly what happens; the calls of `Media` and `Rig` consist of them.
#[derive(Drop)]
pub struct MemRig {
    nand: MemNand,
    disk: MemDisk,
    supply: Supply,
    cuts: u64,
    ghost cuts_small: { cuts ≤ last_count },
    ghost unready: { supply.on ≡ false → IsUnready (flash_of nand) },
    ghost settled: { supply.on ≡ false → IsSettled (disk_lists disk) },
}

impl MemRig {
    ghost use Rattle.std.specs.Prelude.{◌<◌, true, length, OnOk, OnErr, IfOk};
    ghost use Rattle.std.specs.Result.{result_err};
    ghost use Rattle.ft_media.specs.Media.{Found, IsNextPage, UnlessWhole};
    ghost use Rattle.ft_media.specs.Rig.{powered};
    ghost use Rattle.ft_media.specs.Fitted.{new_contents, fitted};
    ghost use Rattle.device_calls.specs.Calls.{failing_numbers, calls_made};
    ghost use Rattle.nand_model.specs.Steps.{program_left, erase_left};
    ghost use Rattle.disk_model.specs.Steps.{write_left, flush_left, TakesMemory};
    ghost use Rattle.mem_rig.specs.Power.{power_after_arm, PowerLeft};
    ghost use Rattle.mem_rig.specs.Rig.{state_of, flash_calls, disk_calls, flash_listed, disk_listed, flash_ending, disk_ending};
    ghost use Rattle.mem_rig.specs.Steps.{FlashWritten, DiskWritten, program_counts, erase_counts, write_counts, flush_counts, read_refusal, cut_contents, cut_bumped};
    ghost use Rattle.mem_rig.specs.Called.{FlashCalled, DiskCalled, FlashRead, DiskRead, Uncounted};

    /// Media without a block, with power on and nothing armed. No call will fail.
    pub fn new(alloc: Global) -> MemRig
        ensures contents { (state_of result).contents ≡ new_contents 0 0 0 }
        ensures counts { (state_of result).counts ≡ record { programs = 0; erases = 0; disk_reads = 0; disk_writes = 0; disk_flushes = 0 } }
        ensures faults { (state_of result).faults ≡ record { flash = 0; disk = 0; cuts = 0 } }
        ensures power { (state_of result).power ≡ record { on = true; stops = []; rest = 0 } }
        ensures flash { failing_numbers (flash_calls result) ≡ [] }
        ensures disk { failing_numbers (disk_calls result) ≡ [] }
    {
        MemRig::failing(alloc, Vec::new(alloc), Vec::new(alloc))
    }

    /// The same, but the calls of the flash and of the disk with these numbers will fail. The numbers start at 1, and
    /// count from now on.
    pub fn failing(alloc: Global, flash: Vec<u64>, disk: Vec<u64>) -> MemRig
        ensures contents { (state_of result).contents ≡ new_contents 0 0 0 }
        ensures counts { (state_of result).counts ≡ record { programs = 0; erases = 0; disk_reads = 0; disk_writes = 0; disk_flushes = 0 } }
        ensures faults { (state_of result).faults ≡ record { flash = 0; disk = 0; cuts = 0 } }
        ensures power { (state_of result).power ≡ record { on = true; stops = []; rest = 0 } }
        ensures flash { failing_numbers (flash_calls result) ≡ flash.items }
        ensures disk { failing_numbers (disk_calls result) ≡ disk.items }
        ensures flash_made { calls_made (flash_calls result) ≡ 0 }
        ensures disk_made { calls_made (disk_calls result) ≡ 0 }
    {
        MemRig {
            nand: MemNand::new(alloc, flash),
            disk: MemDisk::new(alloc, disk),
            supply: Supply::new(),
            cuts: 0,
        }
    }

    /// Erase blocks of the flash.
    pub fn flash_blocks(&self) -> u32
        ensures { result ≡ (state_of self.now).contents.shape.blocks }
    {
        self.nand.blocks()
    }

    /// Pages of an erase block.
    pub fn flash_pages(&self) -> u32
        ensures { result ≡ (state_of self.now).contents.shape.pages }
    {
        self.nand.pages()
    }

    /// Blocks of the disk.
    pub fn disk_blocks(&self) -> u64
        ensures { result ≡ (state_of self.now).contents.shape.size }
    {
        self.disk.size()
    }

    /// The page of a block to program next, if the block is ready. It may be one past the last.
    pub fn next_page(&self, block: u32) -> Option<u32>
        requires { block < (state_of self.now).contents.shape.blocks }
        ensures { result ≡ (state_of self.now).contents.flash.next block }
    {
        self.nand.next_page(block)
    }

    /// Reads a page of the flash. No stop cuts a read. With power on it fails if its number is listed, and only then.
    pub fn read_flash(
        &mut self,
        at: Place,
        block: &mut Block,
        spare: &mut Spare,
    ) -> Result<PageRead, MediaError>
        requires block { at.block < (state_of self.old).contents.shape.blocks }
        requires page { at.page < (state_of self.old).contents.shape.pages }
        ensures refused { result_err result ≡ read_refusal (state_of self.old).power.on (flash_listed self.old) }
        ensures found { IfOk result (λ found. Found ((state_of self.old).contents.flash.page at) found block.new spare.new) }
        ensures buffers { UnlessWhole result ((block.new ≡ block.old) × (spare.new ≡ spare.old)) }
        ensures read { FlashRead (result_err result) self.old self.new }
    {
        if !self.supply.is_on() {
            self.cuts = bump(self.cuts);
            return Err(MediaError::PowerLost);
        }
        self.nand.read(at, block, spare)
    }

    /// Programs the next page of a block that is ready, and says how the write ended.
    #[tactic(auto, using(crate::proofs::PowerLemmas::power_left))]
    pub fn program_page(&mut self, at: Place, block: &Block, spare: &Spare) -> Ending
        requires ready { IsNextPage at (state_of self.old).contents.flash }
        requires page { at.page < (state_of self.old).contents.shape.pages }
        ensures ending { result ≡ flash_ending self.old }
        ensures written { FlashWritten result (state_of self.old) (state_of self.new)
            (program_left result (state_of self.old).contents.flash at block.now spare.now)
            (program_counts result (state_of self.old).counts) }
        ensures power { PowerLeft result (state_of self.old).power (state_of self.new).power }
        ensures called { FlashCalled (flash_ending self.old) self.old self.new
            (program_left (flash_ending self.old) (state_of self.old).contents.flash at block.now spare.now)
            (program_counts (flash_ending self.old) (state_of self.old).counts) }
    {
        let current = self.supply.current();
        let ending = self.nand.program(at, block, spare, current);
        settle_beside(&mut self.disk, ending);
        self.supply.count_write();
        self.cuts = cuts_after(self.cuts, ending);
        ending
    }

    /// Erases a block, which is ready after that, and says how the write ended.
    #[tactic(auto, using(crate::proofs::PowerLemmas::power_left))]
    pub fn erase_block(&mut self, block: u32) -> Ending
        requires { block < (state_of self.old).contents.shape.blocks }
        ensures ending { result ≡ flash_ending self.old }
        ensures written { FlashWritten result (state_of self.old) (state_of self.new)
            (erase_left result (state_of self.old).contents.flash block) (erase_counts result (state_of self.old).counts) }
        ensures power { PowerLeft result (state_of self.old).power (state_of self.new).power }
        ensures called { FlashCalled (flash_ending self.old) self.old self.new
            (erase_left (flash_ending self.old) (state_of self.old).contents.flash block)
            (erase_counts (flash_ending self.old) (state_of self.old).counts) }
    {
        let current = self.supply.current();
        let ending = self.nand.erase(block, current);
        settle_beside(&mut self.disk, ending);
        self.supply.count_write();
        self.cuts = cuts_after(self.cuts, ending);
        ending
    }

    /// Reads a block of the disk. No stop cuts a read. With power on it fails if its number is listed, and only then.
    pub fn read_disk(&mut self, lba: u64, block: &mut Block) -> Result<(), MediaError>
        ensures refused { result_err result ≡ read_refusal (state_of self.old).power.on (disk_listed self.old) }
        ensures found { OnOk result (block.new ≡ ((state_of self.old).contents.disk lba).newest) }
        ensures buffer { OnErr result (block.new ≡ block.old) }
        ensures read { DiskRead (result_err result) self.old self.new }
    {
        if !self.supply.is_on() {
            self.cuts = bump(self.cuts);
            return Err(MediaError::PowerLost);
        }
        self.disk.read(lba, block)
    }

    /// Writes a block of the disk, and says how the write ended. Only a write that is done or cut takes memory. On
    /// `Err`, when memory fails, nothing has changed, and neither the call nor a device write is counted.
    #[tactic(auto, using(crate::proofs::PowerLemmas::power_left))]
    pub fn write_disk(&mut self, lba: u64, block: &Block) -> Result<Ending, AllocError>
        ensures ending { IfOk result (λ ending. ending ≡ disk_ending self.old) }
        ensures written { IfOk result (λ ending. DiskWritten ending (state_of self.old) (state_of self.new)
            (write_left ending (state_of self.old).contents.disk lba block.now)
            (write_counts ending (state_of self.old).counts)) }
        ensures power { IfOk result (λ ending. PowerLeft ending (state_of self.old).power (state_of self.new).power) }
        ensures called { OnOk result (DiskCalled (disk_ending self.old) self.old self.new
            (write_left (disk_ending self.old) (state_of self.old).contents.disk lba block.now)
            (write_counts (disk_ending self.old) (state_of self.old).counts)) }
        ensures memory { OnErr result (TakesMemory (disk_ending self.old)) }
        ensures refused { OnErr result (state_of self.new ≡ state_of self.old) }
        ensures uncounted { OnErr result (Uncounted self.old self.new) }
    {
        let current = self.supply.current();
        let ending = self.disk.write(lba, block, current)?;
        stop_beside(&mut self.nand, ending);
        self.supply.count_write();
        self.cuts = cuts_after(self.cuts, ending);
        Ok(ending)
    }

    /// Flushes the disk, and says how the write ended.
    #[tactic(auto, using(crate::proofs::PowerLemmas::power_left))]
    pub fn flush_blocks(&mut self) -> Ending
        ensures ending { result ≡ disk_ending self.old }
        ensures written { DiskWritten result (state_of self.old) (state_of self.new)
            (flush_left result (state_of self.old).contents.disk) (flush_counts result (state_of self.old).counts) }
        ensures power { PowerLeft result (state_of self.old).power (state_of self.new).power }
        ensures called { DiskCalled (disk_ending self.old) self.old self.new
            (flush_left (disk_ending self.old) (state_of self.old).contents.disk)
            (flush_counts (disk_ending self.old) (state_of self.old).counts) }
    {
        let current = self.supply.current();
        let ending = self.disk.flush(current);
        stop_beside(&mut self.nand, ending);
        self.supply.count_write();
        self.cuts = cuts_after(self.cuts, ending);
        ending
    }

    /// Makes flash and disk anew. Counts stay, and calls go on being counted. On `Err` nothing has changed.
    pub fn fit_anew(
        &mut self,
        alloc: Global,
        blocks: u32,
        pages: u32,
        size: u64,
    ) -> Result<(), AllocError>
        ensures ok { OnOk result (state_of self.new ≡ fitted (state_of self.old) blocks pages size) }
        ensures room { OnOk result (HasRoom self.new.nand blocks pages) }
        ensures err { OnErr result (state_of self.new ≡ state_of self.old) }
        ensures uncounted { Uncounted self.old self.new }
    {
        self.nand.fit(alloc, blocks, pages)?;
        self.disk.fit(alloc, size);
        self.supply = Supply::new();
        Ok(())
    }

    /// Puts a stop at the end of the queue.
    pub fn arm_stop(&mut self, after: u64, outcome: Outcome)
        requires room { length (state_of self.old).power.stops < 16 }
        requires after { 1 ≤ after }
        ensures state { state_of self.new ≡ record (state_of self.old) { power = power_after_arm (state_of self.old).power after outcome } }
        ensures uncounted { Uncounted self.old self.new }
    {
        self.supply.arm(after, outcome);
    }

    /// How many stops are armed.
    pub fn stops(&self) -> u32
        ensures armed { result ≡ length (state_of self.now).power.stops }
        ensures few { result ≤ 16 }
    {
        self.supply.armed()
    }

    /// Turns power off, between two device writes.
    pub fn cut_power(&mut self, outcome: Outcome)
        ensures state { state_of self.new ≡ record (state_of self.old) {
          contents = cut_contents outcome (state_of self.old).contents;
          faults = cut_bumped (state_of self.old).faults;
          power = record (state_of self.old).power { on = false };
        } }
        ensures uncounted { Uncounted self.old self.new }
    {
        self.nand.stop();
        self.disk.settle(outcome);
        self.supply.turn(false);
        self.cuts = bump(self.cuts);
    }

    /// Turns power on.
    pub fn turn_on(&mut self)
        ensures state { state_of self.new ≡ powered (state_of self.old) }
        ensures uncounted { Uncounted self.old self.new }
    {
        self.supply.turn(true);
    }

    /// Whether power is on.
    pub fn has_power(&self) -> bool
        ensures { result ≡ (state_of self.now).power.on }
    {
        self.supply.is_on()
    }

    /// The counts of calls that answered `Ok`.
    pub fn done(&self) -> Counts
        ensures { result ≡ (state_of self.now).counts }
    {
        Counts {
            programs: self.nand.programs(),
            erases: self.nand.erases(),
            disk_reads: self.disk.reads(),
            disk_writes: self.disk.writes(),
            disk_flushes: self.disk.flushes(),
        }
    }

    /// How often the flash failed.
    pub fn flash_faults(&self) -> u64
        ensures { result ≡ (state_of self.now).faults.flash }
    {
        self.nand.faults()
    }

    /// How often the disk failed.
    pub fn disk_faults(&self) -> u64
        ensures { result ≡ (state_of self.now).faults.disk }
    {
        self.disk.faults()
    }

    /// How often power was lost, or was off at a call.
    pub fn cuts(&self) -> u64
        ensures { result ≡ (state_of self.now).faults.cuts }
    {
        self.cuts
    }
}

/// Settles the disk if a device write of the flash was cut.
fn settle_beside(disk: &mut MemDisk, ending: Ending)
    ensures disk { disk_lists disk.new ≡ disk_beside ending (disk_lists disk.old) }
    ensures size { size_of disk.new ≡ size_of disk.old }
    ensures numbers { disk_numbers.SameNumbers disk.old disk.new }
{
    if let Ending::Cut(outcome) = ending {
        disk.settle(outcome);
    }
}

/// Leaves no block of the flash ready if a device write of the disk was cut.
fn stop_beside(nand: &mut MemNand, ending: Ending)
    ensures flash { flash_of nand.new ≡ flash_beside ending (flash_of nand.old) }
    ensures blocks { nand_blocks nand.new ≡ nand_blocks nand.old }
    ensures pages { nand_pages nand.new ≡ nand_pages nand.old }
    ensures numbers { nand_numbers.SameNumbers nand.old nand.new }
{
    if let Ending::Cut(_) = ending {
        nand.stop();
    }
}

/// The count of cuts after a device write.
fn cuts_after(cuts: u64, ending: Ending) -> u64
    ensures cuts { result ≡ cuts_left ending cuts }
    ensures small { cuts ≤ last_count → result ≤ last_count }
{
    match ending {
        Ending::Done => cuts,
        Ending::Failed => cuts,
        Ending::Cut(_) => bump(cuts),
        Ending::Off => bump(cuts),
    }
}
