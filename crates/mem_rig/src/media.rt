//! The traits `Media` and `Rig` for the rig in memory, with clauses that say exactly how each call ends.
ghost use Rattle.std.specs.Prelude.{◌≡◌, false, OnOk, OnErr};
ghost use Rattle.mem_rig.specs.Rig.{state_of};
ghost use Rattle.mem_rig.specs.Called.{Uncounted};

use crate::MemRig;
use device_calls::Ending;
use ft_base::{Block, Outcome, Place, Spare};
use ft_media::{Counts, Media, MediaError, PageRead, Rig};
use std::alloc::{AllocError, Global};

impl Media for MemRig {
    ghost use Rattle.std.specs.Prelude.{◌<◌, ◌⊎◌, ℕ, true, None, IfOk, IsErrOf};
    ghost use Rattle.std.specs.Result.{result_err};
    ghost use Rattle.ft_base.specs.declared.block.Block.{Block};
    ghost use Rattle.ft_base.specs.Contents.{HasValue, flushed, set};
    ghost use Rattle.ft_media.specs.State.{lost, failed};
    ghost use Rattle.ft_media.specs.Passes.{Passes};
    ghost use Rattle.ft_media.specs.Media.{Found, IsNextPage, LeavesPage, PagesErased, after_program, after_erase, after_write, if_ok, program_counted, erase_counted, read_counted, write_counted, flush_counted, DiskStays, FlashStays, Crashed, FlashCause, DiskCause, ReadPower, DeviceWrite, OnlyCutsRose, UnlessWhole};
    ghost use Rattle.ft_media.specs.Rig.{SettledByStop};
    ghost use Rattle.device_calls.specs.Calls.{faults_small};
    ghost use Rattle.nand_model.specs.Steps.{program_left, erase_left};
    ghost use Rattle.disk_model.specs.Steps.{write_left, flush_left};
    ghost use Rattle.nand_model.specs.Nand as nand;
    ghost use Rattle.disk_model.specs.Disk as disk;
    ghost use Rattle.mem_rig.specs.Rig.{flash_listed, disk_listed, flash_ending, disk_ending};
    ghost use Rattle.mem_rig.specs.Supply.{few_stops};
    ghost use Rattle.mem_rig.specs.Steps.{program_counts, erase_counts, write_counts, flush_counts, read_refusal};
    ghost use Rattle.mem_rig.specs.Called.{answer_of, AnswersWrite, FlashCalled, DiskCalled, FlashRead, DiskRead};

    ghost state = { state_of };

    ghost blank_ahead = { λ m. nand.blank_ahead m.nand };

    ghost ready_inside = { λ m. nand.ready_inside m.nand };

    ghost off_is_crashed = { λ m off. record { next = λ i b. m.unready off b i; alone = λ lba. m.settled off lba } };

    ghost is_small = { λ m. record {
      blocks = nand.block_count_small m.nand;
      pages = nand.page_count_small m.nand;
      size = disk.size_small m.disk;
      stops = few_stops m.supply;
      counts = record {
        programs = nand.programs_small m.nand;
        erases = nand.erases_small m.nand;
        disk_reads = disk.reads_small m.disk;
        disk_writes = disk.writes_small m.disk;
        disk_flushes = disk.flushes_small m.disk;
        flash_faults = faults_small (nand.calls_of m.nand);
        disk_faults = faults_small (disk.calls_of m.disk);
        cuts = m.cuts_small;
      };
    } };

    fn blocks(&self) -> u32 {
        self.flash_blocks()
    }

    fn pages(&self) -> u32 {
        self.flash_pages()
    }

    fn disk_size(&self) -> u64 {
        self.disk_blocks()
    }

    fn read_page(
        &mut self,
        at: Place,
        block: &mut Block,
        spare: &mut Spare,
    ) -> Result<PageRead, MediaError>
        requires block { at.block < (state_of self.old).contents.shape.blocks }
        requires page { at.page < (state_of self.old).contents.shape.pages }
        ensures found { IfOk result (λ found. Found ((state_of self.old).contents.flash.page at) found block.new spare.new) }
        ensures buffers { UnlessWhole result ((block.new ≡ block.old) × (spare.new ≡ spare.old)) }
        ensures contents { (state_of self.new).contents ≡ (state_of self.old).contents }
        ensures counts { (state_of self.new).counts ≡ (state_of self.old).counts }
        ensures cause { FlashCause (state_of self.old).faults (state_of self.new).faults (failed result) (lost result) }
        ensures memory { IsErrOf result MediaError.OutOfMemory → ⊥ }
        ensures off { (state_of self.old).power.on ≡ false → OnlyCutsRose (state_of self.old) (state_of self.new) }
        ensures power { ReadPower (state_of self.old).power (state_of self.new).power (lost result) }
        ensures passes { Passes (state_of self.old) (state_of self.new) (lost result) }
        // Exactly:
        ensures refused { result_err result ≡ read_refusal (state_of self.old).power.on (flash_listed self.old) }
        ensures read { FlashRead (result_err result) self.old self.new }
    {
        self.read_flash(at, block, spare)
    }

    fn program(&mut self, at: Place, block: &Block, spare: &Spare) -> Result<(), MediaError>
        requires ready { IsNextPage at (state_of self.old).contents.flash }
        requires page { at.page < (state_of self.old).contents.shape.pages }
        ensures ok { OnOk result ((state_of self.new).contents.flash ≡ after_program
            (state_of self.old).contents.flash at block.now spare.now) }
        ensures page { LeavesPage (state_of self.old).contents.flash (state_of self.new).contents.flash at block.now spare.now }
        ensures not_ready { IsErrOf result MediaError.Failed
            → (state_of self.new).contents.flash.next ≡ set (state_of self.old).contents.flash.next at.block None }
        ensures disk { DiskStays (state_of self.old).contents (state_of self.new).contents (lost result) }
        ensures crash { lost result ≡ true → Crashed (state_of self.new).contents }
        ensures settled { SettledByStop (state_of self.old) (state_of self.new) (lost result) (state_of self.old).contents.disk }
        ensures counts { (state_of self.new).counts ≡ if_ok result (program_counted (state_of self.old).counts) (state_of self.old).counts }
        ensures cause { FlashCause (state_of self.old).faults (state_of self.new).faults (failed result) (lost result) }
        ensures memory { IsErrOf result MediaError.OutOfMemory → ⊥ }
        ensures device { DeviceWrite (state_of self.old) (state_of self.new) result }
        ensures passes { Passes (state_of self.old) (state_of self.new) (lost result) }
        // Exactly:
        ensures answer { result ≡ answer_of (flash_ending self.old) }
        ensures called { FlashCalled (flash_ending self.old) self.old self.new
            (program_left (flash_ending self.old) (state_of self.old).contents.flash at block.now spare.now)
            (program_counts (flash_ending self.old) (state_of self.old).counts) }
    {
        match self.program_page(at, block, spare) {
            Ending::Done => Ok(()),
            Ending::Failed => Err(MediaError::Failed),
            Ending::Cut(_) => Err(MediaError::PowerLost),
            Ending::Off => Err(MediaError::PowerLost),
        }
    }

    fn erase(&mut self, block: u32) -> Result<(), MediaError>
        requires { block < (state_of self.old).contents.shape.blocks }
        ensures ok { OnOk result ((state_of self.new).contents.flash ≡ after_erase (state_of self.old).contents.flash block) }
        ensures pages { PagesErased (state_of self.old).contents.flash (state_of self.new).contents.flash block }
        ensures not_ready { IsErrOf result MediaError.Failed
            → (state_of self.new).contents.flash.next ≡ set (state_of self.old).contents.flash.next block None }
        ensures disk { DiskStays (state_of self.old).contents (state_of self.new).contents (lost result) }
        ensures crash { lost result ≡ true → Crashed (state_of self.new).contents }
        ensures settled { SettledByStop (state_of self.old) (state_of self.new) (lost result) (state_of self.old).contents.disk }
        ensures counts { (state_of self.new).counts ≡ if_ok result (erase_counted (state_of self.old).counts) (state_of self.old).counts }
        ensures cause { FlashCause (state_of self.old).faults (state_of self.new).faults (failed result) (lost result) }
        ensures memory { IsErrOf result MediaError.OutOfMemory → ⊥ }
        ensures device { DeviceWrite (state_of self.old) (state_of self.new) result }
        ensures passes { Passes (state_of self.old) (state_of self.new) (lost result) }
        // Exactly:
        ensures answer { result ≡ answer_of (flash_ending self.old) }
        ensures called { FlashCalled (flash_ending self.old) self.old self.new
            (erase_left (flash_ending self.old) (state_of self.old).contents.flash block)
            (erase_counts (flash_ending self.old) (state_of self.old).counts) }
    {
        match self.erase_block(block) {
            Ending::Done => Ok(()),
            Ending::Failed => Err(MediaError::Failed),
            Ending::Cut(_) => Err(MediaError::PowerLost),
            Ending::Off => Err(MediaError::PowerLost),
        }
    }

    fn read_block(&mut self, lba: u64, block: &mut Block) -> Result<(), MediaError>
        requires { lba < (state_of self.old).contents.shape.size }
        ensures found { OnOk result (block.new ≡ ((state_of self.old).contents.disk lba).newest) }
        ensures buffer { OnErr result (block.new ≡ block.old) }
        ensures contents { (state_of self.new).contents ≡ (state_of self.old).contents }
        ensures counts { (state_of self.new).counts ≡ if_ok result (read_counted (state_of self.old).counts) (state_of self.old).counts }
        ensures cause { DiskCause (state_of self.old).faults (state_of self.new).faults (failed result) (lost result) }
        ensures memory { IsErrOf result MediaError.OutOfMemory → ⊥ }
        ensures off { (state_of self.old).power.on ≡ false → OnlyCutsRose (state_of self.old) (state_of self.new) }
        ensures power { ReadPower (state_of self.old).power (state_of self.new).power (lost result) }
        ensures passes { Passes (state_of self.old) (state_of self.new) (lost result) }
        // Exactly:
        ensures refused { result_err result ≡ read_refusal (state_of self.old).power.on (disk_listed self.old) }
        ensures read { DiskRead (result_err result) self.old self.new }
    {
        self.read_disk(lba, block)
    }

    fn write_block(&mut self, lba: u64, block: &Block) -> Result<(), MediaError>
        requires { lba < (state_of self.old).contents.shape.size }
        ensures ok { OnOk result ((at : ℕ) → (state_of self.new).contents.disk at ≡ after_write
            (state_of self.old).contents.disk lba block.now at) }
        // Whatever the call answers, a disk block has a value that it had, or the value that is written.
        ensures values { (at : ℕ) (b : Block) → HasValue ((state_of self.new).contents.disk at) b
            → HasValue ((state_of self.old).contents.disk at) b ⊎ ((at ≡ lba) × (b ≡ block.now)) }
        ensures failed { IsErrOf result MediaError.Failed → ((state_of self.new).contents.disk ≡ (state_of self.old).contents.disk)
            ⊎ ((at : ℕ) → (state_of self.new).contents.disk at ≡ after_write (state_of self.old).contents.disk lba block.now at) }
        ensures memory { IsErrOf result MediaError.OutOfMemory → state_of self.new ≡ state_of self.old }
        ensures flash { FlashStays (state_of self.old).contents (state_of self.new).contents (lost result) }
        ensures crash { lost result ≡ true → Crashed (state_of self.new).contents }
        ensures settled { SettledByStop (state_of self.old) (state_of self.new) (lost result)
            (after_write (state_of self.old).contents.disk lba block.now) }
        ensures counts { (state_of self.new).counts ≡ if_ok result (write_counted (state_of self.old).counts) (state_of self.old).counts }
        ensures cause { DiskCause (state_of self.old).faults (state_of self.new).faults (failed result) (lost result) }
        ensures device { DeviceWrite (state_of self.old) (state_of self.new) result }
        ensures passes { Passes (state_of self.old) (state_of self.new) (lost result) }
        // Exactly:
        ensures answer { AnswersWrite (disk_ending self.old) result }
        ensures called { IsErrOf result MediaError.OutOfMemory ⊎ DiskCalled (disk_ending self.old) self.old self.new
            (write_left (disk_ending self.old) (state_of self.old).contents.disk lba block.now)
            (write_counts (disk_ending self.old) (state_of self.old).counts) }
        ensures uncounted { IsErrOf result MediaError.OutOfMemory → Uncounted self.old self.new }
    {
        let Ok(ending) = self.write_disk(lba, block) else {
            return Err(MediaError::OutOfMemory);
        };
        match ending {
            Ending::Done => Ok(()),
            Ending::Failed => Err(MediaError::Failed),
            Ending::Cut(_) => Err(MediaError::PowerLost),
            Ending::Off => Err(MediaError::PowerLost),
        }
    }

    fn flush_disk(&mut self) -> Result<(), MediaError>
        ensures ok { OnOk result ((lba : ℕ) → (state_of self.new).contents.disk lba ≡ flushed ((state_of self.old).contents.disk lba)) }
        ensures values { (lba : ℕ) (b : Block) → HasValue ((state_of self.new).contents.disk lba) b
            → HasValue ((state_of self.old).contents.disk lba) b }
        ensures failed { IsErrOf result MediaError.Failed → (state_of self.new).contents.disk ≡ (state_of self.old).contents.disk }
        ensures memory { IsErrOf result MediaError.OutOfMemory → ⊥ }
        ensures flash { FlashStays (state_of self.old).contents (state_of self.new).contents (lost result) }
        ensures crash { lost result ≡ true → Crashed (state_of self.new).contents }
        ensures settled { SettledByStop (state_of self.old) (state_of self.new) (lost result) (state_of self.old).contents.disk }
        ensures counts { (state_of self.new).counts ≡ if_ok result (flush_counted (state_of self.old).counts) (state_of self.old).counts }
        ensures cause { DiskCause (state_of self.old).faults (state_of self.new).faults (failed result) (lost result) }
        ensures device { DeviceWrite (state_of self.old) (state_of self.new) result }
        ensures passes { Passes (state_of self.old) (state_of self.new) (lost result) }
        // Exactly:
        ensures answer { result ≡ answer_of (disk_ending self.old) }
        ensures called { DiskCalled (disk_ending self.old) self.old self.new
            (flush_left (disk_ending self.old) (state_of self.old).contents.disk)
            (flush_counts (disk_ending self.old) (state_of self.old).counts) }
    {
        match self.flush_blocks() {
            Ending::Done => Ok(()),
            Ending::Failed => Err(MediaError::Failed),
            Ending::Cut(_) => Err(MediaError::PowerLost),
            Ending::Off => Err(MediaError::PowerLost),
        }
    }
}

impl Rig for MemRig {
    ghost use Rattle.std.specs.Prelude.{◌<◌, ◌≤◌, length};
    ghost use Rattle.nand_model.specs.Nand.{HasRoom};
    ghost use Rattle.ft_media.specs.Rig.{Armed, Cut, powered};
    ghost use Rattle.ft_media.specs.Fitted.{fitted};
    ghost use Rattle.mem_rig.specs.Power.{power_after_arm};
    ghost use Rattle.mem_rig.specs.Steps.{cut_contents, cut_bumped};

    fn fit(&mut self, alloc: Global, blocks: u32, pages: u32, size: u64) -> Result<(), AllocError>
        ensures ok { OnOk result (state_of self.new ≡ fitted (state_of self.old) blocks pages size) }
        ensures err { OnErr result (state_of self.new ≡ state_of self.old) }
        // Exactly:
        ensures room { OnOk result (HasRoom self.new.nand blocks pages) }
        ensures uncounted { Uncounted self.old self.new }
    {
        self.fit_anew(alloc, blocks, pages, size)
    }

    fn arm(&mut self, after: u64, outcome: Outcome)
        requires room { length (state_of self.old).power.stops < 16 }
        requires after { 1 ≤ after }
        ensures armed { Armed (state_of self.old) (state_of self.new) after outcome }
        // Exactly:
        ensures state { state_of self.new ≡ record (state_of self.old) { power = power_after_arm (state_of self.old).power after outcome } }
        ensures uncounted { Uncounted self.old self.new }
    {
        self.arm_stop(after, outcome);
    }

    fn armed(&self) -> u32 {
        self.stops()
    }

    fn cut(&mut self, outcome: Outcome)
        ensures cut { Cut (state_of self.old) (state_of self.new) outcome }
        // Exactly:
        ensures state { state_of self.new ≡ record (state_of self.old) {
          contents = cut_contents outcome (state_of self.old).contents;
          faults = cut_bumped (state_of self.old).faults;
          power = record (state_of self.old).power { on = false };
        } }
        ensures uncounted { Uncounted self.old self.new }
    {
        self.cut_power(outcome);
    }

    fn power_on(&mut self)
        ensures on { state_of self.new ≡ powered (state_of self.old) }
        // Exactly:
        ensures uncounted { Uncounted self.old self.new }
    {
        self.turn_on();
    }

    fn is_on(&self) -> bool {
        self.has_power()
    }

    fn counts(&self) -> Counts {
        self.done()
    }
}
