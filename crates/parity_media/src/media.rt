//! The trait `Media` for a rig with parity. It shows no parity page, and hides a failed read if its page is rebuilt.

use crate::ParityRig;
use crate::start::Start;
use crate::steps::{erase_at, program_at, read_at};
use ft_base::{Block, Place, Spare};
use ft_media::{Media, MediaError, PageRead, Rig};

impl<'a, R: Rig, K: Start> Media for ParityRig<'a, R, K> {
    ghost use Rattle.std.specs.Prelude.{◌≡◌, ◌<◌, ◌+◌, ◌==◌, ◌⊎◌, ℕ, true, false, None, OnOk, OnErr, IfOk, IsErrOf, if◌then◌else◌};
    ghost use Rattle.ft_base.specs.declared.block.Block.{Block};
    ghost use Rattle.ft_base.specs.Contents.{HasValue, flushed, set};
    ghost use Rattle.ft_media.specs.State.{lost, failed};
    ghost use Rattle.ft_media.specs.Passes.{Passes};
    ghost use Rattle.ft_media.specs.Media.{Found, IsNextPage, LeavesPage, PagesErased, after_program, after_erase, after_write, if_ok, program_counted, erase_counted, read_counted, write_counted, flush_counted, DiskStays, FlashStays, Crashed, FlashCause, DiskCause, ReadPower, DeviceWrite, OnlyCutsRose, UnlessWhole};
    ghost use Rattle.ft_media.specs.Rig.{SettledByStop};
    ghost use Rattle.parity_media.specs.Kept.{parity_blocks, parity_pages, parity_of};
    ghost use Rattle.parity_media.specs.Shown.{parity_state};
    ghost use Rattle.parity_media.specs.Writes.{FailsTwice};
    ghost use Rattle.parity_media.specs.Laws.{blank_so, ready_so, crashed_so, small_so};

    ghost state = { λ s. parity_state (R.state s.rig.now) s.rig.ghost_name s.parities s.tally };

    ghost blank_ahead = { λ s. blank_so (parity_blocks s.parities) (parity_pages s.parities) (R.state s.rig.now).contents (R.blank_ahead s.rig.now) };

    ghost ready_inside = { λ s. ready_so (parity_blocks s.parities) (parity_pages s.parities) (R.state s.rig.now).contents.flash.next };

    ghost off_is_crashed = { λ s off. crashed_so (parity_blocks s.parities) (parity_pages s.parities) (R.state s.rig.now).contents (R.off_is_crashed s.rig.now off) };

    ghost is_small = { λ s. small_so (R.state s.rig.now) s.rig.ghost_name s.parities s.tally (R.is_small s.rig.now) };

    fn blocks(&self) -> u32 {
        self.parities.blocks()
    }

    fn pages(&self) -> u32 {
        self.parities.pages()
    }

    fn disk_size(&self) -> u64 {
        self.rig.disk_size()
    }

    fn read_page(
        &mut self,
        at: Place,
        block: &mut Block,
        spare: &mut Spare,
    ) -> Result<PageRead, MediaError>
        requires block { at.block < (⟦<ParityRig<'a, R, K> as Media>⟧.state self.old).contents.shape.blocks }
        requires page { at.page < (⟦<ParityRig<'a, R, K> as Media>⟧.state self.old).contents.shape.pages }
        ensures found { IfOk result (λ found. Found ((⟦<ParityRig<'a, R, K> as Media>⟧.state self.old).contents.flash.page at) found block.new spare.new) }
        ensures buffers { UnlessWhole result ((block.new ≡ block.old) × (spare.new ≡ spare.old)) }
        ensures contents { (⟦<ParityRig<'a, R, K> as Media>⟧.state self.new).contents ≡ (⟦<ParityRig<'a, R, K> as Media>⟧.state self.old).contents }
        ensures counts { (⟦<ParityRig<'a, R, K> as Media>⟧.state self.new).counts ≡ (⟦<ParityRig<'a, R, K> as Media>⟧.state self.old).counts }
        ensures cause { FlashCause (⟦<ParityRig<'a, R, K> as Media>⟧.state self.old).faults (⟦<ParityRig<'a, R, K> as Media>⟧.state self.new).faults (failed result) (lost result) }
        ensures memory { IsErrOf result MediaError.OutOfMemory → ⊥ }
        ensures off { (⟦<ParityRig<'a, R, K> as Media>⟧.state self.old).power.on ≡ false → OnlyCutsRose (⟦<ParityRig<'a, R, K> as Media>⟧.state self.old) (⟦<ParityRig<'a, R, K> as Media>⟧.state self.new) }
        ensures power { ReadPower (⟦<ParityRig<'a, R, K> as Media>⟧.state self.old).power (⟦<ParityRig<'a, R, K> as Media>⟧.state self.new).power (lost result) }
        ensures passes { Passes (⟦<ParityRig<'a, R, K> as Media>⟧.state self.old) (⟦<ParityRig<'a, R, K> as Media>⟧.state self.new) (lost result) }
        // A page of a complete block fails only if another one fails too.
        ensures fails { IsErrOf result MediaError.Failed
            → FailsTwice (R.state self.old.rig.now) (R.state self.new.rig.now) (parity_of self.old.parities at.block).complete }
        ensures marks { (b : ℕ) → (parity_of self.new.parities b).complete ≡ (parity_of self.old.parities b).complete }
    {
        let found = read_at(self.rig, &self.parities, at, block, spare);
        self.tally.count_flash(&found);
        found
    }

    fn program(&mut self, at: Place, block: &Block, spare: &Spare) -> Result<(), MediaError>
        requires ready { IsNextPage at (⟦<ParityRig<'a, R, K> as Media>⟧.state self.old).contents.flash }
        requires page { at.page < (⟦<ParityRig<'a, R, K> as Media>⟧.state self.old).contents.shape.pages }
        ensures ok { OnOk result ((⟦<ParityRig<'a, R, K> as Media>⟧.state self.new).contents.flash ≡ after_program (⟦<ParityRig<'a, R, K> as Media>⟧.state self.old).contents.flash at block.now spare.now) }
        ensures page { LeavesPage (⟦<ParityRig<'a, R, K> as Media>⟧.state self.old).contents.flash (⟦<ParityRig<'a, R, K> as Media>⟧.state self.new).contents.flash at block.now spare.now }
        ensures not_ready { IsErrOf result MediaError.Failed
            → (⟦<ParityRig<'a, R, K> as Media>⟧.state self.new).contents.flash.next ≡ set (⟦<ParityRig<'a, R, K> as Media>⟧.state self.old).contents.flash.next at.block None }
        ensures disk { DiskStays (⟦<ParityRig<'a, R, K> as Media>⟧.state self.old).contents (⟦<ParityRig<'a, R, K> as Media>⟧.state self.new).contents (lost result) }
        ensures crash { lost result ≡ true → Crashed (⟦<ParityRig<'a, R, K> as Media>⟧.state self.new).contents }
        ensures settled { SettledByStop (⟦<ParityRig<'a, R, K> as Media>⟧.state self.old) (⟦<ParityRig<'a, R, K> as Media>⟧.state self.new) (lost result) (⟦<ParityRig<'a, R, K> as Media>⟧.state self.old).contents.disk }
        ensures counts { (⟦<ParityRig<'a, R, K> as Media>⟧.state self.new).counts ≡ if_ok result (program_counted (⟦<ParityRig<'a, R, K> as Media>⟧.state self.old).counts) (⟦<ParityRig<'a, R, K> as Media>⟧.state self.old).counts }
        ensures cause { FlashCause (⟦<ParityRig<'a, R, K> as Media>⟧.state self.old).faults (⟦<ParityRig<'a, R, K> as Media>⟧.state self.new).faults (failed result) (lost result) }
        ensures memory { IsErrOf result MediaError.OutOfMemory → ⊥ }
        ensures device { DeviceWrite (⟦<ParityRig<'a, R, K> as Media>⟧.state self.old) (⟦<ParityRig<'a, R, K> as Media>⟧.state self.new) result }
        ensures passes { Passes (⟦<ParityRig<'a, R, K> as Media>⟧.state self.old) (⟦<ParityRig<'a, R, K> as Media>⟧.state self.new) (lost result) }
        // The block is complete once its last page is programmed, and no block's mark goes.
        ensures marked { OnOk result (at.page + 1 ≡ (⟦<ParityRig<'a, R, K> as Media>⟧.state self.old).contents.shape.pages
            → (parity_of self.new.parities at.block).complete ≡ true) }
        ensures marks { (b : ℕ) → (parity_of self.old.parities b).complete ≡ true → (parity_of self.new.parities b).complete ≡ true }
    {
        let programmed = program_at(self.rig, &mut self.parities, at, block, spare);
        self.tally.count_program(&programmed);
        programmed
    }

    fn erase(&mut self, block: u32) -> Result<(), MediaError>
        requires { block < (⟦<ParityRig<'a, R, K> as Media>⟧.state self.old).contents.shape.blocks }
        ensures ok { OnOk result ((⟦<ParityRig<'a, R, K> as Media>⟧.state self.new).contents.flash ≡ after_erase (⟦<ParityRig<'a, R, K> as Media>⟧.state self.old).contents.flash block) }
        ensures pages { PagesErased (⟦<ParityRig<'a, R, K> as Media>⟧.state self.old).contents.flash (⟦<ParityRig<'a, R, K> as Media>⟧.state self.new).contents.flash block }
        ensures not_ready { IsErrOf result MediaError.Failed
            → (⟦<ParityRig<'a, R, K> as Media>⟧.state self.new).contents.flash.next ≡ set (⟦<ParityRig<'a, R, K> as Media>⟧.state self.old).contents.flash.next block None }
        ensures disk { DiskStays (⟦<ParityRig<'a, R, K> as Media>⟧.state self.old).contents (⟦<ParityRig<'a, R, K> as Media>⟧.state self.new).contents (lost result) }
        ensures crash { lost result ≡ true → Crashed (⟦<ParityRig<'a, R, K> as Media>⟧.state self.new).contents }
        ensures settled { SettledByStop (⟦<ParityRig<'a, R, K> as Media>⟧.state self.old) (⟦<ParityRig<'a, R, K> as Media>⟧.state self.new) (lost result) (⟦<ParityRig<'a, R, K> as Media>⟧.state self.old).contents.disk }
        ensures counts { (⟦<ParityRig<'a, R, K> as Media>⟧.state self.new).counts ≡ if_ok result (erase_counted (⟦<ParityRig<'a, R, K> as Media>⟧.state self.old).counts) (⟦<ParityRig<'a, R, K> as Media>⟧.state self.old).counts }
        ensures cause { FlashCause (⟦<ParityRig<'a, R, K> as Media>⟧.state self.old).faults (⟦<ParityRig<'a, R, K> as Media>⟧.state self.new).faults (failed result) (lost result) }
        ensures memory { IsErrOf result MediaError.OutOfMemory → ⊥ }
        ensures device { DeviceWrite (⟦<ParityRig<'a, R, K> as Media>⟧.state self.old) (⟦<ParityRig<'a, R, K> as Media>⟧.state self.new) result }
        ensures passes { Passes (⟦<ParityRig<'a, R, K> as Media>⟧.state self.old) (⟦<ParityRig<'a, R, K> as Media>⟧.state self.new) (lost result) }
        // The block isn't complete, whatever is answered, and no other block's mark changes.
        ensures marks { (b : ℕ) → (parity_of self.new.parities b).complete ≡ (if b == block then false else (parity_of self.old.parities b).complete) }
    {
        let erased = erase_at(self.rig, &mut self.parities, block);
        self.tally.count_flash(&erased);
        erased
    }

    fn read_block(&mut self, lba: u64, block: &mut Block) -> Result<(), MediaError>
        requires { lba < (⟦<ParityRig<'a, R, K> as Media>⟧.state self.old).contents.shape.size }
        ensures found { OnOk result (block.new ≡ ((⟦<ParityRig<'a, R, K> as Media>⟧.state self.old).contents.disk lba).newest) }
        ensures buffer { OnErr result (block.new ≡ block.old) }
        ensures contents { (⟦<ParityRig<'a, R, K> as Media>⟧.state self.new).contents ≡ (⟦<ParityRig<'a, R, K> as Media>⟧.state self.old).contents }
        ensures counts { (⟦<ParityRig<'a, R, K> as Media>⟧.state self.new).counts ≡ if_ok result (read_counted (⟦<ParityRig<'a, R, K> as Media>⟧.state self.old).counts) (⟦<ParityRig<'a, R, K> as Media>⟧.state self.old).counts }
        ensures cause { DiskCause (⟦<ParityRig<'a, R, K> as Media>⟧.state self.old).faults (⟦<ParityRig<'a, R, K> as Media>⟧.state self.new).faults (failed result) (lost result) }
        ensures memory { IsErrOf result MediaError.OutOfMemory → ⊥ }
        ensures off { (⟦<ParityRig<'a, R, K> as Media>⟧.state self.old).power.on ≡ false → OnlyCutsRose (⟦<ParityRig<'a, R, K> as Media>⟧.state self.old) (⟦<ParityRig<'a, R, K> as Media>⟧.state self.new) }
        ensures power { ReadPower (⟦<ParityRig<'a, R, K> as Media>⟧.state self.old).power (⟦<ParityRig<'a, R, K> as Media>⟧.state self.new).power (lost result) }
        ensures passes { Passes (⟦<ParityRig<'a, R, K> as Media>⟧.state self.old) (⟦<ParityRig<'a, R, K> as Media>⟧.state self.new) (lost result) }
        ensures marks { (b : ℕ) → (parity_of self.new.parities b).complete ≡ (parity_of self.old.parities b).complete }
    {
        let read = self.rig.read_block(lba, block);
        self.tally.count_disk(&read);
        read
    }

    fn write_block(&mut self, lba: u64, block: &Block) -> Result<(), MediaError>
        requires { lba < (⟦<ParityRig<'a, R, K> as Media>⟧.state self.old).contents.shape.size }
        ensures ok { OnOk result ((at : ℕ) → (⟦<ParityRig<'a, R, K> as Media>⟧.state self.new).contents.disk at ≡ after_write
            (⟦<ParityRig<'a, R, K> as Media>⟧.state self.old).contents.disk lba block.now at) }
        // Whatever the call answers, a disk block has a value that it had, or the value that is written.
        ensures values { (at : ℕ) (b : Block) → HasValue ((⟦<ParityRig<'a, R, K> as Media>⟧.state self.new).contents.disk at) b
            → HasValue ((⟦<ParityRig<'a, R, K> as Media>⟧.state self.old).contents.disk at) b ⊎ ((at ≡ lba) × (b ≡ block.now)) }
        ensures failed { IsErrOf result MediaError.Failed → ((⟦<ParityRig<'a, R, K> as Media>⟧.state self.new).contents.disk ≡ (⟦<ParityRig<'a, R, K> as Media>⟧.state self.old).contents.disk)
            ⊎ ((at : ℕ) → (⟦<ParityRig<'a, R, K> as Media>⟧.state self.new).contents.disk at ≡ after_write (⟦<ParityRig<'a, R, K> as Media>⟧.state self.old).contents.disk lba block.now at) }
        ensures memory { IsErrOf result MediaError.OutOfMemory → ⟦<ParityRig<'a, R, K> as Media>⟧.state self.new ≡ ⟦<ParityRig<'a, R, K> as Media>⟧.state self.old }
        ensures flash { FlashStays (⟦<ParityRig<'a, R, K> as Media>⟧.state self.old).contents (⟦<ParityRig<'a, R, K> as Media>⟧.state self.new).contents (lost result) }
        ensures crash { lost result ≡ true → Crashed (⟦<ParityRig<'a, R, K> as Media>⟧.state self.new).contents }
        ensures settled { SettledByStop (⟦<ParityRig<'a, R, K> as Media>⟧.state self.old) (⟦<ParityRig<'a, R, K> as Media>⟧.state self.new) (lost result)
            (after_write (⟦<ParityRig<'a, R, K> as Media>⟧.state self.old).contents.disk lba block.now) }
        ensures counts { (⟦<ParityRig<'a, R, K> as Media>⟧.state self.new).counts ≡ if_ok result (write_counted (⟦<ParityRig<'a, R, K> as Media>⟧.state self.old).counts) (⟦<ParityRig<'a, R, K> as Media>⟧.state self.old).counts }
        ensures cause { DiskCause (⟦<ParityRig<'a, R, K> as Media>⟧.state self.old).faults (⟦<ParityRig<'a, R, K> as Media>⟧.state self.new).faults (failed result) (lost result) }
        ensures device { DeviceWrite (⟦<ParityRig<'a, R, K> as Media>⟧.state self.old) (⟦<ParityRig<'a, R, K> as Media>⟧.state self.new) result }
        ensures passes { Passes (⟦<ParityRig<'a, R, K> as Media>⟧.state self.old) (⟦<ParityRig<'a, R, K> as Media>⟧.state self.new) (lost result) }
        ensures marks { (b : ℕ) → (parity_of self.new.parities b).complete ≡ (parity_of self.old.parities b).complete }
    {
        let written = self.rig.write_block(lba, block);
        self.tally.count_disk(&written);
        written
    }

    fn flush_disk(&mut self) -> Result<(), MediaError>
        ensures ok { OnOk result ((lba : ℕ) → (⟦<ParityRig<'a, R, K> as Media>⟧.state self.new).contents.disk lba ≡ flushed ((⟦<ParityRig<'a, R, K> as Media>⟧.state self.old).contents.disk lba)) }
        ensures values { (lba : ℕ) (b : Block) → HasValue ((⟦<ParityRig<'a, R, K> as Media>⟧.state self.new).contents.disk lba) b
            → HasValue ((⟦<ParityRig<'a, R, K> as Media>⟧.state self.old).contents.disk lba) b }
        ensures failed { IsErrOf result MediaError.Failed → (⟦<ParityRig<'a, R, K> as Media>⟧.state self.new).contents.disk ≡ (⟦<ParityRig<'a, R, K> as Media>⟧.state self.old).contents.disk }
        ensures memory { IsErrOf result MediaError.OutOfMemory → ⊥ }
        ensures flash { FlashStays (⟦<ParityRig<'a, R, K> as Media>⟧.state self.old).contents (⟦<ParityRig<'a, R, K> as Media>⟧.state self.new).contents (lost result) }
        ensures crash { lost result ≡ true → Crashed (⟦<ParityRig<'a, R, K> as Media>⟧.state self.new).contents }
        ensures settled { SettledByStop (⟦<ParityRig<'a, R, K> as Media>⟧.state self.old) (⟦<ParityRig<'a, R, K> as Media>⟧.state self.new) (lost result) (⟦<ParityRig<'a, R, K> as Media>⟧.state self.old).contents.disk }
        ensures counts { (⟦<ParityRig<'a, R, K> as Media>⟧.state self.new).counts ≡ if_ok result (flush_counted (⟦<ParityRig<'a, R, K> as Media>⟧.state self.old).counts) (⟦<ParityRig<'a, R, K> as Media>⟧.state self.old).counts }
        ensures cause { DiskCause (⟦<ParityRig<'a, R, K> as Media>⟧.state self.old).faults (⟦<ParityRig<'a, R, K> as Media>⟧.state self.new).faults (failed result) (lost result) }
        ensures device { DeviceWrite (⟦<ParityRig<'a, R, K> as Media>⟧.state self.old) (⟦<ParityRig<'a, R, K> as Media>⟧.state self.new) result }
        ensures passes { Passes (⟦<ParityRig<'a, R, K> as Media>⟧.state self.old) (⟦<ParityRig<'a, R, K> as Media>⟧.state self.new) (lost result) }
        ensures marks { (b : ℕ) → (parity_of self.new.parities b).complete ≡ (parity_of self.old.parities b).complete }
    {
        let flushed = self.rig.flush_disk();
        self.tally.count_disk(&flushed);
        flushed
    }
}
