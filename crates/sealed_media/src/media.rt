//! The contract of raw media: the bytes that each call leaves in pages, and the one premise on torn pages.
ghost use Rattle.std.specs.Prelude.{◌≡◌, ◌<◌, ◌≤◌, ◌⊎◌, ℕ, true, false, None, OnOk, OnErr, IsErrOf};
ghost use Rattle.ft_base.specs.declared.block.Block.{Block};
ghost use Rattle.ft_base.specs.Contents.{HasValue, flushed, set};
ghost use Rattle.ft_media.specs.declared.media.MediaError.TheVariants as error;
ghost use Rattle.ft_media.specs.State.{lost, failed};
ghost use Rattle.ft_media.specs.Passes.{Passes};
ghost use Rattle.ft_media.specs.Media.{IsNextPage, after_write, if_ok, program_counted, erase_counted, read_counted, write_counted, flush_counted, DiskStays, FlashStays, Crashed, FlashCause, DiskCause, ReadPower, DeviceWrite, OnlyCutsRose, IsBlankAhead, IsSmall};
ghost use Rattle.ft_media.specs.Rig.{SettledByStop};
ghost use Rattle.sealed_media.specs.declared.page.RawPage.{RawPage};
ghost use Rattle.sealed_media.specs.Seal.{IsSealed};
ghost use Rattle.sealed_media.specs.RawState.{RawState, plain_contents, plain_state};
ghost use Rattle.sealed_media.specs.Raw.{raw_programmed, LeavesRaw, RawErased, LeavesErased};

use crate::RawPage;
use ft_base::{Block, Place};
use ft_media::MediaError;

/// Media whose flash gives back the bytes of a page, and doesn't say whether the page is torn.
///
/// In all but the bytes of pages the clauses are the clauses of `Media`, for the plain media for which these stand
/// (`plain_state`).
pub trait RawMedia {
    /// The media, as one value.
    ghost state: { Self → RawState };

    /// The bytes that a failed step may leave in a page that is neither unchanged nor wholly programmed.
    ghost torn: { RawPage → Type 0 };

    /// Erase blocks of the flash.
    fn blocks(&self) -> u32
        ensures { result ≡ (state self.now).contents.shape.blocks };

    /// Pages of an erase block.
    fn pages(&self) -> u32
        ensures { result ≡ (state self.now).contents.shape.pages };

    /// Blocks of the disk.
    fn disk_size(&self) -> u64
        ensures { result ≡ (state self.now).contents.shape.size };

    /// Reads all bytes of a page.
    fn read_raw(&mut self, at: Place, page: &mut RawPage) -> Result<(), MediaError>
        requires block { at.block < (state self.old).contents.shape.blocks }
        requires page { at.page < (state self.old).contents.shape.pages }
        ensures found { OnOk result (page.new ≡ (state self.old).contents.flash.page at) }
        ensures contents { (state self.new).contents ≡ (state self.old).contents }
        ensures counts { (state self.new).counts ≡ (state self.old).counts }
        ensures cause { FlashCause (state self.old).faults (state self.new).faults (failed result) (lost result) }
        ensures memory { IsErrOf result error.OutOfMemory → ⊥ }
        ensures off { (state self.old).power.on ≡ false → OnlyCutsRose (plain_state (state self.old)) (plain_state (state self.new)) }
        ensures power { ReadPower (state self.old).power (state self.new).power (lost result) }
        ensures passes { Passes (plain_state (state self.old)) (plain_state (state self.new)) (lost result) };

    /// Programs all bytes of the next page of an erase block that is ready.
    fn program_raw(&mut self, at: Place, page: &RawPage) -> Result<(), MediaError>
        requires ready { IsNextPage at (plain_contents (state self.old).contents).flash }
        requires page { at.page < (state self.old).contents.shape.pages }
        ensures ok { OnOk result ((state self.new).contents.flash ≡ raw_programmed (state self.old).contents.flash at page.now) }
        ensures page { LeavesRaw torn (state self.old).contents.flash (state self.new).contents.flash at page.now }
        ensures dark { (state self.old).power.on ≡ false → (state self.new).contents.flash.page ≡ (state self.old).contents.flash.page }
        ensures not_ready { IsErrOf result error.Failed
            → (state self.new).contents.flash.next ≡ set (state self.old).contents.flash.next at.block None }
        ensures disk { DiskStays (plain_contents (state self.old).contents) (plain_contents (state self.new).contents) (lost result) }
        ensures crash { lost result ≡ true → Crashed (plain_contents (state self.new).contents) }
        ensures settled { SettledByStop (plain_state (state self.old)) (plain_state (state self.new)) (lost result)
            (state self.old).contents.disk }
        ensures counts { (state self.new).counts ≡ if_ok result (program_counted (state self.old).counts) (state self.old).counts }
        ensures cause { FlashCause (state self.old).faults (state self.new).faults (failed result) (lost result) }
        ensures memory { IsErrOf result error.OutOfMemory → ⊥ }
        ensures device { DeviceWrite (plain_state (state self.old)) (plain_state (state self.new)) result }
        ensures passes { Passes (plain_state (state self.old)) (plain_state (state self.new)) (lost result) };

    /// Erases a block, which is ready after that.
    fn erase(&mut self, block: u32) -> Result<(), MediaError>
        requires { block < (state self.old).contents.shape.blocks }
        ensures ok { OnOk result (RawErased (state self.old).contents.flash (state self.new).contents.flash block) }
        ensures pages { LeavesErased torn (state self.old).contents.flash (state self.new).contents.flash block }
        ensures dark { (state self.old).power.on ≡ false → (state self.new).contents.flash.page ≡ (state self.old).contents.flash.page }
        ensures not_ready { IsErrOf result error.Failed
            → (state self.new).contents.flash.next ≡ set (state self.old).contents.flash.next block None }
        ensures disk { DiskStays (plain_contents (state self.old).contents) (plain_contents (state self.new).contents) (lost result) }
        ensures crash { lost result ≡ true → Crashed (plain_contents (state self.new).contents) }
        ensures settled { SettledByStop (plain_state (state self.old)) (plain_state (state self.new)) (lost result)
            (state self.old).contents.disk }
        ensures counts { (state self.new).counts ≡ if_ok result (erase_counted (state self.old).counts) (state self.old).counts }
        ensures cause { FlashCause (state self.old).faults (state self.new).faults (failed result) (lost result) }
        ensures memory { IsErrOf result error.OutOfMemory → ⊥ }
        ensures device { DeviceWrite (plain_state (state self.old)) (plain_state (state self.new)) result }
        ensures passes { Passes (plain_state (state self.old)) (plain_state (state self.new)) (lost result) };

    /// Reads the newest value of a disk block.
    fn read_block(&mut self, lba: u64, block: &mut Block) -> Result<(), MediaError>
        requires { lba < (state self.old).contents.shape.size }
        ensures found { OnOk result (block.new ≡ ((state self.old).contents.disk lba).newest) }
        ensures buffer { OnErr result (block.new ≡ block.old) }
        ensures contents { (state self.new).contents ≡ (state self.old).contents }
        ensures counts { (state self.new).counts ≡ if_ok result (read_counted (state self.old).counts) (state self.old).counts }
        ensures cause { DiskCause (state self.old).faults (state self.new).faults (failed result) (lost result) }
        ensures memory { IsErrOf result error.OutOfMemory → ⊥ }
        ensures off { (state self.old).power.on ≡ false → OnlyCutsRose (plain_state (state self.old)) (plain_state (state self.new)) }
        ensures power { ReadPower (state self.old).power (state self.new).power (lost result) }
        ensures passes { Passes (plain_state (state self.old)) (plain_state (state self.new)) (lost result) };

    /// Writes a disk block, as a whole. It may be lost until the next flush.
    fn write_block(&mut self, lba: u64, block: &Block) -> Result<(), MediaError>
        requires { lba < (state self.old).contents.shape.size }
        ensures ok { OnOk result ((at : ℕ) → (state self.new).contents.disk at ≡ after_write
            (state self.old).contents.disk lba block.now at) }
        // Whatever the call answers, a disk block has a value that it had, or the value that is written.
        ensures values { (at : ℕ) (b : Block) → HasValue ((state self.new).contents.disk at) b
            → HasValue ((state self.old).contents.disk at) b ⊎ ((at ≡ lba) × (b ≡ block.now)) }
        ensures failed { IsErrOf result error.Failed → ((state self.new).contents.disk ≡ (state self.old).contents.disk)
            ⊎ ((at : ℕ) → (state self.new).contents.disk at ≡ after_write (state self.old).contents.disk lba block.now at) }
        ensures memory { IsErrOf result error.OutOfMemory → state self.new ≡ state self.old }
        ensures pages { (state self.new).contents.flash.page ≡ (state self.old).contents.flash.page }
        ensures flash { FlashStays (plain_contents (state self.old).contents) (plain_contents (state self.new).contents) (lost result) }
        ensures crash { lost result ≡ true → Crashed (plain_contents (state self.new).contents) }
        ensures settled { SettledByStop (plain_state (state self.old)) (plain_state (state self.new)) (lost result)
            (after_write (state self.old).contents.disk lba block.now) }
        ensures counts { (state self.new).counts ≡ if_ok result (write_counted (state self.old).counts) (state self.old).counts }
        ensures cause { DiskCause (state self.old).faults (state self.new).faults (failed result) (lost result) }
        ensures device { DeviceWrite (plain_state (state self.old)) (plain_state (state self.new)) result }
        ensures passes { Passes (plain_state (state self.old)) (plain_state (state self.new)) (lost result) };

    /// Makes every newest value the one that a crash leaves.
    fn flush_disk(&mut self) -> Result<(), MediaError>
        ensures ok { OnOk result ((lba : ℕ) → (state self.new).contents.disk lba ≡ flushed ((state self.old).contents.disk lba)) }
        ensures values { (lba : ℕ) (b : Block) → HasValue ((state self.new).contents.disk lba) b
            → HasValue ((state self.old).contents.disk lba) b }
        ensures failed { IsErrOf result error.Failed → (state self.new).contents.disk ≡ (state self.old).contents.disk }
        ensures memory { IsErrOf result error.OutOfMemory → ⊥ }
        ensures pages { (state self.new).contents.flash.page ≡ (state self.old).contents.flash.page }
        ensures flash { FlashStays (plain_contents (state self.old).contents) (plain_contents (state self.new).contents) (lost result) }
        ensures crash { lost result ≡ true → Crashed (plain_contents (state self.new).contents) }
        ensures settled { SettledByStop (plain_state (state self.old)) (plain_state (state self.new)) (lost result)
            (state self.old).contents.disk }
        ensures counts { (state self.new).counts ≡ if_ok result (flush_counted (state self.old).counts) (state self.old).counts }
        ensures cause { DiskCause (state self.old).faults (state self.new).faults (failed result) (lost result) }
        ensures device { DeviceWrite (plain_state (state self.old)) (plain_state (state self.new)) result }
        ensures passes { Passes (plain_state (state self.old)) (plain_state (state self.new)) (lost result) };

    /// The one premise on raw flash: a torn page never carries the seal of its own bytes.
    ghost never_sealed: { (page : RawPage) → torn page → ¬ IsSealed page };

    /// In a block that is ready, each page from the next one on is erased.
    ghost blank_ahead: { (m : Self) → IsBlankAhead (plain_contents (state m).contents) };

    /// Each block that is ready is an erase block of the flash.
    ghost ready_inside: { (m : Self) → (b : ℕ) → (state m).contents.shape.blocks ≤ b → (state m).contents.flash.next b ≡ None };

    /// With power off nothing is ready, and each disk block has one value.
    ghost off_is_crashed: { (m : Self) → (state m).power.on ≡ false → Crashed (plain_contents (state m).contents) };

    /// The numbers fit their types, and at most 16 stops are armed.
    ghost is_small: { (m : Self) → IsSmall (plain_state (state m)) };
}
