//! The flash calls of a rig with parity, as steps on the rig beneath and on the running parities.
ghost use Rattle.std.specs.Prelude.{◌≡◌, ◌<◌, ◌+◌, ◌==◌, ℕ, true, false, is_ok, Some, None, OnOk, OnErr, IfOk, IsErrOf, if◌then◌else◌};
ghost use Rattle.ft_base.specs.Contents.{set};
ghost use Rattle.ft_base.specs.Count.{bumped};
ghost use Rattle.ft_media.specs.State.{failed, lost};
ghost use Rattle.ft_media.specs.Media.{Found, UnlessWhole, IsNextPage, LeavesPage, PagesErased, ReadPower, after_program, after_erase};
ghost use Rattle.ft_media.specs.Passes.{Passes};
ghost use Rattle.ft_media.specs.Fitted.{fitted};
ghost use Rattle.parity_media.specs.Kept.{parity_blocks, parity_pages, parity_of, completed, OneChanged};
ghost use Rattle.parity_media.specs.Shown.{shown_flash};
ghost use Rattle.parity_media.specs.Since.{TellsFaults};
ghost use Rattle.parity_media.specs.Tied.{Tied};
ghost use Rattle.parity_media.specs.Writes.{WritesFlash, FailsTwice};

use crate::parities::Parities;
use crate::rebuild::rebuild;
use ft_base::{Block, Place, Spare};
use ft_media::{MediaError, PageRead, Rig};
use std::alloc::{AllocError, Global};

/// Says what a page is, and fills the buffers if it is whole. A page of a complete block that fails is rebuilt.
pub(crate) fn read_at<R: Rig>(
    rig: &mut R,
    parities: &Parities,
    at: Place,
    block: &mut Block,
    spare: &mut Spare,
) -> Result<PageRead, MediaError>
    requires tied { Tied (R.state rig.old).contents parities.now }
    requires block { at.block < parity_blocks parities.now }
    requires page { at.page < parity_pages parities.now }
    ensures found { IfOk result (λ found. Found ((R.state rig.old).contents.flash.page at) found block.new spare.new) }
    ensures buffers { UnlessWhole result ((block.new ≡ block.old) × (spare.new ≡ spare.old)) }
    ensures contents { (R.state rig.new).contents ≡ (R.state rig.old).contents }
    ensures counts { (R.state rig.new).counts ≡ (R.state rig.old).counts }
    ensures disk_faults { (R.state rig.new).faults.disk ≡ (R.state rig.old).faults.disk }
    ensures power { ReadPower (R.state rig.old).power (R.state rig.new).power (lost result) }
    ensures passes { Passes (R.state rig.old) (R.state rig.new) (lost result) }
    ensures memory { IsErrOf result MediaError.OutOfMemory → ⊥ }
    ensures faults { TellsFaults (R.state rig.old).faults (R.state rig.new).faults (failed result) (lost result) }
    // A page of a complete block fails only if another one fails too.
    ensures cause { IsErrOf result MediaError.Failed
        → FailsTwice (R.state rig.old) (R.state rig.new) (parity_of parities.now at.block).complete }
{
    match rig.read_page(at, block, spare) {
        Err(MediaError::Failed) if parities.get(at.block).complete => {
            rebuild(rig, parities.pages(), at, block, spare)?;
            Ok(PageRead::Whole)
        }
        found => found,
    }
}

/// Programs the next page of a block, and the parity page after the last.
pub(crate) fn program_at<R: Rig>(
    rig: &mut R,
    parities: &mut Parities,
    at: Place,
    block: &Block,
    spare: &Spare,
) -> Result<(), MediaError>
    requires tied { Tied (R.state rig.old).contents parities.old }
    requires ready { IsNextPage at (R.state rig.old).contents.flash }
    requires block { at.block < parity_blocks parities.old }
    requires page { at.page < parity_pages parities.old }
    ensures ok { OnOk result (shown_flash (parity_blocks parities.old) (parity_pages parities.old) (R.state rig.new).contents.flash
        ≡ after_program (shown_flash (parity_blocks parities.old) (parity_pages parities.old) (R.state rig.old).contents.flash) at block.now spare.now) }
    ensures page { LeavesPage (shown_flash (parity_blocks parities.old) (parity_pages parities.old) (R.state rig.old).contents.flash)
        (shown_flash (parity_blocks parities.old) (parity_pages parities.old) (R.state rig.new).contents.flash) at block.now spare.now }
    ensures not_ready { IsErrOf result MediaError.Failed
        → (shown_flash (parity_blocks parities.old) (parity_pages parities.old) (R.state rig.new).contents.flash).next
        ≡ set (shown_flash (parity_blocks parities.old) (parity_pages parities.old) (R.state rig.old).contents.flash).next at.block None }
    ensures writes { WritesFlash (R.state rig.old) (R.state rig.new) result }
    ensures tied { Tied (R.state rig.new).contents parities.new }
    ensures blocks { parity_blocks parities.new ≡ parity_blocks parities.old }
    ensures pages { parity_pages parities.new ≡ parity_pages parities.old }
    ensures erases { (R.state rig.new).counts.erases ≡ (R.state rig.old).counts.erases }
    // The block is complete once its last page is programmed, and no block's mark goes.
    ensures marked { OnOk result (at.page + 1 ≡ parity_pages parities.old → (parity_of parities.new at.block).complete ≡ true) }
    ensures marks { (q : ℕ) → (parity_of parities.old q).complete ≡ true → (parity_of parities.new q).complete ≡ true }
{
    rig.program(at, block, spare)?;
    parities.join(at.block, block, spare);
    if at.page + 1 < parities.pages() {
        return Ok(());
    }
    program_parity(rig, parities, at.block)
}

/// Programs the parity page of a block whose other pages are programmed.
pub(crate) fn program_parity<R: Rig>(
    rig: &mut R,
    parities: &mut Parities,
    number: u32,
) -> Result<(), MediaError>
    requires ready { (R.state rig.old).contents.flash.next number ≡ Some (parity_pages parities.old) }
    requires block { number < parity_blocks parities.old }
    requires page { parity_pages parities.old < (R.state rig.old).contents.shape.pages }
    ensures ok { OnOk result ((R.state rig.new).contents.flash ≡ after_program (R.state rig.old).contents.flash
        (record { block = number; page = parity_pages parities.old }) (parity_of parities.old number).block (parity_of parities.old number).spare) }
    ensures page { LeavesPage (R.state rig.old).contents.flash (R.state rig.new).contents.flash
        (record { block = number; page = parity_pages parities.old }) (parity_of parities.old number).block (parity_of parities.old number).spare }
    ensures not_ready { IsErrOf result MediaError.Failed
        → (R.state rig.new).contents.flash.next ≡ set (R.state rig.old).contents.flash.next number None }
    ensures writes { WritesFlash (R.state rig.old) (R.state rig.new) result }
    ensures erases { (R.state rig.new).counts.erases ≡ (R.state rig.old).counts.erases }
    ensures marked { OnOk result (OneChanged parities.old parities.new number (completed (parity_of parities.old number))) }
    ensures stays { OnErr result (parities.new ≡ parities.old) }
{
    let page = parities.pages();
    let parity = parities.get(number);
    rig.program(
        Place {
            block: number,
            page,
        },
        &parity.block,
        &parity.spare,
    )?;
    parities.set_complete(number);
    Ok(())
}

/// Erases a block, which isn't complete from the start of it.
pub(crate) fn erase_at<R: Rig>(
    rig: &mut R,
    parities: &mut Parities,
    block: u32,
) -> Result<(), MediaError>
    requires tied { Tied (R.state rig.old).contents parities.old }
    requires block { block < parity_blocks parities.old }
    ensures ok { OnOk result ((R.state rig.new).contents.flash ≡ after_erase (R.state rig.old).contents.flash block) }
    ensures pages { PagesErased (R.state rig.old).contents.flash (R.state rig.new).contents.flash block }
    ensures not_ready { IsErrOf result MediaError.Failed
        → (R.state rig.new).contents.flash.next ≡ set (R.state rig.old).contents.flash.next block None }
    ensures writes { WritesFlash (R.state rig.old) (R.state rig.new) result }
    ensures erases { (R.state rig.new).counts.erases ≡ (if is_ok result then bumped (R.state rig.old).counts.erases else (R.state rig.old).counts.erases) }
    ensures tied { Tied (R.state rig.new).contents parities.new }
    ensures numbers { (parity_blocks parities.new ≡ parity_blocks parities.old) × (parity_pages parities.new ≡ parity_pages parities.old) }
    // The block isn't complete, whatever is answered, and no other block's mark changes.
    ensures marks { (q : ℕ) → (parity_of parities.new q).complete ≡ (if q == block then false else (parity_of parities.old q).complete) }
{
    parities.restart(block);
    rig.erase(block)
}

/// Fits the rig with a page more in each block. On `Err` nothing has changed.
pub(crate) fn fit_all<R: Rig>(
    rig: &mut R,
    parities: &mut Parities,
    alloc: Global,
    blocks: u32,
    pages: u32,
    size: u64,
) -> Result<(), AllocError>
    ensures ok { OnOk result ((R.state rig.new) ≡ fitted (R.state rig.old) blocks (pages + 1) size) }
    ensures tied { OnOk result (Tied (R.state rig.new).contents parities.new) }
    ensures blocks { OnOk result (parity_blocks parities.new ≡ blocks) }
    ensures pages { OnOk result (parity_pages parities.new ≡ pages) }
    ensures err { OnErr result ((R.state rig.new ≡ R.state rig.old) × (parities.new ≡ parities.old)) }
    ensures marks { OnOk result ((q : ℕ) → (parity_of parities.new q).complete ≡ false) }
{
    if pages == u32::MAX {
        return Err(AllocError);
    }
    let fresh = Parities::new(alloc, blocks, pages)?;
    rig.fit(alloc, blocks, pages + 1, size)?;
    *parities = fresh;
    Ok(())
}
