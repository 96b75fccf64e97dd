//! A rig in memory, and the changes that the tests make to its flash.

ghost use Rattle.std.specs.Bool.{OnTrue};
ghost use Rattle.mem_rig.specs.Rig.{state_of};
ghost use Rattle.op_log.specs.Log.{FitsOn};

use ft_base::{Block, Geometry, Outcome, Place, Spare, zero_block};
use ft_media::{MediaError, PageRead};
use mem_rig::MemRig;
use std::alloc::{AllocError, Global};
use std::process::Abort;

/// The block and the page of a place.
pub(crate) type At = (u32, u32);

/// An example can't go on: there is no memory, or a device fails a call.
#[derive(Clone, Copy)]
pub(crate) struct Stuck;

impl From<AllocError> for Stuck {
    fn from(_error: AllocError) -> Stuck {
        Stuck
    }
}

impl From<MediaError> for Stuck {
    fn from(_error: MediaError) -> Stuck {
        Stuck
    }
}

/// Erase blocks of 4 pages. The checkpoint regions are the blocks 0 and 1, the log regions the blocks 2 and 3, and the
/// pool the blocks 4 to 8.
pub(crate) fn geometry() -> Option<Geometry> {
    Geometry::new(4, 2, 2, 1, 64).ok()
}

/// Makes the media anew, just large enough.
pub(crate) fn fit(rig: &mut MemRig, alloc: Global, geometry: &Geometry) -> Result<(), AllocError> {
    rig.fit_anew(alloc, geometry.blocks(), geometry.p(), geometry.size())
}

/// Whether the rig has the pages of the geometry, and enough of the rest.
pub(crate) fn fits_on(rig: &MemRig, geometry: &Geometry) -> bool
    ensures { OnTrue result (FitsOn geometry.now (state_of rig.now).contents.shape) }
{
    if rig.flash_pages() != geometry.p() || rig.flash_blocks() < geometry.blocks() {
        return false;
    }
    rig.disk_blocks() >= geometry.size()
}

/// Programs the next page of a block. False if there is none.
pub(crate) fn program_next(rig: &mut MemRig, block: u32, bytes: &Block) -> bool {
    if block >= rig.flash_blocks() {
        return false;
    }
    let Some(page) = rig.next_page(block) else {
        return false;
    };
    if page >= rig.flash_pages() {
        return false;
    }
    rig.program_page(Place { block, page }, bytes, &Spare([0; 32]));
    true
}

/// Erases a block. False if there is none.
pub(crate) fn erase(rig: &mut MemRig, block: u32) -> bool {
    if block >= rig.flash_blocks() {
        return false;
    }
    rig.erase_block(block);
    true
}

/// Cuts the next device write.
pub(crate) fn arm(rig: &mut MemRig, outcome: Outcome) -> bool {
    if rig.stops() >= 16 {
        return false;
    }
    rig.arm_stop(1, outcome);
    true
}

/// Reads a page. False if there is none, or it isn't whole.
pub(crate) fn read(rig: &mut MemRig, at: At, bytes: &mut Block, spare: &mut Spare) -> bool {
    let (block, page) = at;
    if block >= rig.flash_blocks() || page >= rig.flash_pages() {
        return false;
    }
    matches!(
        rig.read_flash(Place { block, page }, bytes, spare),
        Ok(PageRead::Whole)
    )
}

/// Checks that no difference was found.
pub(crate) fn assert_none(rt: &impl Abort, other: Option<usize>) {
    assert_eq!(rt; other, None);
}
