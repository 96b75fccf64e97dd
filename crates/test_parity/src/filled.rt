//! Flash that fails at chosen calls, and one erase block whose first pages are programmed.
ghost use Rattle.std.specs.Prelude.{◌≡◌, ◌≤◌, Some, OnOk};

use ft_base::{Block, Place, Spare, pattern, zero_block};
use ft_media::Rig;
use mem_rig::MemRig;
use std::alloc::Global;
use std::test::Fail;

/// The block of this tag.
pub(crate) fn tagged(number: u64) -> Block {
    let mut block = zero_block();
    pattern(5, number, &mut block);
    block
}

/// Media whose flash fails at the calls with these numbers.
pub(crate) fn failing(alloc: Global, numbers: &[u64]) -> Result<MemRig, Fail> {
    Ok(MemRig::failing(alloc, Vec::from_slice(alloc, numbers)?, Vec::new(alloc)))
}

/// Fits one block of so many pages and programs the first of them, page 0 with the tag 0 and so on.
pub(crate) fn fit_and_fill<R: Rig>(
    rig: &mut R,
    alloc: Global,
    pages: u32,
    count: u32,
) -> Result<(), Fail>
    requires { count ≤ pages }
    ensures ready { OnOk result ((R.state rig.new).contents.flash.next 0 ≡ Some count) }
    ensures shape { OnOk result ((R.state rig.new).contents.shape ≡ record { blocks = 1; pages = pages; size = 1 }) }
{
    rig.fit(alloc, 1, pages, 1)?;
    for page in 0..count {
        rig.program(
            Place { block: 0, page },
            &tagged(page as u64),
            &Spare([(page % 256) as u8; 32]),
        )?;
    }
    Ok(())
}
