//! Reads that fail: one failure in a full block is made good, and two are told. Without a parity page one is told.
ghost use Rattle.std.specs.Prelude.{◌<◌, ◌≤◌};

use crate::filled::{failing, fit_and_fill, tagged};
use ft_base::{Block, Place, Spare, is_same, zero_block};
use ft_media::{Media, MediaError, PageRead, Rig};
use parity_media::ParityRig;
use std::alloc::Global;
use std::test::Fail;

/// What is read of a page of the one block, of which so many of four pages were programmed. The calls of the flash with
/// these numbers fail.
fn read_of(
    alloc: Global,
    numbers: &[u64],
    programmed: u32,
    page: u32,
    block: &mut Block,
    spare: &mut Spare,
) -> Result<Result<PageRead, MediaError>, Fail>
    requires programmed { programmed ≤ 4 }
    requires page { page < 4 }
{
    let mut beneath = failing(alloc, numbers)?;
    let mut rig = ParityRig::new(alloc, &mut beneath);
    fit_and_fill(&mut rig, alloc, 4, programmed)?;
    Ok(rig.read_page(Place { block: 0, page }, block, spare))
}

#[test]
fn a_page_that_fails_is_rebuilt(rt: HostRuntime) -> Result<(), Fail> {
    for page in 0..4 {
        let mut block = zero_block();
        let mut spare = Spare([9; 32]);
        let found = read_of(rt.alloc(), &[6], 4, page, &mut block, &mut spare)?;
        assert_eq!(rt; found, Ok(PageRead::Whole), "page {page}");
        assert!(rt; is_same(&block, &tagged(page as u64)), "page {page}");
        assert_eq!(rt; spare.0, [page as u8; 32]);
    }
    Ok(())
}

#[test]
fn two_failures_are_told(rt: HostRuntime) -> Result<(), Fail> {
    for second in 7..11 {
        let mut block = tagged(77);
        let mut spare = Spare([9; 32]);
        let found = read_of(rt.alloc(), &[6, second], 4, 2, &mut block, &mut spare)?;
        assert_eq!(rt; found, Err(MediaError::Failed), "call {second}");
        assert!(rt; is_same(&block, &tagged(77)));
        assert_eq!(rt; spare.0, [9; 32]);
    }
    // The page fails, and the other three and the parity page are read: five calls in all.
    let mut block = zero_block();
    let mut spare = Spare([9; 32]);
    let found = read_of(rt.alloc(), &[6, 11], 4, 2, &mut block, &mut spare)?;
    assert_eq!(rt; found, Ok(PageRead::Whole));
    Ok(())
}

#[test]
fn a_block_that_is_not_full_has_no_parity(rt: HostRuntime) -> Result<(), Fail> {
    let mut block = tagged(77);
    let mut spare = Spare([9; 32]);
    let found = read_of(rt.alloc(), &[4], 3, 0, &mut block, &mut spare)?;
    assert_eq!(rt; found, Err(MediaError::Failed));
    assert!(rt; is_same(&block, &tagged(77)));
    Ok(())
}
