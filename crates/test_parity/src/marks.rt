//! When an erase block has its parity: after a cut, after a failed erase, after a failed parity page, and before a fit.

use crate::filled::{failing, fit_and_fill, tagged};
use ft_base::{Outcome, Place, Spare, is_same, zero_block};
use ft_media::{Media, MediaError, PageRead, Rig};
use mem_rig::MemRig;
use parity_media::ParityRig;
use std::test::Fail;

const FIRST: Place = Place { block: 0, page: 0 };

const LAST: Place = Place { block: 0, page: 1 };

#[test]
fn a_block_stays_complete_through_a_cut(rt: HostRuntime) -> Result<(), Fail> {
    let mut beneath = failing(rt.alloc(), &[4])?;
    let mut rig = ParityRig::new(rt.alloc(), &mut beneath);
    fit_and_fill(&mut rig, rt.alloc(), 2, 2)?;
    rig.cut(Outcome::Torn);
    rig.power_on();
    let mut block = zero_block();
    let mut spare = Spare([9; 32]);
    assert_eq!(rt;
        rig.read_page(FIRST, &mut block, &mut spare),
        Ok(PageRead::Whole)
    );
    assert!(rt; is_same(&block, &tagged(0)));
    assert_eq!(rt; spare.0, [0; 32]);
    Ok(())
}

#[test]
fn an_erase_that_fails_ends_it(rt: HostRuntime) -> Result<(), Fail> {
    let mut beneath = failing(rt.alloc(), &[4, 5])?;
    let mut rig = ParityRig::new(rt.alloc(), &mut beneath);
    fit_and_fill(&mut rig, rt.alloc(), 2, 2)?;
    assert_eq!(rt; rig.erase(0), Err(MediaError::Failed));
    let mut block = zero_block();
    let mut spare = Spare([0; 32]);
    assert_eq!(rt;
        rig.read_page(FIRST, &mut block, &mut spare),
        Err(MediaError::Failed)
    );
    Ok(())
}

#[test]
fn a_parity_page_that_fails_is_told(rt: HostRuntime) -> Result<(), Fail> {
    let mut beneath = failing(rt.alloc(), &[3])?;
    let mut rig = ParityRig::new(rt.alloc(), &mut beneath);
    fit_and_fill(&mut rig, rt.alloc(), 2, 1)?;
    assert_eq!(rt;
        rig.program(LAST, &tagged(2), &Spare([2; 32])),
        Err(MediaError::Failed)
    );
    let mut block = zero_block();
    let mut spare = Spare([0; 32]);
    assert_eq!(rt;
        rig.read_page(LAST, &mut block, &mut spare),
        Ok(PageRead::Whole)
    );
    assert!(rt; is_same(&block, &tagged(2)));
    assert_eq!(rt; rig.counts().programs, 1);
    Ok(())
}

#[test]
fn a_rig_has_no_block_before_its_fit(rt: HostRuntime) -> Result<(), Fail> {
    let mut beneath = MemRig::new(rt.alloc());
    beneath.fit(rt.alloc(), 3, 5, 7)?;
    let mut rig = ParityRig::new(rt.alloc(), &mut beneath);
    assert_eq!(rt; (rig.blocks(), rig.pages(), rig.disk_size()), (0, 0, 7));
    rig.fit(rt.alloc(), 2, 4, 6)?;
    assert_eq!(rt; (rig.blocks(), rig.pages(), rig.disk_size()), (2, 4, 6));
    assert!(rt; rig.fit(rt.alloc(), 2, u32::MAX, 6).is_err());
    assert_eq!(rt; (rig.blocks(), rig.pages(), rig.disk_size()), (2, 4, 6));
    assert!(rt; !rig.is_complete(1));
    Ok(())
}
