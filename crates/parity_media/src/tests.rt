//! A rig with parity through all calls of `Media` and `Rig`, and the plain programs on worked pages.

use crate::ParityRig;
use crate::plain::{xor_of, xor_page};
use ft_base::{Block, Outcome, Page, Place, Spare, is_same, pattern, zero_block};
use ft_media::{Media, PageRead, Rig};
use mem_rig::MemRig;
use std::test::Fail;

/// The block of this tag.
fn tagged(number: u64) -> Block {
    let mut block = zero_block();
    pattern(3, number, &mut block);
    block
}

#[test]
fn a_rig_with_parity_is_a_rig(rt: HostRuntime) -> Result<(), Fail> {
    let mut beneath = MemRig::new(rt.alloc());
    let mut rig = ParityRig::new(rt.alloc(), &mut beneath);
    assert_eq!(rt; (rig.blocks(), rig.pages(), rig.disk_size()), (0, 0, 0));
    rig.fit(rt.alloc(), 1, 1, 4)?;
    assert_eq!(rt; (rig.blocks(), rig.pages(), rig.disk_size()), (1, 1, 4));
    let first = Place { block: 0, page: 0 };
    rig.program(first, &tagged(1), &Spare([1; 32]))?;
    assert!(rt; rig.is_complete(0));
    let mut block = zero_block();
    let mut spare = Spare([0; 32]);
    assert_eq!(rt;
        rig.read_page(first, &mut block, &mut spare)?,
        PageRead::Whole
    );
    assert!(rt; is_same(&block, &tagged(1)));
    assert_eq!(rt; rig.counts().programs, 1);
    rig.write_block(2, &tagged(2))?;
    rig.flush_disk()?;
    rig.read_block(2, &mut block)?;
    assert!(rt; is_same(&block, &tagged(2)));
    rig.arm(5, Outcome::Torn);
    assert_eq!(rt; rig.armed(), 1);
    rig.erase(0)?;
    assert!(rt; !rig.is_complete(0));
    rig.cut(Outcome::Blank);
    assert!(rt; !rig.is_on());
    rig.power_on();
    assert!(rt; rig.is_on());
    Ok(())
}

#[test]
fn pages_are_joined_byte_by_byte(rt: HostRuntime) {
    let one = Page::Whole(Block([0x0f; 4096]), Spare([1; 32]));
    let other = Page::Whole(Block([0x3c; 4096]), Spare([3; 32]));
    let joined = xor_of(&[one, other]);
    match xor_page(&joined, &other) {
        Page::Whole(block, spare) => {
            assert!(rt; is_same(&block, &Block([0x0f; 4096])));
            assert_eq!(rt; spare.0, [1; 32]);
        }
        _ => assert!(rt; false, "no whole page"),
    }
    assert!(rt; matches!(xor_of(&[one, Page::Torn]), Page::Torn));
}
