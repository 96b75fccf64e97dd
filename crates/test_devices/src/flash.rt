//! The flash half alone: programs, erases and calls that fail, and the pages that each outcome of a cut leaves.

use device_calls::{Current, Ending};
use ft_base::{Block, Outcome, Page, Place, Spare, zero_block};
use ft_media::{MediaError, PageRead};
use nand_model::{MemNand, page_of_cut_erase, page_of_cut_program};
use std::test::Fail;

/// The kind of a page, without its bytes.
fn kind(page: &Page) -> PageRead {
    match page {
        Page::Blank => PageRead::Blank,
        Page::Whole(_, _) => PageRead::Whole,
        Page::Torn => PageRead::Torn,
    }
}

/// Programs the next page of block 0, if there is one.
fn program(nand: &mut MemNand, block: &Block, current: Current) -> Option<Ending> {
    if nand.blocks() == 0 {
        return None;
    }
    let page = nand.next_page(0)?;
    if page >= nand.pages() {
        return None;
    }
    let at = Place { block: 0, page };
    Some(nand.program(at, block, &Spare([7; 32]), current))
}

fn erase(nand: &mut MemNand, current: Current) -> Option<Ending> {
    if nand.blocks() == 0 {
        return None;
    }
    Some(nand.erase(0, current))
}

/// Reads a page of block 0, and gives its kind and the first of its bytes.
fn read(nand: &mut MemNand, page: u32) -> Result<(PageRead, u8), MediaError> {
    if nand.blocks() == 0 || page >= nand.pages() {
        return Err(MediaError::OutOfMemory);
    }
    let mut block = zero_block();
    let mut spare = Spare([0; 32]);
    let found = nand.read(Place { block: 0, page }, &mut block, &mut spare)?;
    Ok((found, block.0[0]))
}

#[test]
fn pages_are_programmed_in_order(rt: HostRuntime) -> Result<(), Fail> {
    let alloc = rt.alloc();
    let mut nand = MemNand::new(alloc, Vec::from_slice(alloc, &[4, 7])?);
    assert_eq!(rt; [nand.blocks(), nand.pages()], [0, 0]);
    nand.fit(alloc, 2, 3)?;
    assert_eq!(rt; [nand.blocks(), nand.pages()], [2, 3]);
    let first = Block([1; 4096]);
    let second = Block([2; 4096]);
    assert_eq!(rt; program(&mut nand, &first, Current::On), Some(Ending::Done));
    assert_eq!(rt;
        program(&mut nand, &second, Current::On),
        Some(Ending::Done)
    );
    assert_eq!(rt;
        program(&mut nand, &second, Current::Off),
        Some(Ending::Off)
    );
    assert_eq!(rt; read(&mut nand, 0), Ok((PageRead::Whole, 1)));
    assert_eq!(rt; read(&mut nand, 0), Err(MediaError::Failed));
    assert_eq!(rt; read(&mut nand, 1), Ok((PageRead::Whole, 2)));
    assert_eq!(rt; read(&mut nand, 2), Ok((PageRead::Blank, 0)));
    assert_eq!(rt;
        program(&mut nand, &first, Current::On),
        Some(Ending::Failed)
    );
    assert_eq!(rt; read(&mut nand, 2), Ok((PageRead::Torn, 0)));
    assert_eq!(rt; program(&mut nand, &first, Current::On), None);
    assert_eq!(rt; [nand.programs(), nand.erases(), nand.faults()], [2, 0, 2]);
    Ok(())
}

#[test]
fn an_erased_block_is_programmed_again(rt: HostRuntime) -> Result<(), Fail> {
    let alloc = rt.alloc();
    let mut nand = MemNand::new(alloc, Vec::from_slice(alloc, &[2])?);
    nand.fit(alloc, 2, 3)?;
    let first = Block([1; 4096]);
    let second = Block([2; 4096]);
    assert_eq!(rt; program(&mut nand, &first, Current::On), Some(Ending::Done));
    assert_eq!(rt;
        program(&mut nand, &first, Current::On),
        Some(Ending::Failed)
    );
    assert_eq!(rt; read(&mut nand, 1), Ok((PageRead::Torn, 0)));
    assert_eq!(rt; erase(&mut nand, Current::On), Some(Ending::Done));
    // The bytes of a page that was erased are taken again.
    assert_eq!(rt;
        program(&mut nand, &second, Current::On),
        Some(Ending::Done)
    );
    assert_eq!(rt; read(&mut nand, 0), Ok((PageRead::Whole, 2)));
    let cut = Current::Stops(Outcome::Whole);
    assert_eq!(rt;
        program(&mut nand, &first, cut),
        Some(Ending::Cut(Outcome::Whole))
    );
    assert_eq!(rt; read(&mut nand, 1), Ok((PageRead::Whole, 1)));
    assert_eq!(rt; erase(&mut nand, Current::On), Some(Ending::Done));
    nand.stop();
    assert_eq!(rt; program(&mut nand, &first, Current::On), None);
    assert_eq!(rt; [nand.programs(), nand.erases(), nand.faults()], [2, 2, 1]);
    Ok(())
}

#[test]
fn cuts_leave_a_page_as_it_was_or_blank_or_torn(rt: HostRuntime) {
    let block = Block([1; 4096]);
    let spare = Spare([7; 32]);
    let whole = Page::Whole(block, spare);
    let (w, b, t) = (PageRead::Whole, PageRead::Blank, PageRead::Torn);
    let rows = [
        (Outcome::Blank, b, [b, b, b]),
        (Outcome::Whole, w, [w, w, w]),
        (Outcome::Torn, t, [t, t, t]),
        (Outcome::Mixed, t, [w, b, t]),
    ];
    for (outcome, programmed, erased) in rows {
        assert_eq!(rt;
            kind(&page_of_cut_program(outcome, &block, &spare)),
            programmed
        );
        for i in 0..3 {
            let number = i as u32 + 3;
            assert_eq!(rt;
                kind(&page_of_cut_erase(outcome, number, &whole)),
                erased[i]
            );
            assert_eq!(rt; kind(&page_of_cut_erase(outcome, number, &Page::Blank)), b);
        }
    }
}
