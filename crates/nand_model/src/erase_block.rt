//! One erase block in memory: a mark for each page, the bytes of programmed pages, and the page that comes next.
ghost use Rattle.std.specs.Prelude.{◌≡◌, ◌<◌, ◌≤◌, ◌+◌, ℕ, Some, slice_index_or, vec_len};
ghost use Rattle.std.specs.Vec.{vec_capacity};
ghost use Rattle.ft_media.specs.declared.media.PageRead.TheVariants as read;

use crate::cuts::{blank_all, cut_all};
use crate::stored::put_copy;
use ft_base::{Block, Outcome, Spare};
use ft_media::PageRead;
use std::alloc::{AllocError, Global};

/// The pages of an erase block. Pages are programmed in order. So the bytes last programmed into a page stand at its
/// number in `blocks` and `spares`, which have room for all pages from the start.
#[derive(Drop)]
pub(crate) struct EraseBlock {
    pub(crate) pages: u32,
    pub(crate) found: Vec<PageRead>,
    pub(crate) blocks: Vec<Block>,
    pub(crate) spares: Vec<Spare>,
    pub(crate) next: Option<u32>,
    ghost all: { vec_len found ≡ pages },
    ghost block_room: { pages ≤ vec_capacity blocks },
    ghost spare_room: { pages ≤ vec_capacity spares },
    ghost paired: { vec_len spares ≡ vec_len blocks },
    ghost held: { (p : ℕ) → slice_index_or found.items p read.Blank ≡ read.Whole → p < vec_len blocks },
    ghost reached: { (n : ℕ) → next ≡ Some n → n ≤ vec_len blocks },
    ghost ahead: { (n p : ℕ) → next ≡ Some n → n ≤ p → slice_index_or found.items p read.Blank ≡ read.Blank },
}

impl EraseBlock {
    ghost use Rattle.std.specs.Prelude.{None, Some, IfOk, if◌then◌else◌};
    ghost use Rattle.ft_base.specs.declared.block.Page.TheVariants as content;
    ghost use Rattle.ft_base.specs.Contents.{set};
    ghost use Rattle.ft_media.specs.Media.{Found, UnlessWhole};
    ghost use Rattle.nand_model.specs.Pages.{block_page};
    ghost use Rattle.nand_model.specs.Steps.{cut_program, cut_erase};

    /// A block of blank pages, ready.
    pub(crate) fn new(alloc: Global, pages: u32) -> Result<EraseBlock, AllocError>
        ensures pages { IfOk result (λ b. b.pages ≡ pages) }
        ensures blank { IfOk result (λ b. (p : ℕ) → block_page b p ≡ content.Blank) }
        ensures next { IfOk result (λ b. b.next ≡ Some 0) }
        ensures block_room { IfOk result (λ b. vec_capacity b.blocks ≡ pages) }
        ensures spare_room { IfOk result (λ b. vec_capacity b.spares ≡ pages) }
    {
        let mut found = Vec::new(alloc);
        found.resize(pages as usize, PageRead::Blank)?;
        let blocks = Vec::with_capacity(alloc, pages as usize)?;
        let spares = Vec::with_capacity(alloc, pages as usize)?;
        Ok(EraseBlock {
            pages,
            found,
            blocks,
            spares,
            next: Some(0),
        })
    }

    /// Says what a page is, and fills the buffers if it is whole.
    pub(crate) fn read(&self, page: u32, block: &mut Block, spare: &mut Spare) -> PageRead
        requires { page < self.now.pages }
        ensures found { Found (block_page self.now page) result block.new spare.new }
        ensures buffers { UnlessWhole (Ok result) ((block.new ≡ block.old) × (spare.new ≡ spare.old)) }
    {
        let at = page as usize;
        let found = self.found[at];
        if found == PageRead::Whole {
            *block = self.blocks[at];
            *spare = self.spares[at];
        }
        found
    }

    /// Programs the next page.
    pub(crate) fn program(&mut self, page: u32, block: &Block, spare: &Spare)
        requires ready { self.old.next ≡ Some page }
        requires page { page < self.old.pages }
        ensures page { (p : ℕ) → block_page self.new p
            ≡ set (block_page self.old) page (content.Whole block.now spare.now) p }
        ensures next { self.new.next ≡ Some (page + 1) }
        ensures pages { self.new.pages ≡ self.old.pages }
    {
        self.store(page, block, spare);
        self.next = Some(page + 1);
    }

    /// Makes the next page whole. The block is not ready afterwards.
    fn store(&mut self, page: u32, block: &Block, spare: &Spare)
        requires ready { self.old.next ≡ Some page }
        requires page { page < self.old.pages }
        ensures page { (p : ℕ) → block_page self.new p
            ≡ set (block_page self.old) page (content.Whole block.now spare.now) p }
        ensures filled { page < vec_len self.new.blocks }
        ensures ahead { (p : ℕ) → page < p → slice_index_or self.new.found.items p read.Blank ≡ read.Blank }
        ensures next { self.new.next ≡ None }
        ensures pages { self.new.pages ≡ self.old.pages }
    {
        let at = page as usize;
        self.next = None;
        put_copy(&mut self.blocks, at, block);
        put_copy(&mut self.spares, at, spare);
        self.found[at] = PageRead::Whole;
    }

    /// Tears the next page after a failed program, and makes the block not ready.
    pub(crate) fn tear(&mut self, page: u32)
        requires { page < self.old.pages }
        ensures page { (p : ℕ) → block_page self.new p
            ≡ set (block_page self.old) page content.Torn p }
        ensures next { self.new.next ≡ None }
        ensures pages { self.new.pages ≡ self.old.pages }
    {
        self.next = None;
        self.found[page as usize] = PageRead::Torn;
    }

    /// Power went off in a program of the next page. The block is not ready.
    pub(crate) fn cut_program(&mut self, page: u32, block: &Block, spare: &Spare, outcome: Outcome)
        requires ready { self.old.next ≡ Some page }
        requires page { page < self.old.pages }
        ensures page { (p : ℕ) → block_page self.new p
            ≡ set (block_page self.old) page (cut_program outcome block.now spare.now) p }
        ensures next { self.new.next ≡ None }
        ensures pages { self.new.pages ≡ self.old.pages }
    {
        match outcome {
            Outcome::Blank => self.next = None,
            Outcome::Whole => self.store(page, block, spare),
            Outcome::Torn => self.tear(page),
            Outcome::Mixed => self.tear(page),
        }
    }

    /// Makes each page blank, and the block ready or not.
    pub(crate) fn blank(&mut self, ready: bool)
        ensures page { (p : ℕ) → block_page self.new p ≡ content.Blank }
        ensures next { self.new.next ≡ (if ready then Some 0 else None) }
        ensures pages { self.new.pages ≡ self.old.pages }
    {
        self.next = None;
        blank_all(&mut self.found);
        if ready {
            self.next = Some(0);
        }
    }

    /// Power went off in an erase. The block is not ready.
    pub(crate) fn cut_erase(&mut self, outcome: Outcome)
        ensures page { (p : ℕ) → block_page self.new p
            ≡ cut_erase outcome p (block_page self.old p) }
        ensures next { self.new.next ≡ None }
        ensures pages { self.new.pages ≡ self.old.pages }
    {
        self.next = None;
        cut_all(&mut self.found, outcome);
    }

    /// Makes the block not ready.
    pub(crate) fn stop(&mut self)
        ensures page { (p : ℕ) → block_page self.new p ≡ block_page self.old p }
        ensures next { self.new.next ≡ None }
        ensures pages { self.new.pages ≡ self.old.pages }
    {
        self.next = None;
    }
}
