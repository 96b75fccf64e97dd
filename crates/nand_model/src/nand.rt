//! The flash in memory and its calls: reads that may fail, and programs and erases that may fail or be cut.
ghost use Rattle.std.specs.Prelude.{◌≡◌, ◌<◌, ◌≤◌, ◌^◌, ℕ, length};
ghost use Rattle.ft_base.specs.Count.{last_count};
ghost use Rattle.nand_model.specs.Blocks.{pages_at};

use crate::blocks::{blank, cut_erase, cut_program, fresh, program, read, stop_all, tear};
use crate::erase_block::EraseBlock;
use device_calls::{Calls, Current, Ending};
use ft_base::{Block, Place, Spare, bump};
use ft_media::{MediaError, PageRead};
use std::alloc::{AllocError, Global};

/// NAND flash in memory: its pages, which of its blocks are ready, and how many of its calls were done.
/// The calls with the listed numbers fail.
#[derive(Drop)]
pub struct MemNand {
    pages: u32,
    blocks: Vec<EraseBlock>,
    calls: Calls,
    programs: u64,
    erases: u64,
    ghost few: { length blocks.items < 2 ^ 32 },
    ghost pages_small: { pages < 2 ^ 32 },
    ghost alike: { (b : ℕ) → b < length blocks.items → pages_at blocks.items b ≡ pages },
    ghost programs_small: { programs ≤ last_count },
    ghost erases_small: { erases ≤ last_count },
}

impl MemNand {
    ghost use Rattle.std.specs.Prelude.{IfOk, OnOk, OnErr, IsErr, IfErr, ◌↔◌, true};
    ghost use Rattle.ft_media.specs.Media.{Found, IsNextPage, UnlessWhole};
    ghost use Rattle.ft_media.specs.Fitted.{new_contents};
    ghost use Rattle.device_calls.specs.Calls.{calls_made, fault_count, failing_numbers, is_listed, ending_of, bumped_if_done, CountsRead, CountsWrite};
    ghost use Rattle.nand_model.specs.Nand.{nand_blocks, nand_pages, flash_of, calls_of, programs_done, erases_done, HasRoom, SameNumbers};
    ghost use Rattle.nand_model.specs.Steps.{program_left, erase_left, unready};

    /// A flash without a block. The calls with these numbers, counted from 1, will fail.
    pub fn new(alloc: Global, failing: Vec<u64>) -> MemNand
        ensures flash { flash_of result ≡ (new_contents 0 0 0).flash }
        ensures blocks { nand_blocks result ≡ 0 }
        ensures pages { nand_pages result ≡ 0 }
        ensures failing { failing_numbers (calls_of result) ≡ failing.items }
        ensures made { calls_made (calls_of result) ≡ 0 }
        ensures faults { fault_count (calls_of result) ≡ 0 }
        ensures programs { programs_done result ≡ 0 }
        ensures erases { erases_done result ≡ 0 }
    {
        MemNand {
            pages: 0,
            blocks: Vec::new(alloc),
            calls: Calls::new(failing),
            programs: 0,
            erases: 0,
        }
    }

    /// Makes the flash anew, with each page blank and each block ready. Counts stay. It allocates the memory of all
    /// pages, once; no other call allocates anything. On `Err` nothing has changed.
    pub fn fit(&mut self, alloc: Global, blocks: u32, pages: u32) -> Result<(), AllocError>
        ensures flash { OnOk result (flash_of self.new ≡ (new_contents blocks pages 0).flash) }
        ensures blocks { OnOk result (nand_blocks self.new ≡ blocks) }
        ensures pages { OnOk result (nand_pages self.new ≡ pages) }
        ensures numbers { SameNumbers self.old self.new }
        ensures room { OnOk result (HasRoom self.new blocks pages) }
        ensures err { OnErr result (self.new ≡ self.old) }
    {
        let blocks = fresh(alloc, blocks, pages)?;
        self.blocks = blocks;
        self.pages = pages;
        Ok(())
    }

    /// Erase blocks.
    pub fn blocks(&self) -> u32
        ensures { result ≡ nand_blocks self.now }
    {
        self.blocks.len() as u32
    }

    /// Pages of an erase block.
    pub fn pages(&self) -> u32
        ensures { result ≡ nand_pages self.now }
    {
        self.pages
    }

    /// The page of a block to program next, if the block is ready. It may be one past the last.
    #[tactic(auto, using(crate::proofs::BlocksLemmas::block_there))]
    pub fn next_page(&self, block: u32) -> Option<u32>
        requires { block < nand_blocks self.now }
        ensures { result ≡ (flash_of self.now).next block }
    {
        self.blocks[block as usize].next
    }

    /// Says what a page is, with power on, and fills the buffers if it is whole.
    pub fn read(
        &mut self,
        at: Place,
        block: &mut Block,
        spare: &mut Spare,
    ) -> Result<PageRead, MediaError>
        requires block { at.block < nand_blocks self.old }
        requires page { at.page < nand_pages self.old }
        ensures failed { IsErr result ↔ (is_listed (calls_of self.old) ≡ true) }
        ensures error { IfErr result (λ error. error ≡ MediaError.Failed) }
        ensures found { IfOk result (λ found. Found ((flash_of self.old).page at) found block.new spare.new) }
        ensures buffers { UnlessWhole result ((block.new ≡ block.old) × (spare.new ≡ spare.old)) }
        ensures flash { flash_of self.new ≡ flash_of self.old }
        ensures blocks { nand_blocks self.new ≡ nand_blocks self.old }
        ensures pages { nand_pages self.new ≡ nand_pages self.old }
        ensures programs { programs_done self.new ≡ programs_done self.old }
        ensures erases { erases_done self.new ≡ erases_done self.old }
        ensures calls { CountsRead (is_listed (calls_of self.old)) (calls_of self.old) (calls_of self.new) }
    {
        if self.calls.read_fails() {
            return Err(MediaError::Failed);
        }
        Ok(read(&self.blocks, at, block, spare))
    }

    /// Programs the next page of a block that is ready.
    pub fn program(&mut self, at: Place, block: &Block, spare: &Spare, current: Current) -> Ending
        requires ready { IsNextPage at (flash_of self.old) }
        requires page { at.page < nand_pages self.old }
        ensures ending { result ≡ ending_of current (is_listed (calls_of self.old)) }
        ensures flash { flash_of self.new ≡ program_left result (flash_of self.old) at block.now spare.now }
        ensures blocks { nand_blocks self.new ≡ nand_blocks self.old }
        ensures pages { nand_pages self.new ≡ nand_pages self.old }
        ensures calls { CountsWrite result (calls_of self.old) (calls_of self.new) }
        ensures programs { programs_done self.new ≡ bumped_if_done result (programs_done self.old) }
        ensures erases { erases_done self.new ≡ erases_done self.old }
    {
        let ending = self.calls.write_ends(current);
        match ending {
            Ending::Done => {
                program(&mut self.blocks, at, block, spare);
                self.programs = bump(self.programs);
            }
            Ending::Failed => tear(&mut self.blocks, at),
            Ending::Cut(outcome) => cut_program(&mut self.blocks, at, block, spare, outcome),
            Ending::Off => {}
        }
        ending
    }

    /// Erases a block, which is ready after that.
    pub fn erase(&mut self, block: u32, current: Current) -> Ending
        requires { block < nand_blocks self.old }
        ensures ending { result ≡ ending_of current (is_listed (calls_of self.old)) }
        ensures flash { flash_of self.new ≡ erase_left result (flash_of self.old) block }
        ensures blocks { nand_blocks self.new ≡ nand_blocks self.old }
        ensures pages { nand_pages self.new ≡ nand_pages self.old }
        ensures calls { CountsWrite result (calls_of self.old) (calls_of self.new) }
        ensures programs { programs_done self.new ≡ programs_done self.old }
        ensures erases { erases_done self.new ≡ bumped_if_done result (erases_done self.old) }
    {
        let ending = self.calls.write_ends(current);
        match ending {
            Ending::Done => {
                blank(&mut self.blocks, block, true);
                self.erases = bump(self.erases);
            }
            Ending::Failed => blank(&mut self.blocks, block, false),
            Ending::Cut(outcome) => cut_erase(&mut self.blocks, block, outcome),
            Ending::Off => {}
        }
        ending
    }

    /// Power went off while the flash was not written: no block is ready.
    pub fn stop(&mut self)
        ensures flash { flash_of self.new ≡ unready (flash_of self.old) }
        ensures blocks { nand_blocks self.new ≡ nand_blocks self.old }
        ensures pages { nand_pages self.new ≡ nand_pages self.old }
        ensures numbers { SameNumbers self.old self.new }
    {
        stop_all(&mut self.blocks);
    }

    /// Pages programmed.
    pub fn programs(&self) -> u64
        ensures { result ≡ programs_done self.now }
    {
        self.programs
    }

    /// Blocks erased.
    pub fn erases(&self) -> u64
        ensures { result ≡ erases_done self.now }
    {
        self.erases
    }

    /// How often the flash failed.
    pub fn faults(&self) -> u64
        ensures { result ≡ fault_count (calls_of self.now) }
    {
        self.calls.faults()
    }
}
