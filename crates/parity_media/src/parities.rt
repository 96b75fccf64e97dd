//! The running parity of each erase block: each program joins it, and each erase clears it.
ghost use Rattle.std.specs.Prelude.{◌≡◌, ◌<◌, ◌^◌, length};

use ft_base::{Block, Spare, zero_block};
use lanes::xor_into;
use std::alloc::{AllocError, Global};

/// What is kept of an erase block.
#[derive(Clone, Copy)]
pub(crate) struct Parity {
    /// The exclusive or of the blocks that were programmed since the last erase.
    pub(crate) block: Block,
    /// The same of their spare bytes.
    pub(crate) spare: Spare,
    /// Whether the parity page was programmed since then.
    pub(crate) complete: bool,
}

/// What is kept of each erase block.
#[derive(Drop)]
pub(crate) struct Parities {
    blocks: u32,
    pages: u32,
    each: Vec<Parity>,
    ghost blocks_small: { blocks < 2 ^ 32 },
    ghost pages_small: { pages < 2 ^ 32 },
    ghost all: { length each.items ≡ blocks },
}

impl Parities {
    ghost use Rattle.std.specs.Prelude.{ℕ, IfOk};
    ghost use Rattle.parity_media.specs.Kept.{parity_blocks, parity_pages, parity_of, new_parity, joined_parity, completed, OneChanged};

    /// Of no block.
    pub(crate) fn none(alloc: Global) -> Parities
        ensures blocks { parity_blocks result ≡ 0 }
        ensures pages { parity_pages result ≡ 0 }
    {
        Parities {
            blocks: 0,
            pages: 0,
            each: Vec::new(alloc),
        }
    }

    /// Of so many blocks without a page that is programmed, which have so many pages beside the parity page.
    #[tactic(auto, unfolding(crate::specs::Kept::parity_of, crate::specs::Xor::zero_spare), using(crate::proofs::KeptLemmas::push_alike))]
    pub(crate) fn new(alloc: Global, blocks: u32, pages: u32) -> Result<Parities, AllocError>
        ensures blocks { IfOk result (λ made. parity_blocks made ≡ blocks) }
        ensures pages { IfOk result (λ made. parity_pages made ≡ pages) }
        ensures each { IfOk result (λ made. (b : ℕ) → parity_of made b ≡ new_parity) }
    {
        let mut each = Vec::new(alloc);
        each.reserve(blocks as usize)?;
        for _ in 0..blocks {
            each.push(Parity {
                block: zero_block(),
                spare: Spare([0; 32]),
                complete: false,
            })?;
        }
        Ok(Parities {
            blocks,
            pages,
            each,
        })
    }

    /// How many blocks.
    pub(crate) fn blocks(&self) -> u32
        ensures { result ≡ parity_blocks self.now }
    {
        self.blocks
    }

    /// How many pages a block has beside the parity page.
    pub(crate) fn pages(&self) -> u32
        ensures { result ≡ parity_pages self.now }
    {
        self.pages
    }

    /// What is kept of this block.
    #[tactic(auto, unfolding(crate::specs::Kept::parity_of), using(std::proofs::lemmas::Grind::common_steps))]
    pub(crate) fn get(&self, block: u32) -> &Parity
        requires { block < parity_blocks self.now }
        ensures { result.now ≡ parity_of self.now block }
    {
        &self.each[block as usize]
    }

    /// Joins a page that was programmed.
    #[tactic(auto, unfolding(crate::specs::Kept::parity_of), using(crate::proofs::KeptLemmas::set_one))]
    pub(crate) fn join(&mut self, number: u32, block: &Block, spare: &Spare)
        requires { number < parity_blocks self.old }
        ensures changed { OneChanged self.old self.new number (joined_parity (parity_of self.old number) block.now spare.now) }
        ensures long { (length block.now.0 ≡ 4096) × (length spare.now.0 ≡ 32) }
    {
        let parity = &mut self.each[number as usize];
        xor_into(&mut parity.block.0, &block.0);
        xor_into(&mut parity.spare.0, &spare.0);
    }

    /// The parity page of this block was programmed.
    #[tactic(auto, unfolding(crate::specs::Kept::parity_of), using(crate::proofs::KeptLemmas::set_one))]
    pub(crate) fn set_complete(&mut self, number: u32)
        requires { number < parity_blocks self.old }
        ensures { OneChanged self.old self.new number (completed (parity_of self.old number)) }
    {
        let parity = &mut self.each[number as usize];
        parity.complete = true;
    }

    /// An erase of this block is begun.
    #[tactic(auto, unfolding(crate::specs::Kept::parity_of, crate::specs::Xor::zero_spare), using(crate::proofs::KeptLemmas::set_one))]
    pub(crate) fn restart(&mut self, number: u32)
        requires { number < parity_blocks self.old }
        ensures { OneChanged self.old self.new number new_parity }
    {
        let parity = &mut self.each[number as usize];
        parity.block = zero_block();
        parity.spare = Spare([0; 32]);
        parity.complete = false;
    }
}
