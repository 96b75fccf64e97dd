//! Steps on the list of erase blocks: each changes pages of one block, and after a cut none of them is ready.
ghost use Rattle.std.specs.Prelude.{◌≡◌, ◌<◌, ◌+◌, ◌==◌, ℕ, length, None, Some, nat_lt, if◌then◌else◌, IfOk};
ghost use Rattle.ft_base.specs.declared.block.Place.{Place};
ghost use Rattle.ft_base.specs.declared.block.Page.TheVariants as content;
ghost use Rattle.ft_base.specs.Contents.{set, set_page};
ghost use Rattle.ft_media.specs.Media.{Found, UnlessWhole};
ghost use Rattle.nand_model.specs.Blocks.{page_at, next_at, pages_at, block_room_at, spare_room_at};
ghost use Rattle.nand_model.specs.Steps.{cut_program, cut_erase};

use crate::erase_block::EraseBlock;
use ft_base::{Block, Outcome, Place, Spare};
use ft_media::PageRead;
use std::alloc::{AllocError, Global};

/// Erase blocks that are blank and ready.
#[tactic(auto, using(crate::proofs::BlocksLemmas::get_push))]
pub(crate) fn fresh(alloc: Global, blocks: u32, pages: u32) -> Result<Vec<EraseBlock>, AllocError>
    ensures length { IfOk result (λ made. length made.items ≡ blocks) }
    ensures pages { IfOk result (λ made. (b : ℕ) → b < blocks → pages_at made.items b ≡ pages) }
    ensures page { IfOk result (λ made. (q : Place) → page_at made.items q ≡ content.Blank) }
    ensures next { IfOk result (λ made. (b : ℕ) → next_at made.items b ≡ (if nat_lt b blocks then Some 0 else None)) }
    ensures block_room { IfOk result (λ made. (b : ℕ) → b < blocks → block_room_at made.items b ≡ pages) }
    ensures spare_room { IfOk result (λ made. (b : ℕ) → b < blocks → spare_room_at made.items b ≡ pages) }
{
    let mut made = Vec::new(alloc);
    for _ in 0..blocks {
        made.push(EraseBlock::new(alloc, pages)?)?;
    }
    Ok(made)
}

/// Says what a page is, and fills the buffers if it is whole.
#[tactic(auto, using(crate::proofs::BlocksLemmas::one_changed))]
pub(crate) fn read(
    blocks: &Vec<EraseBlock>,
    at: Place,
    block: &mut Block,
    spare: &mut Spare,
) -> PageRead
    requires { at.page < pages_at blocks.now.items at.block }
    ensures found { Found (page_at blocks.now.items at) result block.new spare.new }
    ensures buffers { UnlessWhole (Ok result) ((block.new ≡ block.old) × (spare.new ≡ spare.old)) }
{
    blocks[at.block as usize].read(at.page, block, spare)
}

/// Programs the next page of a block that is ready.
#[tactic(auto, using(crate::proofs::BlocksLemmas::one_changed))]
pub(crate) fn program(blocks: &mut Vec<EraseBlock>, at: Place, block: &Block, spare: &Spare)
    requires ready { next_at blocks.old.items at.block ≡ Some at.page }
    requires page { at.page < pages_at blocks.old.items at.block }
    ensures page { (q : Place) → page_at blocks.new.items q
        ≡ set_page (page_at blocks.old.items) at (content.Whole block.now spare.now) q }
    ensures next { (b : ℕ) → next_at blocks.new.items b ≡ set (next_at blocks.old.items) at.block (Some (at.page + 1)) b }
    ensures pages { (b : ℕ) → pages_at blocks.new.items b ≡ pages_at blocks.old.items b }
    ensures length { length blocks.new.items ≡ length blocks.old.items }
{
    blocks[at.block as usize].program(at.page, block, spare);
}

/// Tears the page after a failed program, and makes its block not ready.
#[tactic(auto, using(crate::proofs::BlocksLemmas::one_changed))]
pub(crate) fn tear(blocks: &mut Vec<EraseBlock>, at: Place)
    requires { at.page < pages_at blocks.old.items at.block }
    ensures page { (q : Place) → page_at blocks.new.items q ≡ set_page (page_at blocks.old.items) at content.Torn q }
    ensures next { (b : ℕ) → next_at blocks.new.items b ≡ set (next_at blocks.old.items) at.block None b }
    ensures pages { (b : ℕ) → pages_at blocks.new.items b ≡ pages_at blocks.old.items b }
    ensures length { length blocks.new.items ≡ length blocks.old.items }
{
    blocks[at.block as usize].tear(at.page);
}

/// Power went off in a program of the next page. No block is ready.
#[tactic(auto, using(crate::proofs::BlocksLemmas::one_changed))]
pub(crate) fn cut_program(
    blocks: &mut Vec<EraseBlock>,
    at: Place,
    block: &Block,
    spare: &Spare,
    outcome: Outcome,
)
    requires ready { next_at blocks.old.items at.block ≡ Some at.page }
    requires page { at.page < pages_at blocks.old.items at.block }
    ensures page { (q : Place) → page_at blocks.new.items q
        ≡ set_page (page_at blocks.old.items) at (cut_program outcome block.now spare.now) q }
    ensures next { (b : ℕ) → next_at blocks.new.items b ≡ None }
    ensures pages { (b : ℕ) → pages_at blocks.new.items b ≡ pages_at blocks.old.items b }
    ensures length { length blocks.new.items ≡ length blocks.old.items }
{
    blocks[at.block as usize].cut_program(at.page, block, spare, outcome);
    stop_all(blocks);
}

/// Makes each page of a block blank, and the block ready or not.
#[tactic(auto, using(crate::proofs::BlocksLemmas::one_changed))]
pub(crate) fn blank(blocks: &mut Vec<EraseBlock>, at: u32, ready: bool)
    requires { at < length blocks.old.items }
    ensures page { (q : Place) → page_at blocks.new.items q
        ≡ (if q.block == at then content.Blank else page_at blocks.old.items q) }
    ensures next { (b : ℕ) → next_at blocks.new.items b ≡ set (next_at blocks.old.items) at (if ready then Some 0 else None) b }
    ensures pages { (b : ℕ) → pages_at blocks.new.items b ≡ pages_at blocks.old.items b }
    ensures length { length blocks.new.items ≡ length blocks.old.items }
{
    blocks[at as usize].blank(ready);
}

/// Power went off in an erase of a block. No block is ready.
#[tactic(auto, using(crate::proofs::BlocksLemmas::one_changed))]
pub(crate) fn cut_erase(blocks: &mut Vec<EraseBlock>, at: u32, outcome: Outcome)
    requires { at < length blocks.old.items }
    ensures page { (q : Place) → page_at blocks.new.items q
        ≡ (if q.block == at then cut_erase outcome q.page (page_at blocks.old.items q) else page_at blocks.old.items q) }
    ensures next { (b : ℕ) → next_at blocks.new.items b ≡ None }
    ensures pages { (b : ℕ) → pages_at blocks.new.items b ≡ pages_at blocks.old.items b }
    ensures length { length blocks.new.items ≡ length blocks.old.items }
{
    blocks[at as usize].cut_erase(outcome);
    stop_all(blocks);
}

/// Makes each block not ready.
#[tactic(auto, using(crate::proofs::BlocksLemmas::one_changed))]
pub(crate) fn stop_all(blocks: &mut Vec<EraseBlock>)
    ensures page { (q : Place) → page_at blocks.new.items q ≡ page_at blocks.old.items q }
    ensures next { (b : ℕ) → next_at blocks.new.items b ≡ None }
    ensures pages { (b : ℕ) → pages_at blocks.new.items b ≡ pages_at blocks.old.items b }
    ensures length { length blocks.new.items ≡ length blocks.old.items }
{
    for block in blocks.iter_mut() {
        block.stop();
    }
}
