//! The parity of pages, computed page by page and byte by byte.
ghost use Rattle.std.specs.Prelude.{◌≡◌, length, slice_index_or};
ghost use Rattle.ft_base.specs.declared.block.Page.TheVariants as content;
ghost use Rattle.parity_media.specs.Xor.{xor_page, xor_of_pages};

use ft_base::{Block, Page, Spare, zero_block};

/// The exclusive or of these pages, and a torn page if one of them isn't whole.
#[tactic(auto, unfolding(crate::specs::Xor::zero_spare))]
pub fn xor_of(pages: &[Page]) -> Page
    ensures { result ≡ xor_of_pages (λ k. slice_index_or pages.now k content.Torn) (length pages.now) }
{
    let mut joined = Page::Whole(zero_block(), Spare([0; 32]));
    for page in pages {
        joined = xor_page(&joined, page);
    }
    joined
}

/// The exclusive or of two pages, and a torn page if one of them isn't whole.
pub fn xor_page(one: &Page, other: &Page) -> Page
    ensures { result ≡ xor_page one.now other.now }
{
    match (one, other) {
        (Page::Whole(block, spare), Page::Whole(other_block, other_spare)) => {
            let mut joined = *block;
            let mut joined_spare = *spare;
            lanes::plain::xor_into(&mut joined.0, &other_block.0);
            lanes::plain::xor_into(&mut joined_spare.0, &other_spare.0);
            Page::Whole(joined, joined_spare)
        }
        _ => Page::Torn,
    }
}
