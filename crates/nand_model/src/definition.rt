//! The definition of a cut, computed for one page: of a program, and of an erase.
ghost use Rattle.std.specs.Prelude.{◌≡◌};
ghost use Rattle.nand_model.specs.Steps as steps;

use ft_base::{Block, Outcome, Page, Spare};

/// What a cut leaves of the page that was being programmed.
pub fn page_of_cut_program(outcome: Outcome, block: &Block, spare: &Spare) -> Page
    ensures { result ≡ steps.cut_program outcome block.now spare.now }
{
    match outcome {
        Outcome::Blank => Page::Blank,
        Outcome::Whole => Page::Whole(*block, *spare),
        Outcome::Torn => Page::Torn,
        Outcome::Mixed => Page::Torn,
    }
}

/// What a cut leaves of page `number` of the block that was being erased.
pub fn page_of_cut_erase(outcome: Outcome, number: u32, page: &Page) -> Page
    ensures { result ≡ steps.cut_erase outcome number page.now }
{
    match outcome {
        Outcome::Blank => Page::Blank,
        Outcome::Whole => *page,
        Outcome::Torn => torn(page),
        Outcome::Mixed => in_thirds(number % 3, page),
    }
}

fn torn(page: &Page) -> Page
    ensures { result ≡ steps.torn page.now }
{
    match page {
        Page::Blank => Page::Blank,
        _ => Page::Torn,
    }
}

fn in_thirds(third: u32, page: &Page) -> Page
    ensures { result ≡ steps.in_thirds third page.now }
{
    match third {
        0 => *page,
        1 => Page::Blank,
        _ => torn(page),
    }
}
