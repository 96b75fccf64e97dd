//! Marks of the pages of an erase block after an erase, cut or not. No byte of a page is touched.
ghost use Rattle.std.specs.Prelude.{◌≡◌, ◌<◌, ℕ, length, slice_index_or};
ghost use Rattle.ft_media.specs.declared.media.PageRead.TheVariants as read;
ghost use Rattle.ft_base.specs.declared.block.Block.{Block};
ghost use Rattle.ft_base.specs.declared.block.Spare.{Spare};
ghost use Rattle.nand_model.specs.Pages.{page_found};
ghost use Rattle.nand_model.specs.Steps.{torn, in_thirds, cut_erase};

use ft_base::Outcome;
use ft_media::PageRead;

/// Makes each page blank.
pub(crate) fn blank_all(found: &mut Vec<PageRead>)
    ensures blank { (p : ℕ) → slice_index_or found.new.items p read.Blank ≡ read.Blank }
    ensures length { length found.new.items ≡ length found.old.items }
{
    for page in found.iter_mut() {
        *page = PageRead::Blank;
    }
}

/// Changes each page to what a cut erase leaves of it.
pub(crate) fn cut_all(found: &mut Vec<PageRead>, outcome: Outcome)
    ensures cut { (p : ℕ) (block : Block) (spare : Spare) → page_found (slice_index_or found.new.items p read.Blank) block spare
        ≡ cut_erase outcome p (page_found (slice_index_or found.old.items p read.Blank) block spare) }
    ensures whole { (p : ℕ) → slice_index_or found.new.items p read.Blank ≡ read.Whole
        → slice_index_or found.old.items p read.Blank ≡ read.Whole }
    ensures length { length found.new.items ≡ length found.old.items }
{
    let pages = found.len();
    for p in 0..pages {
        found[p] = cut_one(outcome, p, found[p]);
    }
}

/// What a cut erase leaves of page `p`.
fn cut_one(outcome: Outcome, p: usize, found: PageRead) -> PageRead
    ensures cut { (block : Block) (spare : Spare) → page_found result block spare ≡ cut_erase outcome p (page_found found block spare) }
    ensures whole { result ≡ read.Whole → found ≡ read.Whole }
{
    match outcome {
        Outcome::Blank => PageRead::Blank,
        Outcome::Whole => found,
        Outcome::Torn => tear(found),
        Outcome::Mixed => one_in_thirds(p % 3, found),
    }
}

fn one_in_thirds(third: usize, found: PageRead) -> PageRead
    ensures cut { (block : Block) (spare : Spare) → page_found result block spare ≡ in_thirds third (page_found found block spare) }
    ensures whole { result ≡ read.Whole → found ≡ read.Whole }
{
    match third {
        0 => found,
        1 => PageRead::Blank,
        _ => tear(found),
    }
}

fn tear(found: PageRead) -> PageRead
    ensures cut { (block : Block) (spare : Spare) → page_found result block spare ≡ torn (page_found found block spare) }
    ensures whole { result ≡ read.Whole → found ≡ read.Whole }
{
    match found {
        PageRead::Blank => PageRead::Blank,
        PageRead::Whole => PageRead::Torn,
        PageRead::Torn => PageRead::Torn,
    }
}
