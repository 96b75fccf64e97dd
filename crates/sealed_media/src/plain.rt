//! The pages for which raw pages stand, computed.
ghost use Rattle.std.specs.Prelude.{◌≡◌};
ghost use Rattle.sealed_media.specs.Seal.{plain_page};

use crate::RawPage;
use crate::sealing::take_out;
use ft_base::{Page, Spare, zero_block};
use ft_media::PageRead;

/// The page for which these bytes stand.
#[tactic(auto, using(crate::proofs::PlainLemmas::found_blank, crate::proofs::PlainLemmas::found_whole, crate::proofs::PlainLemmas::found_torn))]
pub fn page_of(raw: &RawPage) -> Page
    ensures { result ≡ plain_page raw.now }
{
    let mut block = zero_block();
    let mut spare = Spare([0; 32]);
    match take_out(raw, &mut block, &mut spare) {
        PageRead::Blank => Page::Blank,
        PageRead::Whole => Page::Whole(block, spare),
        PageRead::Torn => Page::Torn,
    }
}
