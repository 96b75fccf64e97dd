//! Raw pages put together from a page that was read in memory, and taken apart before one is programmed.
ghost use Rattle.std.specs.Prelude.{◌≡◌};
ghost use Rattle.ft_base.specs.declared.block.Page.{Page};
ghost use Rattle.ft_media.specs.Media.{Found};
ghost use Rattle.sealed_media.specs.Seal as spec;
ghost use Rattle.sealed_media.specs.Shown as spec_shown;

use crate::RawPage;
use crate::sealing::{copy, join};
use crate::tearing::{erased, tear};
use ft_base::{Block, Place, Spare, zero_block};
use ft_media::PageRead;

/// All bytes of a page that was found as `found`, with these parts if it is whole.
pub(crate) fn show(
    found: PageRead,
    block: &Block,
    spare: &Spare,
    last: &[u8; 32],
    number: u64,
    at: Place,
) -> RawPage
    ensures { (page : Page) → Found page found block.now spare.now → result ≡ spec_shown.shown number last.now at page }
{
    match found {
        PageRead::Blank => erased(),
        PageRead::Whole => join(block, spare, last),
        PageRead::Torn => tear(number, at),
    }
}

/// The parts of a page: its block, its spare bytes and its last bytes.
pub(crate) fn parts_of(page: &RawPage) -> (Block, Spare, [u8; 32])
    ensures { spec.joined_page result.0 result.1 result.2 ≡ page.now }
{
    let mut block = zero_block();
    let mut spare = Spare([0; 32]);
    let mut last = [0; 32];
    copy(page, 0, &mut block.0);
    copy(page, 4096, &mut spare.0);
    copy(page, 4128, &mut last);
    (block, spare, last)
}
