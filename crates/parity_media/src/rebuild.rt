//! The rebuild of a page that can't be read, from all other pages of its erase block.
ghost use Rattle.std.specs.Prelude.{◌≡◌, ◌<◌, ◌+◌, OnOk, OnErr, IsErrOf};
ghost use Rattle.ft_base.specs.declared.block.Page.TheVariants as content;
ghost use Rattle.ft_media.specs.State.{failed, lost};
ghost use Rattle.ft_media.specs.Reads.{ReadsFlash};
ghost use Rattle.parity_media.specs.Xor.{pages_of};
ghost use Rattle.parity_media.specs.Tied.{HasParity};

use crate::joining::join_page;
use ft_base::{Block, Place, Spare, zero_block};
use ft_media::{MediaError, Rig};

/// Puts a page of a complete block into the buffers, from the other pages and the parity page, which stands after so
/// many. On `Err` the buffers stay.
#[inline(never)]
pub(crate) fn rebuild<R: Rig>(
    rig: &mut R,
    pages: u32,
    at: Place,
    block: &mut Block,
    spare: &mut Spare,
) -> Result<(), MediaError>
    requires parity { HasParity (pages_of (R.state rig.old).contents.flash.page at.block) pages }
    requires block { at.block < (R.state rig.old).contents.shape.blocks }
    requires page { at.page < pages }
    requires room { (R.state rig.old).contents.shape.pages ≡ pages + 1 }
    ensures ok { OnOk result (content.Whole block.new spare.new ≡ (R.state rig.old).contents.flash.page at) }
    ensures err { OnErr result ((block.new ≡ block.old) × (spare.new ≡ spare.old)) }
    ensures reads { ReadsFlash (R.state rig.old) (R.state rig.new) (failed result) (lost result) }
    ensures memory { IsErrOf result MediaError.OutOfMemory → ⊥ }
{
    let mut joined = zero_block();
    let mut joined_spare = Spare([0; 32]);
    for page in 0..pages {
        if page != at.page {
            let other = Place {
                block: at.block,
                page,
            };
            join_page(rig, other, &mut joined, &mut joined_spare)?;
        }
    }
    let parity = Place {
        block: at.block,
        page: pages,
    };
    join_page(rig, parity, &mut joined, &mut joined_spare)?;
    *block = joined;
    *spare = joined_spare;
    Ok(())
}
