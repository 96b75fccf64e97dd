//! One step of a rebuild: a page is read from the rig beneath and joined to the buffers by exclusive or.
ghost use Rattle.std.specs.Prelude.{◌≡◌, ◌<◌, true, OnOk, IsErrOf};
ghost use Rattle.ft_base.specs.declared.block.Page.TheVariants as content;
ghost use Rattle.ft_media.specs.State.{failed, lost};
ghost use Rattle.ft_media.specs.Reads.{ReadsFlash};
ghost use Rattle.parity_media.specs.Xor.{is_whole, xor_whole};

use ft_base::{Block, Place, Spare, zero_block};
use ft_media::{MediaError, Rig};
use lanes::xor_into;

/// Reads a page that is whole, and joins it to the buffers. On `Err` the buffers stay.
#[tactic(auto, using(crate::proofs::XorLemmas::read_whole))]
pub(crate) fn join_page<R: Rig>(
    rig: &mut R,
    at: Place,
    block: &mut Block,
    spare: &mut Spare,
) -> Result<(), MediaError>
    requires block { at.block < (R.state rig.old).contents.shape.blocks }
    requires page { at.page < (R.state rig.old).contents.shape.pages }
    requires whole { is_whole ((R.state rig.old).contents.flash.page at) ≡ true }
    ensures joined { OnOk result (content.Whole block.new spare.new ≡ xor_whole block.old spare.old ((R.state rig.old).contents.flash.page at)) }
    ensures reads { ReadsFlash (R.state rig.old) (R.state rig.new) (failed result) (lost result) }
    ensures memory { IsErrOf result MediaError.OutOfMemory → ⊥ }
{
    let mut read_block = zero_block();
    let mut read_spare = Spare([0; 32]);
    let _whole = rig.read_page(at, &mut read_block, &mut read_spare)?;
    xor_into(&mut block.0, &read_block.0);
    xor_into(&mut spare.0, &read_spare.0);
    Ok(())
}
