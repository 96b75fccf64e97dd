//! A page of a checkpoint region, read and classified: records, a seal, or neither.
ghost use Rattle.std.specs.Prelude.{◌<◌, IfOk, IsErrOf};
ghost use Rattle.ft_base.specs.declared.block.Spare.{Spare as SpareValue};
ghost use Rattle.ft_base.specs.declared.block.Page.TheVariants.{Whole};
ghost use Rattle.ft_base.specs.Layout.{blocks};
ghost use Rattle.ft_media.specs.State.{failed, lost};
ghost use Rattle.ft_media.specs.Reads.{ReadsFlash};
ghost use Rattle.op_log.specs.Log.{FitsOn};
ghost use Rattle.checkpoint.specs.Walk.{IsFoundAs, IsFew};

use cache_model::{Header, Seal, Totals};
use ft_base::{Block, Geometry, Place, Spare, zero_block};
use ft_media::{Media, MediaError, PageRead};
use record_codec::{read_page_header, read_seal};

/// What a page of a checkpoint region is.
#[derive(Clone, Copy, Debug, PartialEq, Eq)]
pub(crate) enum Found {
    /// A page of records.
    Records(Header),
    /// A seal, with its totals if it has any.
    Sealed(Header, Seal, Option<Totals>),
    /// Any other page.
    Other,
}

/// The kind of a whole page.
fn kind_of(block: &Block) -> Found
    ensures finds { (spare : SpareValue) → IsFoundAs (Whole block.now spare) result }
    ensures few { IsFew result }
{
    if let Some(header) = read_page_header(block) {
        return Found::Records(header);
    }
    match read_seal(block) {
        Some((header, seal, totals)) => Found::Sealed(header, seal, totals),
        None => Found::Other,
    }
}

/// Reads a page of a checkpoint region.
pub(crate) fn find<M: Media>(
    media: &mut M,
    geometry: &Geometry,
    at: Place,
) -> Result<Found, MediaError>
    requires shape { FitsOn geometry.now (M.state media.old).contents.shape }
    requires block { at.block < blocks geometry.now }
    requires page { at.page < geometry.now.p }
    ensures finds { IfOk result (λ f. IsFoundAs ((M.state media.old).contents.flash.page at) f) }
    ensures few { IfOk result IsFew }
    ensures memory { IsErrOf result MediaError.OutOfMemory → ⊥ }
    ensures reads { ReadsFlash (M.state media.old) (M.state media.new) (failed result) (lost result) }
{
    let mut block = zero_block();
    let mut spare = Spare([0; 32]);
    match media.read_page(at, &mut block, &mut spare)? {
        PageRead::Whole => Ok(kind_of(&block)),
        PageRead::Blank | PageRead::Torn => Ok(Found::Other),
    }
}
