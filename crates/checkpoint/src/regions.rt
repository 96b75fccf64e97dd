//! The search for the checkpoint that counts: each region is walked to its seal, and the later complete one is chosen.
ghost use Rattle.std.specs.Prelude.{◌≡◌, ◌<◌, Option, IfOk, IsErrOf, option_map};
ghost use Rattle.ft_media.specs.State.{failed, lost};
ghost use Rattle.ft_media.specs.Reads.{ReadsFlash};
ghost use Rattle.cache_model.specs.Loading.{Complete, chosen, checkpoint_in, checkpoint_region, newest};
ghost use Rattle.op_log.specs.Log.{FitsOn};
ghost use Rattle.checkpoint.specs.Found.{found, in_region};

use crate::reading::find;
use crate::walk::{Newest, Step, Walk, after_page};
use ft_base::Geometry;
use ft_media::{Media, MediaError};

/// The checkpoint of a region, if it is complete.
fn complete_in<M: Media>(
    media: &mut M,
    geometry: &Geometry,
    region: u32,
) -> Result<Option<Newest>, MediaError>
    requires shape { FitsOn geometry.now (M.state media.old).contents.shape }
    requires region { region < 2 }
    ensures found { IfOk result (λ n. found n ≡ option_map (in_region region)
        (checkpoint_in (checkpoint_region geometry.now (M.state media.old).contents.flash.page region))) }
    ensures memory { IsErrOf result MediaError.OutOfMemory → ⊥ }
    ensures reads { ReadsFlash (M.state media.old) (M.state media.new) (failed result) (lost result) }
{
    let mut walk = Walk {
        stamp: None,
        records: 0,
    };
    for sequence in 0..geometry.k() * geometry.p {
        let found = find(media, geometry, geometry.checkpoint_at(region, sequence))?;
        match after_page(walk, sequence, found) {
            Step::On(next) => walk = next,
            Step::Complete {
                stamp,
                seal,
                totals,
            } => {
                return Ok(Some(Newest {
                    region,
                    era: stamp.era,
                    pages: sequence,
                    seal,
                    format: stamp.format,
                    totals,
                }));
            }
            Step::Ends => return Ok(None),
        }
    }
    Ok(None)
}

/// The later of the two regions' checkpoints.
fn later(first: Option<Newest>, second: Option<Newest>) -> Option<Newest>
    ensures { (x y : Option Complete) → found first ≡ option_map (in_region 0) x → found second ≡ option_map (in_region 1) y
        → found result ≡ chosen x y }
{
    match (first, second) {
        (Some(one), Some(two)) => {
            if u32::from(two.era) == (u32::from(one.era) + 1) % 3 {
                second
            } else {
                first
            }
        }
        (Some(_), None) => first,
        (None, _) => second,
    }
}

/// The checkpoint that counts. `None` if no region is complete, and only then. It allocates nothing.
pub fn newest<M: Media>(media: &mut M, geometry: &Geometry) -> Result<Option<Newest>, MediaError>
    requires shape { FitsOn geometry.now (M.state media.old).contents.shape }
    ensures found { IfOk result (λ n. found n ≡ newest geometry.now (M.state media.old).contents.flash.page) }
    ensures memory { IsErrOf result MediaError.OutOfMemory → ⊥ }
    ensures reads { ReadsFlash (M.state media.old) (M.state media.new) (failed result) (lost result) }
{
    let first = complete_in(media, geometry, 0)?;
    let second = complete_in(media, geometry, 1)?;
    Ok(later(first, second))
}
