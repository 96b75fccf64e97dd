//! The checkpoint from which an opening loads, refused if there is none or if it was made for other numbers.
ghost use Rattle.std.specs.Prelude.{◌≡◌, Ok, IfOk, IfErr};
ghost use Rattle.ft_media.specs.Reads.{ReadsFlash};
ghost use Rattle.cache_model.specs.Loading as loading;
ghost use Rattle.op_log.specs.Log.{FitsOn};
ghost use Rattle.op_log.specs.Refusals.{open_failed, open_lost, IsRefusal};
ghost use Rattle.op_log.specs.Refusals as refusals;
ghost use Rattle.checkpoint.specs.Found.{found_in};

use cache_model::Seal;
use checkpoint::{Newest, newest};
use ft_base::Geometry;
use ft_media::{Media, MediaError};
use op_log::OpenError;

/// The error of an opening after a read of the flash that failed.
pub(crate) fn of_media(error: MediaError) -> OpenError
    ensures { result ≡ refusals.opening_refusal error }
{
    match error {
        MediaError::Failed => OpenError::FlashFault,
        MediaError::PowerLost => OpenError::PowerLost,
        MediaError::OutOfMemory => OpenError::OutOfMemory,
    }
}

/// The numbers that a seal of this geometry has.
pub(crate) fn seal_of(geometry: &Geometry) -> Seal
    ensures { result ≡ refusals.seal_of geometry.now }
{
    Seal {
        p: geometry.p,
        c: geometry.c,
        l: geometry.l,
        j: geometry.j,
        size: geometry.size,
    }
}

/// Whether a seal has the numbers of this geometry.
pub(crate) fn is_wanted(geometry: &Geometry, seal: &Seal) -> bool
    ensures { result ≡ loading.is_wanted geometry.now seal.now }
{
    seal.p == geometry.p
        && seal.c == geometry.c
        && seal.l == geometry.l
        && seal.j == geometry.j
        && seal.size == geometry.size
}

/// The checkpoint that counts, if it was made for these numbers.
pub(crate) fn find_checkpoint<M: Media>(
    media: &mut M,
    geometry: &Geometry,
) -> Result<Newest, OpenError>
    requires shape { FitsOn geometry.now (M.state media.old).contents.shape }
    ensures found { IfOk result (λ n. loading.checkpoint_of geometry.now (M.state media.old).contents.flash.page ≡ Ok (found_in n)) }
    ensures refused { IfErr result (λ e. IsRefusal geometry.now e
        (loading.checkpoint_of geometry.now (M.state media.old).contents.flash.page)) }
    ensures reads { ReadsFlash (M.state media.old) (M.state media.new) (open_failed result) (open_lost result) }
{
    let found = newest(media, geometry).map_err(of_media)?;
    let Some(newest) = found else {
        return Err(OpenError::NotFormatted);
    };
    if !is_wanted(geometry, &newest.seal) {
        return Err(OpenError::OtherGeometry {
            found: newest.seal,
            wanted: seal_of(geometry),
        });
    }
    Ok(newest)
}
