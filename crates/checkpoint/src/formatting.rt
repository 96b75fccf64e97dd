//! Formatting: whatever was on the flash before, it then loads as a map without entries.
ghost use Rattle.std.specs.Prelude.{◌≡◌, Ok, OnOk, IsErrOf};
ghost use Rattle.ft_media.specs.State.{failed, lost};
ghost use Rattle.ft_media.specs.Drives.{DrivesFlash};
ghost use Rattle.cache_model.specs.Records.{no_entries};
ghost use Rattle.cache_model.specs.Loading.{load};
ghost use Rattle.op_log.specs.Log.{FitsOn};
ghost use Rattle.checkpoint.specs.Counts.{format_counted};
ghost use Rattle.checkpoint.specs.Current.{IsCommitted, log_formatted};
ghost use Rattle.checkpoint.specs.Regions.{HasSpares};

use crate::erasing::erase_blocks;
use crate::writing::{Target, program_seal};
use cache_model::Totals;
use ft_base::{Geometry, zero_block};
use ft_media::{Media, MediaError};

/// Formats the flash for an empty map. It erases both checkpoint regions and the first log region, and seals an empty
/// checkpoint of era 0 in the first region. The log can continue at its first page. It allocates nothing.
pub fn format<M: Media>(media: &mut M, geometry: &Geometry) -> Result<(), MediaError>
    requires shape { FitsOn geometry.now (M.state media.old).contents.shape }
    ensures done { OnOk result (load geometry.now (M.state media.new).contents.flash.page ≡ Ok no_entries) }
    ensures begins { OnOk result (IsCommitted (M.state media.new).contents.flash (log_formatted geometry.now) no_entries) }
    ensures spares { OnOk result (HasSpares geometry.now 0 0 0 (M.state media.new).contents.flash.page) }
    ensures counts { OnOk result ((M.state media.new).counts ≡ format_counted geometry.now (M.state media.old).counts) }
    ensures memory { IsErrOf result MediaError.OutOfMemory → ⊥ }
    ensures drives { DrivesFlash (M.state media.old) (M.state media.new) (failed result) (lost result) }
{
    erase_blocks(media, 0, 2 * geometry.k() + geometry.j)?;
    let mut page = zero_block();
    program_seal(
        media,
        &mut page,
        &Target {
            geometry: *geometry,
            region: 0,
            era: 0,
        },
        0,
        0,
        &Totals {
            entries: 0,
            dirty: 0,
        },
    )
}
