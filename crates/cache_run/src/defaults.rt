//! The default options of a volume, which are also the options that the word `replay` alone says.
ghost use Rattle.ft_base.specs.declared.told.Mode.TheVariants.{Back};
ghost use Rattle.ft_volume.specs.Volume.{told_for};
ghost use Rattle.cache_run.specs.Default.{IsDefault};

use ft_base::{Ack, Geometry};
use ft_volume::Options;

/// What a volume is made with if no word says otherwise: 64 pages of an erase block, 128 data blocks and 16 log blocks
/// at most, 2 erase blocks of a log region, 1,048,576 blocks, and 64 dirty groups that an idle step leaves alone. Each write
/// is acknowledged for good when it answers.
pub fn default_options() -> Options
    ensures { IsDefault (told_for Back result) }
{
    match Geometry::new(64, 128, 16, 2, 1048576) {
        Ok(geometry) => Options {
            geometry,
            dirty: 64,
            ack: Ack::Write,
        },
        // Each number is in its range.
        Err(_) => unreachable!(),
    }
}
