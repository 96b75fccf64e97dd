//! The state that both volumes share: cache, options and mode, whether it is down, and how a cut leaves it.
ghost use Rattle.std.specs.Prelude.{◌≡◌, List, [], length, true};
ghost use Rattle.ft_base.specs.Contents.{Contents};
ghost use Rattle.ft_base.specs.PlainDisk.{BlockWrite, PlainDisk};
ghost use Rattle.ft_media.specs.Rig.{CutThrough};
ghost use Rattle.ft_volume.specs.Opening.{ImageIs};
ghost use Rattle.ft_volume.specs.Volume.{StandForAny, StandForOneOf};
ghost use Rattle.cached_disk.specs.Kept.{IsLeft, Owes, told_of};
ghost use Rattle.cached_disk.specs.Kept as kept;

use ft_base::Outcome;
use ft_media::{Media, Rig};
use ft_volume::{Ack, Mode, Options};
use ssc::Ssc;
use std::alloc::Global;

/// A cache over flash in front of a disk. A clean block that it holds is the disk's block. If it writes through, every
/// block that it holds is clean.
#[derive(Drop)]
pub struct CachedDisk {
    /// The allocator.
    pub alloc: Global,
    /// The options with which it was made.
    pub options: Options,
    /// How writes get to the disk.
    pub mode: Mode,
    /// The cache over the flash.
    pub cache: Ssc,
    /// The volume must be opened again though the cache goes on. Power was cut, or a write or a flush of the disk
    /// failed. Or a page to be written back couldn't be read, or an opening lacked the memory of its table.
    pub down: bool,
}

impl CachedDisk {
    /// Whether the volume must be opened again before it is used.
    pub fn is_down(&self) -> bool
        ensures { result ≡ kept.is_down self.now }
    {
        self.down || self.cache.is_stopped()
    }

    /// When a write is on the media.
    pub fn ack(&self) -> Ack
        ensures { result ≡ (told_of self.now).ack }
    {
        match self.mode {
            Mode::Back => self.options.ack,
            Mode::Through => Ack::Write,
        }
    }

    /// How many writes are owed.
    pub fn owed(&self) -> u32
        ensures { (contents : Contents) (owed : List BlockWrite) → Owes self.now contents owed → result ≡ length owed }
    {
        if self.is_down() {
            return 0;
        }
        self.cache.later()
    }

    /// Turns power off between two device writes, and on again.
    pub fn cut<R: Rig>(&mut self, rig: &mut R, outcome: Outcome)
        requires { IsLeft self.old (R.state rig.old).contents }
        ensures left { IsLeft self.new (R.state rig.new).contents }
        ensures same { self.new ≡ record self.old { down = true } }
        ensures owes { Owes self.new (R.state rig.new).contents [] }
        ensures disk { (bases : List PlainDisk) → StandForAny (ImageIs (told_of self.old)) (R.state rig.old).contents bases
            → StandForOneOf (ImageIs (told_of self.old)) (R.state rig.new).contents bases }
        ensures through { CutThrough (R.state rig.old) (R.state rig.new) outcome }
    {
        rig.cut(outcome);
        rig.power_on();
        self.down = true;
    }
}
