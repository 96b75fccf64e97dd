//! The volume that writes through: made, opened, and brought up again by the first request after a cut or a failure.
ghost use Rattle.std.specs.Prelude.{◌≡◌, [], false, OnOk, IfOk};
ghost use Rattle.ft_base.specs.declared.told.Mode.TheVariants.{Through};
ghost use Rattle.ft_volume.specs.Opening.{Creates, ImageIs, IsOpened, MayOpen, OpensVolume, nothing_held};
ghost use Rattle.ft_volume.specs.Volume.{ComesUp, told_for};
ghost use Rattle.op_log.specs.Log.{FitsOn};
ghost use Rattle.ssc.specs.CacheState.{entries_of};
ghost use Rattle.cached_disk.specs.Kept.{IsMadeAs, IsOpening, Loads, StandsOpened, WritesNothingRefused};
ghost use Rattle.cached_disk.specs.Kept as kept;
ghost use Rattle.write_through.specs.Left.{IsLeft, state_of};
ghost use Rattle.write_through.specs.Left as left;

use cached_disk::CachedDisk;
use ft_base::{Block, Outcome};
use ft_media::{Media, Rig};
use ft_volume::{Ack, Idled, Mode, Options, Report, Volume, VolumeError};
use op_log::OpenError;
use std::alloc::Global;

/// A cache over flash in front of a disk. Each write goes to the disk before it answers.
#[derive(Drop)]
pub struct WriteThrough {
    pub(crate) disk: CachedDisk,
}

impl WriteThrough {
    /// Formats the flash and opens it, whatever it was before. The plain disk then has the disk's blocks.
    pub fn create<R: Rig>(
        alloc: Global,
        rig: &mut R,
        options: &Options,
    ) -> Result<WriteThrough, VolumeError>
        requires shape { FitsOn options.now.geometry (R.state rig.old).contents.shape }
        ensures owns { IfOk result (λ v. IsLeft v (R.state rig.new).contents) }
        ensures owes { IfOk result (λ v. left.owes v (R.state rig.new).contents []) }
        ensures opened { IfOk result (λ v. IsOpened (told_for Through options.now) nothing_held (state_of v)) }
        ensures creates { Creates (told_for Through options.now) (R.state rig.old) (R.state rig.new) result }
    {
        match CachedDisk::create(alloc, rig, options, Mode::Through) {
            Ok(disk) => Ok(WriteThrough { disk }),
            Err(error) => Err(error),
        }
    }

    /// Opens the flash that a volume left, after a flush of the disk. All blocks that it holds are clean, and are the
    /// disk's blocks. On `Err` it has written nothing but that flush, unless a device failed or power was lost.
    pub fn open<R: Rig>(
        alloc: Global,
        rig: &mut R,
        options: &Options,
    ) -> Result<WriteThrough, OpenError>
        requires shape { FitsOn options.now.geometry (R.state rig.old).contents.shape }
        requires agrees { MayOpen (told_for Through options.now) (R.state rig.old).contents }
        ensures owns { IfOk result (λ v. IsLeft v (R.state rig.new).contents) }
        ensures owes { IfOk result (λ v. left.owes v (R.state rig.new).contents []) }
        ensures opened { IfOk result (λ v. OpensVolume (told_for Through options.now) (R.state rig.old).contents.flash.page (state_of v)
            (entries_of v.disk.cache)) }
        ensures opening { IsOpening options.now.geometry (R.state rig.old) (R.state rig.new) result }
        ensures reads { WritesNothingRefused (R.state rig.old) (R.state rig.new) result }
        ensures stands { OnOk result (StandsOpened (told_for Through options.now) (R.state rig.old).contents (R.state rig.new).contents) }
    {
        let disk = CachedDisk::open(alloc, rig, options, Mode::Through)?;
        Ok(WriteThrough { disk })
    }

    /// Opens the cache again if it was cut off or given up.
    fn bring_up<M: Media>(&mut self, media: &mut M) -> Result<(), VolumeError>
        requires { IsLeft self.old (M.state media.old).contents }
        ensures left { IsLeft self.new (M.state media.new).contents }
        ensures made { IsMadeAs self.old.disk self.new.disk }
        ensures comes { ComesUp ImageIs Loads (state_of self.old) (state_of self.new) (M.state media.old) (M.state media.new) result }
        ensures up { OnOk result (kept.is_down self.new.disk ≡ false) }
        ensures same { kept.is_down self.old.disk ≡ false → (self.new ≡ self.old) × (M.state media.new ≡ M.state media.old) }
    {
        self.disk.bring_up(media)
    }
}

impl<R: Rig> Volume<R> for WriteThrough {
    ghost use Rattle.std.specs.Prelude.{refl, []};
    ghost use Rattle.cached_disk.proofs.OwedLemmas.{few_none};
    ghost use Rattle.cached_disk.proofs.ReportLemmas.{held_by};

    ghost state = { λ v. left.state_of v };

    ghost owns = { λ v contents. left.IsLeft v contents };

    ghost owes = { λ v contents owed. left.owes v contents owed };

    ghost stands = { λ told x d. ImageIs told x d };

    ghost loads = { λ told page m. kept.Loads told page m };

    ghost owes_some = { λ v contents owned. ([], refl) };

    ghost down_owes_nothing = { λ v contents owed owned down owes. owes };

    ghost write_owes_nothing = { λ v contents owed owned at_write owes. owes };

    ghost few_owed = { λ v contents owed owned owes. few_none owed owes };

    ghost can_be_loaded = { λ v contents owned. (owned.disk.beneath.flash.loaded, owned.disk.beneath.flash.loads) };

    ghost flash_has_all = { λ v contents owned up none m has. held_by v.disk contents owned.disk up none m has };

    fn size(&self) -> u64 {
        self.disk.options.geometry.size()
    }

    fn is_down(&self) -> bool {
        self.disk.is_down()
    }

    fn owed(&self) -> u32 {
        0
    }

    fn ack(&self) -> Ack {
        self.disk.ack()
    }

    fn read(&mut self, rig: &mut R, lba: u64, block: &mut Block) -> Result<(), VolumeError> {
        if lba >= self.disk.options.geometry.size() {
            return Err(VolumeError::OutOfVolume);
        }
        match self.bring_up(rig) {
            Ok(()) => self.disk.read(rig, lba, block),
            Err(error) => Err(error),
        }
    }

    fn write(&mut self, rig: &mut R, lba: u64, block: &Block) -> Result<(), VolumeError> {
        if lba >= self.disk.options.geometry.size() {
            return Err(VolumeError::OutOfVolume);
        }
        match self.bring_up(rig) {
            Ok(()) => self.write_up(rig, lba, block),
            Err(error) => Err(error),
        }
    }

    fn flush(&mut self, rig: &mut R) -> Result<(), VolumeError> {
        match self.bring_up(rig) {
            Ok(()) => self.disk.flush(rig),
            Err(error) => Err(error),
        }
    }

    fn idle(&mut self, rig: &mut R) -> Result<Idled, VolumeError> {
        match self.bring_up(rig) {
            Ok(()) => self.disk.checkpoint_if_due(rig),
            Err(error) => Err(error),
        }
    }

    fn report(&mut self, rig: &mut R) -> Result<Report, VolumeError> {
        match self.bring_up(rig) {
            Ok(()) => self.disk.report(rig),
            Err(error) => Err(error),
        }
    }

    fn cut(&mut self, rig: &mut R, outcome: Outcome) {
        self.disk.cut(rig, outcome);
    }
}
