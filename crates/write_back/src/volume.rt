//! The volume that writes back: made, opened, and brought up again by the first request after a cut or a failure.
ghost use Rattle.std.specs.Prelude.{◌≡◌, List, [], length, false, OnOk, IfOk};
ghost use Rattle.ft_base.specs.declared.told.Mode.TheVariants.{Back};
ghost use Rattle.ft_base.specs.PlainDisk.{BlockWrite};
ghost use Rattle.ft_volume.specs.Opening.{Creates, ImageIs, IsOpened, MayOpen, OpensVolume, nothing_held};
ghost use Rattle.ft_volume.specs.Volume.{AsksDevices, ComesUp, Costs, Idles, IsCheckpointed, idled_of, told_for};
ghost use Rattle.op_log.specs.Log.{FitsOn};
ghost use Rattle.ssc.specs.CacheState.{entries_of};
ghost use Rattle.cached_disk.specs.Kept.{IsMadeAs, IsOpening, Loads, StandsOpened, StaysOwing, WritesNothingRefused};
ghost use Rattle.cached_disk.specs.Kept as kept;
ghost use Rattle.write_back.specs.Left.{IsLeft, Steps, state_of};
ghost use Rattle.write_back.specs.Left as left;

use crate::tables::{dirty_table_of, loaded_table_of};
use cached_disk::{CachedDisk, LoadedDisk};
use dirty_table::DirtyTable;
use ft_base::{Block, Outcome};
use ft_media::{Media, Rig};
use ft_volume::{Ack, Idled, Mode, Options, Report, Volume, VolumeError};
use op_log::OpenError;
use std::alloc::Global;

/// A cache over flash in front of a disk, which takes all writes and writes them back to the disk later.
#[derive(Drop)]
pub struct WriteBack {
    pub(crate) disk: CachedDisk,
    // The groups with a block that the disk lacks.
    pub(crate) dirty: DirtyTable,
}

impl WriteBack {
    /// Formats the flash and opens it, whatever it was before. The plain disk then has the disk's blocks.
    pub fn create<R: Rig>(
        alloc: Global,
        rig: &mut R,
        options: &Options,
    ) -> Result<WriteBack, VolumeError>
        requires shape { FitsOn options.now.geometry (R.state rig.old).contents.shape }
        ensures owns { IfOk result (λ v. IsLeft v (R.state rig.new).contents) }
        ensures owes { IfOk result (λ v. left.owes v (R.state rig.new).contents []) }
        ensures opened { IfOk result (λ v. IsOpened (told_for Back options.now) nothing_held (state_of v)) }
        ensures creates { Creates (told_for Back options.now) (R.state rig.old) (R.state rig.new) result }
    {
        match CachedDisk::create(alloc, rig, options, Mode::Back) {
            Ok(disk) => match dirty_table_of(&disk) {
                Ok(dirty) => Ok(WriteBack { disk, dirty }),
                Err(_) => Err(VolumeError::OutOfMemory),
            },
            Err(error) => Err(error),
        }
    }

    /// Opens the flash that a volume left, after a flush of the disk. Its clean blocks are the disk's blocks. On `Err`
    /// it has written nothing but that flush, unless a device failed or power was lost. All memory is taken before the
    /// cache's checkpoint is made.
    pub fn open<R: Rig>(
        alloc: Global,
        rig: &mut R,
        options: &Options,
    ) -> Result<WriteBack, OpenError>
        requires shape { FitsOn options.now.geometry (R.state rig.old).contents.shape }
        requires agrees { MayOpen (told_for Back options.now) (R.state rig.old).contents }
        ensures owns { IfOk result (λ v. IsLeft v (R.state rig.new).contents) }
        ensures owes { IfOk result (λ v. left.owes v (R.state rig.new).contents []) }
        ensures opened { IfOk result (λ v. OpensVolume (told_for Back options.now) (R.state rig.old).contents.flash.page (state_of v)
            (entries_of v.disk.cache)) }
        ensures opening { IsOpening options.now.geometry (R.state rig.old) (R.state rig.new) result }
        ensures stands { OnOk result (StandsOpened (told_for Back options.now) (R.state rig.old).contents (R.state rig.new).contents) }
        ensures reads { WritesNothingRefused (R.state rig.old) (R.state rig.new) result }
    {
        let loaded = LoadedDisk::load(alloc, rig, options, Mode::Back)?;
        match loaded_table_of(&loaded) {
            Ok(dirty) => match loaded.seal(rig) {
                Ok(disk) => Ok(WriteBack { disk, dirty }),
                Err(error) => Err(error),
            },
            Err(_) => Err(OpenError::OutOfMemory),
        }
    }

    /// Opens the cache again if it was given up, and makes the table of its dirty groups anew. A write that was lost
    /// may have noted its group.
    fn bring_up<M: Media>(&mut self, media: &mut M) -> Result<(), VolumeError>
        requires { IsLeft self.old (M.state media.old).contents }
        ensures left { IsLeft self.new (M.state media.new).contents }
        ensures made { IsMadeAs self.old.disk self.new.disk }
        ensures comes { ComesUp ImageIs Loads (state_of self.old) (state_of self.new) (M.state media.old) (M.state media.new) result }
        ensures up { OnOk result (kept.is_down self.new.disk ≡ false) }
        ensures owes { (owed : List BlockWrite) → left.owes self.old (M.state media.old).contents owed
            → left.owes self.new (M.state media.new).contents owed }
        ensures same { kept.is_down self.old.disk ≡ false → (self.new ≡ self.old) × (M.state media.new ≡ M.state media.old) }
    {
        if !self.disk.is_down() {
            return Ok(());
        }
        match self.disk.bring_up(media) {
            Ok(()) => match dirty_table_of(&self.disk) {
                Ok(dirty) => {
                    self.dirty = dirty;
                    Ok(())
                }
                Err(_) => {
                    self.disk.down = true;
                    Err(VolumeError::OutOfMemory)
                }
            },
            Err(error) => Err(error),
        }
    }

    /// Writes the last group of the table back, if more groups are dirty than may stay dirty. Else it makes a
    /// checkpoint, if one is due.
    fn idle_up<M: Media>(&mut self, media: &mut M) -> Result<Idled, VolumeError>
        requires left { IsLeft self.old (M.state media.old).contents }
        requires up { kept.is_down self.old.disk ≡ false }
        ensures steps { Steps self.old self.new (M.state media.old) (M.state media.new) result }
        ensures keeps { StaysOwing self.old.disk self.new.disk (M.state media.old).contents (M.state media.new).contents }
        ensures costs { Costs Idles (state_of self.old) (state_of self.new) (M.state media.old) (M.state media.new) result }
        ensures asks { AsksDevices Idles (state_of self.old) (state_of self.old) (state_of self.new) (M.state media.old)
            (M.state media.new) result }
        ensures idled { IfOk result (λ idled. idled ≡ idled_of (state_of self.old).told (length (state_of self.old).table)
            (state_of self.old).log_room) }
        ensures checkpoint { IfOk result (λ idled. idled ≡ Idled.Checkpointed → IsCheckpointed (state_of self.new)) }
        ensures nothing { IfOk result (λ idled. idled ≡ Idled.Nothing
            → (self.new ≡ self.old) × (M.state media.new ≡ M.state media.old)) }
    {
        if self.dirty.len() <= self.disk.options.dirty {
            return self.disk.checkpoint_if_due(media);
        }
        match self.write_oldest_back(media) {
            Ok(()) => Ok(Idled::Cleaned),
            Err(error) => Err(error),
        }
    }
}

impl<R: Rig> Volume<R> for WriteBack {
    ghost use Rattle.cached_disk.proofs.OwedLemmas.{few_owed, write_owed};
    ghost use Rattle.cached_disk.proofs.ReadLemmas.{down_owes, owes_some};
    ghost use Rattle.cached_disk.proofs.ReportLemmas.{held_by};

    ghost state = { λ v. left.state_of v };

    ghost owns = { λ v contents. left.IsLeft v contents };

    ghost owes = { λ v contents owed. left.owes v contents owed };

    ghost stands = { λ told x d. ImageIs told x d };

    ghost loads = { λ told page m. kept.Loads told page m };

    ghost owes_some = { λ v contents owned. owes_some v.disk contents owned.disk };

    ghost down_owes_nothing = { λ v contents owed owned down owes. down_owes v.disk contents owed down owes };

    ghost write_owes_nothing = { λ v contents owed owned at_write owes. write_owed v.disk contents owed at_write owes };

    ghost few_owed = { λ v contents owed owned owes. few_owed v.disk contents owed owes };

    ghost can_be_loaded = { λ v contents owned. (owned.disk.beneath.flash.loaded, owned.disk.beneath.flash.loads) };

    ghost flash_has_all = { λ v contents owned up none m has. held_by v.disk contents owned.disk up none m has };

    fn size(&self) -> u64 {
        self.disk.options.geometry.size()
    }

    fn is_down(&self) -> bool {
        self.disk.is_down()
    }

    fn owed(&self) -> u32 {
        self.disk.owed()
    }

    fn ack(&self) -> Ack {
        self.disk.ack()
    }

    fn read(&mut self, rig: &mut R, lba: u64, block: &mut Block) -> Result<(), VolumeError> {
        if lba >= self.disk.options.geometry.size() {
            return Err(VolumeError::OutOfVolume);
        }
        match self.bring_up(rig) {
            Ok(()) => self.disk.read(rig, lba, block),
            Err(error) => Err(error),
        }
    }

    fn write(&mut self, rig: &mut R, lba: u64, block: &Block) -> Result<(), VolumeError> {
        if lba >= self.disk.options.geometry.size() {
            return Err(VolumeError::OutOfVolume);
        }
        match self.bring_up(rig) {
            Ok(()) => self.write_up(rig, lba, block),
            Err(error) => Err(error),
        }
    }

    fn flush(&mut self, rig: &mut R) -> Result<(), VolumeError> {
        match self.bring_up(rig) {
            Ok(()) => self.disk.flush(rig),
            Err(error) => Err(error),
        }
    }

    fn idle(&mut self, rig: &mut R) -> Result<Idled, VolumeError> {
        match self.bring_up(rig) {
            Ok(()) => self.idle_up(rig),
            Err(error) => Err(error),
        }
    }

    fn report(&mut self, rig: &mut R) -> Result<Report, VolumeError> {
        match self.bring_up(rig) {
            Ok(()) => self.disk.report(rig),
            Err(error) => Err(error),
        }
    }

    fn cut(&mut self, rig: &mut R, outcome: Outcome) {
        self.disk.cut(rig, outcome);
    }
}
