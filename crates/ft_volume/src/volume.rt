//! The contract of volumes: what each call does to the plain disk, which writes it leaves owed, and what it costs.
ghost use Rattle.std.specs.Prelude.{◌≡◌, ◌↔◌, ◌≤◌, List, [], length, true, false, OnOk, OnErr, IfOk, IsErrOf};
ghost use Rattle.ft_base.specs.Contents.{Contents, Image};
ghost use Rattle.ft_base.specs.PlainDisk.{BlockWrite, PlainDisk};
ghost use Rattle.ft_base.specs.Told.{Told};
ghost use Rattle.ft_base.specs.declared.told.Ack.TheVariants as ack;
ghost use Rattle.ft_base.specs.declared.block.Page.{Page};
ghost use Rattle.ft_base.specs.declared.block.Place.{Place};
ghost use Rattle.cache_model.specs.Records.{Entries};
ghost use Rattle.ft_media.specs.Passes.{ProgramsPages};
ghost use Rattle.ft_media.specs.Rig.{CutThrough};
ghost use Rattle.ft_volume.specs.Volume.{AsksDevices, Costs, DoneOwing, FaultDowns, Fixes, Flushes, Goes, Idles, IsCheckpointed, IsHeldBy, Reads, Reports, VolumeState, Writes, idled_of, opened_of};
ghost use Rattle.ft_volume.specs.Reported.{IsReport};

use ft_base::{Ack, Block, Outcome};
use ft_media::{Media, Rig};
use thiserror::Error;

/// Why a call of a volume failed.
#[derive(Clone, Copy, Debug, PartialEq, Eq, Error)]
pub enum VolumeError {
    /// The flash failed, and its count of faults rose.
    #[error("the flash failed")]
    FlashFault,
    /// The disk failed, and its count of faults rose.
    #[error("the disk failed")]
    DiskFault,
    /// Power was lost, and the count of cuts rose. If power was on before, the volume is down.
    #[error("power was lost")]
    PowerLost,
    /// There was no memory. The plain disk is unchanged, and the volume can be used.
    #[error("out of memory")]
    OutOfMemory,
    /// The address is not below the size of the volume. Nothing has changed.
    #[error("the address is outside of the volume")]
    OutOfVolume,
}

/// What an idle step did.
#[derive(Clone, Copy, Debug, PartialEq, Eq)]
pub enum Idled {
    /// There was nothing to do.
    Nothing,
    /// The last group of the table was written back.
    Cleaned,
    /// A checkpoint was made, because half of the log was used.
    Checkpointed,
}

/// What is in the cache, once all of it is on the flash.
#[derive(Clone, Copy, Debug, PartialEq, Eq)]
pub struct Report {
    /// The addresses that are held.
    pub held: u64,
    /// The groups with a dirty address.
    pub dirty_groups: u32,
    /// The buckets of the map of page-mapped addresses: none, or a power of two that is at least 32.
    pub buckets: u64,
    /// The pages that were read, each of an address that is held.
    pub scrubbed: u64,
}

/// A cache and a disk joined to one disk. The rig of each call is the one with which the volume was made. Nobody else
/// changes its contents, but turning power on is allowed.
///
/// A write or an idle step that a device failed takes the volume down. So does a flush that failed, a report that the
/// disk failed, or a call that lost power while it was on. The next call opens it again first, from the media alone,
/// and then does its work. If that opening fails, the volume stays down.
pub trait Volume<R: Rig> {
    /// The volume at this moment.
    ghost state: { Self → VolumeState };

    /// The contents are the ones that this volume left.
    ghost owns: { Self → Contents → Type 0 };

    /// With these contents these writes are owed, the oldest first: they were acknowledged, and are not on the media.
    ghost owes: { Self → Contents → List BlockWrite → Type 0 };

    /// The image stands for this plain disk.
    ghost stands: { Told → Image → PlainDisk → Type 0 };

    /// The flash has these entries.
    ghost loads: { Told → (Place → Page) → Entries → Type 0 };

    /// Blocks of the volume.
    fn size(&self) -> u64
        ensures { result ≡ (state self.now).told.geometry.size };

    /// Whether the next call opens the volume again first.
    fn is_down(&self) -> bool
        ensures { result ≡ (state self.now).down };

    /// How many writes are owed: at most 126.
    fn owed(&self) -> u32
        ensures { (contents : Contents) (owed : List BlockWrite) → owns self.now contents → owes self.now contents owed
            → result ≡ length owed };

    /// When a write is on the media. No call changes it.
    fn ack(&self) -> Ack
        ensures { result ≡ (state self.now).told.ack };

    /// Reads the block at an address. It changes no block.
    fn read(&mut self, rig: &mut R, lba: u64, block: &mut Block) -> Result<(), VolumeError>
        requires { owns self.old (R.state rig.old).contents }
        ensures owns { owns self.new (R.state rig.new).contents }
        ensures disk { DoneOwing (owes self.old (R.state rig.old).contents) (owes self.new (R.state rig.new).contents)
            stands (Reads lba block.new) (state self.old) (state self.new) (R.state rig.old).contents (R.state rig.new).contents result }
        ensures goes { Goes (state self.old) (state self.new) (R.state rig.old) (R.state rig.new) result }
        ensures costs { (m : Entries) → loads (state self.old).told (R.state rig.old).contents.flash.page m
            → Costs (Reads lba block.new) (opened_of (state self.old) m) (state self.new) (R.state rig.old) (R.state rig.new) result }
        ensures asks { (m : Entries) → loads (state self.old).told (R.state rig.old).contents.flash.page m
            → AsksDevices (Reads lba block.new) (state self.old) (opened_of (state self.old) m) (state self.new)
            (R.state rig.old) (R.state rig.new) result }
        ensures outside { IsErrOf result VolumeError.OutOfVolume ↔ ((state self.old).told.geometry.size ≤ lba) }
        ensures buffer { OnErr result (block.new ≡ block.old) }
        ensures unchanged { IsErrOf result VolumeError.OutOfVolume → (self.new ≡ self.old) × (R.state rig.new ≡ R.state rig.old) };

    /// Writes the block at an address. When it answers, the block is on the media or owed to them.
    fn write(&mut self, rig: &mut R, lba: u64, block: &Block) -> Result<(), VolumeError>
        requires { owns self.old (R.state rig.old).contents }
        ensures owns { owns self.new (R.state rig.new).contents }
        ensures disk { DoneOwing (owes self.old (R.state rig.old).contents) (owes self.new (R.state rig.new).contents)
            stands (Writes lba block.now) (state self.old) (state self.new) (R.state rig.old).contents (R.state rig.new).contents result }
        ensures goes { Goes (state self.old) (state self.new) (R.state rig.old) (R.state rig.new) result }
        ensures faulted { FaultDowns result (state self.new).down }
        ensures costs { (m : Entries) → loads (state self.old).told (R.state rig.old).contents.flash.page m
            → Costs (Writes lba block.now) (opened_of (state self.old) m) (state self.new) (R.state rig.old) (R.state rig.new) result }
        ensures asks { (m : Entries) → loads (state self.old).told (R.state rig.old).contents.flash.page m
            → AsksDevices (Writes lba block.now) (state self.old) (opened_of (state self.old) m) (state self.new)
            (R.state rig.old) (R.state rig.new) result }
        ensures programs { OnOk result (ProgramsPages 1 (R.state rig.old) (R.state rig.new)) }
        ensures outside { IsErrOf result VolumeError.OutOfVolume ↔ ((state self.old).told.geometry.size ≤ lba) }
        ensures unchanged { IsErrOf result VolumeError.OutOfVolume → (self.new ≡ self.old) × (R.state rig.new ≡ R.state rig.old) };

    /// Puts all owed writes on the media. It changes no block.
    fn flush(&mut self, rig: &mut R) -> Result<(), VolumeError>
        requires { owns self.old (R.state rig.old).contents }
        ensures owns { owns self.new (R.state rig.new).contents }
        ensures disk { DoneOwing (owes self.old (R.state rig.old).contents) (owes self.new (R.state rig.new).contents)
            stands Flushes (state self.old) (state self.new) (R.state rig.old).contents (R.state rig.new).contents result }
        ensures nothing_owed { OnOk result ((owed : List BlockWrite) → owes self.new (R.state rig.new).contents owed → owed ≡ []) }
        ensures nothing_buffered { OnOk result ((state self.new).buffered ≡ 0) }
        ensures goes { Goes (state self.old) (state self.new) (R.state rig.old) (R.state rig.new) result }
        ensures refused { OnErr result ((state self.new).down ≡ true) }
        ensures costs { (m : Entries) → loads (state self.old).told (R.state rig.old).contents.flash.page m
            → Costs Flushes (opened_of (state self.old) m) (state self.new) (R.state rig.old) (R.state rig.new) result }
        ensures asks { (m : Entries) → loads (state self.old).told (R.state rig.old).contents.flash.page m
            → AsksDevices Flushes (state self.old) (opened_of (state self.old) m) (state self.new)
            (R.state rig.old) (R.state rig.new) result }
        ensures memory { (state self.old).down ≡ false → IsErrOf result VolumeError.OutOfMemory → ⊥ }
        ensures within { IsErrOf result VolumeError.OutOfVolume → ⊥ };

    /// One step of the work that can wait. It changes no block.
    fn idle(&mut self, rig: &mut R) -> Result<Idled, VolumeError>
        requires { owns self.old (R.state rig.old).contents }
        ensures owns { owns self.new (R.state rig.new).contents }
        ensures disk { DoneOwing (owes self.old (R.state rig.old).contents) (owes self.new (R.state rig.new).contents)
            stands Idles (state self.old) (state self.new) (R.state rig.old).contents (R.state rig.new).contents result }
        ensures goes { Goes (state self.old) (state self.new) (R.state rig.old) (R.state rig.new) result }
        ensures faulted { FaultDowns result (state self.new).down }
        ensures costs { (m : Entries) → loads (state self.old).told (R.state rig.old).contents.flash.page m
            → Costs Idles (opened_of (state self.old) m) (state self.new) (R.state rig.old) (R.state rig.new) result }
        ensures asks { (m : Entries) → loads (state self.old).told (R.state rig.old).contents.flash.page m
            → AsksDevices Idles (state self.old) (opened_of (state self.old) m) (state self.new)
            (R.state rig.old) (R.state rig.new) result }
        ensures idled { IfOk result (λ idled. (m : Entries) → loads (state self.old).told (R.state rig.old).contents.flash.page m
            → idled ≡ idled_of (state self.old).told (length (opened_of (state self.old) m).table)
            (opened_of (state self.old) m).log_room) }
        ensures checkpoint { IfOk result (λ idled. idled ≡ Idled.Checkpointed → IsCheckpointed (state self.new)) }
        ensures nothing { IfOk result (λ idled. idled ≡ Idled.Nothing → (state self.old).down ≡ false
            → (self.new ≡ self.old) × (R.state rig.new ≡ R.state rig.old)) }
        ensures within { IsErrOf result VolumeError.OutOfVolume → ⊥ };

    /// Puts all owed writes on the media, reads every page that is held, and counts them. It changes no block.
    fn report(&mut self, rig: &mut R) -> Result<Report, VolumeError>
        requires { owns self.old (R.state rig.old).contents }
        ensures owns { owns self.new (R.state rig.new).contents }
        ensures disk { DoneOwing (owes self.old (R.state rig.old).contents) (owes self.new (R.state rig.new).contents)
            stands Reports (state self.old) (state self.new) (R.state rig.old).contents (R.state rig.new).contents result }
        ensures nothing_owed { OnOk result ((owed : List BlockWrite) → owes self.new (R.state rig.new).contents owed → owed ≡ []) }
        ensures nothing_buffered { OnOk result ((state self.new).buffered ≡ 0) }
        ensures goes { Goes (state self.old) (state self.new) (R.state rig.old) (R.state rig.new) result }
        ensures faulted { IsErrOf result VolumeError.DiskFault → (state self.new).down ≡ true }
        ensures costs { (m : Entries) → loads (state self.old).told (R.state rig.old).contents.flash.page m
            → Costs Reports (opened_of (state self.old) m) (state self.new) (R.state rig.old) (R.state rig.new) result }
        ensures asks { (m : Entries) → loads (state self.old).told (R.state rig.old).contents.flash.page m
            → AsksDevices Reports (state self.old) (opened_of (state self.old) m) (state self.new)
            (R.state rig.old) (R.state rig.new) result }
        ensures report { IfOk result (λ report. (m : Entries) → loads (state self.old).told (R.state rig.new).contents.flash.page m
            → IsReport (state self.old).told.geometry m report) }
        ensures memory { (state self.old).down ≡ false → IsErrOf result VolumeError.OutOfMemory → ⊥ }
        ensures within { IsErrOf result VolumeError.OutOfVolume → ⊥ };

    /// Turns power off between two device writes, and on again. The owed writes are lost.
    fn cut(&mut self, rig: &mut R, outcome: Outcome)
        requires { owns self.old (R.state rig.old).contents }
        ensures owns { owns self.new (R.state rig.new).contents }
        ensures disk { Fixes stands (state self.old) (state self.new) (R.state rig.old).contents (R.state rig.new).contents }
        ensures told { (state self.new).told ≡ (state self.old).told }
        ensures down { (state self.new).down ≡ true }
        ensures through { CutThrough (R.state rig.old) (R.state rig.new) outcome };

    /// Some list of writes is owed, maybe none.
    ghost owes_some: { (v : Self) (contents : Contents) → owns v contents → (owed : List BlockWrite) × owes v contents owed };

    /// While the volume is down, nothing is owed.
    ghost down_owes_nothing: { (v : Self) (contents : Contents) (owed : List BlockWrite) → owns v contents
        → (state v).down ≡ true → owes v contents owed → owed ≡ [] };

    /// If each write is on the media when it answers, nothing is owed.
    ghost write_owes_nothing: { (v : Self) (contents : Contents) (owed : List BlockWrite) → owns v contents
        → (state v).told.ack ≡ ack.Write → owes v contents owed → owed ≡ [] };

    /// At most 126 writes are owed.
    ghost few_owed: { (v : Self) (contents : Contents) (owed : List BlockWrite) → owns v contents → owes v contents owed
        → length owed ≤ 126 };

    /// The contents that the volume left can be opened.
    ghost can_be_loaded: { (v : Self) (contents : Contents) → owns v contents
        → (m : Entries) × loads (state v).told contents.flash.page m };

    /// While the volume is up and nothing is buffered, the flash has exactly the held addresses.
    ghost flash_has_all: { (v : Self) (contents : Contents) → owns v contents → (state v).down ≡ false → (state v).buffered ≡ 0
        → (m : Entries) → loads (state v).told contents.flash.page m → IsHeldBy m (state v).held };
}
