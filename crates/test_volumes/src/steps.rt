//! Calls of a volume one after another, each with the answer that it must give.
ghost use Rattle.ft_volume.specs.Volume.{StaysOwner};

use ft_base::{Block, Outcome, pattern, tag_of, zero_block};
use ft_media::{Media, Rig};
use ft_volume::{Ack, Idled, Report, Volume, VolumeError};

/// A call of a volume with the answer that it must give, or a fact that must be seen.
#[derive(Clone, Copy)]
pub(crate) enum Step {
    /// Writes the pattern of an address with a tag.
    Write(u64, u64),
    /// Reads the pattern of an address with a tag.
    Read(u64, u64),
    /// Fails to write and to read an address that it doesn't have, and no count of the rig rises.
    Refuse(u64),
    /// Flushes.
    Flush,
    /// Cuts power, and turns it on.
    Cut(Outcome),
    /// Takes an idle step.
    Idle(Idled),
    /// Reports this.
    Report(Report),
    /// Reports these numbers, and any number of buckets.
    ReportAll {
        held: u64,
        dirty_groups: u32,
        scrubbed: u64,
    },
    /// When a write is on the media.
    Acks(Ack),
    /// How many writes are owed.
    Owed(u32),
    /// Whether it is down.
    Down(bool),
    /// How many blocks it has.
    Size(u64),
    /// How many blocks came from the disk.
    DiskReads(u64),
    /// How many blocks went to the disk.
    DiskWrites(u64),
}

pub(crate) fn block_of(lba: u64, tag: u64) -> Block {
    let mut block = zero_block();
    if tag > 0 {
        pattern(lba, tag, &mut block);
    }
    block
}

// Each call promises in its contract only what the next one requires.

fn write<R: Rig, V: Volume<R>>(
    volume: &mut V,
    rig: &mut R,
    lba: u64,
    tag: u64,
) -> Result<(), VolumeError>
    requires { V.owns volume.old (R.state rig.old).contents }
    ensures owner { StaysOwner (V.owns volume.new) (R.state rig.new).contents (V.state volume.old) (V.state volume.new) }
{
    volume.write(rig, lba, &block_of(lba, tag))
}

/// The tag that an address reads.
fn read<R: Rig, V: Volume<R>>(
    volume: &mut V,
    rig: &mut R,
    lba: u64,
) -> Result<Option<u64>, VolumeError>
    requires { V.owns volume.old (R.state rig.old).contents }
    ensures owner { StaysOwner (V.owns volume.new) (R.state rig.new).contents (V.state volume.old) (V.state volume.new) }
{
    let mut block = zero_block();
    match volume.read(rig, lba, &mut block) {
        Ok(()) => Ok(tag_of(lba, &block)),
        Err(error) => Err(error),
    }
}

/// Whether a write and a read of an address fail, and no count of the rig rises.
fn refuses<R: Rig, V: Volume<R>>(volume: &mut V, rig: &mut R, lba: u64) -> bool
    requires { V.owns volume.old (R.state rig.old).contents }
    ensures owner { StaysOwner (V.owns volume.new) (R.state rig.new).contents (V.state volume.old) (V.state volume.new) }
{
    let before = rig.counts();
    let refused = write(volume, rig, lba, 7);
    let unread = read(volume, rig, lba);
    refused == Err(VolumeError::OutOfVolume)
        && unread == Err(VolumeError::OutOfVolume)
        && rig.counts() == before
}

fn flush<R: Rig, V: Volume<R>>(volume: &mut V, rig: &mut R) -> Result<(), VolumeError>
    requires { V.owns volume.old (R.state rig.old).contents }
    ensures owner { StaysOwner (V.owns volume.new) (R.state rig.new).contents (V.state volume.old) (V.state volume.new) }
{
    volume.flush(rig)
}

fn cut<R: Rig, V: Volume<R>>(volume: &mut V, rig: &mut R, outcome: Outcome)
    requires { V.owns volume.old (R.state rig.old).contents }
    ensures owner { StaysOwner (V.owns volume.new) (R.state rig.new).contents (V.state volume.old) (V.state volume.new) }
{
    volume.cut(rig, outcome);
}

fn idle<R: Rig, V: Volume<R>>(volume: &mut V, rig: &mut R) -> Result<Idled, VolumeError>
    requires { V.owns volume.old (R.state rig.old).contents }
    ensures owner { StaysOwner (V.owns volume.new) (R.state rig.new).contents (V.state volume.old) (V.state volume.new) }
{
    volume.idle(rig)
}

fn report<R: Rig, V: Volume<R>>(volume: &mut V, rig: &mut R) -> Result<Report, VolumeError>
    requires { V.owns volume.old (R.state rig.old).contents }
    ensures owner { StaysOwner (V.owns volume.new) (R.state rig.new).contents (V.state volume.old) (V.state volume.new) }
{
    volume.report(rig)
}

/// Whether a report has these numbers.
fn reports<R: Rig, V: Volume<R>>(volume: &mut V, rig: &mut R, wanted: (u64, u32, u64)) -> bool
    requires { V.owns volume.old (R.state rig.old).contents }
    ensures owner { StaysOwner (V.owns volume.new) (R.state rig.new).contents (V.state volume.old) (V.state volume.new) }
{
    match report(volume, rig) {
        Ok(told) => (told.held, told.dirty_groups, told.scrubbed) == wanted,
        Err(_) => false,
    }
}

/// Makes a step, and says whether it gives the expected answer.
fn agrees<R: Rig, V: Volume<R>>(volume: &mut V, rig: &mut R, step: Step) -> bool
    requires { V.owns volume.old (R.state rig.old).contents }
    ensures owner { StaysOwner (V.owns volume.new) (R.state rig.new).contents (V.state volume.old) (V.state volume.new) }
{
    match step {
        Step::Write(lba, tag) => write(volume, rig, lba, tag) == Ok(()),
        Step::Read(lba, tag) => read(volume, rig, lba) == Ok(Some(tag)),
        Step::Refuse(lba) => refuses(volume, rig, lba),
        Step::Flush => flush(volume, rig) == Ok(()),
        Step::Cut(outcome) => {
            cut(volume, rig, outcome);
            true
        }
        Step::Idle(idled) => idle(volume, rig) == Ok(idled),
        Step::Report(told) => report(volume, rig) == Ok(told),
        Step::ReportAll {
            held,
            dirty_groups,
            scrubbed,
        } => reports(volume, rig, (held, dirty_groups, scrubbed)),
        Step::Acks(ack) => volume.ack() == ack,
        Step::Owed(count) => volume.owed() == count,
        Step::Down(down) => volume.is_down() == down,
        Step::Size(blocks) => volume.size() == blocks,
        Step::DiskReads(count) => rig.counts().disk_reads == count,
        Step::DiskWrites(count) => rig.counts().disk_writes == count,
    }
}

/// Makes the steps one after another, up to the first that gives another answer. Answers which step that is.
pub(crate) fn first_wrong<R: Rig, V: Volume<R>>(
    volume: &mut V,
    rig: &mut R,
    steps: &[Step],
) -> Option<usize>
    requires { V.owns volume.old (R.state rig.old).contents }
    ensures owner { StaysOwner (V.owns volume.new) (R.state rig.new).contents (V.state volume.old) (V.state volume.new) }
{
    for i in 0..steps.len() {
        if !agrees(volume, rig, steps[i]) {
            return Some(i);
        }
    }
    None
}
