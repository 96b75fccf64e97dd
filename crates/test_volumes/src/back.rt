//! A volume that writes back: its reads, reports and idle steps, blocks that go to the disk, and openings.
ghost use Rattle.std.specs.Prelude.{◌≡◌, ◌<◌, [], ℕ, false, OnOk, IfOk, Some};
ghost use Rattle.std.specs.FinMap.{get};
ghost use Rattle.ft_base.specs.declared.told.Mode.TheVariants.{Back};
ghost use Rattle.ft_volume.specs.Volume.{told_for};
ghost use Rattle.cache_model.specs.Cache.{written_block};
ghost use Rattle.cache_model.specs.CacheList.{CacheList, Held};
ghost use Rattle.cache_model.specs.Stands.{FlashStandsFor};
ghost use Rattle.mem_rig.specs.Rig.{state_of};
ghost use Rattle.op_log.specs.Log.{FitsOn};
ghost use Rattle.write_back.specs.Left.{IsLeft};
ghost use Rattle.write_back.specs.Left as left;

use crate::steps::{Step, block_of, first_wrong};
use ft_base::{Block, Geometry, Outcome};
use ft_media::{Media, Rig};
use ft_volume::{Ack, Idled, Options, Report, VolumeError};
use mem_rig::MemRig;
use op_log::OpenError;
use ssc::Ssc;
use std::alloc::Global;
use std::test::Fail;
use write_back::WriteBack;

/// A volume of 64 blocks on erase blocks of 4 pages, for two dirty groups; an idle step leaves one of them. Its log has
/// 4 pages.
pub(crate) fn options() -> Result<Options, Fail>
    ensures { IfOk result (λ options. 5 < options.geometry.size) }
{
    Ok(Options {
        geometry: Geometry::new(4, 2, 2, 1, 64)?,
        dirty: 1,
        ack: Ack::Write,
    })
}

/// A rig just large enough.
pub(crate) fn fitted(alloc: Global, options: &Options) -> Result<MemRig, Fail>
    ensures { IfOk result (λ rig. FitsOn options.now.geometry (state_of rig).contents.shape) }
{
    let geometry = options.geometry;
    let mut rig = MemRig::new(alloc);
    rig.fit(alloc, geometry.blocks(), geometry.p(), geometry.size())?;
    Ok(rig)
}

/// A volume on that rig, to which nothing was written.
pub(crate) fn created(
    alloc: Global,
    rig: &mut MemRig,
    options: &Options,
) -> Result<WriteBack, VolumeError>
    requires { FitsOn options.now.geometry (state_of rig.old).contents.shape }
    ensures owns { IfOk result (λ v. IsLeft v (state_of rig.new).contents) }
    ensures told { IfOk result (λ v. (left.state_of v).told ≡ told_for Back options.now) }
{
    WriteBack::create(alloc, rig, options)
}

/// The volume that is opened after a cut.
fn reopened(
    alloc: Global,
    volume: &WriteBack,
    rig: &mut MemRig,
    options: &Options,
) -> Result<WriteBack, OpenError>
    requires owns { IsLeft volume.now (state_of rig.old).contents }
    requires told { (left.state_of volume.now).told ≡ told_for Back options.now }
    ensures { IfOk result (λ v. IsLeft v (state_of rig.new).contents) }
{
    rig.cut(Outcome::Torn);
    rig.power_on();
    WriteBack::open(alloc, rig, options)
}

/// Puts a block on the disk, so that no other value of it may be left.
fn put_on_disk(rig: &mut MemRig, lba: u64, block: &Block) -> Result<(), Fail>
    requires { lba < (state_of rig.old).contents.shape.size }
    ensures shape { (state_of rig.new).contents.shape ≡ (state_of rig.old).contents.shape }
    ensures disk { OnOk result ((state_of rig.new).contents.disk lba ≡ record { newest = block.now; earlier = [] }) }
{
    rig.write_block(lba, block)?;
    rig.flush_disk()?;
    Ok(())
}

/// Makes flash that holds one block, clean.
fn hold_clean(
    alloc: Global,
    rig: &mut MemRig,
    geometry: &Geometry,
    lba: u64,
    block: &Block,
) -> Result<(), Fail>
    requires shape { FitsOn geometry.now (state_of rig.old).contents.shape }
    requires lba { lba < geometry.now.size }
    ensures shape { (state_of rig.new).contents.shape ≡ (state_of rig.old).contents.shape }
    ensures disk { OnOk result ((state_of rig.new).contents.disk ≡ (state_of rig.old).contents.disk) }
    ensures alone { OnOk result ((s : CacheList) → FlashStandsFor geometry.now (state_of rig.new).contents.flash.page s
        → (a : ℕ) (h : Held) → get s a ≡ Some h → (a ≡ lba) × (h ≡ written_block lba block.now false)) }
{
    Ssc::format(rig, geometry)?;
    let mut cache = Ssc::open(alloc, rig, geometry)?;
    cache.write_clean(rig, lba, block)?;
    cache.commit(rig)?;
    Ok(())
}

/// A volume that is opened over such flash, with the same block on the disk.
fn over_clean(
    alloc: Global,
    rig: &mut MemRig,
    options: &Options,
    lba: u64,
    tag: u64,
) -> Result<WriteBack, Fail>
    requires shape { FitsOn options.now.geometry (state_of rig.old).contents.shape }
    requires lba { lba < options.now.geometry.size }
    ensures { IfOk result (λ v. IsLeft v (state_of rig.new).contents) }
{
    let block = block_of(lba, tag);
    put_on_disk(rig, lba, &block)?;
    hold_clean(alloc, rig, &options.geometry, lba, &block)?;
    Ok(WriteBack::open(alloc, rig, options)?)
}

/// The first step that answers something else, over a volume to which nothing was written.
fn first_wrong_anew(alloc: Global, steps: &[Step]) -> Result<Option<usize>, Fail> {
    let options = options()?;
    let mut rig = fitted(alloc, &options)?;
    let mut volume = created(alloc, &mut rig, &options)?;
    Ok(first_wrong(&mut volume, &mut rig, steps))
}

const WRITTEN: [Step; 12] = [
    Step::Size(64),
    Step::Acks(Ack::Write),
    Step::Write(5, 7),
    Step::Owed(0),
    Step::Read(5, 7),
    Step::Flush,
    Step::Down(false),
    Step::Cut(Outcome::Torn),
    Step::Down(true),
    Step::Read(5, 7),
    Step::Down(false),
    Step::DiskWrites(0),
];

#[test]
fn a_volume_reads_what_was_written(rt: HostRuntime) -> Result<(), Fail> {
    assert_eq!(rt; first_wrong_anew(rt.alloc(), &WRITTEN)?, None);
    Ok(())
}

/// The first of `steps` that goes wrong, over a volume that is opened from the media that the steps before left.
fn first_wrong_reopened(
    alloc: Global,
    before: &[Step],
    steps: &[Step],
) -> Result<Option<usize>, Fail> {
    let options = options()?;
    let mut rig = fitted(alloc, &options)?;
    let mut volume = created(alloc, &mut rig, &options)?;
    if let Some(i) = first_wrong(&mut volume, &mut rig, before) {
        return Ok(Some(i));
    }
    let mut again = reopened(alloc, &volume, &mut rig, &options)?;
    Ok(first_wrong(&mut again, &mut rig, steps))
}

const ONE_WRITE: [Step; 1] = [Step::Write(5, 7)];

const REOPENED: [Step; 2] = [Step::Read(5, 7), Step::Read(6, 0)];

#[test]
fn a_volume_is_opened_from_the_media_alone(rt: HostRuntime) -> Result<(), Fail> {
    assert_eq!(rt;
        first_wrong_reopened(rt.alloc(), &ONE_WRITE, &REOPENED)?,
        None
    );
    Ok(())
}

const OVER_CLEAN: [Step; 4] = [
    Step::Read(5, 7),
    Step::DiskReads(0),
    Step::Write(5, 9),
    Step::Read(5, 9),
];

#[test]
fn a_clean_block_is_read_from_the_flash_and_written_over(rt: HostRuntime) -> Result<(), Fail> {
    let options = options()?;
    let mut rig = fitted(rt.alloc(), &options)?;
    let mut volume = over_clean(rt.alloc(), &mut rig, &options, 5, 7)?;
    assert_eq!(rt; first_wrong(&mut volume, &mut rig, &OVER_CLEAN), None);
    Ok(())
}

const MISSED: [Step; 3] = [Step::Read(6, 0), Step::Read(6, 0), Step::DiskReads(1)];

#[test]
fn a_missed_block_is_read_from_the_disk_once(rt: HostRuntime) -> Result<(), Fail> {
    assert_eq!(rt; first_wrong_anew(rt.alloc(), &MISSED)?, None);
    Ok(())
}

// A dirty block and a clean one, in the first 32 buckets.
const REPORTED: [Step; 6] = [
    Step::Write(5, 7),
    Step::Read(6, 0),
    Step::Report(Report {
        held: 2,
        dirty_groups: 1,
        buckets: 32,
        scrubbed: 2,
    }),
    Step::Cut(Outcome::Torn),
    Step::ReportAll {
        held: 2,
        dirty_groups: 1,
        scrubbed: 2,
    },
    Step::Down(false),
];

#[test]
fn a_report_counts_what_is_held_and_opens_a_volume_that_is_down(
    rt: HostRuntime,
) -> Result<(), Fail> {
    assert_eq!(rt; first_wrong_anew(rt.alloc(), &REPORTED)?, None);
    Ok(())
}

const THIRD_GROUP: [Step; 6] = [
    Step::Write(0, 7),
    Step::Write(4, 8),
    Step::DiskWrites(0),
    Step::Write(8, 9),
    Step::DiskWrites(1),
    Step::Read(0, 7),
];

#[test]
fn a_third_group_has_the_first_written_back(rt: HostRuntime) -> Result<(), Fail> {
    assert_eq!(rt; first_wrong_anew(rt.alloc(), &THIRD_GROUP)?, None);
    Ok(())
}

const IDLE: [Step; 8] = [
    Step::Idle(Idled::Nothing),
    Step::Write(0, 7),
    Step::Write(1, 8),
    Step::Idle(Idled::Checkpointed),
    Step::Idle(Idled::Nothing),
    Step::Write(4, 9),
    Step::Idle(Idled::Cleaned),
    Step::DiskWrites(2),
];

#[test]
fn an_idle_step_makes_a_checkpoint_or_writes_a_group_back(rt: HostRuntime) -> Result<(), Fail> {
    assert_eq!(rt; first_wrong_anew(rt.alloc(), &IDLE)?, None);
    Ok(())
}
