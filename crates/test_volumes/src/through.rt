//! A volume that writes through: its calls of the disk, its report, openings after a cut, and addresses out of range.
ghost use Rattle.std.specs.Prelude.{◌≡◌, IfOk};
ghost use Rattle.ft_base.specs.declared.told.Mode.TheVariants.{Through};
ghost use Rattle.ft_volume.specs.Volume.{told_for};
ghost use Rattle.mem_rig.specs.Rig.{state_of};
ghost use Rattle.op_log.specs.Log.{FitsOn};
ghost use Rattle.write_through.specs.Left.{IsLeft};
ghost use Rattle.write_through.specs.Left as left;

use crate::steps::{Step, first_wrong};
use ft_base::{Geometry, Outcome};
use ft_media::Rig;
use ft_volume::{Ack, Idled, Options, Report, Volume, VolumeError};
use mem_rig::MemRig;
use op_log::OpenError;
use std::alloc::Global;
use std::test::Fail;
use write_through::WriteThrough;

/// A volume of 64 blocks on erase blocks of 4 pages.
fn options() -> Result<Options, Fail> {
    Ok(Options {
        geometry: Geometry::new(4, 2, 2, 1, 64)?,
        dirty: 1,
        ack: Ack::Write,
    })
}

/// A rig just large enough.
fn fitted(alloc: Global, options: &Options) -> Result<MemRig, Fail>
    ensures { IfOk result (λ rig. FitsOn options.now.geometry (state_of rig).contents.shape) }
{
    let geometry = options.geometry;
    let mut rig = MemRig::new(alloc);
    rig.fit(alloc, geometry.blocks(), geometry.p(), geometry.size())?;
    Ok(rig)
}

/// A volume on that rig, to which nothing was written.
fn created(alloc: Global, rig: &mut MemRig, options: &Options) -> Result<WriteThrough, VolumeError>
    requires { FitsOn options.now.geometry (state_of rig.old).contents.shape }
    ensures owns { IfOk result (λ v. IsLeft v (state_of rig.new).contents) }
    ensures told { IfOk result (λ v. (left.state_of v).told ≡ told_for Through options.now) }
{
    WriteThrough::create(alloc, rig, options)
}

/// The volume that is opened after a cut, from the media alone.
fn reopened(
    alloc: Global,
    volume: &mut WriteThrough,
    rig: &mut MemRig,
    options: &Options,
) -> Result<WriteThrough, OpenError>
    requires owns { IsLeft volume.old (state_of rig.old).contents }
    requires told { (left.state_of volume.old).told ≡ told_for Through options.now }
    ensures { IfOk result (λ v. IsLeft v (state_of rig.new).contents) }
{
    volume.cut(rig, Outcome::Torn);
    WriteThrough::open(alloc, rig, options)
}

/// The first step that answers something else, over a volume to which nothing was written.
fn first_wrong_anew(alloc: Global, steps: &[Step]) -> Result<Option<usize>, Fail> {
    let options = options()?;
    let mut rig = fitted(alloc, &options)?;
    let mut volume = created(alloc, &mut rig, &options)?;
    Ok(first_wrong(&mut volume, &mut rig, steps))
}

/// The same over a volume that is opened from the media that the first steps left.
fn first_wrong_reopened(
    alloc: Global,
    before: &[Step],
    steps: &[Step],
) -> Result<Option<usize>, Fail> {
    let options = options()?;
    let mut rig = fitted(alloc, &options)?;
    let mut volume = created(alloc, &mut rig, &options)?;
    if let Some(i) = first_wrong(&mut volume, &mut rig, before) {
        return Ok(Some(i));
    }
    let mut again = reopened(alloc, &mut volume, &mut rig, &options)?;
    Ok(first_wrong(&mut again, &mut rig, steps))
}

// Two of the log's four pages are used: one by the eviction, one by the flush.
const WRITTEN: [Step; 12] = [
    Step::Acks(Ack::Write),
    Step::Write(5, 7),
    Step::Owed(0),
    Step::DiskWrites(1),
    Step::Read(5, 7),
    Step::Write(5, 9),
    Step::DiskWrites(2),
    Step::Read(5, 9),
    Step::DiskReads(0),
    Step::Flush,
    Step::Idle(Idled::Checkpointed),
    Step::Idle(Idled::Nothing),
];

#[test]
fn a_write_is_on_the_disk_and_in_the_cache_when_it_answers(rt: HostRuntime) -> Result<(), Fail> {
    assert_eq!(rt; first_wrong_anew(rt.alloc(), &WRITTEN)?, None);
    Ok(())
}

const ONE_WRITE: [Step; 1] = [Step::Write(5, 7)];

const REOPENED: [Step; 5] = [
    Step::Read(5, 7),
    Step::Cut(Outcome::Blank),
    Step::Down(true),
    Step::Read(5, 7),
    Step::Down(false),
];

#[test]
fn what_was_written_is_read_after_a_cut(rt: HostRuntime) -> Result<(), Fail> {
    assert_eq!(rt;
        first_wrong_reopened(rt.alloc(), &ONE_WRITE, &REOPENED)?,
        None
    );
    Ok(())
}

// The block that was written and the block that was read, both clean, in the first 32 buckets.
const REPORTED: [Step; 6] = [
    Step::Write(5, 7),
    Step::Read(6, 0),
    Step::Report(Report {
        held: 2,
        dirty_groups: 0,
        buckets: 32,
        scrubbed: 2,
    }),
    Step::Cut(Outcome::Torn),
    Step::ReportAll {
        held: 2,
        dirty_groups: 0,
        scrubbed: 2,
    },
    Step::Down(false),
];

#[test]
fn a_report_counts_what_is_held_and_opens_a_volume_that_is_down(
    rt: HostRuntime,
) -> Result<(), Fail> {
    assert_eq!(rt; first_wrong_anew(rt.alloc(), &REPORTED)?, None);
    Ok(())
}

const OUTSIDE: [Step; 3] = [Step::Size(64), Step::Refuse(64), Step::Refuse(u64::MAX)];

#[test]
fn an_address_outside_of_the_volume_is_refused(rt: HostRuntime) -> Result<(), Fail> {
    assert_eq!(rt; first_wrong_anew(rt.alloc(), &OUTSIDE)?, None);
    Ok(())
}
