//! What is left on flash and disk when a call of either failed: the plain disk after what was acknowledged for good, with
//! some first ones of the blocks that were written since.

ghost use Rattle.std.specs.Bool.{OnTrue};
ghost use Rattle.mem_rig.specs.Rig.{state_of};
ghost use Rattle.op_log.specs.Log.{FitsOn};

use crate::faults::{Device, ends_within, without_call};
use crate::swept::trace_of;
use ft_base::{Ack, Block, Geometry, Place, Spare, tag_of, zero_block};
use ft_media::PageRead;
use mapping::Map;
use mem_rig::MemRig;
use op_log::OpenError;
use rand_core::SeedableRng;
use rand_pcg::Lcg64Xsh32;
use recovery::load;
use ssc::Ssc;
use std::alloc::{AllocError, Global};
use std::ops::Range;
use std::process::Abort;
use std::test::Fail;
use test_small_runs::{Manner, Outcome, Shape, THROUGH, at_flush, back, run, shape_of};
use trace_text::{Line, next_line, read_line};

/// More calls than a trace of 6 lines makes of a device.
const CALLS: u64 = 1000;

/// The tag of the block at each address, from 0 on: 0 for the zero block.
type Tags = [u64; 64];

// ---- what a plain disk would have

/// A block that is written: its address and its tag.
type Written = (u64, u64);

/// The blocks that a run wrote: the plain disk after those that were acknowledged for good, and the others in order. The
/// last ones are those of the line behind the lines whose answers were all printed.
#[derive(Drop)]
struct Reached {
    disk: Tags,
    others: Vec<Written>,
}

/// Writes a block with its tag.
fn write(disk: &mut Tags, (lba, tag): Written) {
    if lba < 64 {
        disk[lba as usize] = tag;
    }
}

impl Reached {
    /// The blocks of a line are written.
    fn begin(&mut self, line: &Line) -> Result<(), AllocError> {
        if let Line::Write { lba, count, tag } = *line {
            for i in 0..count {
                self.others.push((lba.saturating_add(i), tag))?;
            }
        }
        Ok(())
    }

    /// All blocks that were written are acknowledged for good.
    fn settle(&mut self) {
        for written in &self.others {
            write(&mut self.disk, *written);
        }
        self.others.clear();
    }
}

/// How many lines a line has printed once it was run, if no stop cuts power.
fn answers_of(line: &Line) -> u64 {
    match *line {
        Line::Read { count, .. } => count,
        Line::Stop { .. } | Line::Nothing => 0,
        _ => 1,
    }
}

/// The text behind so many lines. None if it has fewer.
fn behind(text: &[u8], lines: u64) -> Option<&[u8]> {
    let mut rest = text;
    for _ in 0..lines {
        let (_, after) = next_line(rest, true)?;
        rest = after;
    }
    Some(rest)
}

/// Reads off a text how far a trace without stops was answered.
fn answered(alloc: Global, ack: Ack, trace: &[u8], text: &[u8]) -> Result<Reached, AllocError> {
    let mut reached = Reached {
        disk: [0; 64],
        others: Vec::new(alloc),
    };
    let mut lines = trace;
    let mut rest = text;
    for _ in 0..trace.len() {
        let Some((spelled, after)) = next_line(lines, true) else {
            break;
        };
        lines = after;
        let Ok(line) = read_line(spelled, 64) else {
            break;
        };
        reached.begin(&line)?;
        let Some(left) = behind(rest, answers_of(&line)) else {
            break;
        };
        rest = left;
        if ack == Ack::Write || line == Line::Flush {
            reached.settle();
        }
    }
    Ok(reached)
}

/// Whether these blocks are the plain disk of what was acknowledged for good, with some first ones of the other blocks.
fn may_be_left(reached: &Reached, found: &Tags) -> bool {
    let mut disk = reached.disk;
    for written in &reached.others {
        if disk == *found {
            return true;
        }
        write(&mut disk, *written);
    }
    disk == *found
}

// ---- what is found

/// The numbers of the cache of a small volume.
fn geometry_of(shape: &Shape) -> Option<Geometry> {
    let data = u32::try_from(shape.data).ok()?;
    let log = u32::try_from(shape.log).ok()?;
    Geometry::new(4, data, log, 1, 64).ok()
}

/// Whether the rig has the pages of the geometry, and enough of the rest.
fn fits_on(rig: &MemRig, geometry: &Geometry) -> bool
    ensures { OnTrue result (FitsOn geometry.now (state_of rig.now).contents.shape) }
{
    if rig.flash_pages() != geometry.p() || rig.flash_blocks() < geometry.blocks() {
        return false;
    }
    rig.disk_blocks() >= geometry.size()
}

/// Reads a page. False if it isn't whole.
fn read_page(rig: &mut MemRig, at: Place, block: &mut Block) -> bool {
    if at.block >= rig.flash_blocks() || at.page >= rig.flash_pages() {
        return false;
    }
    let mut spare = Spare([0; 32]);
    matches!(rig.read_flash(at, block, &mut spare), Ok(PageRead::Whole))
}

/// The tag of the block at an address: in the page in which it is held, or else on the disk.
fn tag_at(rig: &mut MemRig, map: &Map, lba: u64) -> Option<u64> {
    let mut block = zero_block();
    let is_read = match map.place(lba) {
        Some((at, _)) => read_page(rig, at, &mut block),
        None => lba < rig.disk_blocks() && rig.read_disk(lba, &mut block).is_ok(),
    };
    if !is_read {
        return None;
    }
    tag_of(lba, &block)
}

fn tags_on(rig: &mut MemRig, map: &Map) -> Option<Tags> {
    let mut found = [0; 64];
    for lba in 0..64 {
        found[lba as usize] = tag_at(rig, map, lba)?;
    }
    Some(found)
}

/// Why the flash can't be opened.
fn refusal(alloc: Global, rig: &mut MemRig, geometry: &Geometry) -> Option<OpenError> {
    if !fits_on(rig, geometry) {
        return Some(OpenError::DiskFault);
    }
    Ssc::open(alloc, rig, geometry).err()
}

/// The blocks of the volume, as its flash is loaded.
fn found_on(alloc: Global, rig: &mut MemRig, geometry: &Geometry) -> Option<Tags> {
    if !fits_on(rig, geometry) {
        return None;
    }
    match load(alloc, rig, geometry) {
        Ok(loaded) => tags_on(rig, &loaded.map),
        Err(_) => None,
    }
}

/// Whether the media that a run left can be opened, and are what they may be then. A run that ended while its flash was
/// made may have left none that can be opened.
fn is_left(alloc: Global, shape: &Shape, trace: &[u8], outcome: &mut Outcome) -> bool {
    let Some(geometry) = geometry_of(shape) else {
        return false;
    };
    let text = outcome.text.as_slice();
    let rig = &mut outcome.rig;
    match refusal(alloc, rig, &geometry) {
        None => match found_on(alloc, rig, &geometry) {
            Some(found) => answered(alloc, shape.manner.ack(), trace, text).is_ok_and(
                |reached| may_be_left(&reached, &found),
            ),
            None => false,
        },
        Some(error) => error == OpenError::NotFormatted && text.is_empty(),
    }
}

// ---- each call in turn

/// Lets each call that a run makes of a device fail in turn, and says how many there are. The run ends for it within its
/// text, and its media are what they may be.
fn fail_each_of(
    rt: &impl Abort,
    alloc: Global,
    shape: &Shape,
    trace: &[u8],
    device: Device,
) -> Result<u64, Fail> {
    let mut whole = run(alloc, shape, trace)?;
    assert_eq!(rt; whole.status, 0);
    assert!(rt; is_left(alloc, shape, trace, &mut whole));
    let status = if device == Device::Flash { 5 } else { 6 };
    let mut failed: u64 = 0;
    for number in 1..CALLS {
        let mut outcome = without_call(alloc, shape, trace, device, number)?;
        // The run makes no call of this number.
        if outcome.status == 0 {
            assert_eq!(rt; outcome.text.as_slice(), whole.text.as_slice());
            break;
        }
        assert!(rt; ends_within(&outcome, status, whole.text.as_slice()));
        assert!(rt; is_left(alloc, shape, trace, &mut outcome));
        failed = number;
    }
    Ok(failed)
}

/// The same of the traces of these numbers, each over a volume made at random. Says how many calls failed.
fn fail_each(
    rt: &impl Abort,
    alloc: Global,
    manner: Manner,
    device: Device,
    numbers: Range<u64>,
) -> Result<u64, Fail> {
    let mut failed: u64 = 0;
    for number in numbers {
        let mut words = Lcg64Xsh32::seed_from_u64(number);
        let shape = shape_of(&mut words, manner);
        let trace = trace_of(alloc, &mut words)?;
        let calls = fail_each_of(rt, alloc, &shape, trace.as_slice(), device)?;
        assert!(rt; calls < CALLS - 1);
        failed = failed.saturating_add(calls);
    }
    Ok(failed)
}

/// Writes to two whole groups, a read of a third one, and a write over the first.
const GROUPS: &[u8] = b"w 0 4 1\nw 4 4 1\nr 8 1\nw 0 1 2\n";

// The disk is flushed when the volume is made, and a block of the third group is read from it.
#[test]
fn each_call_of_a_run_over_three_groups_fails_once(rt: HostRuntime) -> Result<(), Fail> {
    for shape in [back(2, 2), at_flush(2, 2), THROUGH] {
        let flash = fail_each_of(&rt, rt.alloc(), &shape, GROUPS, Device::Flash)?;
        let disk = fail_each_of(&rt, rt.alloc(), &shape, GROUPS, Device::Disk)?;
        assert!(rt; flash > 20 && disk >= 2);
    }
    Ok(())
}

#[test]
fn what_a_failed_call_of_the_flash_leaves_is_the_plain_disk(rt: HostRuntime) -> Result<(), Fail> {
    let failed = fail_each(&rt, rt.alloc(), Manner::Back, Device::Flash, 600..620)?;
    assert!(rt; failed > 400);
    Ok(())
}

#[test]
fn what_a_failed_call_of_the_flash_leaves_is_the_plain_disk_written_through(
    rt: HostRuntime,
) -> Result<(), Fail> {
    let failed = fail_each(&rt, rt.alloc(), Manner::Through, Device::Flash, 600..620)?;
    assert!(rt; failed > 400);
    Ok(())
}

// The flush of the opening, each block that is read from the disk, and those that are written back.
#[test]
fn what_a_failed_call_of_the_disk_leaves_is_the_plain_disk(rt: HostRuntime) -> Result<(), Fail> {
    let failed = fail_each(&rt, rt.alloc(), Manner::Back, Device::Disk, 600..620)?;
    assert!(rt; failed > 60);
    Ok(())
}

// And a write and a flush for each block that is written through.
#[test]
fn what_a_failed_call_of_the_disk_leaves_is_the_plain_disk_written_through(
    rt: HostRuntime,
) -> Result<(), Fail> {
    let failed = fail_each(&rt, rt.alloc(), Manner::Through, Device::Disk, 600..620)?;
    assert!(rt; failed > 200);
    Ok(())
}

#[test]
fn what_a_failed_call_of_the_flash_leaves_is_the_plain_disk_of_a_flush(
    rt: HostRuntime,
) -> Result<(), Fail> {
    let failed = fail_each(
        &rt,
        rt.alloc(),
        Manner::BackAtFlush,
        Device::Flash,
        600..620,
    )?;
    assert!(rt; failed > 400);
    Ok(())
}
