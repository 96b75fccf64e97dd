//! Each call of flash and disk fails in turn.

use mem_rig::MemRig;
use rand_core::SeedableRng;
use rand_pcg::Lcg64Xsh32;
use std::alloc::{AllocError, Global};
use std::process::Abort;
use std::test::Fail;
use test_small_runs::{Manner, Outcome, Shape, THROUGH, back, run, run_on, shape_of};

/// Writes to three groups, reads of written blocks and of others, a write that is cut, idle steps and a cut.
const TRACE: &[u8] =
    b"w 0 2 1\nr 0 3\ni\nstop 4 torn\nw 1 2 2\ncut whole\nw 5 1 3\nw 9 1 4\nf\ni\nr 0 6\n";

/// More calls than the trace makes of a device.
const CALLS: u64 = 150;

/// The device that fails.
#[derive(Clone, Copy, PartialEq, Eq)]
pub(crate) enum Device {
    Flash,
    Disk,
}

/// The run in which this call of the device fails.
pub(crate) fn without_call(
    alloc: Global,
    shape: &Shape,
    trace: &[u8],
    device: Device,
    number: u64,
) -> Result<Outcome, AllocError> {
    let one = [number].to_vec(alloc)?;
    let none = Vec::new(alloc);
    let rig = match device {
        Device::Flash => MemRig::failing(alloc, one, none),
        Device::Disk => MemRig::failing(alloc, none, one),
    };
    run_on(alloc, shape, trace, rig)
}

/// Whether the run ended with this status, after the first lines of the whole text.
pub(crate) fn ends_within(outcome: &Outcome, status: u8, whole: &[u8]) -> bool {
    let text = outcome.text.as_slice();
    let in_lines = text.is_empty() || text.ends_with(b"\n");
    outcome.status == status && in_lines && whole.starts_with(text)
}

/// Lets each call of a device fail in turn. Either the run ends for the fault, within its text, or it is the same as
/// without a fault. Says which is the last call that the run makes.
fn fail_each(rt: &impl Abort, alloc: Global, shape: &Shape, device: Device) -> Result<u64, Fail> {
    let whole = run(alloc, shape, TRACE)?;
    assert_eq!(rt; whole.status, 0);
    let status = if device == Device::Flash { 5 } else { 6 };
    let mut failed: u64 = 0;
    for number in 1..CALLS {
        let outcome = without_call(alloc, shape, TRACE, device, number)?;
        if outcome.status == 0 {
            assert_eq!(rt; outcome.text.as_slice(), whole.text.as_slice());
        } else {
            assert!(rt; ends_within(&outcome, status, whole.text.as_slice()));
            failed = number;
        }
    }
    Ok(failed)
}

/// The same over two volumes made at random.
fn fail_each_of_two(
    rt: &impl Abort,
    alloc: Global,
    manner: Manner,
    device: Device,
) -> Result<u64, Fail> {
    let mut words = Lcg64Xsh32::seed_from_u64(7);
    let first = fail_each(rt, alloc, &shape_of(&mut words, manner), device)?;
    let second = fail_each(rt, alloc, &shape_of(&mut words, manner), device)?;
    Ok(first.min(second))
}

// One call of the flash reads a block for its line, and a later one reads the block for the end line.
#[test]
fn each_call_of_the_flash_that_fails_ends_the_run(rt: HostRuntime) -> Result<(), Fail> {
    for manner in [Manner::Back, Manner::BackAtFlush, Manner::Through] {
        let failed = fail_each_of_two(&rt, rt.alloc(), manner, Device::Flash)?;
        assert!(rt; failed > 30 && failed < CALLS - 1);
    }
    Ok(())
}

// There is the flush of each of three openings, and the read of a block that the flash doesn't hold. Each block that
// is written through adds a block write and a flush.
#[test]
fn each_call_of_the_disk_that_fails_ends_the_run(rt: HostRuntime) -> Result<(), Fail> {
    let least = [
        (Manner::Back, 3),
        (Manner::BackAtFlush, 3),
        (Manner::Through, 15),
    ];
    for (manner, least) in least {
        let failed = fail_each_of_two(&rt, rt.alloc(), manner, Device::Disk)?;
        assert!(rt; failed > least && failed < CALLS - 1);
    }
    Ok(())
}

/// Two calls of the flash, in a run of a write and a read. The first is the last call whose fault ends the run before
/// the read is answered. The second is the last call whose fault ends it before the end line.
fn calls_at_reads(alloc: Global, shape: &Shape) -> Result<(u64, u64), Fail> {
    let (mut at_line, mut at_end) = (0, 0);
    for number in 1..=200 {
        let outcome = without_call(alloc, shape, b"w 0 1 1\nr 0 1\n", Device::Flash, number)?;
        if outcome.status == 5 && outcome.text.as_slice() == b"wrote 0 1\n".as_slice() {
            at_line = number;
        }
        if outcome.status == 5 && outcome.text.as_slice() == b"wrote 0 1\nread 0 1\n".as_slice() {
            at_end = number;
        }
    }
    Ok((at_line, at_end))
}

// A held block is read from its page each time: no copy of it lives beside the media.
#[test]
fn a_page_is_read_for_each_read(rt: HostRuntime) -> Result<(), Fail> {
    for shape in [back(2, 2), THROUGH] {
        let (at_line, at_end) = calls_at_reads(rt.alloc(), &shape)?;
        assert!(rt; at_line > 0 && at_end > at_line);
    }
    Ok(())
}
