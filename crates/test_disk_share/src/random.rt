//! Small random traces over several disks, each with stops and cuts, over random volumes. Their texts are the texts of as
//! many plain disks.

ghost use Rattle.std.specs.Prelude.{◌≤◌};

use ft_media::Rig;
use rand_core::SeedableRng;
use rand_core::utils::NextWord;
use rand_pcg::Lcg64Xsh32;
use std::alloc::Global;
use std::ops::Range;
use std::process::Abort;
use std::test::Fail;
use test_plain_disks::is_plain_many;
use test_small_runs::{Manner, run_shared, shape_of};

/// The words for the outcomes of a cut.
const OUTCOMES: [&str; 4] = ["blank", "whole", "torn", "mixed"];

/// The address of the first of `count` blocks, near the start or the end of a disk. With three disks the end of one and
/// the start of the next are in one group.
fn first_of(words: &mut Lcg64Xsh32, disks: u32, count: u64) -> u64
    requires { 1 ≤ disks }
{
    let last = (64 / disks as u64).saturating_sub(count);
    let near = last.min(words.next_word() as u64 % 4);
    if words.next_word() % 2 == 0 {
        near
    } else {
        last.saturating_sub(near)
    }
}

/// A line over so many disks. It is a write or a read of up to 3 blocks of the chosen disk, a flush, an idle step, a stop
/// at one of the next 16 device writes, a cut, or the choice of a disk.
fn push_line(
    alloc: Global,
    trace: &mut Vec<u8>,
    words: &mut Lcg64Xsh32,
    disks: u32,
    tag: u64,
) -> Result<(), Fail>
    requires { 1 ≤ disks }
{
    let kind = words.next_word() % 24;
    let count = 1 + words.next_word() as u64 % 3;
    let first = first_of(words, disks, count);
    let after = 1 + words.next_word() % 16;
    let outcome = OUTCOMES[(words.next_word() % 4) as usize];
    let disk = words.next_word() % disks;
    let line = if kind < 8 {
        format!(in alloc; "w {first} {count} {tag}\n")?
    } else if kind < 11 {
        format!(in alloc; "r {first} {count}\n")?
    } else if kind == 11 {
        format!(in alloc; "f\n")?
    } else if kind < 15 {
        format!(in alloc; "stop {after} {outcome}\n")?
    } else if kind == 15 {
        format!(in alloc; "i\n")?
    } else if kind == 16 {
        format!(in alloc; "cut {outcome}\n")?
    } else {
        format!(in alloc; "disk {disk}\n")?
    };
    trace.extend_from_slice(line.as_bytes())?;
    Ok(())
}

/// The trace of this number: 24 lines.
fn trace_of(alloc: Global, words: &mut Lcg64Xsh32, disks: u32) -> Result<Vec<u8>, Fail>
    requires { 1 ≤ disks }
{
    let mut trace = Vec::new(alloc);
    for tag in 1..=24 {
        push_line(alloc, &mut trace, words, disks, tag)?;
    }
    Ok(trace)
}

/// How many lines of the texts say a stop, a write that was cut, and a loss, and how many blocks went to the disk.
#[derive(Clone, Copy)]
struct Seen {
    stops: u64,
    writes: u64,
    losses: u64,
    disk_writes: u64,
}

impl Seen {
    /// Counts what a run printed, and the blocks that it wrote to the disk.
    fn add(&mut self, text: &[u8], disk_writes: u64) {
        self.disk_writes = self.disk_writes.saturating_add(disk_writes);
        let Ok(text) = str::from_utf8(text) else {
            return;
        };
        for line in text.lines() {
            if line == "stopped" {
                self.stops = self.stops.saturating_add(1);
            } else if line.starts_with("kept ") {
                self.writes = self.writes.saturating_add(1);
            } else if line.starts_with("lost ") {
                self.losses = self.losses.saturating_add(1);
            }
        }
    }
}

/// Runs the traces of these numbers over so many disks. Each must print what as many plain disks print.
fn run_all(
    rt: &impl Abort,
    alloc: Global,
    manner: Manner,
    disks: u32,
    numbers: Range<u64>,
) -> Result<Seen, Fail>
    requires { 1 ≤ disks }
{
    let mut seen = Seen {
        stops: 0,
        writes: 0,
        losses: 0,
        disk_writes: 0,
    };
    for number in numbers {
        let mut words = Lcg64Xsh32::seed_from_u64(number);
        let shape = shape_of(&mut words, manner);
        let trace = trace_of(alloc, &mut words, disks)?;
        let outcome = run_shared(alloc, &shape, disks, trace.as_slice())?;
        let text = outcome.text.as_slice();
        assert_eq!(rt; outcome.status, 0);
        assert!(rt; is_plain_many(alloc, manner.ack(), trace.as_slice(), text, 64, disks)?);
        seen.add(text, outcome.rig.counts().disk_writes);
    }
    Ok(seen)
}

/// Runs 120 traces of each manner over so many disks.
fn run_each_manner(rt: &impl Abort, alloc: Global, disks: u32) -> Result<(), Fail>
    requires { 1 ≤ disks }
{
    let back = run_all(rt, alloc, Manner::Back, disks, 0..120)?;
    assert!(rt; back.stops > 80 && back.writes > 20 && back.disk_writes > 150);
    assert_eq!(rt; back.losses, 0);
    let through = run_all(rt, alloc, Manner::Through, disks, 120..240)?;
    assert!(rt; through.stops > 80 && through.writes > 20 && through.disk_writes > 1000);
    assert_eq!(rt; through.losses, 0);
    let at_flush = run_all(rt, alloc, Manner::BackAtFlush, disks, 240..360)?;
    assert!(rt; at_flush.stops > 80 && at_flush.writes > 20 && at_flush.disk_writes > 150);
    assert!(rt; at_flush.losses > 40);
    Ok(())
}

#[test]
fn traces_over_two_disks_print_what_plain_disks_print(rt: HostRuntime) -> Result<(), Fail> {
    run_each_manner(&rt, rt.alloc(), 2)
}

#[test]
fn traces_over_three_disks_print_what_plain_disks_print(rt: HostRuntime) -> Result<(), Fail> {
    run_each_manner(&rt, rt.alloc(), 3)
}

#[test]
fn traces_over_sixteen_disks_print_what_plain_disks_print(rt: HostRuntime) -> Result<(), Fail> {
    run_each_manner(&rt, rt.alloc(), 16)
}
