//! Worked runs of the plain disk: answers, ends, runs that can be, lost block writes, and blocks that are written back.
ghost use Rattle.std.specs.Prelude.{◌≡◌};
ghost use Rattle.trace_model.specs.Plain.{AreAddressed};

use ft_base::{Ack, Geometry, Mode, Outcome};
use std::alloc::{AllocError, Global};
use std::test::Fail;
use trace_model::{
    Answer, Line, Looked, Plan, Ran, least_lost, plain_backs, plain_end, plain_fits, plain_told,
    reading_back_tells_the_disk, the_front_tells,
};

fn ran(line: Line, cuts: u64, kept: u64) -> Ran
    ensures { result ≡ record { line = line; cuts = cuts; kept = kept; lost = 0 } }
{
    Ran {
        line,
        cuts,
        kept,
        lost: 0,
    }
}

fn write(lba: u64, count: u64, tag: u64) -> Line
    ensures { result ≡ Line.Write lba count tag }
{
    Line::Write { lba, count, tag }
}

fn stop(after: u64) -> Ran
    ensures { result ≡ record { line = Line.Stop after Outcome.Torn; cuts = 0; kept = 0; lost = 0 } }
{
    let outcome = Outcome::Torn;
    ran(Line::Stop { after, outcome }, 0, 0)
}

#[test]
fn reads_tell_what_was_written(rt: HostRuntime) -> Result<(), Fail> {
    let (lba, count, tag) = (5, 1, 7);
    let first = ran(write(lba, count, tag), 0, 1);
    let here = ran(Line::Read { lba, count }, 0, 1);
    let there = ran(Line::Read { lba: 6, count }, 0, 1);
    let told = plain_told(rt.alloc(), &[there, here, first])?;
    let wanted = [
        Answer::Wrote { lba, count },
        Answer::ReadBack { lba, tag },
        Answer::ReadBack { lba: 6, tag: 0 },
    ];
    assert_eq!(rt; told.as_slice(), wanted.as_slice());
    let nothing = plain_told(rt.alloc(), &[])?;
    assert!(rt; nothing.is_empty());
    Ok(())
}

#[test]
fn a_cut_write_keeps_its_first_blocks(rt: HostRuntime) -> Result<(), Fail> {
    let outcome = Outcome::Torn;
    let (count, tag, kept) = (3, 9, 2);
    let armed = ran(Line::Stop { after: 3, outcome }, 0, kept);
    let torn = ran(write(2, count, tag), 1, kept);
    let read = ran(Line::Read { lba: 3, count: 2 }, 0, kept);
    let flush = ran(Line::Flush, 0, kept);
    let cut = ran(Line::Cut { outcome }, 0, kept);
    let told = plain_told(rt.alloc(), &[cut, flush, read, torn, armed])?;
    let wanted = [
        Answer::Stopped,
        Answer::Kept { kept, count },
        Answer::ReadBack { lba: 3, tag },
        Answer::ReadBack { lba: 4, tag: 0 },
        Answer::Flushed,
        Answer::Cut,
    ];
    assert_eq!(rt; told.as_slice(), wanted.as_slice());
    Ok(())
}

#[test]
fn an_end_has_counts_and_a_digest(rt: HostRuntime) -> Result<(), Fail> {
    let first = ran(write(5, 1, 7), 0, 1);
    let here = ran(Line::Read { lba: 5, count: 1 }, 0, 0);
    let there = ran(Line::Read { lba: 6, count: 1 }, 0, 0);
    let end = plain_end(rt.alloc(), &[there, here, first], 0)?;
    let wanted = Answer::End {
        writes: 1,
        reads: 2,
        touched: 2,
        digest: *b"\x22\x7d\x37\x4b\xf9\x0b\x30\xcb\x01\x9f\xe5\x15\x8a\x70\x6a\x1b\xfa\xf9\xe9\x5d\x5f\xd3\x7c\x69\x07\xf7\xaf\x0c\xd4\xbd\x04\x83",
    };
    assert_eq!(rt; end, wanted);
    let end = plain_end(rt.alloc(), &[], 0)?;
    let wanted = Answer::End {
        writes: 0,
        reads: 0,
        touched: 0,
        digest: *b"\xe3\xb0\xc4\x42\x98\xfc\x1c\x14\x9a\xfb\xf4\xc8\x99\x6f\xb9\x24\x27\xae\x41\xe4\x64\x9b\x93\x4c\xa4\x95\x99\x1b\x78\x52\xb8\x55",
    };
    assert_eq!(rt; end, wanted);
    Ok(())
}

#[test]
fn a_cut_write_fits_with_the_blocks_that_read_as_new(rt: HostRuntime) -> Result<(), Fail> {
    let alloc = rt.alloc();
    let line = write(0, 3, 9);
    let new = ran(write(1, 1, 9), 0, 1);
    assert!(rt; plain_fits(alloc, Ack::Write, &[ran(line, 1, 1), stop(5)])?);
    assert!(rt; plain_fits(alloc, Ack::Write, &[ran(line, 1, 3), stop(5)])?);
    assert!(rt; !plain_fits(alloc, Ack::Write, &[ran(line, 1, 4), stop(5)])?);
    assert!(rt; plain_fits(alloc, Ack::Write, &[ran(line, 1, 2), stop(5), new])?);
    assert!(rt; !plain_fits(alloc, Ack::Write, &[ran(line, 1, 1), stop(5), new])?);
    assert!(rt; plain_fits(alloc, Ack::Write, &[ran(line, 1, 0), stop(5), new])?);
    assert!(rt; plain_fits(alloc, Ack::Write, &[ran(line, 0, 3)])?);
    assert!(rt; !plain_fits(alloc, Ack::Write, &[ran(line, 0, 2)])?);
    Ok(())
}

#[test]
fn only_armed_stops_cut(rt: HostRuntime) -> Result<(), Fail> {
    let alloc = rt.alloc();
    let read = Line::Read { lba: 0, count: 1 };
    assert!(rt; plain_fits(alloc, Ack::Write, &[])?);
    assert!(rt; !plain_fits(alloc, Ack::Write, &[ran(read, 1, 0)])?);
    assert!(rt; !plain_fits(alloc, Ack::Write, &[ran(write(0, 1, 9), 1, 1)])?);
    assert!(rt; plain_fits(alloc, Ack::Write, &[ran(read, 2, 0), stop(1), stop(5)])?);
    assert!(rt; !plain_fits(alloc, Ack::Write, &[ran(read, 3, 0), stop(1), stop(5)])?);
    let once = ran(read, 1, 0);
    assert!(rt; plain_fits(alloc, Ack::Write, &[once, once, stop(1), stop(5)])?);
    assert!(rt; !plain_fits(alloc, Ack::Write, &[once, once, once, stop(1), stop(5)])?);
    assert!(rt; !plain_fits(alloc, Ack::Write, &[stop(1), once])?);
    Ok(())
}

#[test]
fn each_kind_of_line_is_cut_so_often_at_most(rt: HostRuntime) -> Result<(), Fail> {
    let alloc = rt.alloc();
    let cut = Line::Cut {
        outcome: Outcome::Blank,
    };
    assert!(rt;
        plain_fits(
            alloc,
            Ack::Write,
            &[ran(Line::Flush, 2, 0), stop(1), stop(5)]
        )?
    );
    assert!(rt;
        plain_fits(
            alloc,
            Ack::Write,
            &[ran(Line::Idle, 1, 0), stop(1), stop(5)]
        )?
    );
    assert!(rt;
        !plain_fits(
            alloc,
            Ack::Write,
            &[ran(Line::Idle, 2, 0), stop(1), stop(5)]
        )?
    );
    assert!(rt; plain_fits(alloc, Ack::Write, &[ran(cut, 0, 0), stop(1)])?);
    assert!(rt; !plain_fits(alloc, Ack::Write, &[ran(cut, 1, 0), stop(1)])?);
    assert!(rt; !plain_fits(alloc, Ack::Write, &[ran(Line::Nothing, 1, 0), stop(1)])?);
    Ok(())
}

// ---- lost block writes

fn losing(line: Line, cuts: u64, kept: u64, lost: u64) -> Ran
    ensures { result ≡ record { line = line; cuts = cuts; kept = kept; lost = lost } }
{
    Ran {
        line,
        cuts,
        kept,
        lost,
    }
}

fn cut_losing(lost: u64) -> Ran
    ensures { result ≡ record { line = Line.Cut Outcome.Blank; cuts = 0; kept = 0; lost = lost } }
{
    let outcome = Outcome::Blank;
    losing(Line::Cut { outcome }, 0, 0, lost)
}

/// Five blocks are written. The cut loses the newest three, and a read shows the block that was there before.
#[test]
fn a_cut_loses_the_newest_block_writes(rt: HostRuntime) -> Result<(), Fail> {
    let first = ran(write(0, 3, 9), 0, 3);
    let second = ran(write(1, 2, 7), 0, 2);
    let read = ran(Line::Read { lba: 0, count: 3 }, 0, 0);
    let told = plain_told(rt.alloc(), &[read, cut_losing(3), second, first])?;
    let wanted = [
        Answer::Wrote { lba: 0, count: 3 },
        Answer::Wrote { lba: 1, count: 2 },
        Answer::Lost { count: 3 },
        Answer::Cut,
        Answer::ReadBack { lba: 0, tag: 9 },
        Answer::ReadBack { lba: 1, tag: 9 },
        Answer::ReadBack { lba: 2, tag: 0 },
    ];
    assert_eq!(rt; told.as_slice(), wanted.as_slice());
    Ok(())
}

/// A stop cuts a write and loses one block write before it, so none of its own blocks counts.
#[test]
fn a_cut_write_may_lose_what_came_before(rt: HostRuntime) -> Result<(), Fail> {
    let cut = losing(write(4, 2, 7), 1, 0, 1);
    let told = plain_told(rt.alloc(), &[cut, stop(3), ran(write(0, 1, 9), 0, 1)])?;
    let wanted = [
        Answer::Wrote { lba: 0, count: 1 },
        Answer::Stopped,
        Answer::Lost { count: 1 },
        Answer::Kept { kept: 0, count: 2 },
    ];
    assert_eq!(rt; told.as_slice(), wanted.as_slice());
    Ok(())
}

fn digest_of(end: Answer) -> [u8; 32] {
    match end {
        Answer::End { digest, .. } => digest,
        _ => [0; 32],
    }
}

/// A block whose write was lost counts in the digest as it was before.
#[test]
fn an_end_may_lose_block_writes(rt: HostRuntime) -> Result<(), Fail> {
    let alloc = rt.alloc();
    let (old, new) = (ran(write(5, 1, 7), 0, 1), ran(write(5, 1, 8), 0, 1));
    let lost = digest_of(plain_end(alloc, &[new, old], 1)?);
    assert_eq!(rt; lost, digest_of(plain_end(alloc, &[old], 0)?));
    assert!(rt; lost != digest_of(plain_end(alloc, &[new, old], 0)?));
    let all = digest_of(plain_end(alloc, &[new, old], 2)?);
    let read = ran(Line::Read { lba: 5, count: 1 }, 0, 0);
    assert_eq!(rt; all, digest_of(plain_end(alloc, &[read], 0)?));
    Ok(())
}

fn fits_later(alloc: Global, run: &[Ran]) -> Result<bool, AllocError>
    requires { AreAddressed run.now }
{
    plain_fits(alloc, Ack::Flush, run)
}

#[test]
fn only_a_cut_loses_what_no_flush_put_on_the_media(rt: HostRuntime) -> Result<(), Fail> {
    let alloc = rt.alloc();
    let one = ran(write(0, 1, 9), 0, 1);
    let read = Line::Read { lba: 0, count: 1 };
    assert!(rt; fits_later(alloc, &[cut_losing(1), one])?);
    assert!(rt; !plain_fits(alloc, Ack::Write, &[cut_losing(1), one])?);
    assert!(rt; !fits_later(alloc, &[cut_losing(2), one])?);
    assert!(rt; !fits_later(alloc, &[cut_losing(1), ran(Line::Flush, 0, 0), one])?);
    assert!(rt; fits_later(alloc, &[cut_losing(1), one, ran(Line::Flush, 0, 0)])?);
    assert!(rt; !fits_later(alloc, &[cut_losing(1), cut_losing(1), one])?);
    assert!(rt; !fits_later(alloc, &[losing(read, 0, 0, 1), one])?);
    assert!(rt; fits_later(alloc, &[losing(read, 1, 0, 1), stop(5), one])?);
    Ok(())
}

#[test]
fn the_first_lost_block_write_changed_the_disk(rt: HostRuntime) -> Result<(), Fail> {
    let alloc = rt.alloc();
    let one = ran(write(0, 1, 9), 0, 1);
    assert!(rt; !fits_later(alloc, &[cut_losing(1), one, one])?);
    assert!(rt; fits_later(alloc, &[cut_losing(2), one, one])?);
    let cut = write(1, 2, 9);
    assert!(rt; fits_later(alloc, &[losing(cut, 1, 0, 1), stop(5), one])?);
    assert!(rt; !fits_later(alloc, &[losing(cut, 1, 1, 1), stop(5), one])?);
    Ok(())
}

#[test]
fn at_most_126_block_writes_are_lost(rt: HostRuntime) -> Result<(), Fail> {
    let alloc = rt.alloc();
    let many = ran(write(0, 200, 9), 0, 200);
    assert!(rt; fits_later(alloc, &[cut_losing(126), many])?);
    assert!(rt; !fits_later(alloc, &[cut_losing(127), many])?);
    Ok(())
}

fn looked(lba: u64, shows: bool) -> Looked {
    Looked { lba, shows }
}

/// Address 0 is written twice, and address 1 between these writes. The newest write comes first.
#[test]
fn the_least_number_of_lost_block_writes_is_found(rt: HostRuntime) {
    reading_back_tells_the_disk();
    the_front_tells();
    assert_eq!(rt; least_lost(&[]), 0);
    let none = [looked(0, true), looked(1, true), looked(0, false)];
    assert_eq!(rt; least_lost(&none), 0);
    let newest = [looked(0, false), looked(1, true), looked(0, true)];
    assert_eq!(rt; least_lost(&newest), 1);
    let two = [looked(0, false), looked(1, false), looked(0, true)];
    assert_eq!(rt; least_lost(&two), 2);
    let all = [looked(0, false), looked(1, false), looked(0, false)];
    assert_eq!(rt; least_lost(&all), 3);
}

// ---- blocks that go to the disk

fn wrote(lba: u64, count: u64) -> Ran
    ensures { result ≡ record { line = Line.Write lba count 1; cuts = 0; kept = count; lost = 0 } }
{
    ran(write(lba, count, 1), 0, count)
}

fn small_plan(dirty: u64, mode: Mode) -> Plan {
    Plan {
        geometry: Geometry {
            p: 4,
            c: 2,
            l: 2,
            j: 1,
            size: 64,
        },
        dirty,
        mode,
    }
}

/// With one dirty group allowed, an idle step writes the older of two groups back: one block.
#[test]
fn an_idle_step_writes_one_group_back(rt: HostRuntime) -> Result<(), Fail> {
    let alloc = rt.alloc();
    let run = [ran(Line::Idle, 0, 0), wrote(4, 1), wrote(0, 1)];
    assert_eq!(rt; plain_backs(alloc, &small_plan(1, Mode::Back), &run)?, 1);
    assert_eq!(rt; plain_backs(alloc, &small_plan(2, Mode::Back), &run)?, 0);
    Ok(())
}

/// The third group makes room: the first group is written back, one block.
#[test]
fn a_third_group_makes_room(rt: HostRuntime) -> Result<(), Fail> {
    let alloc = rt.alloc();
    let plan = small_plan(2, Mode::Back);
    let run = [wrote(8, 1), wrote(4, 1), wrote(0, 1)];
    assert_eq!(rt; plain_backs(alloc, &plan, &run)?, 1);
    let again = [wrote(5, 1), wrote(0, 3), wrote(4, 1)];
    assert_eq!(rt; plain_backs(alloc, &plan, &again)?, 0);
    let more = [wrote(8, 1), wrote(5, 1), wrote(0, 3), wrote(4, 1)];
    assert_eq!(rt; plain_backs(alloc, &plan, &more)?, 3);
    Ok(())
}

/// Through the cache each block goes to the disk, and an idle step writes none.
#[test]
fn through_the_cache_each_block_counts(rt: HostRuntime) -> Result<(), Fail> {
    let alloc = rt.alloc();
    let plan = small_plan(2, Mode::Through);
    let run = [ran(Line::Idle, 0, 0), wrote(0, 1)];
    assert_eq!(rt; plain_backs(alloc, &plan, &run)?, 1);
    assert_eq!(rt; plain_backs(alloc, &plan, &[wrote(0, 3)])?, 3);
    Ok(())
}
