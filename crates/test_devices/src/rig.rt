//! The rig in memory: what each outcome leaves of each cut call, and thousands of random calls beside plain lists.
ghost use Rattle.std.specs.Prelude.{◌<◌};
ghost use Rattle.ft_media.specs.Media.{IsNextPage};

use crate::plain_rig::{Kept, Plain};
use device_calls::Ending;
use ft_base::{Block, Outcome, Place, Spare, Stop, is_same, pattern, tag, zero_block};
use ft_media::{Counts, MediaError, PageRead, Rig};
use mem_rig::MemRig;
use std::alloc::{AllocError, Global};
use std::test::Fail;

const SPARE: Spare = Spare([7; 32]);

const OUTCOMES: [Outcome; 4] = [
    Outcome::Blank,
    Outcome::Whole,
    Outcome::Torn,
    Outcome::Mixed,
];

/// A fact of a rig that can be seen without a call.
#[derive(Clone, Copy)]
enum Fact {
    /// The page of a block to program next, if the block is ready and has one.
    NextPage(u32, Option<u32>),
    /// Whether power is on.
    Power(bool),
    /// How many stops are armed.
    Stops(u32),
    /// How often power was lost, or was off at a call.
    Cuts(u64),
    /// How often the flash failed, and how often the disk failed.
    Failures(u64, u64),
    /// The counts of calls that answered `Ok`.
    Done(Counts),
}

/// A line of an example. A call comes with its answer.
#[derive(Clone, Copy)]
enum Line {
    /// A stop is armed. It cuts the device write of this number, and leaves this outcome of it.
    Arm(u64, Outcome),
    /// The next page of a block is programmed with this tag. `None` if no page is ready.
    Program(u32, u64, Option<Ending>),
    /// Three pages of a block are programmed, with the tags 1 to 3, whatever the calls answer.
    Fill(u32),
    /// A block is erased.
    Erase(u32, Option<Ending>),
    /// A block of the disk is written with this tag.
    Write(u64, u64, Ending),
    /// The disk is flushed.
    Flush(Ending),
    /// Power is cut between two device writes.
    Cut(Outcome),
    /// Power is turned on.
    TurnOn,
    /// A page is read.
    ReadPage(u32, u32, Result<Kept, MediaError>),
    /// A block of the disk is read, and has this tag.
    ReadBlock(u64, Result<u64, MediaError>),
    /// The fact that is seen then.
    See(Fact),
}

/// The block of this tag.
fn tagged(number: u64) -> Block {
    let mut block = zero_block();
    if number > 0 {
        pattern(0, number, &mut block);
    }
    block
}

/// The finding of a read of a page, with the tag of its block if it is whole.
fn read_page<R: Rig>(rig: &mut R, block: u32, page: u32) -> Result<Kept, MediaError> {
    if block >= rig.blocks() || page >= rig.pages() {
        return Ok(Kept::Blank);
    }
    let mut bytes = zero_block();
    let mut spare = Spare([0; 32]);
    match rig.read_page(Place { block, page }, &mut bytes, &mut spare)? {
        PageRead::Blank => Ok(Kept::Blank),
        PageRead::Torn => Ok(Kept::Torn),
        PageRead::Whole => {
            let whole = is_same(&bytes, &tagged(tag(&bytes))) && spare.0 == SPARE.0;
            Ok(Kept::Whole(if whole { tag(&bytes) } else { u64::MAX }))
        }
    }
}

/// The tag of the newest value of an address.
fn read_block<R: Rig>(rig: &mut R, lba: u64) -> Result<u64, MediaError> {
    if lba >= rig.disk_size() {
        return Ok(0);
    }
    let mut bytes = tagged(9);
    rig.read_block(lba, &mut bytes)?;
    let whole = is_same(&bytes, &tagged(tag(&bytes)));
    Ok(if whole { tag(&bytes) } else { u64::MAX })
}

/// The page of a block to program next, if the block is ready and has one.
fn next_page(rig: &MemRig, block: u32) -> Option<u32> {
    if block >= rig.flash_blocks() {
        return None;
    }
    rig.next_page(block)
        .filter(|page| *page < rig.flash_pages())
}

/// Programs the next page of a block, if the block is ready and has one.
fn program(rig: &mut MemRig, block: u32, number: u64) -> Option<Ending> {
    if block >= rig.flash_blocks() {
        return None;
    }
    let page = rig.next_page(block)?;
    if page >= rig.flash_pages() {
        return None;
    }
    Some(rig.program_page(Place { block, page }, &tagged(number), &SPARE))
}

fn erase(rig: &mut MemRig, block: u32) -> Option<Ending> {
    if block >= rig.flash_blocks() {
        return None;
    }
    Some(rig.erase_block(block))
}

/// A rig of two blocks of nine pages and eight disk blocks.
fn small_rig(alloc: Global) -> Result<MemRig, AllocError> {
    let mut rig = MemRig::new(alloc);
    rig.fit_anew(alloc, 2, 9, 8)?;
    Ok(rig)
}

/// Programs three pages of a block.
fn fill(rig: &mut MemRig, block: u32) {
    for number in 1..4 {
        program(rig, block, number);
    }
}

fn arm(rig: &mut MemRig, after: u64, outcome: Outcome) -> bool {
    if rig.stops() >= 16 || after == 0 {
        return false;
    }
    rig.arm_stop(after, outcome);
    true
}

fn tells(rig: &MemRig, fact: Fact) -> bool {
    match fact {
        Fact::NextPage(block, page) => next_page(rig, block) == page,
        Fact::Power(on) => rig.has_power() == on,
        Fact::Stops(count) => rig.stops() == count,
        Fact::Cuts(count) => rig.cuts() == count,
        Fact::Failures(flash, disk) => rig.flash_faults() == flash && rig.disk_faults() == disk,
        Fact::Done(counts) => rig.done() == counts,
    }
}

/// Makes the call of the line. Answers whether the facts of the line hold.
fn is_so(rig: &mut MemRig, line: Line) -> Result<bool, AllocError> {
    match line {
        Line::Arm(after, outcome) => return Ok(arm(rig, after, outcome)),
        Line::Program(block, number, ending) => return Ok(program(rig, block, number) == ending),
        Line::Erase(block, ending) => return Ok(erase(rig, block) == ending),
        Line::Write(lba, number, ending) => return Ok(
            rig.write_disk(lba, &tagged(number))? == ending,
        ),
        Line::Flush(ending) => return Ok(rig.flush_blocks() == ending),
        Line::ReadPage(block, page, found) => return Ok(read_page(rig, block, page) == found),
        Line::ReadBlock(lba, found) => return Ok(read_block(rig, lba) == found),
        Line::See(fact) => return Ok(tells(rig, fact)),
        Line::Fill(block) => fill(rig, block),
        Line::Cut(outcome) => rig.cut_power(outcome),
        Line::TurnOn => rig.turn_on(),
    }
    Ok(true)
}

/// Goes through the lines. Answers the first line whose facts don't hold.
fn first_wrong(rig: &mut MemRig, lines: &[Line]) -> Result<Option<usize>, AllocError> {
    for i in 0..lines.len() {
        if !is_so(rig, lines[i])? {
            return Ok(Some(i));
        }
    }
    Ok(None)
}

/// The same, beginning with a new rig.
fn first_wrong_anew(alloc: Global, lines: &[Line]) -> Result<Option<usize>, AllocError> {
    let mut rig = small_rig(alloc)?;
    first_wrong(&mut rig, lines)
}

/// The pages and blocks that a cut of this outcome leaves.
#[derive(Clone, Copy)]
struct Row {
    outcome: Outcome,
    /// The page that is programmed.
    programmed: Kept,
    /// Pages 0 to 3 of a block that is erased; the first three were whole.
    erased: [Kept; 4],
    /// Page 2 of a block that is erased, if that page was torn.
    was_torn: Kept,
    /// The tags at addresses 4 to 7. Addresses 4 and 5 were flushed with tag 1, and then all four were written with
    /// tags 3 and 2.
    blocks: [u64; 4],
}

const ROWS: [Row; 4] = [
    Row {
        outcome: Outcome::Blank,
        programmed: Kept::Blank,
        erased: [Kept::Blank, Kept::Blank, Kept::Blank, Kept::Blank],
        was_torn: Kept::Blank,
        blocks: [1, 1, 0, 0],
    },
    Row {
        outcome: Outcome::Whole,
        programmed: Kept::Whole(5),
        erased: [Kept::Whole(1), Kept::Whole(2), Kept::Whole(3), Kept::Blank],
        was_torn: Kept::Torn,
        blocks: [2, 2, 2, 2],
    },
    Row {
        outcome: Outcome::Torn,
        programmed: Kept::Torn,
        erased: [Kept::Torn, Kept::Torn, Kept::Torn, Kept::Blank],
        was_torn: Kept::Torn,
        blocks: [1, 2, 0, 2],
    },
    Row {
        outcome: Outcome::Mixed,
        programmed: Kept::Torn,
        erased: [Kept::Whole(1), Kept::Blank, Kept::Torn, Kept::Blank],
        was_torn: Kept::Torn,
        blocks: [1, 2, 0, 2],
    },
];

/// The device write that is cut.
#[derive(Clone, Copy, Debug, PartialEq, Eq)]
enum Cut {
    /// A program.
    Program,
    /// An erase of a block with three whole pages.
    Erase,
    /// An erase of a block with a torn page.
    EraseOfTorn,
    /// A device write, or a cut between two, that leaves blocks of the disk unflushed.
    Unflushed(Unflushed),
    /// A write of the disk, to the first or the second address.
    Write(bool),
}

/// The device write, or the cut between two, that settles a disk.
#[derive(Clone, Copy, Debug, PartialEq, Eq)]
enum Unflushed {
    /// A program.
    Program,
    /// An erase.
    Erase,
    /// The flush.
    Flush,
    /// No device write: power goes off between two.
    Between,
}

const CUTS: [Cut; 9] = [
    Cut::Program,
    Cut::Erase,
    Cut::EraseOfTorn,
    Cut::Unflushed(Unflushed::Program),
    Cut::Unflushed(Unflushed::Erase),
    Cut::Unflushed(Unflushed::Flush),
    Cut::Unflushed(Unflushed::Between),
    Cut::Write(false),
    Cut::Write(true),
];

/// A cut of a program, and the page that it leaves.
fn program_cut(row: &Row) -> [Line; 9] {
    [
        Line::Arm(1, row.outcome),
        Line::Program(0, 5, Some(Ending::Cut(row.outcome))),
        Line::See(Fact::Power(false)),
        Line::See(Fact::Stops(0)),
        Line::See(Fact::Cuts(1)),
        Line::See(Fact::NextPage(0, None)),
        Line::See(Fact::NextPage(1, None)),
        Line::TurnOn,
        Line::ReadPage(0, 0, Ok(row.programmed)),
    ]
}

/// A cut of an erase, and pages 0 to 3 of the block; the first three were whole.
fn erase_cut(row: &Row) -> [Line; 12] {
    [
        Line::Fill(0),
        Line::Fill(1),
        Line::Arm(1, row.outcome),
        Line::Erase(0, Some(Ending::Cut(row.outcome))),
        Line::See(Fact::NextPage(0, None)),
        Line::See(Fact::NextPage(1, None)),
        Line::TurnOn,
        // The other block stays.
        Line::ReadPage(1, 1, Ok(Kept::Whole(2))),
        Line::ReadPage(0, 0, Ok(row.erased[0])),
        Line::ReadPage(0, 1, Ok(row.erased[1])),
        Line::ReadPage(0, 2, Ok(row.erased[2])),
        Line::ReadPage(0, 3, Ok(row.erased[3])),
    ]
}

/// A cut of an erase, and page 2 of the block, which was torn.
fn erase_of_torn_cut(row: &Row) -> [Line; 8] {
    [
        Line::Arm(3, Outcome::Torn),
        Line::Arm(1, row.outcome),
        Line::Fill(0),
        Line::TurnOn,
        Line::ReadPage(0, 2, Ok(Kept::Torn)),
        Line::Erase(0, Some(Ending::Cut(row.outcome))),
        Line::TurnOn,
        Line::ReadPage(0, 2, Ok(row.was_torn)),
    ]
}

/// The call that is cut, or cuts.
fn cut_by(cut: Unflushed, outcome: Outcome) -> Line {
    match cut {
        Unflushed::Program => Line::Program(0, 5, Some(Ending::Cut(outcome))),
        Unflushed::Erase => Line::Erase(0, Some(Ending::Cut(outcome))),
        Unflushed::Flush => Line::Flush(Ending::Cut(outcome)),
        Unflushed::Between => Line::Cut(outcome),
    }
}

/// A cut, and the blocks that it leaves at addresses 4 to 7. Addresses 4 and 5 were flushed with tag 1, and then all
/// four were written with tags 3 and 2.
fn unflushed_cut(cut: Unflushed, row: &Row) -> [Line; 19] {
    [
        Line::Write(4, 1, Ending::Done),
        Line::Write(5, 1, Ending::Done),
        Line::Flush(Ending::Done),
        Line::Write(4, 3, Ending::Done),
        Line::Write(5, 3, Ending::Done),
        Line::Write(6, 3, Ending::Done),
        Line::Write(7, 3, Ending::Done),
        Line::Write(4, 2, Ending::Done),
        Line::Write(5, 2, Ending::Done),
        Line::Write(6, 2, Ending::Done),
        Line::Write(7, 2, Ending::Done),
        Line::Arm(1, row.outcome),
        cut_by(cut, row.outcome),
        Line::See(Fact::Power(false)),
        Line::TurnOn,
        Line::ReadBlock(4, Ok(row.blocks[0])),
        Line::ReadBlock(5, Ok(row.blocks[1])),
        Line::ReadBlock(6, Ok(row.blocks[2])),
        Line::ReadBlock(7, Ok(row.blocks[3])),
    ]
}

/// A cut of a write of tag 2 to an address that was flushed with tag 1, and the block that it leaves there.
fn write_cut(lba: u64, left: u64, outcome: Outcome) -> [Line; 6] {
    [
        Line::Write(lba, 1, Ending::Done),
        Line::Flush(Ending::Done),
        Line::Arm(1, outcome),
        Line::Write(lba, 2, Ending::Cut(outcome)),
        Line::TurnOn,
        Line::ReadBlock(lba, Ok(left)),
    ]
}

/// The first line of a cut whose facts don't hold.
fn first_wrong_of(alloc: Global, cut: Cut, row: &Row) -> Result<Option<usize>, AllocError> {
    match cut {
        Cut::Program => first_wrong_anew(alloc, &program_cut(row)),
        Cut::Erase => first_wrong_anew(alloc, &erase_cut(row)),
        Cut::EraseOfTorn => first_wrong_anew(alloc, &erase_of_torn_cut(row)),
        Cut::Unflushed(by) => first_wrong_anew(alloc, &unflushed_cut(by, row)),
        Cut::Write(false) => first_wrong_anew(alloc, &write_cut(4, row.blocks[0], row.outcome)),
        Cut::Write(true) => first_wrong_anew(alloc, &write_cut(5, row.blocks[1], row.outcome)),
    }
}

/// The first cut of an outcome that doesn't leave the expected state, and its line.
fn first_wrong_cut(alloc: Global) -> Result<Option<(Outcome, Cut, usize)>, AllocError> {
    for row in ROWS {
        for cut in CUTS {
            if let Some(line) = first_wrong_of(alloc, cut, &row)? {
                return Ok(Some((row.outcome, cut, line)));
            }
        }
    }
    Ok(None)
}

#[test]
fn a_cut_leaves_what_its_outcome_says(rt: HostRuntime) -> Result<(), Fail> {
    assert_eq!(rt; first_wrong_cut(rt.alloc())?, None);
    Ok(())
}

const NUMBERED: [Line; 23] = [
    // Stops cut the third device write, and then the first after it.
    Line::Arm(3, Outcome::Torn),
    Line::Arm(1, Outcome::Whole),
    Line::Program(0, 1, Some(Ending::Done)),
    // Reads are counted as calls, but not by stops. Call 2 of the flash fails.
    Line::ReadPage(0, 0, Err(MediaError::Failed)),
    Line::Write(0, 1, Ending::Failed),
    Line::Program(0, 2, Some(Ending::Cut(Outcome::Torn))),
    // Calls with power off aren't counted at all.
    Line::ReadPage(0, 1, Err(MediaError::PowerLost)),
    Line::Erase(0, Some(Ending::Off)),
    Line::Flush(Ending::Off),
    Line::TurnOn,
    // Call 4 of the flash is cut, though its number is listed.
    Line::Erase(1, Some(Ending::Cut(Outcome::Whole))),
    Line::TurnOn,
    Line::ReadPage(0, 1, Ok(Kept::Torn)),
    Line::See(Fact::NextPage(0, None)),
    Line::Erase(0, Some(Ending::Done)),
    Line::See(Fact::NextPage(0, Some(0))),
    Line::ReadPage(0, 1, Ok(Kept::Blank)),
    Line::ReadBlock(0, Ok(0)),
    Line::Flush(Ending::Failed),
    Line::Flush(Ending::Done),
    Line::See(Fact::Failures(1, 2)),
    Line::See(Fact::Cuts(5)),
    Line::See(Fact::Done(Counts {
        programs: 1,
        erases: 1,
        disk_reads: 1,
        disk_writes: 0,
        disk_flushes: 1,
    })),
];

/// Goes through the lines on devices whose calls with these numbers fail.
fn first_wrong_failing(
    alloc: Global,
    flash: &[u64],
    disk: &[u64],
    lines: &[Line],
) -> Result<Option<usize>, AllocError> {
    let mut rig = MemRig::failing(alloc, flash.to_vec(alloc)?, disk.to_vec(alloc)?);
    rig.fit_anew(alloc, 2, 4, 2)?;
    first_wrong(&mut rig, lines)
}

#[test]
fn stops_and_failures_come_at_their_numbers(rt: HostRuntime) -> Result<(), Fail> {
    assert_eq!(rt;
        first_wrong_failing(rt.alloc(), &[2, 4], &[1, 3], &NUMBERED)?,
        None
    );
    Ok(())
}

/// Makes media anew and programs their first page.
fn fit_and_program<R: Rig>(rig: &mut R, alloc: Global) -> Result<(), Fail> {
    rig.fit(alloc, 1, 2, 4)?;
    rig.program(Place { block: 0, page: 0 }, &tagged(1), &SPARE)?;
    Ok(())
}

/// Reads the first page, and erases its block.
fn read_and_erase<R: Rig>(rig: &mut R) -> Result<Option<PageRead>, Fail> {
    if rig.blocks() == 0 || rig.pages() == 0 {
        return Ok(None);
    }
    let mut block = zero_block();
    let mut spare = Spare([0; 32]);
    let found = rig.read_page(Place { block: 0, page: 0 }, &mut block, &mut spare)?;
    if rig.blocks() == 0 {
        return Ok(None);
    }
    rig.erase(0)?;
    Ok(Some(found).filter(|_| is_same(&block, &tagged(1))))
}

/// Writes a disk block, flushes the disk, and reads the block.
fn write_and_read<R: Rig>(rig: &mut R, lba: u64) -> Result<Option<u64>, Fail> {
    if lba >= rig.disk_size() {
        return Ok(None);
    }
    rig.write_block(lba, &tagged(2))?;
    rig.flush_disk()?;
    let mut block = zero_block();
    if lba >= rig.disk_size() {
        return Ok(None);
    }
    rig.read_block(lba, &mut block)?;
    Ok(Some(tag(&block)))
}

/// Arms a stop and cuts power. Answers how many stops are then armed, and whether power is on before and after it is
/// turned on.
fn cut_and_turn_on<R: Rig>(rig: &mut R) -> (u32, bool, bool) {
    if rig.armed() < 16 {
        rig.arm(5, Outcome::Torn);
    }
    rig.cut(Outcome::Blank);
    let before = rig.is_on();
    rig.power_on();
    (rig.armed(), before, rig.is_on())
}

#[test]
fn it_is_driven_through_the_traits(rt: HostRuntime) -> Result<(), Fail> {
    let mut rig = MemRig::new(rt.alloc());
    fit_and_program(&mut rig, rt.alloc())?;
    assert_eq!(rt; read_and_erase(&mut rig)?, Some(PageRead::Whole));
    assert_eq!(rt; write_and_read(&mut rig, 3)?, Some(2));
    assert_eq!(rt; write_and_read(&mut rig, 4)?, None);
    assert_eq!(rt; cut_and_turn_on(&mut rig), (1, false, true));
    assert_eq!(rt; rig.counts().programs, 1);
    assert_eq!(rt;
        [rig.flash_faults(), rig.disk_faults(), rig.cuts()],
        [0, 0, 1]
    );
    Ok(())
}

/// Numbers that look random.
#[derive(Drop)]
struct Draw(u64);

impl Draw {
    fn below(&mut self, n: u32) -> u32
        requires { 0 < n }
        ensures { result < n }
    {
        self.0 = self
            .0
            .wrapping_mul(6364136223846793005)
            .wrapping_add(1442695040888963407);
        (self.0 >> 33) as u32 % n
    }

    fn outcome(&mut self) -> Outcome {
        OUTCOMES[self.below(4) as usize]
    }
}

/// The answer of the media to a device write with this ending.
fn answer(ending: Ending) -> Result<(), MediaError> {
    match ending {
        Ending::Done => Ok(()),
        Ending::Failed => Err(MediaError::Failed),
        Ending::Cut(_) | Ending::Off => Err(MediaError::PowerLost),
    }
}

/// Programs the next page of a block that is ready, with this number.
fn program_at<R: Rig>(rig: &mut R, at: Place, number: u64) -> Result<(), MediaError>
    requires ready { IsNextPage at (R.state rig.old).contents.flash }
    requires page { at.page < (R.state rig.old).contents.shape.pages }
{
    rig.program(at, &tagged(number), &SPARE)
}

/// Programs the next page of a block of both rigs, if it is ready and has one. Answers whether both answer alike.
fn same_program(rig: &mut MemRig, plain: &mut Plain, block: u32, number: u64) -> bool {
    if block >= rig.flash_blocks() {
        return false;
    }
    let Some(page) = rig.next_page(block) else {
        return true;
    };
    if page >= rig.flash_pages() {
        return true;
    }
    let answered = program_at(rig, Place { block, page }, number);
    answered == answer(plain.program(block, page, number))
}

/// Arms both rigs with one more cut, drawn at random, while there is room.
fn arm_both<R: Rig>(rig: &mut R, plain: &mut Plain, draw: &mut Draw) -> Result<(), AllocError> {
    let after = u64::from(draw.below(32)) + 1;
    let outcome = draw.outcome();
    if rig.armed() < 16 {
        rig.arm(after, outcome);
        plain.stops.push(Stop { after, outcome })?;
    }
    Ok(())
}

/// Makes one call of both rigs, drawn at random, but no program. Answers whether both answer alike.
fn same_step<R: Rig>(
    rig: &mut R,
    plain: &mut Plain,
    draw: &mut Draw,
    number: u64,
) -> Result<bool, AllocError> {
    let block = draw.below(4);
    let lba = u64::from(draw.below(8));
    if block >= rig.blocks() || lba >= rig.disk_size() {
        return Ok(false);
    }
    let same = match draw.below(28) {
        0..6 => rig.erase(block) == answer(plain.erase(block)),
        6..18 => {
            let written = rig.write_block(lba, &tagged(number));
            if written == Err(MediaError::OutOfMemory) {
                return Err(AllocError);
            }
            written == answer(plain.write(lba, number)?)
        }
        18..22 => rig.flush_disk() == answer(plain.flush()),
        22..25 => {
            arm_both(rig, plain, draw)?;
            true
        }
        25 => {
            let outcome = draw.outcome();
            rig.cut(outcome);
            plain.cut(outcome);
            true
        }
        _ => {
            rig.power_on();
            plain.on = true;
            true
        }
    };
    Ok(same)
}

/// Whether both rigs read the same at a page and an address, and say the same of themselves.
fn same_state<R: Rig>(rig: &mut R, plain: &mut Plain, draw: &mut Draw) -> bool {
    let block = draw.below(4);
    let page = draw.below(7);
    let lba = u64::from(draw.below(8));
    read_page(rig, block, page) == plain.read_page(block, page)
        && read_block(rig, lba) == plain.read_block(lba)
        && rig.is_on() == plain.on
        && rig.armed() as usize == plain.stops.len()
        && rig.counts() == plain.counts
}

/// Whether the same page of a block is next, and the same faults were counted.
fn same_within(rig: &MemRig, plain: &Plain, block: u32) -> bool {
    same_next(rig, plain, block)
        && rig.flash_faults() == plain.flash.faults
        && rig.disk_faults() == plain.disk.faults
        && rig.cuts() == plain.cuts
}

fn same_next(rig: &MemRig, plain: &Plain, block: u32) -> bool {
    let next = if block < rig.flash_blocks() {
        rig.next_page(block)
    } else {
        None
    };
    plain.next.get(block as usize).copied() == Some(next)
}

/// Numbers with this distance between them.
fn every(alloc: Global, distance: u64) -> Result<Vec<u64>, AllocError>
    requires { distance < 100 }
{
    let mut numbers = Vec::new(alloc);
    for i in 1..200 {
        numbers.push(i * distance)?;
    }
    Ok(numbers)
}

#[test]
fn it_does_what_plain_lists_do(rt: HostRuntime) -> Result<(), Fail> {
    let alloc = rt.alloc();
    let mut rig = MemRig::failing(alloc, every(alloc, 37)?, every(alloc, 29)?);
    rig.fit_anew(alloc, 4, 7, 8)?;
    let mut plain = Plain::new(alloc, 4, 7, 8, every(alloc, 37)?, every(alloc, 29)?)?;
    let mut draw = Draw(1);
    for number in 1..5000 {
        let block = draw.below(4);
        let same = match draw.below(48) {
            0..20 => same_program(&mut rig, &mut plain, block, number),
            _ => same_step(&mut rig, &mut plain, &mut draw, number)?,
        };
        assert!(rt; same, "step {number}");
        assert!(rt;
            same_state(&mut rig, &mut plain, &mut draw) && same_within(&rig, &plain, block),
            "after step {number}"
        );
        if draw.below(8) == 0 {
            rig.turn_on();
            plain.on = true;
        }
    }
    Ok(())
}
