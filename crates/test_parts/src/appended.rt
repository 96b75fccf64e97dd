//! Log blocks over flash in memory: begun, adopted, filled and released, and after a program that failed.
ghost use Rattle.std.specs.Prelude.{◌≡◌, ◌<◌, ◌≤◌, length, IfSome};
ghost use Rattle.std.specs.Bool.{OnTrue};
ghost use Rattle.ft_media.specs.Media.{IsNextPage};
ghost use Rattle.mem_rig.specs.Rig.{state_of};
ghost use Rattle.log_blocks.specs.Logs.{IsInUse, is_in, append_place};

use ft_base::{Geometry, Place, Spare, zero_block};
use ft_media::{MediaError, PageRead};
use log_blocks::{LogBlocks, plain};
use mem_rig::MemRig;
use std::alloc::{AllocError, Global};
use std::test::Fail;

/// The spare bytes of a data page of address 5.
const DATA_PAGE: [u8; 32] = *b"FTSP\x01\0\0\0\0\0\0\0\0\0\0\x05\0\0\0\0\0\0\0\0\0\0\0\0\0\0\0\0";

/// The block and the page of a place.
type At = (u32, u32);

/// A fact that can be seen of the log blocks and of their flash.
#[derive(Clone, Copy)]
enum Fact {
    /// The block that was taken first, how many are in use, and how many pages the open one has left.
    Blocks {
        oldest: Option<u32>,
        used: u32,
        room: u32,
    },
    /// The pages that the open block has left.
    Room(u32),
    /// The block of a number, in the order in which they were taken.
    Nth(u32, u32),
    /// A data page of address 5 stands there, and begins with this byte.
    DataPage(At, u8),
    /// Whether a whole page is there.
    Whole(At, bool),
    /// How many programs the flash counted.
    Programs(u64),
}

/// A line of an example.
#[derive(Clone, Copy)]
enum Line {
    /// A block is begun, or may not be.
    Begin(u32, bool),
    /// A block is adopted, or may not be.
    Adopt(u32, bool),
    /// A block is released, or isn't there.
    Release(u32, bool),
    /// A page of address 5 that begins with this byte is appended, with this answer. `None` if no block is ready for
    /// it.
    Append(u8, Option<Result<At, MediaError>>),
    /// The fact that is seen then.
    See(Fact),
}

/// A rig of 11 erase blocks of 4 pages, each ready, in which these calls of the flash fail.
fn rig_failing(alloc: Global, failing: &[u64]) -> Result<MemRig, AllocError> {
    let mut rig = MemRig::failing(alloc, failing.to_vec(alloc)?, Vec::new(alloc));
    rig.fit_anew(alloc, 11, 4, 64)?;
    Ok(rig)
}

/// Whether the block is in the list.
fn is_in_use(logs: &LogBlocks, block: u32) -> bool
    ensures { result ≡ is_in block logs.now.used }
{
    for i in 0..logs.used() {
        if logs.nth(i) == block {
            return true;
        }
    }
    false
}

/// Whether the block may be put at the end.
fn is_welcome(logs: &LogBlocks, geometry: &Geometry, block: u32) -> bool
    requires { logs.now.geometry ≡ geometry.now }
    ensures fresh { OnTrue result (¬ IsInUse logs.now block) }
    ensures few { OnTrue result (length logs.now.used < logs.now.geometry.l) }
{
    !is_in_use(logs, block) && logs.used() < geometry.l
}

/// Begins the block, if it may be put at the end.
fn begin(logs: &mut LogBlocks, geometry: &Geometry, block: u32) -> bool
    requires { logs.old.geometry ≡ geometry.now }
    ensures { logs.new.geometry ≡ logs.old.geometry }
{
    if !is_welcome(logs, geometry, block) {
        return false;
    }
    logs.begin(block);
    true
}

/// Adopts the block, if it may be put at the end.
fn adopt(logs: &mut LogBlocks, geometry: &Geometry, block: u32) -> bool
    requires { logs.old.geometry ≡ geometry.now }
    ensures { logs.new.geometry ≡ logs.old.geometry }
{
    if !is_welcome(logs, geometry, block) {
        return false;
    }
    logs.adopt(block);
    true
}

/// Releases the block, if it is in the list.
fn release(logs: &mut LogBlocks, block: u32) -> bool
    ensures { logs.new.geometry ≡ logs.old.geometry }
{
    if !is_in_use(logs, block) {
        return false;
    }
    logs.release(block);
    true
}

/// The page of the open block to program next, if there is one.
fn append_place(logs: &LogBlocks, geometry: &Geometry) -> Option<Place>
    requires { logs.now.geometry ≡ geometry.now }
    ensures place { IfSome result (λ at. at ≡ append_place logs.now) }
    ensures room { IfSome result (λ at. 1 ≤ logs.now.room) }
{
    let room = logs.room();
    let used = logs.used();
    if room == 0 || used == 0 {
        return None;
    }
    Some(Place {
        block: logs.nth(used - 1),
        page: geometry.p - room,
    })
}

/// Whether the page is the next one of an erase block that is ready.
fn is_ready(rig: &MemRig, at: Place) -> bool
    ensures { OnTrue result (IsNextPage at (state_of rig.now).contents.flash) }
{
    if at.block >= rig.flash_blocks() {
        return false;
    }
    match rig.next_page(at.block) {
        Some(next) => next == at.page,
        None => false,
    }
}

/// Appends a page of address 5 with this first byte, if the open block is ready and has a page left.
fn append(
    rig: &mut MemRig,
    logs: &mut LogBlocks,
    geometry: &Geometry,
    byte: u8,
) -> Option<Result<At, MediaError>>
    requires { logs.old.geometry ≡ geometry.now }
    ensures { logs.new.geometry ≡ logs.old.geometry }
{
    if rig.flash_pages() != geometry.p {
        return None;
    }
    let at = append_place(logs, geometry)?;
    if !is_ready(rig, at) {
        return None;
    }
    let mut block = zero_block();
    block.0[0] = byte;
    match logs.append(rig, 5, &block) {
        Ok(at) => Some(Ok((at.block, at.page))),
        Err(refusal) => Some(Err(refusal)),
    }
}

/// The first byte of a page and its spare bytes, if the page is whole.
fn read(rig: &mut MemRig, at: At) -> Option<(u8, Spare)> {
    let (block, page) = at;
    if block >= rig.flash_blocks() || page >= rig.flash_pages() {
        return None;
    }
    let mut bytes = zero_block();
    let mut spare = Spare([0; 32]);
    match rig.read_flash(Place { block, page }, &mut bytes, &mut spare) {
        Ok(PageRead::Whole) => Some((bytes.0[0], spare)),
        _ => None,
    }
}

/// Whether a data page of address 5 stands there, and begins with this byte.
fn is_data_page(rig: &mut MemRig, at: At, first: u8) -> bool {
    match read(rig, at) {
        Some((byte, spare)) => byte == first && spare.0 == DATA_PAGE,
        None => false,
    }
}

fn holds(rig: &mut MemRig, logs: &LogBlocks, fact: Fact) -> bool {
    match fact {
        Fact::Blocks { oldest, used, room } => {
            logs.oldest() == oldest && logs.used() == used && logs.room() == room
        }
        Fact::Room(room) => logs.room() == room,
        Fact::Nth(i, block) => i < logs.used() && logs.nth(i) == block,
        Fact::DataPage(at, first) => is_data_page(rig, at, first),
        Fact::Whole(at, is) => read(rig, at).is_some() == is,
        Fact::Programs(count) => rig.done().programs == count,
    }
}

/// Does what the line says. Answers whether the facts of the line hold.
fn is_so(rig: &mut MemRig, logs: &mut LogBlocks, geometry: &Geometry, line: Line) -> bool
    requires { logs.old.geometry ≡ geometry.now }
    ensures { logs.new.geometry ≡ logs.old.geometry }
{
    match line {
        Line::Begin(block, may) => begin(logs, geometry, block) == may,
        Line::Adopt(block, may) => adopt(logs, geometry, block) == may,
        Line::Release(block, is_there) => release(logs, block) == is_there,
        Line::Append(byte, answer) => append(rig, logs, geometry, byte) == answer,
        Line::See(fact) => holds(rig, logs, fact),
    }
}

/// Goes through the lines, beginning with no log block, on flash in which these calls will fail. Answers the first line
/// whose facts don't hold.
fn first_wrong(alloc: Global, failing: &[u64], lines: &[Line]) -> Result<Option<usize>, Fail> {
    let geometry = Geometry::new(4, 2, 4, 2, 64)?;
    let mut rig = rig_failing(alloc, failing)?;
    let mut logs = LogBlocks::new(alloc, &geometry)?;
    for i in 0..lines.len() {
        if !is_so(&mut rig, &mut logs, &geometry, lines[i]) {
            return Ok(Some(i));
        }
    }
    Ok(None)
}

const APPENDED: [Line; 18] = [
    Line::See(Fact::Blocks {
        oldest: None,
        used: 0,
        room: 0,
    }),
    Line::Begin(9, true),
    Line::See(Fact::Room(4)),
    Line::Append(1, Some(Ok((9, 0)))),
    Line::See(Fact::Room(3)),
    Line::See(Fact::DataPage((9, 0), 1)),
    Line::Append(2, Some(Ok((9, 1)))),
    Line::See(Fact::Room(2)),
    Line::See(Fact::DataPage((9, 1), 2)),
    Line::Append(3, Some(Ok((9, 2)))),
    Line::See(Fact::Room(1)),
    Line::See(Fact::DataPage((9, 2), 3)),
    Line::Append(4, Some(Ok((9, 3)))),
    Line::See(Fact::Room(0)),
    Line::See(Fact::DataPage((9, 3), 4)),
    Line::Append(5, None),
    Line::See(Fact::Blocks {
        oldest: Some(9),
        used: 1,
        room: 0,
    }),
    Line::See(Fact::Programs(4)),
];

#[test]
fn appended_pages_have_their_address_in_their_spare_bytes(rt: HostRuntime) -> Result<(), Fail> {
    assert_eq!(rt; first_wrong(rt.alloc(), &[], &APPENDED)?, None);
    Ok(())
}

const RELEASED: [Line; 18] = [
    Line::Begin(7, true),
    Line::Begin(8, true),
    Line::Begin(9, true),
    Line::Begin(10, true),
    // L blocks are in use.
    Line::Begin(6, false),
    // From the middle.
    Line::Release(8, true),
    Line::See(Fact::Blocks {
        oldest: Some(7),
        used: 3,
        room: 4,
    }),
    // From the front.
    Line::Release(7, true),
    Line::See(Fact::Blocks {
        oldest: Some(9),
        used: 2,
        room: 4,
    }),
    // The open one.
    Line::Release(10, true),
    Line::See(Fact::Blocks {
        oldest: Some(9),
        used: 1,
        room: 0,
    }),
    Line::Release(10, false),
    Line::Begin(8, true),
    Line::See(Fact::Blocks {
        oldest: Some(9),
        used: 2,
        room: 4,
    }),
    Line::See(Fact::Nth(1, 8)),
    Line::Adopt(7, true),
    Line::See(Fact::Blocks {
        oldest: Some(9),
        used: 3,
        room: 0,
    }),
    Line::See(Fact::Nth(2, 7)),
];

#[test]
fn released_blocks_leave_the_others_in_order(rt: HostRuntime) -> Result<(), Fail> {
    assert_eq!(rt; first_wrong(rt.alloc(), &[], &RELEASED)?, None);
    Ok(())
}

const FAILED: [Line; 9] = [
    Line::Begin(9, true),
    Line::Append(1, Some(Ok((9, 0)))),
    Line::Append(2, Some(Err(MediaError::Failed))),
    Line::See(Fact::Blocks {
        oldest: Some(9),
        used: 1,
        room: 3,
    }),
    Line::See(Fact::Whole((9, 0), true)),
    Line::See(Fact::Whole((9, 1), false)),
    // The block is not ready.
    Line::Append(2, None),
    Line::Release(9, true),
    Line::See(Fact::Blocks {
        oldest: None,
        used: 0,
        room: 0,
    }),
];

#[test]
fn a_failed_program_leaves_the_room(rt: HostRuntime) -> Result<(), Fail> {
    assert_eq!(rt; first_wrong(rt.alloc(), &[2], &FAILED)?, None);
    Ok(())
}

/// Whether a block is in a list, and these blocks are left without it.
fn is_without(
    alloc: Global,
    used: &[u32],
    block: u32,
    is_in: bool,
    left: &[u32],
) -> Result<bool, AllocError> {
    let without = plain::without(alloc, used, block)?;
    Ok(plain::is_in_use(used, block) == is_in && without.as_slice() == left)
}

#[test]
fn plain_programs_on_worked_lists(rt: HostRuntime) -> Result<(), Fail> {
    let used = [9, 7, 5];
    assert!(rt; is_without(rt.alloc(), &used, 7, true, &[9, 5])?);
    assert!(rt; is_without(rt.alloc(), &used, 6, false, &used)?);
    assert_eq!(rt; plain::last(&used), Some(5));
    Ok(())
}
