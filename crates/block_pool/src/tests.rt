//! Worked examples of a pool over flash in memory: roles, wear that is spread, and erases that fail or are cut.
ghost use Rattle.std.specs.Prelude.{◌<◌, IfSome};
ghost use Rattle.std.specs.Bool.{OnTrue};
ghost use Rattle.ft_media.specs.Media.{IsNextPage};
ghost use Rattle.mem_rig.specs.Rig.{state_of};
ghost use Rattle.block_pool.specs.Pool.{IsFree};

use crate::{Pool, Role, plain};
use ft_base::{Geometry, Outcome, Place, Spare, zero_block};
use ft_media::MediaError;
use mem_rig::MemRig;
use std::alloc::{AllocError, Global};
use std::test::Fail;

/// A fact that can be seen of a pool and of its flash.
#[derive(Clone, Copy)]
enum Fact {
    /// The role of a block of the pool, and the count of its erases. `None` for any other block.
    Known(u32, Option<(Role, u64)>),
    /// Whether a block is free.
    Free(u32, bool),
    /// Whether a block is the next one that is taken.
    NextTaken(u32, bool),
    /// The page of an erase block that is ready to be programmed.
    NextPage(u32, Option<u32>),
    /// How many erases the flash counted.
    Erases(u64),
    /// How often the flash failed.
    Failures(u64),
}

/// A line of an example.
#[derive(Clone, Copy)]
enum Line {
    /// A block is taken, with this answer. `None` if no block is free.
    Take(Option<Result<u32, MediaError>>),
    /// A block is taken, and used for data.
    TakeForData(Option<u32>),
    /// A block of the pool has this role from now on.
    SetRole(u32, Role),
    /// The first page of an erase block is programmed.
    Program(u32),
    /// A stop is armed, that cuts the next device write.
    Arm,
    /// Power is turned on.
    TurnOn,
    /// The fact that is seen then.
    See(Fact),
}

/// A rig of 9 erase blocks of 4 pages, in which these calls of the flash will fail.
fn rig_failing(alloc: Global, calls: &[u64]) -> Result<MemRig, AllocError> {
    let mut rig = MemRig::failing(alloc, calls.to_vec(alloc)?, Vec::new(alloc));
    rig.fit_anew(alloc, 9, 4, 64)?;
    Ok(rig)
}

/// The free block with the lowest number.
fn first_free(pool: &Pool) -> Option<u32>
    ensures { IfSome result (IsFree pool.now) }
{
    for block in 0..pool.geometry.blocks() {
        if plain::is_free(pool, block) {
            return Some(block);
        }
    }
    None
}

/// Takes a block, if one is free and the rig has the erase blocks of the pool.
fn take(pool: &mut Pool, rig: &mut MemRig) -> Option<Result<u32, MediaError>> {
    if rig.flash_blocks() < pool.geometry.blocks() {
        return None;
    }
    let _free = first_free(pool)?;
    Some(pool.take(rig))
}

/// Takes a block, and uses it for data.
fn take_for_data(pool: &mut Pool, rig: &mut MemRig) -> Option<u32> {
    let block = take(pool, rig)?.ok()?;
    set_role(pool, block, Role::Data);
    Some(block)
}

/// Sets the role of a block of the pool.
fn set_role(pool: &mut Pool, block: u32, role: Role) {
    if plain::is_in_pool(&pool.geometry, block) {
        pool.set_role(block, role);
    }
}

/// The role of a block of the pool, and the count of its erases.
fn known_of(pool: &Pool, block: u32) -> Option<(Role, u64)> {
    if !plain::is_in_pool(&pool.geometry, block) {
        return None;
    }
    Some((pool.role(block), pool.erases(block)))
}

/// The page of an erase block that is ready to be programmed.
fn next_page(rig: &MemRig, block: u32) -> Option<u32> {
    if block >= rig.flash_blocks() {
        return None;
    }
    rig.next_page(block)
}

/// Whether the page is the next one of an erase block that is ready.
fn is_ready(rig: &MemRig, at: Place) -> bool
    ensures next { OnTrue result (IsNextPage at (state_of rig.now).contents.flash) }
    ensures page { OnTrue result (at.page < (state_of rig.now).contents.shape.pages) }
{
    if at.block >= rig.flash_blocks() || at.page >= rig.flash_pages() {
        return false;
    }
    match rig.next_page(at.block) {
        Some(next) => next == at.page,
        None => false,
    }
}

/// Programs the first page of an erase block, if that is its next page.
fn program_first(rig: &mut MemRig, block: u32) {
    let at = Place { block, page: 0 };
    if is_ready(rig, at) {
        rig.program_page(at, &zero_block(), &Spare([0; 32]));
    }
}

/// Arms a stop that cuts the next device write.
fn arm(rig: &mut MemRig) {
    if rig.stops() < 16 {
        rig.arm_stop(1, Outcome::Torn);
    }
}

fn holds(pool: &Pool, rig: &MemRig, fact: Fact) -> bool {
    match fact {
        Fact::Known(block, known) => known_of(pool, block) == known,
        Fact::Free(block, is) => plain::is_free(pool, block) == is,
        Fact::NextTaken(block, is) => plain::is_next_taken(pool, block) == is,
        Fact::NextPage(block, page) => next_page(rig, block) == page,
        Fact::Erases(count) => rig.done().erases == count,
        Fact::Failures(count) => rig.flash_faults() == count,
    }
}

/// Does what the line says, and answers whether its facts hold.
fn is_so(pool: &mut Pool, rig: &mut MemRig, line: Line) -> bool {
    match line {
        Line::Take(answer) => return take(pool, rig) == answer,
        Line::TakeForData(block) => return take_for_data(pool, rig) == block,
        Line::See(fact) => return holds(pool, rig, fact),
        Line::SetRole(block, role) => set_role(pool, block, role),
        Line::Program(block) => program_first(rig, block),
        Line::Arm => arm(rig),
        Line::TurnOn => rig.turn_on(),
    }
    true
}

/// Goes through the lines, with a new pool on flash in which these calls will fail. Answers the first line whose facts
/// don't hold.
fn first_wrong(alloc: Global, failing: &[u64], lines: &[Line]) -> Result<Option<usize>, Fail> {
    // The pool of this geometry has the erase blocks 4 to 8.
    let geometry = Geometry::new(4, 2, 2, 1, 64)?;
    let mut rig = rig_failing(alloc, failing)?;
    let mut pool = Pool::new(alloc, &geometry)?;
    for i in 0..lines.len() {
        if !is_so(&mut pool, &mut rig, lines[i]) {
            return Ok(Some(i));
        }
    }
    Ok(None)
}

const NEW: [Line; 7] = [
    // A block of a log region.
    Line::See(Fact::Known(3, None)),
    Line::See(Fact::Known(4, Some((Role::Free, 0)))),
    Line::See(Fact::Known(5, Some((Role::Free, 0)))),
    Line::See(Fact::Known(6, Some((Role::Free, 0)))),
    Line::See(Fact::Known(7, Some((Role::Free, 0)))),
    Line::See(Fact::Known(8, Some((Role::Free, 0)))),
    // Past the last block.
    Line::See(Fact::Known(9, None)),
];

#[test]
fn a_new_pool_is_free(rt: HostRuntime) -> Result<(), Fail> {
    assert_eq!(rt; first_wrong(rt.alloc(), &[], &NEW)?, None);
    Ok(())
}

const ROLES: [Line; 9] = [
    Line::SetRole(5, Role::Log),
    Line::SetRole(8, Role::Data),
    Line::See(Fact::Known(4, Some((Role::Free, 0)))),
    Line::See(Fact::Known(5, Some((Role::Log, 0)))),
    Line::See(Fact::Known(6, Some((Role::Free, 0)))),
    Line::See(Fact::Known(8, Some((Role::Data, 0)))),
    Line::See(Fact::Free(4, true)),
    Line::See(Fact::Free(5, false)),
    // It is not a block of the pool.
    Line::See(Fact::Free(3, false)),
];

#[test]
fn a_role_is_of_one_block(rt: HostRuntime) -> Result<(), Fail> {
    assert_eq!(rt; first_wrong(rt.alloc(), &[], &ROLES)?, None);
    Ok(())
}

const ERASED: [Line; 7] = [
    Line::Program(4),
    Line::See(Fact::NextPage(4, Some(1))),
    Line::Take(Some(Ok(4))),
    Line::See(Fact::NextPage(4, Some(0))),
    Line::See(Fact::Erases(1)),
    // It stays free until its role is set.
    Line::See(Fact::Known(4, Some((Role::Free, 1)))),
    // The other block has more erases.
    Line::Take(Some(Ok(5))),
];

#[test]
fn a_block_is_erased_when_it_is_taken(rt: HostRuntime) -> Result<(), Fail> {
    assert_eq!(rt; first_wrong(rt.alloc(), &[], &ERASED)?, None);
    Ok(())
}

const WEAR: [Line; 26] = [
    Line::See(Fact::NextTaken(4, true)),
    Line::TakeForData(Some(4)),
    Line::See(Fact::NextTaken(5, true)),
    Line::TakeForData(Some(5)),
    Line::See(Fact::NextTaken(6, true)),
    Line::TakeForData(Some(6)),
    Line::See(Fact::NextTaken(7, true)),
    Line::TakeForData(Some(7)),
    Line::See(Fact::NextTaken(8, true)),
    Line::TakeForData(Some(8)),
    // No block is free.
    Line::Take(None),
    Line::SetRole(6, Role::Free),
    // The only one.
    Line::TakeForData(Some(6)),
    Line::SetRole(6, Role::Free),
    Line::SetRole(8, Role::Free),
    Line::SetRole(7, Role::Free),
    Line::See(Fact::Known(6, Some((Role::Free, 2)))),
    Line::See(Fact::Known(8, Some((Role::Free, 1)))),
    // Used for data.
    Line::See(Fact::NextTaken(4, false)),
    // It has more erases.
    Line::See(Fact::NextTaken(6, false)),
    Line::See(Fact::NextTaken(7, true)),
    // It has equally many erases, and a higher number.
    Line::See(Fact::NextTaken(8, false)),
    Line::TakeForData(Some(7)),
    Line::TakeForData(Some(8)),
    Line::TakeForData(Some(6)),
    Line::See(Fact::Erases(9)),
];

#[test]
fn wear_is_spread_over_the_free_blocks(rt: HostRuntime) -> Result<(), Fail> {
    assert_eq!(rt; first_wrong(rt.alloc(), &[], &WEAR)?, None);
    Ok(())
}

const FAILED: [Line; 6] = [
    Line::Take(Some(Err(MediaError::Failed))),
    Line::See(Fact::Failures(1)),
    // Not ready.
    Line::See(Fact::NextPage(4, None)),
    Line::See(Fact::NextPage(5, Some(0))),
    Line::See(Fact::Known(4, Some((Role::Free, 0)))),
    Line::Take(Some(Ok(4))),
];

#[test]
fn a_failed_erase_leaves_the_pool(rt: HostRuntime) -> Result<(), Fail> {
    assert_eq!(rt; first_wrong(rt.alloc(), &[1], &FAILED)?, None);
    Ok(())
}

const CUT: [Line; 5] = [
    Line::Arm,
    Line::Take(Some(Err(MediaError::PowerLost))),
    Line::See(Fact::Known(4, Some((Role::Free, 0)))),
    Line::TurnOn,
    Line::Take(Some(Ok(4))),
];

#[test]
fn an_erase_that_is_cut_leaves_the_pool(rt: HostRuntime) -> Result<(), Fail> {
    assert_eq!(rt; first_wrong(rt.alloc(), &[], &CUT)?, None);
    Ok(())
}
