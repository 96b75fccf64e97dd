//! Commits and checkpoints: what they write, and which checkpoint counts after one that is cut.

ghost use Rattle.std.specs.Prelude.{◌≡◌, ◌<◌, true, IfOk, OnOk};
ghost use Rattle.cache_model.specs.Loading.{is_whole};
ghost use Rattle.mem_rig.specs.Rig.{state_of};
ghost use Rattle.op_log.specs.Log.{FitsOn};
ghost use Rattle.checkpoint.specs.Current.{IsCurrent, AreWhole, IsOpenLog, IsCommitted};

use crate::flash::{Stuck, assert_none, fit, fits_on, geometry, program_next};
use crate::pages::{Counted, is_counted};
use checkpoint::{Checkpoints, Newest, format, newest};
use ft_base::{Geometry, Outcome, Place, Record, Spare, zero_block};
use ft_media::{Counts, Media, MediaError, PageRead, Rig};
use mapping::Map;
use mem_rig::MemRig;
use op_log::OpLog;
use std::alloc::Global;
use std::process::Abort;

// ---- the parts of a cache on their flash

/// The parts of a cache that are committed together.
#[derive(Drop)]
struct Cache {
    geometry: Geometry,
    map: Map,
    log: OpLog,
    checkpoints: Checkpoints,
}

/// An empty cache, in region 0 and of era 0.
fn begin<M: Media>(media: &mut M, alloc: Global, geometry: &Geometry) -> Result<Cache, Stuck>
    requires shape { FitsOn geometry.now (M.state media.old).contents.shape }
    ensures shape { IfOk result (λ c. FitsOn c.log.geometry (M.state media.new).contents.shape) }
    ensures geometry { IfOk result (λ c. c.geometry ≡ c.log.geometry) }
    ensures map { IfOk result (λ c. c.map.geometry ≡ c.log.geometry) }
    ensures checkpoints { IfOk result (λ c. c.checkpoints ≡ c.log.geometry) }
    ensures committed { IfOk result (λ c. IsCommitted (M.state media.new).contents.flash c.log c.map.entries) }
    ensures whole { IfOk result (λ c. AreWhole (M.state media.new).contents.flash.page c.map.entries) }
{
    format(media, geometry)?;
    let map = Map::new(alloc, geometry)?;
    let log = OpLog::new(alloc, geometry, 0, 0)?;
    let checkpoints = Checkpoints::new(alloc, geometry)?;
    Ok(Cache {
        geometry: *geometry,
        map,
        log,
        checkpoints,
    })
}

/// Whether a page is whole.
fn is_held<M: Media>(media: &mut M, at: Place) -> Result<bool, MediaError>
    requires block { at.block < (M.state media.old).contents.shape.blocks }
    requires page { at.page < (M.state media.old).contents.shape.pages }
    ensures held { IfOk result (λ held. held ≡ is_whole ((M.state media.old).contents.flash.page at)) }
    ensures contents { (M.state media.new).contents ≡ (M.state media.old).contents }
{
    let mut block = zero_block();
    let mut spare = Spare([0; 32]);
    let found = media.read_page(at, &mut block, &mut spare)?;
    Ok(found == PageRead::Whole)
}

/// Says in the map that the first pool page has the block of an address, and buffers the change.
#[tactic(auto, using(ft_base::proofs::LayoutLemmas::q_some))]
fn hold<M: Media>(media: &mut M, cache: &mut Cache, lba: u64) -> Result<(), Stuck>
    requires shape { FitsOn cache.old.log.geometry (M.state media.old).contents.shape }
    requires geometry { cache.old.geometry ≡ cache.old.log.geometry }
    requires map { cache.old.map.geometry ≡ cache.old.log.geometry }
    requires checkpoints { cache.old.checkpoints ≡ cache.old.log.geometry }
    requires committed { IsCommitted (M.state media.old).contents.flash cache.old.log cache.old.map.entries }
    requires whole { AreWhole (M.state media.old).contents.flash.page cache.old.map.entries }
    ensures shape { FitsOn cache.new.log.geometry (M.state media.new).contents.shape }
    ensures geometry { cache.new.geometry ≡ cache.new.log.geometry }
    ensures map { cache.new.map.geometry ≡ cache.new.log.geometry }
    ensures checkpoints { cache.new.checkpoints ≡ cache.new.log.geometry }
    ensures current { OnOk result (IsCurrent (M.state media.new).contents.flash.page cache.new.log cache.new.map.entries
        × IsOpenLog (M.state media.new).contents.flash cache.new.log) }
    ensures whole { OnOk result (AreWhole (M.state media.new).contents.flash.page cache.new.map.entries) }
{
    let at = Place { block: 4, page: 0 };
    if !is_held(media, at)? {
        return Err(Stuck);
    }
    let change = Record::SetPage {
        lba,
        place: at,
        dirty: true,
    };
    if !cache.map.fits(&change) {
        return Err(Stuck);
    }
    cache.map.reserve(1, 0)?;
    cache.map.apply(&change);
    cache.log.push(change);
    Ok(())
}

/// Commits that the first pool page has the block of an address.
fn put<M: Media>(media: &mut M, cache: &mut Cache, lba: u64) -> Result<(), Stuck>
    requires shape { FitsOn cache.old.log.geometry (M.state media.old).contents.shape }
    requires geometry { cache.old.geometry ≡ cache.old.log.geometry }
    requires map { cache.old.map.geometry ≡ cache.old.log.geometry }
    requires checkpoints { cache.old.checkpoints ≡ cache.old.log.geometry }
    requires committed { IsCommitted (M.state media.old).contents.flash cache.old.log cache.old.map.entries }
    requires whole { AreWhole (M.state media.old).contents.flash.page cache.old.map.entries }
    ensures shape { FitsOn cache.new.log.geometry (M.state media.new).contents.shape }
    ensures geometry { cache.new.geometry ≡ cache.new.log.geometry }
    ensures map { cache.new.map.geometry ≡ cache.new.log.geometry }
    ensures checkpoints { cache.new.checkpoints ≡ cache.new.log.geometry }
    ensures committed { OnOk result (IsCommitted (M.state media.new).contents.flash cache.new.log cache.new.map.entries) }
    ensures whole { OnOk result (AreWhole (M.state media.new).contents.flash.page cache.new.map.entries) }
{
    hold(media, cache, lba)?;
    cache.checkpoints.commit(media, &cache.map, &mut cache.log)?;
    Ok(())
}

// ---- facts that are seen

/// The facts that were seen of a cache.
#[derive(Clone, Copy)]
struct Seen {
    /// Whether power was lost.
    lost: bool,
    /// How many blocks were erased, and how many pages programmed.
    wrote: (u64, u64),
    /// How many pages the log has left.
    room: u32,
    newest: Option<Newest>,
}

/// The writes since `before`, and the facts that can be seen now.
fn look<R: Rig>(rig: &mut R, cache: &Cache, before: Counts, lost: bool) -> Result<Seen, MediaError>
    requires shape { FitsOn cache.now.log.geometry (R.state rig.old).contents.shape }
    requires geometry { cache.now.geometry ≡ cache.now.log.geometry }
{
    let done = rig.counts();
    Ok(Seen {
        lost,
        wrote: (
            done.erases.wrapping_sub(before.erases),
            done.programs.wrapping_sub(before.programs),
        ),
        room: cache.log.room(),
        newest: newest(rig, &cache.geometry)?,
    })
}

/// Puts the block of an address `count` times, and commits each time.
fn put_often<R: Rig>(rig: &mut R, cache: &mut Cache, count: u32) -> Result<Seen, Stuck>
    requires shape { FitsOn cache.old.log.geometry (R.state rig.old).contents.shape }
    requires geometry { cache.old.geometry ≡ cache.old.log.geometry }
    requires map { cache.old.map.geometry ≡ cache.old.log.geometry }
    requires checkpoints { cache.old.checkpoints ≡ cache.old.log.geometry }
    requires committed { IsCommitted (R.state rig.old).contents.flash cache.old.log cache.old.map.entries }
    requires whole { AreWhole (R.state rig.old).contents.flash.page cache.old.map.entries }
{
    let before = rig.counts();
    'puts: for _ in 0..count {
        put(rig, cache, 5)?;
    }
    Ok(look(rig, cache, before, false)?)
}

/// Makes a checkpoint with a stop armed. Answers what it wrote, and which checkpoint counts after it.
fn stopped_checkpoint<R: Rig>(
    rig: &mut R,
    cache: &mut Cache,
    after: u64,
    outcome: Outcome,
) -> Result<Seen, Stuck>
    requires shape { FitsOn cache.old.log.geometry (R.state rig.old).contents.shape }
    requires geometry { cache.old.geometry ≡ cache.old.log.geometry }
    requires map { cache.old.map.geometry ≡ cache.old.log.geometry }
    requires checkpoints { cache.old.checkpoints ≡ cache.old.log.geometry }
    requires current { IsCurrent (R.state rig.old).contents.flash.page cache.old.log cache.old.map.entries }
    requires whole { AreWhole (R.state rig.old).contents.flash.page cache.old.map.entries }
{
    if after == 0 || rig.armed() >= 16 {
        return Err(Stuck);
    }
    let before = rig.counts();
    rig.arm(after, outcome);
    let answer = cache
        .checkpoints
        .checkpoint(rig, &cache.map, &mut cache.log);
    rig.power_on();
    let lost = answer == Err(MediaError::PowerLost);
    Ok(look(rig, cache, before, lost)?)
}

// ---- the examples

/// An action on an empty cache.
#[derive(Clone, Copy)]
enum Act {
    /// The block of an address is put this often, and committed each time.
    Put(u32),
    /// A checkpoint is made, in which this device write is cut with this outcome.
    Cut(u64, Outcome),
    /// The same, while an address is held, and its change is buffered.
    HoldAndCut(u64, Outcome),
}

/// An action on an empty cache, and the facts that are then seen.
#[derive(Clone, Copy)]
struct Example {
    act: Act,
    /// Whether power is lost.
    lost: bool,
    /// How many blocks are erased, and how many pages programmed.
    wrote: (u64, u64),
    /// How many pages the log has left, if the example says so.
    room: Option<u32>,
    /// The checkpoint that then counts.
    counts: Counted,
}

fn carry_out<R: Rig>(rig: &mut R, cache: &mut Cache, act: Act) -> Result<Seen, Stuck>
    requires shape { FitsOn cache.old.log.geometry (R.state rig.old).contents.shape }
    requires geometry { cache.old.geometry ≡ cache.old.log.geometry }
    requires map { cache.old.map.geometry ≡ cache.old.log.geometry }
    requires checkpoints { cache.old.checkpoints ≡ cache.old.log.geometry }
    requires committed { IsCommitted (R.state rig.old).contents.flash cache.old.log cache.old.map.entries }
    requires whole { AreWhole (R.state rig.old).contents.flash.page cache.old.map.entries }
{
    match act {
        Act::Put(count) => put_often(rig, cache, count),
        Act::Cut(after, outcome) => stopped_checkpoint(rig, cache, after, outcome),
        Act::HoldAndCut(after, outcome) => {
            hold(rig, cache, 5)?;
            stopped_checkpoint(rig, cache, after, outcome)
        }
    }
}

/// Makes an empty cache, and does this action with it.
fn act_anew(
    alloc: Global,
    rig: &mut MemRig,
    geometry: &Geometry,
    wanted: Act,
) -> Result<Seen, Stuck>
    requires { FitsOn geometry.now (state_of rig.old).contents.shape }
{
    let mut cache = begin(rig, alloc, geometry)?;
    carry_out(rig, &mut cache, wanted)
}

/// The same over media of its own, whose first pool page is whole.
fn seen_of(alloc: Global, geometry: &Geometry, wanted: Act) -> Result<Seen, Stuck> {
    let mut rig = MemRig::new(alloc);
    fit(&mut rig, alloc, geometry)?;
    if !program_next(&mut rig, 4, &zero_block()) || !fits_on(&rig, geometry) {
        return Err(Stuck);
    }
    act_anew(alloc, &mut rig, geometry, wanted)
}

fn is_as_told(example: &Example, seen: Seen) -> bool {
    let room = match example.room {
        Some(pages) => pages == seen.room,
        None => true,
    };
    room && example.lost == seen.lost
        && example.wrote == seen.wrote
        && is_counted(seen.newest, example.counts)
}

/// Goes through the examples. Answers the first that differs.
fn first_other(alloc: Global, examples: &[Example]) -> Option<usize> {
    let Some(geometry) = geometry() else {
        return Some(0);
    };
    for i in 0..examples.len() {
        match seen_of(alloc, &geometry, examples[i].act) {
            Ok(seen) if is_as_told(&examples[i], seen) => {}
            _ => return Some(i),
        }
    }
    None
}

/// Goes through the examples, all of which must hold.
fn assert_all(rt: &(impl Abort + AllocGlobal), examples: &[Example]) {
    assert_none(rt, first_other(rt.alloc(), examples));
}

const FULL: [Example; 2] = [
    Example {
        act: Act::Put(4),
        lost: false,
        wrote: (0, 4),
        room: Some(0),
        counts: Some((0, 0, 0)),
    },
    // The fifth commit erases two blocks and programs two pages more.
    Example {
        act: Act::Put(5),
        lost: false,
        wrote: (2, 6),
        room: Some(4),
        counts: Some((1, 1, 1)),
    },
];

#[test]
fn a_full_log_gives_way_to_a_checkpoint(rt: HostRuntime) {
    assert_all(&rt, &FULL);
}

const OF_NOTHING: [Example; 2] = [
    // Two erases, and then the seal of an empty map.
    Example {
        act: Act::Cut(3, Outcome::Torn),
        lost: true,
        wrote: (2, 0),
        room: None,
        counts: Some((0, 0, 0)),
    },
    Example {
        act: Act::Cut(3, Outcome::Whole),
        lost: true,
        wrote: (2, 0),
        room: None,
        counts: Some((1, 1, 0)),
    },
];

#[test]
fn a_cut_seal_counts_where_it_is_whole(rt: HostRuntime) {
    assert_all(&rt, &OF_NOTHING);
}

const OF_ONE: [Example; 6] = [
    // A checkpoint block is erased, then a log block; one map page is programmed, and then the seal.
    Example {
        act: Act::HoldAndCut(1, Outcome::Torn),
        lost: true,
        wrote: (0, 0),
        room: None,
        counts: Some((0, 0, 0)),
    },
    Example {
        act: Act::HoldAndCut(2, Outcome::Torn),
        lost: true,
        wrote: (1, 0),
        room: None,
        counts: Some((0, 0, 0)),
    },
    Example {
        act: Act::HoldAndCut(3, Outcome::Torn),
        lost: true,
        wrote: (2, 0),
        room: None,
        counts: Some((0, 0, 0)),
    },
    Example {
        act: Act::HoldAndCut(4, Outcome::Torn),
        lost: true,
        wrote: (2, 1),
        room: None,
        counts: Some((0, 0, 0)),
    },
    // The seal is whole.
    Example {
        act: Act::HoldAndCut(4, Outcome::Whole),
        lost: true,
        wrote: (2, 1),
        room: None,
        counts: Some((1, 1, 1)),
    },
    // There is no fifth device write.
    Example {
        act: Act::HoldAndCut(5, Outcome::Torn),
        lost: false,
        wrote: (2, 2),
        room: None,
        counts: Some((1, 1, 1)),
    },
];

#[test]
fn a_checkpoint_counts_with_its_seal(rt: HostRuntime) {
    assert_all(&rt, &OF_ONE);
}
