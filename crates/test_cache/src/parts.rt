//! The parts of a cache on a rig in memory: the steps that the tests make, and the facts that they see.

ghost use Rattle.std.specs.Prelude.{◌≡◌, ◌<◌, ◌≤◌, true, IfSome, length};
ghost use Rattle.std.specs.Bool.{OnTrue};
ghost use Rattle.ft_base.specs.Layout.{page_records};
ghost use Rattle.cache_model.specs.Records.{no_entries};
ghost use Rattle.mem_rig.specs.Rig.{state_of};
ghost use Rattle.op_log.specs.Log.{FitsOn};
ghost use Rattle.checkpoint.specs.Current.{IsCommitted, log_formatted};
ghost use Rattle.merge_engine.specs.Agreement.{PartsAgree, AreOfOne};

use crate::bench::{fit, fits_on, geometry};
use block_pool::{Role, plain};
use checkpoint::format;
use ft_base::{Block, Geometry, Place, Record, Spare, pattern, tag_of, zero_block};
use ft_media::{Counts, PageRead};
use mapping::Map;
use mem_rig::MemRig;
use merge_engine::{
    Parts, append, commit, free_log_block, loaded, make_checkpoint, merge_group, note_clean,
    put_out, put_page,
};
use page_oob::{SpareKind, read_spare};
use std::alloc::Global;

/// One step on a cache.
#[derive(Clone, Copy)]
pub(crate) enum Step {
    /// Appends the pattern of an address with a tag, and puts the address there, dirty or clean.
    Put(u64, u64, bool),
    /// Takes an address out.
    TakeOut(u64),
    /// Marks an address clean.
    MarkClean(u64),
    /// Puts all buffered changes on the flash.
    Commit,
    /// Makes a checkpoint.
    Checkpoint,
    /// Merges a group with a held address.
    Merge(u64),
    /// Frees the log block that was taken first.
    FreeOldest,
}

/// A fact that can be seen of a cache.
#[derive(Clone, Copy)]
pub(crate) enum Fact {
    /// The role of a block of the pool.
    Used(u32, Role),
    /// The data block of a group, the pages that are present in it, and the dirty ones.
    DataBlock {
        group: u64,
        block: u32,
        present: u128,
        dirty: u128,
    },
    /// The held pages of a group, and its dirty pages.
    Pages {
        group: u64,
        held: u128,
        dirty: u128,
    },
    /// An address lies at this page of a block, dirty.
    Lies(u64, u32, u32),
    /// The pattern of an address with a tag stands at this page of a block, as a data page of the address.
    Data(u32, u32, u64, u64),
    /// A filler page stands there, whose block is zero.
    Filler(u32, u32),
    /// No whole page is there.
    Blank(u32, u32),
    /// All of the first group lies in this block, in order, dirty, each page with the tag 1.
    FirstGroup(u32),
    /// How many log blocks are in use, and how many pages the open one has left.
    LogBlocks {
        used: u32,
        room: u32,
    },
    /// How many groups have a data block, and how many a dirty page.
    Groups {
        data_blocks: u32,
        dirty: u32,
    },
    /// How many changes wait for a log page.
    Buffered(u32),
}

/// A line of an example.
#[derive(Clone, Copy)]
pub(crate) enum Line {
    /// A step that is made.
    Do(Step),
    /// The fact that is seen then.
    See(Fact),
    /// From here on device writes are counted anew.
    Count,
    /// Since then this many blocks were erased, and this many pages programmed.
    Wrote(u64, u64),
}

// ---- the start

/// Formats the flash for an empty cache, on a rig that is fitted. The checkpoint that counts is of era 0, in region 0.
fn formatted(alloc: Global, rig: &mut MemRig, geometry: &Geometry) -> bool
    ensures shape { OnTrue result (FitsOn geometry.now (state_of rig.new).contents.shape) }
    ensures begins { OnTrue result (IsCommitted (state_of rig.new).contents.flash (log_formatted geometry.now) no_entries) }
{
    if !fit(alloc, rig, geometry) || !fits_on(rig, geometry) {
        return false;
    }
    format(rig, geometry).is_ok()
}

/// The parts of a cache over an empty map, on flash that was formatted.
fn parts_on(alloc: Global, rig: &MemRig, geometry: &Geometry, map: Map) -> Option<Parts>
    requires shape { FitsOn geometry.now (state_of rig.now).contents.shape }
    requires begins { IsCommitted (state_of rig.now).contents.flash (log_formatted geometry.now) no_entries }
    requires own { map.geometry ≡ geometry.now }
    requires entries { map.entries ≡ no_entries }
    ensures { IfSome result (λ parts. PartsAgree parts (state_of rig.now).contents) }
{
    match loaded(alloc, geometry, map, 0, 0) {
        Ok(parts) => Some(parts),
        Err(_) => None,
    }
}

/// The parts of an empty cache, with P = 4, C = 2 and L = 2. Its pool is the erase blocks 4 to 8.
fn begun(alloc: Global, rig: &mut MemRig) -> Option<Parts>
    ensures { IfSome result (λ parts. PartsAgree parts (state_of rig.new).contents) }
{
    let geometry = geometry();
    if !formatted(alloc, rig, &geometry) {
        return None;
    }
    match Map::new(alloc, &geometry) {
        Ok(map) => parts_on(alloc, rig, &geometry, map),
        Err(_) => None,
    }
}

/// Makes room in the map for one page and P groups.
fn reserve(parts: &mut Parts, rig: &MemRig) -> bool
    requires { PartsAgree parts.old (state_of rig.now).contents }
    ensures cache { parts.new ≡ record parts.old { map = parts.new.map } }
    ensures agree { PartsAgree parts.new (state_of rig.now).contents }
    ensures pages { OnTrue result (1 ≤ parts.new.map.spare_pages) }
    ensures groups { OnTrue result (parts.new.geometry.p ≤ parts.new.map.spare_groups) }
    ensures room { OnTrue result (length parts.new.log.buffered < page_records parts.new.log.geometry) }
{
    if parts.log.buffered() >= parts.geometry.q() {
        return false;
    }
    parts.map.reserve(1, parts.geometry.p).is_ok()
}

// ---- the steps, each made only if its conditions hold

/// Appends the pattern of an address, and puts the address there.
fn put(parts: &mut Parts, rig: &mut MemRig, lba: u64, tag: u64, dirty: bool) -> bool
    requires { PartsAgree parts.old (state_of rig.old).contents }
    ensures { OnTrue result (PartsAgree parts.new (state_of rig.new).contents) }
{
    if !reserve(parts, rig) {
        return false;
    }
    let mut block = zero_block();
    pattern(lba, tag, &mut block);
    let Ok(place) = append(parts, rig, lba, &block) else {
        return false;
    };
    if !parts.map.fits(&Record::SetPage { lba, place, dirty }) {
        return false;
    }
    put_page(parts, lba, place, dirty);
    true
}

/// Takes out an address that is held.
fn take_out(parts: &mut Parts, rig: &MemRig, lba: u64) -> bool
    requires { PartsAgree parts.old (state_of rig.now).contents }
    ensures { OnTrue result (PartsAgree parts.new (state_of rig.now).contents) }
{
    if !reserve(parts, rig) || !parts.map.fits(&Record::Remove { lba }) {
        return false;
    }
    put_out(parts, lba);
    true
}

/// Marks a dirty address clean.
fn mark_clean(parts: &mut Parts, rig: &MemRig, lba: u64) -> bool
    requires { PartsAgree parts.old (state_of rig.now).contents }
    ensures { OnTrue result (PartsAgree parts.new (state_of rig.now).contents) }
{
    if !reserve(parts, rig) || !parts.map.fits(&Record::Clean { lba }) {
        return false;
    }
    note_clean(parts, lba);
    true
}

/// Merges a group with a held address.
fn merge(parts: &mut Parts, rig: &mut MemRig, group: u64) -> bool
    requires { PartsAgree parts.old (state_of rig.old).contents }
    ensures { OnTrue result (PartsAgree parts.new (state_of rig.new).contents) }
{
    if !reserve(parts, rig) || parts.map.held_bits(group) == 0 {
        return false;
    }
    merge_group(parts, rig, group).is_ok()
}

/// Frees the log block that was taken first, if one is in use.
fn free_oldest(parts: &mut Parts, rig: &mut MemRig) -> bool
    requires { PartsAgree parts.old (state_of rig.old).contents }
    ensures { OnTrue result (PartsAgree parts.new (state_of rig.new).contents) }
{
    if !reserve(parts, rig) || parts.log_blocks.used() == 0 {
        return false;
    }
    free_log_block(parts, rig).is_ok()
}

/// Makes a step. False if its conditions don't hold, or it fails.
fn make(parts: &mut Parts, rig: &mut MemRig, step: &Step) -> bool
    requires { PartsAgree parts.old (state_of rig.old).contents }
    ensures { OnTrue result (PartsAgree parts.new (state_of rig.new).contents) }
{
    match *step {
        Step::Put(lba, tag, dirty) => put(parts, rig, lba, tag, dirty),
        Step::TakeOut(lba) => take_out(parts, rig, lba),
        Step::MarkClean(lba) => mark_clean(parts, rig, lba),
        Step::Commit => commit(parts, rig).is_ok(),
        Step::Checkpoint => make_checkpoint(parts, rig).is_ok(),
        Step::Merge(group) => merge(parts, rig, group),
        Step::FreeOldest => free_oldest(parts, rig),
    }
}

// ---- facts that are seen

/// Reads a page of the flash. `None` if there is no such page, or it can't be read.
fn read_page(
    rig: &mut MemRig,
    block: u32,
    page: u32,
    bytes: &mut Block,
    spare: &mut Spare,
) -> Option<PageRead>
    ensures { (state_of rig.new).contents ≡ (state_of rig.old).contents }
{
    if block >= rig.flash_blocks() || page >= rig.flash_pages() {
        return None;
    }
    rig.read_flash(Place { block, page }, bytes, spare).ok()
}

/// Whether there is such a page, and it isn't whole.
fn is_blank(rig: &mut MemRig, block: u32, page: u32) -> bool
    ensures { (state_of rig.new).contents ≡ (state_of rig.old).contents }
{
    let mut bytes = zero_block();
    let mut spare = Spare([0; 32]);
    match read_page(rig, block, page, &mut bytes, &mut spare) {
        Some(PageRead::Blank) => true,
        Some(PageRead::Torn) => true,
        _ => false,
    }
}

/// Whether a page of this kind stands there, with an address and the pattern of the address with a tag.
fn shows(rig: &mut MemRig, block: u32, page: u32, kind: SpareKind, lba: u64, tag: u64) -> bool
    ensures { (state_of rig.new).contents ≡ (state_of rig.old).contents }
{
    let mut bytes = zero_block();
    let mut spare = Spare([0; 32]);
    match read_page(rig, block, page, &mut bytes, &mut spare) {
        Some(PageRead::Whole) => is_shown(&bytes, &spare, kind, lba, tag),
        _ => false,
    }
}

fn is_shown(bytes: &Block, spare: &Spare, kind: SpareKind, lba: u64, tag: u64) -> bool {
    match read_spare(spare) {
        Some((found, _, at)) => found == kind && at == lba && tag_of(lba, bytes) == Some(tag),
        None => false,
    }
}

/// Whether an address lies at this page of a block, dirty.
fn lies(parts: &Parts, lba: u64, block: u32, page: u32) -> bool {
    match parts.map.place(lba) {
        Some((at, dirty)) => dirty && at.block == block && at.page == page,
        None => false,
    }
}

/// Whether this is the data block of a group, with these present and these dirty pages.
fn is_data_block(parts: &Parts, group: u64, block: u32, present: u128, dirty: u128) -> bool {
    match parts.map.block_of(group) {
        Some(own) => own.block() == block && own.present() == present && own.dirty() == dirty,
        None => false,
    }
}

/// Whether a block of the pool has this role.
fn is_used(parts: &Parts, block: u32, role: Role) -> bool
    requires { AreOfOne parts.now }
{
    plain::is_in_pool(&parts.geometry, block) && parts.pool.role(block) == role
}

/// Whether all of the first group lies in this block, in order, dirty, each page with the tag 1.
fn is_first_group_in(parts: &Parts, rig: &mut MemRig, block: u32) -> bool
    ensures { (state_of rig.new).contents ≡ (state_of rig.old).contents }
{
    for page in 0..4 {
        let lba = page as u64;
        if !lies(parts, lba, block, page) || !shows(rig, block, page, SpareKind::Page, lba, 1) {
            return false;
        }
    }
    is_data_block(parts, 0, block, 15, 15)
}

/// Whether a fact holds that the parts alone decide.
fn tells(parts: &Parts, fact: &Fact) -> bool
    requires { AreOfOne parts.now }
{
    match *fact {
        Fact::Used(block, role) => is_used(parts, block, role),
        Fact::DataBlock {
            group,
            block,
            present,
            dirty,
        } => is_data_block(parts, group, block, present, dirty),
        Fact::Pages { group, held, dirty } => {
            parts.map.held_bits(group) == held && parts.map.dirty_bits(group) == dirty
        }
        Fact::Lies(lba, block, page) => lies(parts, lba, block, page),
        Fact::LogBlocks { used, room } => parts.log_blocks.used() == used
            && parts.log_blocks.room() == room,
        Fact::Groups { data_blocks, dirty } => {
            parts.map.data_blocks() == data_blocks && parts.map.dirty_groups() == dirty
        }
        Fact::Buffered(count) => parts.log.buffered() == count,
        _ => false,
    }
}

/// Whether a fact holds.
fn has(parts: &Parts, rig: &mut MemRig, fact: &Fact) -> bool
    requires { AreOfOne parts.now }
    ensures { (state_of rig.new).contents ≡ (state_of rig.old).contents }
{
    match *fact {
        Fact::Data(block, page, lba, tag) => shows(rig, block, page, SpareKind::Page, lba, tag),
        Fact::Filler(block, page) => shows(rig, block, page, SpareKind::Filler, 0, 0),
        Fact::Blank(block, page) => is_blank(rig, block, page),
        Fact::FirstGroup(block) => is_first_group_in(parts, rig, block),
        _ => tells(parts, fact),
    }
}

// ---- examples

/// Whether this many blocks were erased, and this many pages programmed.
fn wrote(old: &Counts, new: &Counts, erases: u64, programs: u64) -> bool {
    new.erases == old.erases.wrapping_add(erases)
        && new.programs == old.programs.wrapping_add(programs)
}

/// Whether a line holds, with device writes counted from `counted` on.
fn is_so(parts: &mut Parts, rig: &mut MemRig, counted: &mut Counts, line: &Line) -> bool
    requires { PartsAgree parts.old (state_of rig.old).contents }
    ensures { OnTrue result (PartsAgree parts.new (state_of rig.new).contents) }
{
    match line {
        Line::Do(step) => make(parts, rig, step),
        Line::See(fact) => has(parts, rig, fact),
        Line::Count => {
            *counted = rig.done();
            true
        }
        Line::Wrote(erases, programs) => wrote(counted, &rig.done(), *erases, *programs),
    }
}

/// Makes these steps, one after another.
fn run(parts: &mut Parts, rig: &mut MemRig, steps: &[Step]) -> bool
    requires { PartsAgree parts.old (state_of rig.old).contents }
    ensures { OnTrue result (PartsAgree parts.new (state_of rig.new).contents) }
{
    for step in steps {
        if !make(parts, rig, step) {
            return false;
        }
    }
    true
}

/// The first line that doesn't hold.
fn first_wrong_on(parts: &mut Parts, rig: &mut MemRig, lines: &[Line]) -> Option<usize>
    requires { PartsAgree parts.old (state_of rig.old).contents }
{
    let mut counted = rig.done();
    for i in 0..lines.len() {
        if !is_so(parts, rig, &mut counted, &lines[i]) {
            return Some(i);
        }
    }
    None
}

/// The same once these steps were made. If they can't be, it is the number of lines.
fn first_wrong_after(
    parts: &mut Parts,
    rig: &mut MemRig,
    steps: &[Step],
    lines: &[Line],
) -> Option<usize>
    requires { PartsAgree parts.old (state_of rig.old).contents }
{
    if !run(parts, rig, steps) {
        return Some(lines.len());
    }
    first_wrong_on(parts, rig, lines)
}

/// The same over an empty cache.
pub(crate) fn first_wrong(alloc: Global, steps: &[Step], lines: &[Line]) -> Option<usize> {
    let mut rig = MemRig::new(alloc);
    match begun(alloc, &mut rig) {
        Some(parts) => {
            let mut parts = parts;
            first_wrong_after(&mut parts, &mut rig, steps, lines)
        }
        None => Some(lines.len()),
    }
}
