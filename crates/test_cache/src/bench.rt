//! A cache on a rig in memory: the commands that the tests give it, and what they see of it.

ghost use Rattle.std.specs.Prelude.{◌≡◌, ◌<◌, true, IfOk};
ghost use Rattle.std.specs.Bool.{OnTrue};
ghost use Rattle.mem_rig.specs.Rig.{state_of};
ghost use Rattle.op_log.specs.Log.{FitsOn};
ghost use Rattle.ssc.specs.CacheState.{IsUp, geometry_of};

use crate::lists::{
    Held, Lists, NOTHING, Plain, Step, give, groups_held, is_less, lists_of, may_be_left,
};
use ft_base::{Block, Geometry, Outcome, Place, Spare, pattern, tag_of, zero_block};
use ft_media::{Media, PageRead};
use mem_rig::MemRig;
use op_log::OpenError;
use record_codec::{Header, read_header};
use ssc::{Scrub, Ssc, SscError};
use std::alloc::Global;
use std::marker::Model;
use test_plain_format::{Old, made_old};

/// How many addresses the disk has.
pub(crate) const SIZE: u64 = 64;

/// Erase blocks of 4 pages, with at most two dirty groups. The flash has 9 erase blocks.
pub(crate) fn geometry() -> Geometry
    ensures { result.size ≡ 64 }
{
    Geometry {
        p: 4,
        c: 2,
        l: 2,
        j: 1,
        size: SIZE,
    }
}

/// Gives the rig as many erase blocks, pages and disk blocks as a cache needs.
pub(crate) fn fit(alloc: Global, rig: &mut MemRig, geometry: &Geometry) -> bool {
    rig.fit_anew(alloc, geometry.blocks(), geometry.p(), geometry.size())
        .is_ok()
}

/// Whether the rig has the pages of the geometry, and enough of the rest.
pub(crate) fn fits_on(rig: &MemRig, geometry: &Geometry) -> bool
    ensures { OnTrue result (FitsOn geometry.now (state_of rig.now).contents.shape) }
{
    if rig.flash_pages() != geometry.p() || rig.flash_blocks() < geometry.blocks() {
        return false;
    }
    rig.disk_blocks() >= geometry.size()
}

/// Formats the flash for an empty cache.
pub(crate) fn format(rig: &mut MemRig, geometry: &Geometry) -> bool {
    fits_on(rig, geometry) && Ssc::format(rig, geometry).is_ok()
}

/// Opens the flash. If it doesn't fit, the answer is a fault of the disk, which no opening meets.
pub(crate) fn opened(alloc: Global, rig: &mut MemRig, geometry: &Geometry) -> Result<Ssc, OpenError>
    ensures up { IfOk result (λ cache. IsUp cache (state_of rig.new).contents) }
    ensures geometry { IfOk result (λ cache. geometry_of cache ≡ geometry.now) }
{
    if !fits_on(rig, geometry) {
        return Err(OpenError::DiskFault);
    }
    Ssc::open(alloc, rig, geometry)
}

/// Why the flash can't be opened.
pub(crate) fn refusal(alloc: Global, rig: &mut MemRig, geometry: &Geometry) -> Option<OpenError> {
    opened(alloc, rig, geometry).err()
}

/// An empty cache on a rig that was made and formatted for it.
fn emptied(alloc: Global, rig: &mut MemRig) -> Result<Ssc, OpenError>
    ensures up { IfOk result (λ cache. IsUp cache (state_of rig.new).contents) }
    ensures size { IfOk result (λ cache. (geometry_of cache).size ≡ 64) }
{
    let geometry = geometry();
    if !fit(alloc, rig, &geometry) || !format(rig, &geometry) {
        return Err(OpenError::DiskFault);
    }
    opened(alloc, rig, &geometry)
}

/// Puts a stop at the device write of a number, counted from now.
fn arm(rig: &mut MemRig, number: u64, outcome: Outcome) -> bool
    ensures { (state_of rig.new).contents ≡ (state_of rig.old).contents }
{
    if number < 1 || rig.stops() >= 16 {
        return false;
    }
    rig.arm_stop(number, outcome);
    true
}

/// Writes a block to the disk, and flushes it. The flash is unchanged.
fn write_disk(rig: &mut MemRig, lba: u64, block: &Block) -> bool
    requires { lba < (state_of rig.old).contents.shape.size }
    ensures shape { (state_of rig.new).contents.shape ≡ (state_of rig.old).contents.shape }
    ensures flash { OnTrue result ((state_of rig.new).contents.flash ≡ (state_of rig.old).contents.flash) }
{
    rig.write_block(lba, block).is_ok() && rig.flush_disk().is_ok()
}

/// The header of the first page of an erase block, if the page is whole and begins with one.
pub(crate) fn first_header(rig: &mut MemRig, block: u32) -> Option<Header>
    ensures { (state_of rig.new).contents ≡ (state_of rig.old).contents }
{
    if block >= rig.flash_blocks() || rig.flash_pages() == 0 {
        return None;
    }
    let mut bytes = zero_block();
    let at = Place { block, page: 0 };
    match rig.read_flash(at, &mut bytes, &mut Spare([0; 32])) {
        Ok(PageRead::Whole) => read_header(&bytes),
        _ => None,
    }
}

fn block_of(lba: u64, tag: u64) -> Block {
    let mut block = zero_block();
    pattern(lba, tag, &mut block);
    block
}

fn held_of(tag: Option<u64>, is_dirty: bool) -> Option<Held> {
    match tag {
        Some(tag) if is_dirty => Some(Held::Dirty(tag)),
        Some(tag) => Some(Held::Clean(tag)),
        None => None,
    }
}

/// Which of the first addresses are listed.
fn marks_of(listed: &[u64]) -> [bool; 16] {
    let mut marks = [false; 16];
    for lba in listed {
        if *lba < 16 {
            marks[*lba as usize] = true;
        }
    }
    marks
}

/// A fact that can be seen of a cache.
#[derive(Clone, Copy)]
pub(crate) enum Fact {
    /// How many groups have a dirty block.
    DirtyGroups(u32),
    /// The dirty pages of a group.
    DirtyBits(u64, u128),
    /// How many addresses are held.
    Held(u64),
    /// The pages left in the open log block.
    OpenRoom(u32),
    /// How many changes are buffered.
    Buffered(u32),
    /// How many of them are writes.
    Later(u32),
    /// The buckets of the map of page-mapped addresses.
    Buckets(u64),
}

/// A line of an example.
#[derive(Clone, Copy)]
pub(crate) enum Line {
    /// A command that is carried out.
    Do(Step),
    /// Clean writes of these addresses with a tag, which are carried out.
    WriteAll(&'static [u64], u64),
    /// A command that is carried out, how many pages the open block and the log had left before it, and its programs
    /// and erases.
    Makes(Step, u32, u32, u64, u64),
    /// A command that answers `Full`, and changes no count of the rig. This many groups would be dirty, and that many
    /// may be.
    Full(Step, u32, u32),
    /// A block is written to the disk.
    WriteDisk(u64, u64),
    /// Power is cut, and the flash is opened.
    Cut,
    /// The flash has these contents in format 1, and holds these blocks. It isn't opened.
    Old(&'static Old, &'static [(u64, Held)]),
    /// The flash is opened.
    Open,
    /// The flash is opened, and the device write of this number is cut with this outcome.
    CutOpening(u64, Outcome),
    /// The first page of a block has a header of this format and era.
    Heads(u32, u8, u8),
    /// The memory of the next write is taken.
    Reserve,
    /// The cache holds exactly the blocks of the plain list.
    HoldsAll,
    /// The cache holds only some blocks of the plain list, but some of at least two groups, and this address.
    HoldsLess(u64),
    /// This fact is seen.
    See(Fact),
    /// The dirty addresses among this many from one on are put behind 60, which gives this list.
    Lists(u64, u64, &'static [u64]),
    /// A scrub reads this many pages, and none is strange.
    Scrubs(u64),
}

/// A cache, its rig, and the blocks that it must hold.
#[derive(Drop)]
pub(crate) struct Bench {
    alloc: Global,
    cache: Ssc,
    rig: MemRig,
    lists: Lists,
    // Whether commands may be given: the cache was opened on the flash, and no command stopped it.
    going: bool,
}

impl Model for Bench {
    ghost use Rattle.std.specs.Prelude.{Bool};
    ghost use Rattle.mem_rig.specs.Rig.{state_of};
    ghost use Rattle.test_cache.specs.Fits.{FitTogether};

    // whether commands may be given
    ghost Value = { Bool };

    ghost view = { λ b. b.going };

    ghost invariant = { λ b. FitTogether b.going b.cache (state_of b.rig).contents };
}

impl Bench {
    /// An empty cache.
    pub(crate) fn new(alloc: Global) -> Option<Bench> {
        Bench::on(alloc, MemRig::new(alloc))
    }

    /// An empty cache, on flash in which the call of a number will fail.
    pub(crate) fn failing(alloc: Global, number: u64) -> Option<Bench> {
        match [number].to_vec(alloc) {
            Ok(flash) => Bench::on(alloc, MemRig::failing(alloc, flash, Vec::new(alloc))),
            Err(_) => None,
        }
    }

    fn on(alloc: Global, rig: MemRig) -> Option<Bench> {
        let mut rig = rig;
        match emptied(alloc, &mut rig) {
            Ok(cache) => Some(Bench {
                alloc,
                cache,
                rig,
                lists: NOTHING,
                going: true,
            }),
            Err(_) => None,
        }
    }

    /// Turns power on, and opens the flash.
    pub(crate) fn open(&mut self) -> bool {
        self.going = false;
        self.rig.turn_on();
        match opened(self.alloc, &mut self.rig, &geometry()) {
            Ok(cache) => {
                self.cache = cache;
                self.going = true;
                true
            }
            Err(_) => false,
        }
    }

    /// Turns power on, and opens the flash, in which the device write of a number is cut.
    pub(crate) fn cut_opening(&mut self, number: u64, outcome: Outcome) -> bool {
        self.going = false;
        self.rig.turn_on();
        if !arm(&mut self.rig, number, outcome) {
            return false;
        }
        refusal(self.alloc, &mut self.rig, &geometry()) == Some(OpenError::PowerLost)
    }

    /// Gives the flash these contents in format 1, which hold these blocks, and doesn't open it.
    pub(crate) fn put_old(&mut self, old: &Old, held: &[(u64, Held)]) -> bool {
        self.going = false;
        self.lists = lists_of(held);
        made_old(self.alloc, &mut self.rig, &geometry(), old) == Ok(true)
    }

    /// Whether the first page of a block has a header of this format and era.
    fn heads(&mut self, block: u32, format: u8, era: u8) -> bool {
        match first_header(&mut self.rig, block) {
            Some(header) => header.format == format && header.era == era,
            None => false,
        }
    }

    /// Cuts power, and opens the flash.
    fn cut(&mut self) -> bool {
        self.going = false;
        self.rig.cut_power(Outcome::Blank);
        self.lists.now = self.lists.durable;
        self.open()
    }

    /// Puts a stop at the device write of a number, counted from now.
    pub(crate) fn arm(&mut self, number: u64, outcome: Outcome) -> bool {
        arm(&mut self.rig, number, outcome)
    }

    // ---- the commands

    fn write_dirty(&mut self, lba: u64, tag: u64) -> Result<(), SscError>
        requires going { self.old ≡ true }
        requires lba { lba < 64 }
    {
        let block = block_of(lba, tag);
        let answer = self.cache.write_dirty(&mut self.rig, lba, &block);
        self.going = !self.cache.is_stopped();
        answer
    }

    fn write_later(&mut self, lba: u64, tag: u64) -> Result<(), SscError>
        requires going { self.old ≡ true }
        requires lba { lba < 64 }
    {
        let block = block_of(lba, tag);
        let answer = self.cache.write_later(&mut self.rig, lba, &block);
        self.going = !self.cache.is_stopped();
        answer
    }

    fn write_clean(&mut self, lba: u64, tag: u64) -> Result<(), SscError>
        requires going { self.old ≡ true }
        requires lba { lba < 64 }
    {
        let block = block_of(lba, tag);
        let answer = self.cache.write_clean(&mut self.rig, lba, &block);
        self.going = !self.cache.is_stopped();
        answer
    }

    fn evict(&mut self, lba: u64) -> Result<(), SscError>
        requires going { self.old ≡ true }
        requires lba { lba < 64 }
    {
        let answer = self.cache.evict(&mut self.rig, lba);
        self.going = !self.cache.is_stopped();
        answer
    }

    fn clean(&mut self, lba: u64) -> Result<(), SscError>
        requires going { self.old ≡ true }
        requires lba { lba < 64 }
    {
        let answer = self.cache.clean(&mut self.rig, lba);
        self.going = !self.cache.is_stopped();
        answer
    }

    fn commit(&mut self) -> Result<(), SscError>
        requires going { self.old ≡ true }
    {
        let answer = self.cache.commit(&mut self.rig);
        self.going = !self.cache.is_stopped();
        answer
    }

    fn checkpoint(&mut self) -> Result<(), SscError>
        requires going { self.old ≡ true }
    {
        let answer = self.cache.checkpoint(&mut self.rig);
        self.going = !self.cache.is_stopped();
        answer
    }

    /// Gives the cache a command. `None` if it takes no command, or there is no such address.
    fn give(&mut self, step: &Step) -> Option<Result<(), SscError>> {
        if !self.going {
            return None;
        }
        match *step {
            Step::WriteDirty(lba, tag) if lba < SIZE => Some(self.write_dirty(lba, tag)),
            Step::WriteLater(lba, tag) if lba < SIZE => Some(self.write_later(lba, tag)),
            Step::WriteClean(lba, tag) if lba < SIZE => Some(self.write_clean(lba, tag)),
            Step::Evict(lba) if lba < SIZE => Some(self.evict(lba)),
            Step::Clean(lba) if lba < SIZE => Some(self.clean(lba)),
            Step::Commit => Some(self.commit()),
            Step::Checkpoint => Some(self.checkpoint()),
            _ => None,
        }
    }

    /// Gives the cache a command. Answers whether it was carried out.
    fn does(&mut self, step: &Step) -> bool {
        match self.give(step) {
            Some(Ok(())) => {
                give(&mut self.lists, step);
                true
            }
            _ => false,
        }
    }

    /// Gives the cache these commands. Answers whether all were carried out.
    pub(crate) fn run(&mut self, steps: &[Step]) -> bool {
        for step in steps {
            if !self.does(step) {
                return false;
            }
        }
        true
    }

    /// The same for clean writes of these addresses with a tag.
    fn write_all(&mut self, addresses: &[u64], tag: u64) -> bool {
        for lba in addresses {
            if !self.does(&Step::WriteClean(*lba, tag)) {
                return false;
            }
        }
        true
    }

    /// Gives the cache these commands until one of them stops it. Answers how many did not.
    pub(crate) fn given_until_stopped(&mut self, steps: &[Step]) -> usize {
        for i in 0..steps.len() {
            let _ = self.give(&steps[i]);
            if !self.going {
                return i;
            }
        }
        steps.len()
    }

    /// Whether a command finds this much room, and makes this many device writes.
    fn makes(&mut self, step: &Step, rooms: [u32; 2], writes: [u64; 2]) -> bool {
        let found = [self.cache.open_room(), self.cache.log_room()];
        let old = self.rig.done();
        if !self.does(step) {
            return false;
        }
        let new = self.rig.done();
        let programs = new.programs.wrapping_sub(old.programs);
        let erases = new.erases.wrapping_sub(old.erases);
        found == rooms && [programs, erases] == writes
    }

    /// Whether a command answers `Full`, and changes no count of the rig.
    fn is_full(&mut self, step: &Step, dirty_groups: u32, limit: u32) -> bool {
        let counts = self.rig.done();
        let refused = SscError::Full {
            dirty_groups,
            limit,
        };
        self.give(step) == Some(Err(refused)) && self.rig.done() == counts
    }

    /// Writes a block to the disk, and flushes it.
    fn write_disk(&mut self, lba: u64, tag: u64) -> bool {
        if !self.going || lba >= self.rig.disk_blocks() {
            return false;
        }
        let block = block_of(lba, tag);
        self.going = write_disk(&mut self.rig, lba, &block);
        self.going
    }

    // ---- facts that are seen

    /// The block that an address holds. `None` if it can't be read, or is the block of another address.
    fn read(&mut self, lba: u64, is_dirty: bool) -> Option<Held>
        requires lba { lba < 64 }
    {
        if !self.going {
            return None;
        }
        let mut block = zero_block();
        match self.cache.read(&mut self.rig, lba, &mut block) {
            Ok(true) => held_of(tag_of(lba, &block), is_dirty),
            Ok(false) => Some(Held::Nothing),
            Err(_) => None,
        }
    }

    /// Which of the first addresses are dirty.
    fn dirty(&self) -> Option<[bool; 16]> {
        let mut listed = Vec::new(self.alloc);
        match self.cache.exists(0, SIZE, &mut listed) {
            Ok(()) => Some(marks_of(listed.as_slice())),
            Err(_) => None,
        }
    }

    /// The blocks that the cache holds at the addresses of the tests.
    fn seen(&mut self) -> Option<Plain> {
        let dirty = self.dirty()?;
        let mut plain = Plain([Held::Nothing; 16]);
        for at in 0..16 {
            plain.0[at] = self.read(at as u64, dirty[at])?;
        }
        Some(plain)
    }

    /// Whether the cache holds exactly the blocks that it must hold.
    pub(crate) fn holds_all(&mut self) -> bool {
        match self.seen() {
            Some(found) => found.0 == self.lists.now.0,
            None => false,
        }
    }

    /// Whether it lacks some of them, but holds some of at least two groups, and this address.
    fn holds_less(&mut self, lba: u64) -> bool {
        match self.seen() {
            Some(found) => {
                is_less(&self.lists.now, &found)
                    && groups_held(&found) >= 2
                    && found.0[lba as usize % 16] != Held::Nothing
            }
            None => false,
        }
    }

    /// Whether the held blocks may be left if the command after `given` of these was cut.
    pub(crate) fn is_left(&mut self, steps: &[Step], given: usize, gives_way: bool) -> bool {
        match self.seen() {
            Some(found) => may_be_left(&self.lists, steps, given, &found, gives_way),
            None => false,
        }
    }

    /// Whether these are the dirty addresses among `count` from `from` on, put behind 60.
    fn lists_dirty(&self, from: u64, count: u64, wanted: &[u64]) -> bool {
        let mut listed = Vec::new(self.alloc);
        if from > SIZE || count > SIZE - from || listed.push(60).is_err() {
            return false;
        }
        self.cache.exists(from, count, &mut listed).is_ok() && listed.as_slice() == wanted
    }

    /// Whether a scrub reads this many pages, and none is strange.
    fn scrubs(&mut self, pages: u64) -> bool {
        if !self.going {
            return false;
        }
        let found = self.cache.scrub(&mut self.rig);
        let strange = None;
        found == Ok(Scrub { pages, strange })
    }

    /// Takes the memory of the next write.
    fn reserve(&mut self) -> bool {
        self.cache.reserve().is_ok()
    }

    fn has(&self, fact: &Fact) -> bool {
        match *fact {
            Fact::DirtyGroups(count) => self.cache.dirty_groups() == count,
            Fact::DirtyBits(group, bits) => self.cache.dirty_bits(group) == bits,
            Fact::Held(count) => self.cache.held() == count,
            Fact::OpenRoom(pages) => self.cache.open_room() == pages,
            Fact::Buffered(count) => self.cache.buffered() == count,
            Fact::Later(count) => self.cache.later() == count,
            Fact::Buckets(count) => self.cache.buckets() == count,
        }
    }

    /// Whether a line holds.
    fn is_so(&mut self, line: &Line) -> bool {
        match line {
            Line::Do(step) => self.does(step),
            Line::WriteAll(addresses, tag) => self.write_all(addresses, *tag),
            Line::Makes(step, open, log, programs, erases) => {
                self.makes(step, [*open, *log], [*programs, *erases])
            }
            Line::Full(step, dirty_groups, limit) => self.is_full(step, *dirty_groups, *limit),
            Line::WriteDisk(lba, tag) => self.write_disk(*lba, *tag),
            Line::Cut => self.cut(),
            Line::Old(old, held) => self.put_old(old, held),
            Line::Open => self.open(),
            Line::CutOpening(number, outcome) => self.cut_opening(*number, *outcome),
            Line::Heads(block, format, era) => self.heads(*block, *format, *era),
            Line::Reserve => self.reserve(),
            Line::HoldsAll => self.holds_all(),
            Line::HoldsLess(lba) => self.holds_less(*lba),
            Line::See(fact) => self.has(fact),
            Line::Lists(from, count, wanted) => self.lists_dirty(*from, *count, wanted),
            Line::Scrubs(pages) => self.scrubs(*pages),
        }
    }

    /// The first line that doesn't hold, once these commands were carried out.
    fn first_wrong(&mut self, begun: &[Step], lines: &[Line]) -> Option<usize> {
        if !self.run(begun) {
            return Some(lines.len());
        }
        for i in 0..lines.len() {
            if !self.is_so(&lines[i]) {
                return Some(i);
            }
        }
        None
    }
}

/// The first line that doesn't hold, over an empty cache that carried these commands out. If it couldn't, it is the
/// number of lines.
pub(crate) fn first_wrong(alloc: Global, begun: &[Step], lines: &[Line]) -> Option<usize> {
    match Bench::new(alloc) {
        Some(bench) => {
            let mut bench = bench;
            bench.first_wrong(begun, lines)
        }
        None => Some(lines.len()),
    }
}
