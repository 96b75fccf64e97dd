//! The pages that a change concerns, and the note that is taken of their entries.
ghost use Rattle.std.specs.Prelude.{◌≡◌, ◌<◌, ◌≤◌, ◌+◌, ◌*◌, ◌/◌};
ghost use Rattle.cache_model.specs.Records.{after};
ghost use Rattle.cache_model.specs.Entries.{IsMap, IsInReach, Fits};
ghost use Rattle.mapping.specs.Bits.{IsBlockOf};
ghost use Rattle.mapping.specs.MapValue.{pages_taken, groups_taken};
ghost use Rattle.mapping.specs.Index.{IsIndex, without_range};
ghost use Rattle.mapping.specs.Ranges.{start_of, AreInGroup, IsSpanOf};
ghost use Rattle.mapping.specs.Room.{KeepsTables};

use crate::held::Held;
use crate::index::Index;
use crate::steps::step;
use block_map::BlockAt;
use ft_base::{Geometry, Record};

/// Pages of a group that follow one another.
#[derive(Clone, Copy, Debug, PartialEq, Eq)]
pub struct Span {
    /// The group.
    pub group: u64,
    /// The first page.
    pub first: u32,
    /// How many pages.
    pub count: u32,
}

/// The page of an address.
fn page_of(geometry: &Geometry, lba: u64) -> Span
    ensures group { result.group ≡ lba / geometry.now.p }
    ensures first { start_of geometry.now result ≡ lba }
    ensures count { result.count ≡ 1 }
    ensures within { result.first < geometry.now.p }
{
    let pages = geometry.p as u64;
    Span {
        group: lba / pages,
        first: (lba % pages) as u32,
        count: 1,
    }
}

/// All pages of a group.
fn pages_of(geometry: &Geometry, group: u64) -> Span
    ensures { result ≡ record { group = group; first = 0; count = geometry.now.p } }
{
    Span {
        group,
        first: 0,
        count: geometry.p,
    }
}

/// The pages that a change concerns.
pub fn span_of(geometry: &Geometry, change: &Record) -> Span
    requires { IsInReach geometry.now change.now }
    ensures { IsSpanOf geometry.now change.now result }
{
    match *change {
        Record::SetPage { lba, .. } => page_of(geometry, lba),
        Record::Remove { lba } => page_of(geometry, lba),
        Record::Clean { lba } => page_of(geometry, lba),
        Record::SetGroup { group, .. } => pages_of(geometry, group),
        Record::RemoveGroup { group } => pages_of(geometry, group),
    }
}

/// Takes note that the entries of some pages of a group are removed. The group has this data block.
fn leave_all(
    index: &mut Index,
    held: &Held,
    geometry: &Geometry,
    block: &Option<BlockAt>,
    span: Span,
)
    requires geometry { held.now.geometry ≡ geometry.now }
    requires span { AreInGroup geometry.now span }
    requires block { IsBlockOf held.now.geometry held.now.entries span.group block.now }
    requires map { IsMap geometry.now held.now.entries }
    requires index { IsIndex geometry.now held.now.entries index.old }
    ensures { IsIndex geometry.now (without_range held.now.entries (start_of geometry.now span) span.count) index.new }
{
    for done in 0..span.count {
        leave_next(index, held, geometry, block, span, done);
    }
}

/// Takes note that the entry of one more page is removed.
fn leave_next(
    index: &mut Index,
    held: &Held,
    geometry: &Geometry,
    block: &Option<BlockAt>,
    span: Span,
    done: u32,
)
    requires geometry { held.now.geometry ≡ geometry.now }
    requires span { AreInGroup geometry.now span }
    requires done { done < span.count }
    requires block { IsBlockOf held.now.geometry held.now.entries span.group block.now }
    requires map { IsMap geometry.now held.now.entries }
    requires index { IsIndex geometry.now (without_range held.now.entries (start_of geometry.now span) done) index.old }
    ensures { IsIndex geometry.now (without_range held.now.entries (start_of geometry.now span) (done + 1)) index.new }
{
    let lba = span.group * geometry.p as u64 + span.first as u64 + done as u64;
    match held.entry_beside(block, span.group, span.first + done) {
        Some(entry) => index.leave(geometry, lba, &entry),
        None => {}
    }
}

/// Takes note that the entries of some pages of a group are added. The group has this data block.
fn enter_all(
    index: &mut Index,
    held: &Held,
    geometry: &Geometry,
    block: &Option<BlockAt>,
    span: Span,
)
    requires geometry { held.now.geometry ≡ geometry.now }
    requires span { AreInGroup geometry.now span }
    requires block { IsBlockOf held.now.geometry held.now.entries span.group block.now }
    requires map { IsMap geometry.now held.now.entries }
    requires index { IsIndex geometry.now (without_range held.now.entries (start_of geometry.now span) span.count) index.old }
    ensures { IsIndex geometry.now held.now.entries index.new }
{
    for done in 0..span.count {
        enter_next(index, held, geometry, block, span, span.count - 1 - done);
    }
}

/// Takes note that the entry of the last page that is left is added.
fn enter_next(
    index: &mut Index,
    held: &Held,
    geometry: &Geometry,
    block: &Option<BlockAt>,
    span: Span,
    left: u32,
)
    requires geometry { held.now.geometry ≡ geometry.now }
    requires span { AreInGroup geometry.now span }
    requires left { left < span.count }
    requires block { IsBlockOf held.now.geometry held.now.entries span.group block.now }
    requires map { IsMap geometry.now held.now.entries }
    requires index { IsIndex geometry.now (without_range held.now.entries (start_of geometry.now span) (left + 1)) index.old }
    ensures { IsIndex geometry.now (without_range held.now.entries (start_of geometry.now span) left) index.new }
{
    let lba = span.group * geometry.p as u64 + span.first as u64 + left as u64;
    match held.entry_beside(block, span.group, span.first + left) {
        Some(entry) => index.enter(geometry, lba, &entry),
        None => {}
    }
}

/// Applies a change to the entries, and takes note of it. There is room for the entries that it adds. The group of its
/// pages has this data block. The answer is the data block that the group has then.
pub fn change_entries(
    held: &mut Held,
    index: &mut Index,
    geometry: &Geometry,
    change: &Record,
    block: &Option<BlockAt>,
    span: Span,
) -> Option<BlockAt>
    requires geometry { held.old.geometry ≡ geometry.now }
    requires fits { Fits geometry.now change.now held.old.entries }
    requires block { IsBlockOf held.old.geometry held.old.entries span.group block.now }
    requires span { IsSpanOf geometry.now change.now span }
    requires map { IsMap geometry.now held.old.entries }
    requires index { IsIndex geometry.now held.old.entries index.old }
    requires pages { pages_taken change.now ≤ held.old.spare_pages }
    requires groups { groups_taken change.now ≤ held.old.spare_blocks }
    ensures tables { KeepsTables held.old held.new }
    ensures entries { held.new.entries ≡ after geometry.now change.now held.old.entries }
    ensures pages { held.old.spare_pages ≤ held.new.spare_pages + pages_taken change.now }
    ensures groups { held.old.spare_blocks ≤ held.new.spare_blocks + groups_taken change.now }
    ensures index { IsIndex geometry.now held.new.entries index.new }
    ensures block { IsBlockOf held.new.geometry held.new.entries span.group result }
{
    leave_all(index, held, geometry, block, span);
    step(held, change);
    let now = held.block_of(span.group);
    enter_all(index, held, geometry, &now, span);
    now
}
