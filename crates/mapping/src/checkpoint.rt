//! The records of a checkpoint, offered one after another.
ghost use Rattle.std.specs.Prelude.{◌≡◌, ◌<◌, ◌≤◌, ◌+◌, ◌-◌, ◌^◌, ◌++◌, ◌∷◌, [], List, map, length, ◌⊎◌, true, false};
ghost use Rattle.ft_base.specs.declared.record.Record.{Record as RecordValue};
ghost use Rattle.sparse_map.specs.Slots.{items_of};
ghost use Rattle.mapping.specs.Checkpoint.{HasWindow};
ghost use Rattle.mapping.specs.Packed.{page_record, block_record};

use crate::page_at::PageAt;
use block_map::BlockAt;
use ft_base::Record;
use sparse_map::SparseMap;

/// Puts record number `at` into its place, if the window from number `from` on has it.
fn offer(out: &mut [Record], from: usize, at: usize, change: Record)
    ensures window { (records : List RecordValue) → length records ≡ at → HasWindow records from out.old
        → HasWindow (records ++ change ∷ []) from out.new }
{
    if at >= from && at - from < out.len() {
        out[at - from] = change;
    }
}

/// Whether the window from number `from` on lies before or after all of `count` records that follow `before` others.
fn is_outside(out: &[Record], from: usize, before: usize, count: usize) -> bool
    requires { before + count < 2 ^ 64 }
    ensures outside { result ≡ true → (before + count ≤ from) ⊎ (from + length out.now ≤ before) }
    ensures inside { result ≡ false → (from < before + count) × (before < from + length out.now) }
{
    before + count <= from || before >= from && before - from >= out.len()
}

/// The record that sets a page of a log block.
fn page_record(item: &(u64, PageAt)) -> Record
    ensures { result ≡ page_record item.now }
{
    Record::SetPage {
        lba: item.0,
        place: item.1.place(),
        dirty: item.1.is_dirty(),
    }
}

/// The record that sets a data block.
fn block_record(item: &(u64, BlockAt)) -> Record
    ensures { result ≡ block_record item.now }
{
    Record::SetGroup {
        group: item.0,
        block: item.1.block(),
        present: item.1.present(),
        dirty: item.1.dirty(),
    }
}

/// Offers the records of these mapped pages, which come after `before` others.
fn offer_pages(items: &[(u64, PageAt)], before: usize, from: usize, out: &mut [Record])
    requires { before + length items.now < 2 ^ 64 }
    ensures { (records : List RecordValue) → length records ≡ before → HasWindow records from out.old
        → HasWindow (records ++ map page_record items.now) from out.new }
{
    if is_outside(out, from, before, items.len()) {
        return;
    }
    let mut at = before;
    for item in items {
        offer(out, from, at, page_record(item));
        at += 1;
    }
}

/// Offers the records of these data blocks, which come after `before` others.
fn offer_blocks(items: &[(u64, BlockAt)], before: usize, from: usize, out: &mut [Record])
    requires { before + length items.now < 2 ^ 64 }
    ensures { (records : List RecordValue) → length records ≡ before → HasWindow records from out.old
        → HasWindow (records ++ map block_record items.now) from out.new }
{
    if is_outside(out, from, before, items.len()) {
        return;
    }
    let mut at = before;
    for item in items {
        offer(out, from, at, block_record(item));
        at += 1;
    }
}

/// Offers the records of all mapped pages, which come after `before` others.
pub fn offer_all_pages(
    pages: &SparseMap<PageAt>,
    before: usize,
    from: usize,
    out: &mut [Record],
) -> usize
    requires { before + length (items_of pages.now.slots) < 2 ^ 64 }
    ensures count { result ≡ before + length (items_of pages.now.slots) }
    ensures window { (records : List RecordValue) → length records ≡ before → HasWindow records from out.old
        → HasWindow (records ++ map page_record (items_of pages.now.slots)) from out.new }
{
    let mut at = before;
    for group in 0..pages.groups() {
        let (_, items) = pages.group_at(group);
        offer_pages(items, at, from, out);
        at += items.len();
    }
    at
}

/// Offers the records of all data blocks, which come after `before` others.
pub fn offer_all_blocks(
    blocks: &SparseMap<BlockAt>,
    before: usize,
    from: usize,
    out: &mut [Record],
) -> usize
    requires { before + length (items_of blocks.now.slots) < 2 ^ 64 }
    ensures count { result ≡ before + length (items_of blocks.now.slots) }
    ensures window { (records : List RecordValue) → length records ≡ before → HasWindow records from out.old
        → HasWindow (records ++ map block_record (items_of blocks.now.slots)) from out.new }
{
    let mut at = before;
    for group in 0..blocks.groups() {
        let (_, items) = blocks.group_at(group);
        offer_blocks(items, at, from, out);
        at += items.len();
    }
    at
}
