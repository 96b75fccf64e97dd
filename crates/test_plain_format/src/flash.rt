//! Flash with contents in format 1, which nothing else writes.

use crate::spelling::{spelled_page, spelled_seal};
use ft_base::{Block, Geometry, Place, Record, Spare, pattern, zero_block};
use mem_rig::MemRig;
use record_codec::{Header, PageKind, Seal, Totals};
use std::alloc::{AllocError, Global};

/// An entry of a checkpoint.
#[derive(Clone, Copy, Debug, PartialEq, Eq)]
pub enum Placed {
    /// The address, the log block and page that have it, and whether it is dirty.
    InLog(u64, u32, u32, bool),
    /// The address, the data block that has it, and whether it is dirty. A group has one data block.
    InData(u64, u32, bool),
}

/// The contents of flash in format 1.
#[derive(Clone, Copy)]
pub struct Old {
    /// The region of the checkpoint and of the log, 0 or 1.
    pub region: u32,
    /// Their era.
    pub era: u8,
    /// How many records are put into a page.
    pub page: usize,
    /// The entries of the checkpoint.
    pub entries: &'static [Placed],
    /// The records of the log.
    pub log: &'static [Record],
}

/// The tag of the block at a place.
pub fn tag_at(block: u32, page: u32) -> u64 {
    u64::from(block)
        .saturating_mul(256)
        .saturating_add(u64::from(page))
}

// ---- the records of a checkpoint

/// The pages of a group that its data block has, or the dirty ones of them.
fn set_of(geometry: &Geometry, entries: &[Placed], group: u64, dirty: bool) -> u128 {
    let p = u64::from(geometry.p);
    let mut pages: u128 = 0;
    for entry in entries {
        if let Placed::InData(lba, _, is_dirty) = *entry {
            if lba / p == group && (is_dirty || !dirty) {
                pages |= 1_u128.wrapping_shl((lba % p) as u32);
            }
        }
    }
    pages
}

fn has_group(records: &[Record], wanted: u64) -> bool {
    for change in records {
        if let Record::SetGroup { group, .. } = *change {
            if group == wanted {
                return true;
            }
        }
    }
    false
}

/// Adds a record for each group that has an address in a data block.
fn push_groups(
    geometry: &Geometry,
    entries: &[Placed],
    records: &mut Vec<Record>,
) -> Result<(), AllocError> {
    for entry in entries {
        let Placed::InData(lba, block, _) = *entry else {
            continue;
        };
        let group = lba / u64::from(geometry.p);
        if !has_group(records.as_slice(), group) {
            records.push(Record::SetGroup {
                group,
                block,
                present: set_of(geometry, entries, group, false),
                dirty: set_of(geometry, entries, group, true),
            })?;
        }
    }
    Ok(())
}

/// Adds a record for each address that stands in a log block.
fn push_pages(entries: &[Placed], records: &mut Vec<Record>) -> Result<(), AllocError> {
    for entry in entries {
        if let Placed::InLog(lba, block, page, dirty) = *entry {
            records.push(Record::SetPage {
                lba,
                place: Place { block, page },
                dirty,
            })?;
        }
    }
    Ok(())
}

/// The records of a checkpoint, the records of groups first.
fn records_of(
    alloc: Global,
    geometry: &Geometry,
    entries: &[Placed],
) -> Result<Vec<Record>, AllocError> {
    let mut records = Vec::new(alloc);
    push_groups(geometry, entries, &mut records)?;
    push_pages(entries, &mut records)?;
    Ok(records)
}

// ---- the pages

/// How many records there are.
fn count_of(records: &[Record]) -> u32 {
    u32::try_from(records.len()).unwrap_or(u32::MAX)
}

/// Programs the next page of an erase block. False if there is none.
fn program(rig: &mut MemRig, block: u32, bytes: &Block, spare: &Spare) -> bool {
    if block >= rig.flash_blocks() {
        return false;
    }
    let Some(page) = rig.next_page(block) else {
        return false;
    };
    if page >= rig.flash_pages() {
        return false;
    }
    rig.program_page(Place { block, page }, bytes, spare);
    true
}

/// The spare bytes of a page: its kind, its era, and its address or its place in a region.
fn spare_of(kind: u8, era: u8, number: u64) -> Spare {
    let mut spare = Spare(*b"FTSP\0\0\0\0\0\0\0\0\0\0\0\0\0\0\0\0\0\0\0\0\0\0\0\0\0\0\0\0");
    let number = number.to_be_bytes();
    spare.0[4] = kind;
    spare.0[5] = era;
    for i in 0..8 {
        spare.0[8 + i] = number[i];
    }
    spare
}

/// The address whose block stands at a place, by these records.
fn address_at(geometry: &Geometry, records: &[Record], at: Place) -> Option<u64> {
    for change in records {
        match *change {
            Record::SetPage { lba, place, .. } if place == at => return Some(lba),
            Record::SetGroup {
                group,
                block,
                present,
                ..
            } if block == at.block && present.wrapping_shr(at.page) & 1 == 1 => {
                let first = group.saturating_mul(u64::from(geometry.p));
                return Some(first.saturating_add(u64::from(at.page)));
            }
            _ => {}
        }
    }
    None
}

/// Programs a page of a log block or a data block: the block of its address, or filler.
fn put_block(rig: &mut MemRig, at: Place, lba: Option<u64>) -> bool {
    let mut bytes = zero_block();
    match lba {
        Some(lba) => {
            pattern(lba, tag_at(at.block, at.page), &mut bytes);
            program(rig, at.block, &bytes, &spare_of(1, 0, lba))
        }
        None => program(rig, at.block, &bytes, &spare_of(2, 0, 0)),
    }
}

/// Programs all pages of an erase block.
fn fill(rig: &mut MemRig, geometry: &Geometry, records: &[Record], block: u32) -> bool {
    for page in 0..geometry.p {
        let at = Place { block, page };
        if !put_block(rig, at, address_at(geometry, records, at)) {
            return false;
        }
    }
    true
}

/// Whether any block stands in an erase block by these records.
fn stands_in(records: &[Record], wanted: u32) -> bool {
    for change in records {
        match *change {
            Record::SetPage { place, .. } if place.block == wanted => return true,
            Record::SetGroup { block, .. } if block == wanted => return true,
            _ => {}
        }
    }
    false
}

/// Programs the erase blocks of the pool in which any block stands by these records.
fn put_blocks(rig: &mut MemRig, geometry: &Geometry, records: &[Record]) -> bool {
    for block in geometry.first_pool()..geometry.blocks() {
        if stands_in(records, block) && !fill(rig, geometry, records, block) {
            return false;
        }
    }
    true
}

/// Pages of records of one kind and era, from an erase block on.
#[derive(Clone, Copy)]
struct Region {
    kind: PageKind,
    era: u8,
    first: u32,
}

impl Region {
    /// Programs page `i` of the region, with these records.
    fn put(&self, rig: &mut MemRig, geometry: &Geometry, i: u32, records: &[Record]) -> bool {
        let header = Header {
            format: 1,
            kind: self.kind,
            era: self.era,
            sequence: i,
            count: count_of(records),
        };
        let kind = if self.kind == PageKind::Log { 3 } else { 4 };
        let block = self.first.saturating_add(i / geometry.p);
        let page = spelled_page(&header, geometry.p, records);
        program(rig, block, &page, &spare_of(kind, self.era, u64::from(i)))
    }

    /// Programs pages of these records, `most` on each. Answers how many pages; `None` if they have no room.
    fn put_all(
        &self,
        alloc: Global,
        rig: &mut MemRig,
        geometry: &Geometry,
        records: &[Record],
        most: usize,
    ) -> Result<Option<u32>, AllocError> {
        let mut part = Vec::new(alloc);
        let mut pages: u32 = 0;
        for (i, change) in records.iter().enumerate() {
            part.push(*change)?;
            if part.len() >= most || i.saturating_add(1) >= records.len() {
                if !self.put(rig, geometry, pages, part.as_slice()) {
                    return Ok(None);
                }
                part.clear();
                pages = pages.saturating_add(1);
            }
        }
        Ok(Some(pages))
    }
}

/// Programs the seal over `pages` map pages with `records` records.
fn put_seal(rig: &mut MemRig, geometry: &Geometry, old: &Old, pages: u32, records: u32) -> bool {
    let header = Header {
        format: 1,
        kind: PageKind::Seal,
        era: old.era,
        sequence: pages,
        count: records,
    };
    let seal = Seal {
        p: geometry.p,
        c: geometry.c,
        l: geometry.l,
        j: geometry.j,
        size: geometry.size,
    };
    let totals = Totals {
        entries: 0,
        dirty: 0,
    };
    let first = old.region.saturating_mul(geometry.k());
    let block = first.saturating_add(pages / geometry.p);
    let page = spelled_seal(&header, &seal, &totals);
    program(rig, block, &page, &spare_of(5, old.era, u64::from(pages)))
}

/// Programs the checkpoint of these records.
fn put_checkpoint(
    alloc: Global,
    rig: &mut MemRig,
    geometry: &Geometry,
    old: &Old,
    records: &[Record],
) -> Result<bool, AllocError> {
    let region = Region {
        kind: PageKind::Map,
        era: old.era,
        first: old.region.saturating_mul(geometry.k()),
    };
    match region.put_all(alloc, rig, geometry, records, old.page)? {
        Some(pages) => Ok(put_seal(rig, geometry, old, pages, count_of(records))),
        None => Ok(false),
    }
}

/// Programs the log.
fn put_log(
    alloc: Global,
    rig: &mut MemRig,
    geometry: &Geometry,
    old: &Old,
) -> Result<bool, AllocError> {
    let regions = geometry.k().saturating_mul(2);
    let region = Region {
        kind: PageKind::Log,
        era: old.era,
        first: old
            .region
            .saturating_mul(geometry.j)
            .saturating_add(regions),
    };
    let pages = region.put_all(alloc, rig, geometry, old.log, old.page)?;
    Ok(pages.is_some())
}

/// Makes the media anew, with these contents. False if they have no room. Each page that an entry or a record names has
/// the block of its address, with the tag of its place.
pub fn made_old(
    alloc: Global,
    rig: &mut MemRig,
    geometry: &Geometry,
    old: &Old,
) -> Result<bool, AllocError> {
    rig.fit_anew(alloc, geometry.blocks(), geometry.p(), geometry.size())?;
    let mut records = records_of(alloc, geometry, old.entries)?;
    let made = put_checkpoint(alloc, rig, geometry, old, records.as_slice())?
        && put_log(alloc, rig, geometry, old)?;
    records.extend_from_slice(old.log)?;
    Ok(made && put_blocks(rig, geometry, records.as_slice()))
}
