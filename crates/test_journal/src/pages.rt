//! Pages of the log and of checkpoints as the tests write them, each by one line of a list.

ghost use Rattle.std.specs.Prelude.{◌≡◌};
ghost use Rattle.cache_model.specs.Spelling as spelling;
ghost use Rattle.cache_model.specs.declared.format.PageKind.TheVariants.{Log as log_page};

use crate::flash::{arm, erase, program_next};
use checkpoint::Newest;
use ft_base::{Block, Outcome, Place, Record, pattern, zero_block};
use mem_rig::MemRig;
use record_codec::{Header, PageKind, Seal, Totals};
use test_plain_format::{spelled_page, spelled_seal};

/// The numbers of the cache in a seal.
pub(crate) const NUMBERS: Seal = Seal {
    p: 4,
    c: 2,
    l: 2,
    j: 1,
    size: 64,
};

/// The region, the era and the map pages of the checkpoint that counts, of format 2 and made for `NUMBERS`.
pub(crate) type Counted = Option<(u32, u8, u32)>;

/// A change of a map.
#[derive(Clone, Copy)]
pub(crate) enum Change {
    /// The address lies, dirty, in this block at this page.
    Page(u64, u32, u32),
    /// The group has this data block, with these pages, all clean.
    Group(u64, u32, u128),
    /// The address is no longer held.
    PageOut(u64),
    /// The group is no longer held.
    GroupOut(u64),
}

/// A page that is programmed as the next page of an erase block, or an action on the whole block. Pages have format 2,
/// unless they are called old.
#[derive(Clone, Copy)]
pub(crate) enum Put {
    /// A page of one record: its kind, its era, its place in the sequence, and the record.
    One(PageKind, u8, u32, Change),
    /// The same in format 1.
    Old(PageKind, u8, u32, Change),
    /// A page of one record, with a byte that isn't zero at this place behind the record.
    Spoilt(PageKind, u8, u32, Change, usize),
    /// A log page of era 0 with two records.
    Two(u32, Change, Change),
    /// A log page of era 0 with one record.
    Log(u32, Change),
    /// A seal of an era over this many map pages with this many records, made for `NUMBERS`. It says that there are
    /// equally many entries, all of them dirty.
    Seal(u8, u32, u32),
    /// The same in format 1, which gives no number of entries.
    OldSeal(u8, u32, u32),
    /// A seal of era 0 over one map page with this many records. It says that there are this many entries, and this
    /// many dirty ones.
    Told(u32, u64, u64),
    /// A page with the block of an address.
    Data,
    /// A program that is cut and leaves the page torn.
    Torn,
    /// An erase that is cut, and leaves pages 0 and 3 unchanged, page 1 blank and page 2 torn.
    MixedErase,
}

/// Whether this checkpoint, of this format, is the one that counts.
pub(crate) fn is_counted_of(format: u8, found: Option<Newest>, wanted: Counted) -> bool {
    match (found, wanted) {
        (Some(one), Some(counted)) => {
            (one.region, one.era, one.pages) == counted
                && one.format == format
                && one.totals.is_some() == (format == 2)
                && one.seal == NUMBERS
        }
        (None, None) => true,
        _ => false,
    }
}

/// The same for format 2.
pub(crate) fn is_counted(found: Option<Newest>, wanted: Counted) -> bool {
    is_counted_of(2, found, wanted)
}

/// The record of this change.
pub(crate) fn record_of(change: Change) -> Record {
    match change {
        Change::Page(lba, block, page) => Record::SetPage {
            lba,
            place: Place { block, page },
            dirty: true,
        },
        Change::Group(group, block, present) => Record::SetGroup {
            group,
            block,
            present,
            dirty: 0,
        },
        Change::PageOut(lba) => Record::Remove { lba },
        Change::GroupOut(group) => Record::RemoveGroup { group },
    }
}

/// Whether a log page of format 2 may have this record, for a cache with `p` pages in an erase block.
pub(crate) fn may_be_logged(p: u32, change: &Record) -> bool
    ensures { result ≡ spelling.may_stand_in (spelling.is_wide 2 p) log_page change.now }
{
    let wide = p > 64;
    match *change {
        Record::SetPage { place, .. } => place.page < if wide { 128 } else { 64 },
        Record::SetGroup { present, dirty, .. } => {
            present > 0 && present & dirty == dirty && (wide || present < 1 << 64)
        }
        Record::Remove { .. } | Record::Clean { .. } | Record::RemoveGroup { .. } => true,
    }
}

/// A page of one record.
fn page_of(format: u8, kind: PageKind, era: u8, sequence: u32, change: Change) -> Block {
    let header = Header {
        format,
        kind,
        era,
        sequence,
        count: 1,
    };
    spelled_page(&header, NUMBERS.p, [record_of(change)].as_slice())
}

/// A log page of two records, of era 0.
fn page_of_two(sequence: u32, first: Change, second: Change) -> Block {
    let header = Header {
        format: 2,
        kind: PageKind::Log,
        era: 0,
        sequence,
        count: 2,
    };
    let changes = [record_of(first), record_of(second)];
    spelled_page(&header, NUMBERS.p, changes.as_slice())
}

/// A seal over this many map pages with this many records.
fn seal_of(format: u8, era: u8, pages: u32, records: u32, entries: u64, dirty: u64) -> Block {
    let header = Header {
        format,
        kind: PageKind::Seal,
        era,
        sequence: pages,
        count: records,
    };
    spelled_seal(&header, &NUMBERS, &Totals { entries, dirty })
}

/// The page with a byte that isn't zero at this place, if the page has the place.
fn spoilt(page: Block, at: usize) -> Block {
    let mut page = page;
    if at < 4096 {
        page.0[at] = 1;
    }
    page
}

/// The block of an address.
fn data() -> Block {
    let mut block = zero_block();
    pattern(5, 1, &mut block);
    block
}

/// The bytes that are programmed: zeros if the bytes don't matter.
fn bytes_of(what: Put) -> Block {
    match what {
        Put::One(kind, era, sequence, change) => page_of(2, kind, era, sequence, change),
        Put::Old(kind, era, sequence, change) => page_of(1, kind, era, sequence, change),
        Put::Spoilt(kind, era, sequence, change, at) => {
            spoilt(page_of(2, kind, era, sequence, change), at)
        }
        Put::Log(sequence, change) => page_of(2, PageKind::Log, 0, sequence, change),
        Put::Two(sequence, first, second) => page_of_two(sequence, first, second),
        Put::Seal(era, pages, records) => {
            let entries = u64::from(records);
            seal_of(2, era, pages, records, entries, entries)
        }
        Put::OldSeal(era, pages, records) => seal_of(1, era, pages, records, 0, 0),
        Put::Told(records, entries, dirty) => seal_of(2, 0, 1, records, entries, dirty),
        Put::Data => data(),
        Put::Torn | Put::MixedErase => zero_block(),
    }
}

/// Does this to a block. False if it can't be done.
pub(crate) fn make(rig: &mut MemRig, block: u32, what: Put) -> bool {
    let bytes = bytes_of(what);
    match what {
        Put::MixedErase => {
            let done = arm(rig, Outcome::Mixed) && erase(rig, block);
            rig.turn_on();
            done
        }
        Put::Torn => {
            let done = arm(rig, Outcome::Torn) && program_next(rig, block, &bytes);
            rig.turn_on();
            done
        }
        _ => program_next(rig, block, &bytes),
    }
}
