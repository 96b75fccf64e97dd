//! Pages of records: a header, the records one behind the other, and zero bytes up to the end.
ghost use Rattle.std.specs.Prelude.{◌≡◌, ◌+◌, ◌*◌, ◌≤◌, ◌<◌, ◌++◌, List, IsTrue, length, take, drop, flat_map, Some, if◌then◌else◌};
ghost use Rattle.std.specs.Bool.{OnTrue, OnFalse};
ghost use Rattle.std.specs.List.{list_all};
ghost use Rattle.ft_base.specs.declared.record.Record.{Record as RecordValue};
ghost use Rattle.cache_model.specs.Spelling.{spelled_record, has_widths, is_format, is_log_or_map, is_wide, may_stand_in, most_records_of, record_bytes, IsPage};
ghost use Rattle.cache_model.specs.Reading.{read_page_header as header_read, read_records as records_read};
ghost use Rattle.record_codec.specs.Lines.{BeginsWith, FitsLine, record_line, read_line as line_read};

use crate::change::{goes_on, read_line, spelled_line};
use crate::header::{has_page_header, spelled_header};
use crate::line::{is_zero_from, line_at, put_part, put_zeros};
use crate::width::{is_wide, most_records, record_at, record_bytes};
use cache_model::{Header, PageKind};
use ft_base::{Block, Record};

/// Writes the page of a header and its records, for a cache with `p` pages in an erase block.
pub fn write_page(out: &mut Block, header: &Header, p: u32, changes: &[Record])
    requires format { IsTrue (is_format header.now.format) }
    requires kind { IsTrue (is_log_or_map header.now.kind) }
    requires era { header.now.era ≤ 2 }
    requires count { header.now.count ≡ length changes.now }
    requires some { 1 ≤ length changes.now }
    requires room { length changes.now ≤ most_records_of (is_wide header.now.format p) }
    requires changes { IsTrue (list_all (may_stand_in (is_wide header.now.format p) header.now.kind) changes.now) }
    ensures { IsPage p out.new.0 header.now changes.now }
{
    let wide = is_wide(header.format, p);
    let front = spelled_header(header);
    put_part(out, 0, &front);
    put_records(out, wide, header.kind, changes);
    put_zeros(out, record_at(wide, changes.len()));
}

/// Puts each record into its place.
fn put_records(out: &mut Block, wide: bool, kind: PageKind, changes: &[Record])
    requires room { length changes.now ≤ most_records_of wide }
    requires changes { IsTrue (list_all (may_stand_in wide kind) changes.now) }
    ensures front { take (32 + record_bytes wide * length changes.now) out.new.0
        ≡ take 32 out.old.0 ++ flat_map (spelled_record wide) changes.now }
    ensures widths { IsTrue (list_all (has_widths wide) changes.now) }
{
    for (i, change) in changes.iter().enumerate() {
        put_record(out, wide, i, change);
    }
}

/// Puts record `i` into its place.
fn put_record(out: &mut Block, wide: bool, i: usize, change: &Record)
    requires place { i < most_records_of wide }
    requires fits { FitsLine wide change.now }
    ensures front { take (32 + record_bytes wide * i + record_bytes wide) out.new.0
        ≡ take (32 + record_bytes wide * i) out.old.0 ++ spelled_record wide change.now }
    ensures widths { IsTrue (has_widths wide change.now) }
{
    let line = spelled_line(change, wide);
    put_part(out, record_at(wide, i), &line[..record_bytes(wide)]);
}

/// Reads the records of a page with this header to the front of `out`, for a cache with `p` pages in an erase block. It
/// answers false exactly when the page isn't one of the header and of any records. Then `out` may have some records.
pub fn read_records(page: &Block, header: &Header, p: u32, out: &mut [Record; 127]) -> bool
    ensures read { OnTrue result (IsPage p page.now.0 header.now (take header.now.count out.new)) }
    ensures outside { OnFalse result ((rs : List RecordValue) → ¬ IsPage p page.now.0 header.now rs) }
    ensures value { header_read page.now.0 ≡ Some header.now
        → records_read p header.now page.now.0 ≡ (if result then Some (take header.now.count out.new) else None) }
{
    if !has_page_header(page, header) {
        return false;
    }
    let wide = is_wide(header.format, p);
    let count = header.count as usize;
    if count > most_records(wide) {
        return false;
    }
    if !read_lines(page, wide, header.kind, count, out) {
        return false;
    }
    is_zero_from(page, record_at(wide, count))
}

/// Reads `count` records.
fn read_lines(
    page: &Block,
    wide: bool,
    kind: PageKind,
    count: usize,
    out: &mut [Record; 127],
) -> bool
    requires { count ≤ most_records_of wide }
    ensures read { OnTrue result (BeginsWith wide kind (take count out.new) (drop 32 page.now.0)) }
    ensures outside { OnFalse result ((rs : List RecordValue) → length rs ≡ count → ¬ BeginsWith wide kind rs (drop 32 page.now.0)) }
{
    for i in 0..count {
        let Some(change) = read_record(page, wide, i) else {
            return false;
        };
        if !goes_on(kind, &change) {
            return false;
        }
        out[i] = change;
    }
    true
}

/// Reads record `i`. There is one exactly when its line spells a sound record.
fn read_record(page: &Block, wide: bool, i: usize) -> Option<Record>
    requires { i < most_records_of wide }
    ensures { result ≡ line_read wide (record_line wide i page.now.0) }
{
    read_line(&line_at(page, record_at(wide, i), record_bytes(wide)), wide)
}
