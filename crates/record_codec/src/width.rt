//! The two widths of records, and what follows from each: bytes of a record, records of a page, and page numbers.
ghost use Rattle.std.specs.Prelude.{◌≡◌, ◌≤◌, ◌+◌, ◌*◌};
ghost use Rattle.cache_model.specs.Spelling.{is_wide, most_records_of, page_limit, record_bytes};

/// Whether a set of pages takes 16 bytes and not 8, in a page of this format of a cache with `p` pages in an
/// erase block.
pub fn is_wide(format: u8, p: u32) -> bool
    ensures { result ≡ is_wide format p }
{
    format == 2 && p > 64
}

/// How many bytes a record has.
pub fn record_bytes(wide: bool) -> usize
    ensures number { result ≡ record_bytes wide }
    ensures most { result ≤ 48 }
{
    if wide { 48 } else { 32 }
}

/// The most records that a page has.
pub fn most_records(wide: bool) -> usize
    ensures { result ≡ most_records_of wide }
{
    if wide { 84 } else { 127 }
}

/// The pages of a record are below this number.
pub fn page_limit(wide: bool) -> u32
    ensures { result ≡ page_limit wide }
{
    if wide { 128 } else { 64 }
}

/// The byte of a page at which record `i` begins; it is also the first byte behind `i` records.
#[tactic(auto, using(crate::proofs::WidthLemmas::within_page, crate::proofs::WidthLemmas::most_few))]
pub fn record_at(wide: bool, i: usize) -> usize
    requires { i ≤ most_records_of wide }
    ensures place { result ≡ 32 + record_bytes wide * i }
    ensures fits { result ≤ 4096 }
{
    if wide { 32 + 48 * i } else { 32 + 32 * i }
}
