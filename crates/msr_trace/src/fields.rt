//! Reads the fields of a line.
ghost use Rattle.std.specs.Prelude.{◌≡◌, ◌<◌, Some, bytes_eq, length, IfOk};
ghost use Rattle.csv.specs.Records.{field_at, fields_of};
ghost use Rattle.trace_model.specs.Lines.{IsRunnable};
ghost use Rattle.msr_trace.specs.Msr as msr;

use csv::ByteRecord;
use trace_model::{Line, LineError};
use trace_text::number_in;

/// A line has this many fields.
const FIELDS: usize = 7;

/// A block has this many bytes.
const BLOCK: u64 = 4096;

/// A request has at most this many blocks.
const BLOCK_LIMIT: u64 = 65536;

/// What a record says, in the line with this number and for a volume with this number of blocks.
pub(crate) fn record_says(fields: &ByteRecord, number: u64, size: u64) -> Result<Line, LineError>
    ensures line { result ≡ msr.fields_say size number (fields_of fields.now) }
    ensures runnable { IfOk result (IsRunnable size) }
{
    if fields.len() != FIELDS {
        return Err(LineError::BadCount);
    }
    let kind = field(fields, 3);
    let offset = field(fields, 4);
    let bytes = field(fields, 5);
    request(kind, offset, bytes, number, size)
}

/// The field at this place.
fn field(fields: &ByteRecord, place: usize) -> &[u8]
    requires within { place < length (fields_of fields.now) }
    ensures { Some result.now ≡ field_at (fields_of fields.now) place }
{
    match fields.get(place) {
        Some(field) => field,
        // The record has more fields than that:
        None => unreachable!(),
    }
}

/// What the fields Type, Offset and Size say.
fn request(
    kind: &[u8],
    offset: &[u8],
    bytes: &[u8],
    number: u64,
    size: u64,
) -> Result<Line, LineError>
    ensures line { result ≡ msr.request_says size number kind.now offset.now bytes.now }
    ensures runnable { IfOk result (IsRunnable size) }
{
    let Some(writes) = writes_of(kind) else {
        return Err(LineError::BadWord);
    };
    let Some(offset) = number_in(0, u64::MAX, offset) else {
        return Err(LineError::BadNumber);
    };
    let Some(bytes) = number_in(0, u64::MAX, bytes) else {
        return Err(LineError::BadNumber);
    };
    span(writes, offset, bytes, number, size)
}

/// Whether the word is `name`.
fn is_word(word: &[u8], name: &[u8]) -> bool
    ensures { result ≡ bytes_eq word.now name.now }
{
    word == name
}

/// Whether a request of this kind writes.
fn writes_of(kind: &[u8]) -> Option<bool>
    ensures { result ≡ msr.writes_of kind.now }
{
    if is_word(kind, b"Read") {
        return Some(false);
    }
    if is_word(kind, b"Write") {
        return Some(true);
    }
    None
}

/// The request for the blocks that have one of these bytes.
fn span(writes: bool, offset: u64, bytes: u64, number: u64, size: u64) -> Result<Line, LineError>
    ensures line { result ≡ msr.span_says size number writes offset bytes }
    ensures runnable { IfOk result (IsRunnable size) }
{
    let Some(end) = offset.checked_add(bytes) else {
        return Err(LineError::BadNumber);
    };
    if bytes == 0 {
        return Ok(Line::Nothing);
    }
    let lba = offset / BLOCK;
    let count = (end - 1) / BLOCK - lba + 1;
    if count > BLOCK_LIMIT {
        return Err(LineError::BadNumber);
    }
    if count > size || lba > size - count {
        return Err(LineError::OutOfVolume);
    }
    if writes {
        return Ok(Line::Write {
            lba,
            count,
            tag: number,
        });
    }
    Ok(Line::Read { lba, count })
}
