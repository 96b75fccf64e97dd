//! The plain program: what a line says, byte by byte, by the rules alone.

use std::alloc::{AllocError, Global};
use trace_model::{Line, LineError};

/// Where a reader of comma-separated fields stands.
#[derive(Clone, Copy, PartialEq, Eq)]
enum Place {
    /// Before a record.
    Between,
    /// Before a field that is not the first.
    Before,
    /// Within a field.
    Within,
    /// Within quotes.
    Quoted,
    /// Behind a quote, which ends the quotes or is the first of two.
    Behind,
}

/// The fields of a line, and the number of its records.
#[derive(Drop)]
struct Fields {
    alloc: Global,
    place: Place,
    field: Vec<u8>,
    fields: Vec<Vec<u8>>,
    records: u64,
}

impl Fields {
    fn of(alloc: Global, line: &[u8]) -> Result<Fields, AllocError> {
        let mut fields = Fields {
            alloc,
            place: Place::Between,
            field: Vec::new(alloc),
            fields: Vec::new(alloc),
            records: 0,
        };
        for byte in without_mark(line) {
            fields.take(*byte)?;
        }
        if fields.place != Place::Between {
            fields.end_record()?;
        }
        Ok(fields)
    }

    fn take(&mut self, byte: u8) -> Result<(), AllocError> {
        match (self.place, byte) {
            (Place::Between, b'\r' | b'\n') => {}
            (Place::Between | Place::Before, b'"') => self.place = Place::Quoted,
            (Place::Quoted, b'"') => self.place = Place::Behind,
            (Place::Quoted, _) => self.field.push(byte)?,
            (Place::Behind, b'"') => {
                self.field.push(byte)?;
                self.place = Place::Quoted;
            }
            (_, b',') => {
                self.end_field()?;
                self.place = Place::Before;
            }
            (_, b'\r' | b'\n') => self.end_record()?,
            _ => {
                self.field.push(byte)?;
                self.place = Place::Within;
            }
        }
        Ok(())
    }

    fn end_field(&mut self) -> Result<(), AllocError> {
        let field = self.field.as_slice().to_vec(self.alloc)?;
        self.field.clear();
        self.fields.push(field)?;
        Ok(())
    }

    fn end_record(&mut self) -> Result<(), AllocError> {
        self.end_field()?;
        self.records = self.records.saturating_add(1);
        self.place = Place::Between;
        Ok(())
    }
}

/// The line without a byte order mark at its start.
fn without_mark(line: &[u8]) -> &[u8] {
    match line.strip_prefix(b"\xef\xbb\xbf".as_slice()) {
        Some(rest) => rest,
        None => line,
    }
}

/// What the line with this number says, for a volume with this number of blocks.
pub(crate) fn plain_msr(
    alloc: Global,
    line: &[u8],
    number: u64,
    size: u64,
) -> Result<Result<Line, LineError>, AllocError> {
    if line.len() > 200 {
        return Ok(Err(LineError::LineTooLong));
    }
    let fields = Fields::of(alloc, line)?;
    if fields.records == 0 {
        return Ok(Ok(Line::Nothing));
    }
    let all = fields.fields.as_slice();
    if fields.records > 1 || all.len() != 7 {
        return Ok(Err(LineError::BadCount));
    }
    let (kind, offset, bytes) = (all[3].as_slice(), all[4].as_slice(), all[5].as_slice());
    let writes = kind == b"Write".as_slice();
    if !writes && kind != b"Read".as_slice() {
        return Ok(Err(LineError::BadWord));
    }
    let (Some(offset), Some(bytes)) = (plain_number(offset), plain_number(bytes)) else {
        return Ok(Err(LineError::BadNumber));
    };
    Ok(plain_request(writes, offset, bytes, number, size))
}

/// The number that the word spells, if it spells one.
fn plain_number(word: &[u8]) -> Option<u128> {
    if word.is_empty() || word.len() > 20 || (word.len() > 1 && word[0] == b'0') {
        return None;
    }
    let mut value: u128 = 0;
    for byte in word {
        if !byte.is_ascii_digit() {
            return None;
        }
        value = value
            .saturating_mul(10)
            .saturating_add((*byte - b'0') as u128);
    }
    if value > u64::MAX as u128 {
        return None;
    }
    Some(value)
}

/// The request for the blocks that these bytes touch, counted one after the other.
fn plain_request(
    writes: bool,
    offset: u128,
    bytes: u128,
    number: u64,
    size: u64,
) -> Result<Line, LineError> {
    let end = offset.saturating_add(bytes);
    if end > u64::MAX as u128 {
        return Err(LineError::BadNumber);
    }
    if bytes == 0 {
        return Ok(Line::Nothing);
    }
    let lba = (offset / 4096) as u64;
    let mut count: u64 = 0;
    for block in 0..65_537u64 {
        let start = (lba as u128)
            .saturating_add(block as u128)
            .saturating_mul(4096);
        if start >= end {
            break;
        }
        count = count.saturating_add(1);
    }
    if count > 65_536 {
        return Err(LineError::BadNumber);
    }
    if (lba as u128).saturating_add(count as u128) > size as u128 {
        return Err(LineError::OutOfVolume);
    }
    if writes {
        let tag = number;
        return Ok(Line::Write { lba, count, tag });
    }
    Ok(Line::Read { lba, count })
}
