//! Reads a line.
ghost use Rattle.std.specs.Prelude.{◌≡◌, ◌∷◌, [], true, Ok, IfOk, IfErr, IfSome, IfNone};
ghost use Rattle.csv.specs.Reading.{error_kind, stops_reader};
ghost use Rattle.csv.specs.Records.{fields_of};
ghost use Rattle.trace_model.specs.Lines.{IsRunnable};
ghost use Rattle.msr_trace.specs.Msr.{RefusesAs, RefusesMore, msr_line, records_of};

use crate::fields::record_says;
use csv::{ByteRecord, Error as ReadError, ReaderBuilder};
use std::alloc::Global;
use thiserror::Error;
use trace_model::{Line, LineError};

/// A line has at most this many bytes.
const LINE_LIMIT: usize = 200;

/// Why a line can't be read.
#[derive(Clone, Copy, Debug, PartialEq, Eq, Error)]
pub enum MsrError {
    /// The line is refused.
    #[error("the line is refused: {0}")]
    Refused(LineError),
    /// Out of memory.
    #[error("out of memory")]
    OutOfMemory,
}

/// What the line with this number says for a volume of `size` blocks, or the first refusal that applies.
///
/// A line with no record is `Nothing`, and so is a line whose Size is 0. Any other line is a request for each block
/// that has one of its Size bytes from Offset on. The tag of a write is the line's number. Memory is held only while
/// the line is read.
pub fn read_msr(alloc: Global, line: &[u8], number: u64, size: u64) -> Result<Line, MsrError>
    ensures line { IfOk result (λ l. msr_line size number line.now ≡ Ok l) }
    ensures refused { IfErr result (λ e. RefusesAs e (msr_line size number line.now)) }
    ensures runnable { IfOk result (IsRunnable size) }
{
    if line.len() > LINE_LIMIT {
        return Err(MsrError::Refused(LineError::LineTooLong));
    }
    let Some(record) = only_record(alloc, line)? else {
        return Ok(Line::Nothing);
    };
    match record_says(&record, number, size) {
        Ok(said) => Ok(said),
        Err(cause) => Err(MsrError::Refused(cause)),
    }
}

/// The record of a line, if it has one. A line with more than one is refused.
fn only_record(alloc: Global, line: &[u8]) -> Result<Option<ByteRecord>, MsrError>
    ensures none { IfOk result (λ o. IfNone o (records_of line.now ≡ [])) }
    ensures one { IfOk result (λ o. IfSome o (λ r. records_of line.now ≡ fields_of r ∷ [])) }
    ensures more { IfErr result (λ e. RefusesMore e (records_of line.now)) }
{
    let mut reader = ReaderBuilder::new()
        .has_headers(false)
        .flexible(true)
        .from_reader(alloc, line);
    let mut first = ByteRecord::new(alloc);
    let found = match reader.read_byte_record(&mut first) {
        Ok(found) => found,
        Err(error) => return Err(out_of_memory(&error)),
    };
    if !found {
        return Ok(None);
    }
    let mut second = ByteRecord::new(alloc);
    let again = match reader.read_byte_record(&mut second) {
        Ok(again) => again,
        Err(error) => return Err(out_of_memory(&error)),
    };
    if again {
        return Err(MsrError::Refused(LineError::BadCount));
    }
    Ok(Some(first))
}

/// A slice never fails, so only out of memory stops a reader of a slice. No other error comes: a record may have any
/// number of fields, of any bytes.
fn out_of_memory(error: &ReadError) -> MsrError
    requires stopped { stops_reader (error_kind error.now) ≡ true }
    ensures { result ≡ MsrError.OutOfMemory }
{
    let _stopped = error;
    MsrError::OutOfMemory
}
