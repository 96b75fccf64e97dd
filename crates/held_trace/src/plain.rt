//! The plain program: the readings that are known of a sweep's trace, computed line by line.
ghost use Rattle.std.specs.Prelude.{◌≡◌, ◌≤◌, ◌<◌, ◌++◌, ◌∷◌, [], Bool, false, length, Err, IfOk};
ghost use Rattle.trace_model.specs.Lines.{lines_in};
ghost use Rattle.held_trace.specs.Sweep as sweep;
ghost use Rattle.held_trace.specs.Sweep.{lines_say, sweep_readings};

use crate::limits::{BYTE_LIMIT, blocks_of, first_bytes, is_over_long, read_behind};
use std::alloc::{AllocError, Global};
use trace_model::{Line, LineError};
use trace_text::next_line;

/// The readings that are known of a sweep's trace when these bytes of it were read. `whole` says whether they are all
/// its bytes.
pub fn plain_sweep_readings(
    alloc: Global,
    size: u64,
    whole: bool,
    bytes: &[u8],
) -> Result<Vec<Result<Line, LineError>>, AllocError>
    ensures { IfOk result (λ readings. readings.items ≡ sweep_readings size whole bytes.now) }
{
    if bytes.len() > BYTE_LIMIT {
        return plain_past(alloc, size, bytes);
    }
    if whole {
        return plain_lines(alloc, size, true, bytes);
    }
    plain_part(alloc, size, bytes)
}

/// The same for more bytes than a sweep's trace may have.
fn plain_past(
    alloc: Global,
    size: u64,
    bytes: &[u8],
) -> Result<Vec<Result<Line, LineError>>, AllocError>
    requires { 4096 < length bytes.now }
    ensures { IfOk result (λ readings. (whole : Bool) → readings.items ≡ sweep_readings size whole bytes.now) }
{
    let readings = plain_lines(alloc, size, false, first_bytes(bytes, BYTE_LIMIT))?;
    with_refusal(readings, LineError::TooLong)
}

/// The same for bytes that are a part of the trace.
fn plain_part(
    alloc: Global,
    size: u64,
    bytes: &[u8],
) -> Result<Vec<Result<Line, LineError>>, AllocError>
    requires { length bytes.now ≤ 4096 }
    ensures { IfOk result (λ readings. readings.items ≡ sweep_readings size false bytes.now) }
{
    let readings = plain_lines(alloc, size, false, bytes)?;
    if is_over_long(bytes) {
        return with_refusal(readings, LineError::LineTooLong);
    }
    Ok(readings)
}

/// These readings, and then the refusal of the next line for this cause.
fn with_refusal(
    readings: Vec<Result<Line, LineError>>,
    cause: LineError,
) -> Result<Vec<Result<Line, LineError>>, AllocError>
    ensures { IfOk result (λ more. more.items ≡ readings.items ++ Err cause ∷ []) }
{
    let mut readings = readings;
    readings.push(Err(cause))?;
    Ok(readings)
}

/// The readings of the lines of these bytes.
fn plain_lines(
    alloc: Global,
    size: u64,
    whole: bool,
    bytes: &[u8],
) -> Result<Vec<Result<Line, LineError>>, AllocError>
    ensures { IfOk result (λ readings. readings.items ≡ lines_say size (lines_in whole bytes.now)) }
{
    let mut readings = Vec::new(alloc);
    let mut rest = bytes;
    let mut blocks = 0;
    'lines: while let Some((spelled, after)) = next_line(rest, whole) {
        let reading = read_behind(spelled, size, blocks);
        blocks += blocks_added(&reading);
        readings.push(reading)?;
        rest = after;
    }
    Ok(readings)
}

/// How many blocks a line with this reading adds.
fn blocks_added(reading: &Result<Line, LineError>) -> u64
    ensures { result ≡ sweep.blocks_added reading.now }
{
    match reading {
        Ok(line) => blocks_of(line),
        Err(_) => 0,
    }
}
