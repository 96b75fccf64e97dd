//! The limits of a sweep's trace.
ghost use Rattle.std.specs.Prelude.{◌≡◌, ◌≤◌, ◌+◌, nat_lt, length, take, IfOk};
ghost use Rattle.trace_model.specs.Lines.{line_of};
ghost use Rattle.trace_model.specs.Readings.{since_feed};
ghost use Rattle.held_trace.specs.Sweep.{IsSweepLine, blocks_in_line, reading_behind};

use trace_model::{Line, LineError};
use trace_text::read_line;

/// The trace of a sweep has at most this many bytes.
pub(crate) const BYTE_LIMIT: usize = 4096;

/// A line has at most this many bytes.
const LINE_LIMIT: usize = 200;

/// The lines write and read at most this many blocks together.
const BLOCK_LIMIT: u64 = 256;

/// How many blocks the line writes or reads.
pub(crate) fn blocks_of(line: &Line) -> u64
    ensures { result ≡ blocks_in_line line.now }
{
    match *line {
        Line::Write { count, .. } | Line::Read { count, .. } => count,
        Line::Flush | Line::Idle | Line::Stop { .. } | Line::Cut { .. } | Line::Nothing => 0,
    }
}

/// What the line says behind `before` blocks, or why it is refused there.
pub(crate) fn read_behind(spelled: &[u8], size: u64, before: u64) -> Result<Line, LineError>
    requires within { before ≤ 256 }
    ensures line { result ≡ reading_behind before (line_of size spelled.now) }
    ensures held { IfOk result (IsSweepLine size) }
    ensures few { IfOk result (λ l. before + blocks_in_line l ≤ 256) }
{
    let line = read_line(spelled, size)?;
    match line {
        Line::Stop { .. } | Line::Cut { .. } => Err(LineError::BadWord),
        Line::Write { count, .. } | Line::Read { count, .. } if count > BLOCK_LIMIT - before => {
            Err(LineError::TooLong)
        }
        other => Ok(other),
    }
}

/// The first `count` of these bytes.
pub(crate) fn first_bytes(bytes: &[u8], count: usize) -> &[u8]
    requires within { count ≤ length bytes.now }
    ensures front { result.now ≡ take count bytes.now }
    ensures count { length result.now ≡ count }
{
    &bytes[..count]
}

/// Whether the line that no line feed has ended yet has more bytes than a line may have.
pub(crate) fn is_over_long(bytes: &[u8]) -> bool
    ensures { result ≡ nat_lt 200 (since_feed 0 bytes.now) }
{
    since_last_feed(bytes) > LINE_LIMIT
}

/// How many bytes follow the last line feed.
fn since_last_feed(bytes: &[u8]) -> usize
    ensures count { result ≡ since_feed 0 bytes.now }
{
    let mut count = 0;
    for byte in bytes {
        if *byte == b'\n' {
            count = 0;
        } else {
            count += 1;
        }
    }
    count
}
