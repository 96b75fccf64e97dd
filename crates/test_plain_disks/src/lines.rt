//! What the lines of a trace over several disks say.

use std::alloc::{AllocError, Global};
use std::mem;
use trace_model::{Line, LineError};
use trace_text::{next_line, read_line, without_return};

/// The numbers of the disks as they are spelled.
const NUMBERS: [&str; 16] = [
    "0", "1", "2", "3", "4", "5", "6", "7", "8", "9", "10", "11", "12", "13", "14", "15",
];

/// A line of a trace.
#[derive(Clone, Copy, Debug, PartialEq, Eq)]
pub enum DiskLine {
    /// Choose a disk.
    Disk {
        /// The number of the disk.
        disk: u32,
    },
    /// Run a line.
    Plain {
        /// The line, with the addresses of the disk that is chosen.
        line: Line,
    },
}

/// The lines of a trace up to the first that is refused, for `disks` disks of `share` blocks each.
pub fn lines_of(
    alloc: Global,
    trace: &[u8],
    share: u64,
    disks: u32,
) -> Result<Vec<DiskLine>, AllocError> {
    let mut lines = Vec::new(alloc);
    let mut left = trace;
    for _ in 0..trace.len() {
        let Some((bytes, after)) = next_line(left, true) else {
            break;
        };
        let Ok(line) = line_says(alloc, bytes, share, disks)? else {
            break;
        };
        lines.push(line)?;
        left = after;
    }
    Ok(lines)
}

/// What a line says.
pub fn line_says(
    alloc: Global,
    bytes: &[u8],
    share: u64,
    disks: u32,
) -> Result<Result<DiskLine, LineError>, AllocError> {
    let words = words_of(alloc, bytes)?;
    let words = words.as_slice();
    let short = bytes.len() <= 200 && !bytes.starts_with(b"#".as_slice());
    if disks > 1 && short && !words.is_empty() && words[0].as_slice() == b"disk".as_slice() {
        if words.len() != 2 {
            return Ok(Err(LineError::BadCount));
        }
        return Ok(disk_says(words[1].as_slice(), disks));
    }
    match read_line(bytes, share) {
        Ok(line) => Ok(Ok(DiskLine::Plain { line })),
        Err(cause) => Ok(Err(cause)),
    }
}

/// The disk that a word names.
fn disk_says(word: &[u8], disks: u32) -> Result<DiskLine, LineError> {
    for disk in 0..16u32 {
        if disk < disks && word == NUMBERS[disk as usize].as_bytes() {
            return Ok(DiskLine::Disk { disk });
        }
    }
    Err(LineError::BadNumber)
}

/// The words of a line.
fn words_of(alloc: Global, line: &[u8]) -> Result<Vec<Vec<u8>>, AllocError> {
    let mut words = Vec::new(alloc);
    let mut word = Vec::new(alloc);
    for byte in without_return(line) {
        if *byte != b' ' && *byte != b'\t' {
            word.push(*byte)?;
        } else if !word.is_empty() {
            words.push(mem::replace(&mut word, Vec::new(alloc)))?;
        }
    }
    if !word.is_empty() {
        words.push(word)?;
    }
    Ok(words)
}
