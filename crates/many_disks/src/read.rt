//! A line over several disks, read for its own disk and then moved to that disk's share of the volume.
ghost use Rattle.std.specs.Prelude.{◌≡◌, ◌≤◌, ◌<◌, ◌+◌, ◌*◌, ◌/◌, ◌^◌, ◌==◌, ℕ, slice_index, IfOk, IfNone, IfSome};
ghost use Rattle.trace_model.specs.Lines.{IsRunnable, line_of, split_words};
ghost use Rattle.many_disks.specs.Lines as many;
ghost use Rattle.many_disks.specs.Lines.{IsRunnableMany, at_volume, disk_line, many_of, plain_line};

use crate::line::ManyLine;
use trace_model::{Line, LineError};
use trace_text::{next_word, number_in, read_line, without_return};

/// What a line says, with the addresses of the volume, or the first refusal that applies.
///
/// The volume has `size` blocks, which are shared by `disks` disks of `size / disks` blocks each. The disk `chosen`
/// is chosen. Block `a` of disk `i` is block `i * (size / disks) + a` of the volume. With one disk there is no line
/// that chooses one. It allocates nothing.
pub fn read_many(bytes: &[u8], size: u64, disks: u32, chosen: u32) -> Result<ManyLine, LineError>
    requires some { 1 ≤ disks }
    requires few { disks ≤ 16 }
    requires shared { disks ≤ size }
    requires chosen { chosen < disks }
    ensures { result ≡ at_volume (size / disks) chosen (many_of (size / disks) disks bytes.now) }
{
    let share = size / disks as u64;
    match read_own(bytes, share, disks) {
        Ok(ManyLine::Plain { line }) => Ok(ManyLine::Plain {
            line: shifted(share, chosen, line),
        }),
        other => other,
    }
}

/// What a line says, with the addresses of its disk, or the first refusal that applies. Each of the `disks` disks has
/// `share` blocks.
pub(crate) fn read_own(bytes: &[u8], share: u64, disks: u32) -> Result<ManyLine, LineError>
    requires some { 1 ≤ disks }
    ensures line { result ≡ many_of share disks bytes.now }
    ensures runnable { IfOk result (IsRunnableMany share disks) }
{
    match disk_words(bytes, disks) {
        Some(words) => read_disk(words, disks),
        None => match read_line(bytes, share) {
            Ok(line) => Ok(ManyLine::Plain { line }),
            Err(cause) => Err(cause),
        },
    }
}

/// The words after `disk`. `None` if the line is no line that chooses a disk.
fn disk_words(bytes: &[u8], disks: u32) -> Option<&[u8]>
    requires some { 1 ≤ disks }
    ensures none { (share : ℕ) → IfNone result (many_of share disks bytes.now ≡ plain_line (line_of share bytes.now)) }
    ensures some { (share : ℕ) → IfSome result (λ words. many_of share disks bytes.now ≡ disk_line disks (split_words words.now)) }
{
    if disks == 1 || bytes.len() > 200 || is_comment(bytes) {
        return None;
    }
    let (word, words) = next_word(without_return(bytes))?;
    if word == b"disk".as_slice() {
        return Some(words);
    }
    None
}

fn is_comment(bytes: &[u8]) -> bool
    ensures { result ≡ (slice_index bytes.now 0 == 35) }
{
    !bytes.is_empty() && bytes[0] == b'#'
}

/// The disk that the words after `disk` choose.
fn read_disk(words: &[u8], disks: u32) -> Result<ManyLine, LineError>
    requires some { 1 ≤ disks }
    ensures line { result ≡ disk_line disks (split_words words.now) }
    ensures runnable { (share : ℕ) → IfOk result (IsRunnableMany share disks) }
{
    let Some((number, rest)) = next_word(words) else {
        return Err(LineError::BadCount);
    };
    let None = next_word(rest) else {
        return Err(LineError::BadCount);
    };
    match number_in(0, (disks - 1) as u64, number) {
        Some(disk) => Ok(ManyLine::Disk { disk: disk as u32 }),
        None => Err(LineError::BadNumber),
    }
}

/// The line with the addresses of the volume, if the disk `chosen` is chosen.
pub(crate) fn shifted(share: u64, chosen: u32, line: Line) -> Line
    requires runnable { IsRunnable share line }
    requires within { chosen * share + share < 2 ^ 64 }
    ensures { result ≡ many.shifted (chosen * share) line }
{
    let start = chosen as u64 * share;
    match line {
        Line::Write { lba, count, tag } => Line::Write {
            lba: start + lba,
            count,
            tag,
        },
        Line::Read { lba, count } => Line::Read {
            lba: start + lba,
            count,
        },
        other => other,
    }
}
