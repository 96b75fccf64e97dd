//! What became of the lines of a trace, by the text that was printed.
ghost use Rattle.std.specs.Prelude.{IsTrue};
ghost use Rattle.trace_model.specs.Plain.{AreAddressed, IsAddressed};

use crate::lines::{DiskLine, lines_of};
use crate::text::plain_many;
use ft_base::Ack;
use std::alloc::{AllocError, Global};
use trace_model::{Line, Ran, plain_fits};
use trace_text::{Answer, next_line, read_answer};

/// What became of a line, or of the end.
#[derive(Clone, Copy, Debug, Default, PartialEq, Eq)]
pub struct Became {
    /// How often armed stops cut it.
    pub cuts: u64,
    /// How many blocks of a write that was cut count.
    pub kept: u64,
    /// How many block writes were lost before it.
    pub lost: u64,
}

/// Whether several disks, by what this text says of the cuts, print this text of the trace, and the lines can have
/// become this. The volume has `size` blocks, and its writes are acknowledged for good as `ack` says.
pub fn is_plain_many(
    alloc: Global,
    ack: Ack,
    trace: &[u8],
    text: &[u8],
    size: u64,
    disks: u32,
) -> Result<bool, AllocError> {
    if disks == 0 {
        return Ok(false);
    }
    let share = size / disks as u64;
    let lines = lines_of(alloc, trace, share, disks)?;
    let became = became_of(alloc, lines.as_slice(), text)?;
    let run = run_of(alloc, lines.as_slice(), became.as_slice(), share)?;
    if !are_addressed(run.as_slice()) || !plain_fits(alloc, ack, run.as_slice())? {
        return Ok(false);
    }
    let wanted = plain_many(alloc, share, disks, lines.as_slice(), became.as_slice())?;
    Ok(wanted.as_slice() == text)
}

/// What became of each line, the oldest first, and then of the end.
pub fn became_of(
    alloc: Global,
    lines: &[DiskLine],
    text: &[u8],
) -> Result<Vec<Became>, AllocError> {
    let mut all = Vec::new(alloc);
    let mut rest = text;
    for line in lines {
        let (became, after) = match line {
            DiskLine::Disk { .. } => (Became::default(), after_lines(rest, 1)),
            DiskLine::Plain { line } => line_became(line, rest),
        };
        all.push(became)?;
        rest = after;
    }
    let (end, _) = cuts_of(rest);
    all.push(end)?;
    Ok(all)
}

/// What became of a line, and the text after its answers.
fn line_became<'a>(line: &Line, text: &'a [u8]) -> (Became, &'a [u8]) {
    if matches!(line, Line::Nothing | Line::Stop { .. }) {
        return (Became::default(), text);
    }
    let (mut became, rest) = cuts_of(text);
    let count = match line {
        Line::Read { count, .. } => *count,
        _ => 1,
    };
    if let Some((Answer::Kept { kept, .. }, _)) = next_answer(rest) {
        became.kept = kept;
    }
    (became, after_lines(rest, count))
}

/// The cuts that come first, the block writes that they lost, and the text after them.
fn cuts_of(text: &[u8]) -> (Became, &[u8]) {
    let mut became = Became::default();
    let mut rest = text;
    for _ in 0..text.len() {
        match next_answer(rest) {
            Some((Answer::Stopped, after)) => {
                became.cuts = became.cuts.saturating_add(1);
                rest = after;
            }
            Some((Answer::Lost { count }, after)) => {
                became.lost = count;
                return (became, after);
            }
            _ => break,
        }
    }
    (became, rest)
}

fn next_answer(text: &[u8]) -> Option<(Answer, &[u8])> {
    let (line, after) = next_line(text, true)?;
    Some((read_answer(line)?, after))
}

fn after_lines(text: &[u8], count: u64) -> &[u8] {
    let mut rest = text;
    for _ in 0..count {
        let Some((_, after)) = next_line(rest, true) else {
            break;
        };
        rest = after;
    }
    rest
}

/// The lines of the volume and what became of them, the newest first. The end is told as of a flush, since no more and
/// no less can become of a flush.
fn run_of(
    alloc: Global,
    lines: &[DiskLine],
    became: &[Became],
    share: u64,
) -> Result<Vec<Ran>, AllocError> {
    let mut run = Vec::new(alloc);
    let mut chosen: u32 = 0;
    for n in 0..became.len() {
        let line = match lines.get(n) {
            Some(DiskLine::Disk { disk }) => {
                chosen = *disk;
                Line::Nothing
            }
            Some(DiskLine::Plain { line }) => {
                at_volume((chosen as u64).saturating_mul(share), line)
            }
            None => Line::Flush,
        };
        run.insert(0, ran_of(line, &became[n]))?;
    }
    Ok(run)
}

fn at_volume(start: u64, line: &Line) -> Line {
    match *line {
        Line::Write { lba, count, tag } => Line::Write {
            lba: start.saturating_add(lba),
            count,
            tag,
        },
        Line::Read { lba, count } => Line::Read {
            lba: start.saturating_add(lba),
            count,
        },
        other => other,
    }
}

fn ran_of(line: Line, became: &Became) -> Ran {
    let kept = match line {
        Line::Write { count, .. } if became.cuts == 0 => count,
        _ => became.kept,
    };
    Ran {
        line,
        cuts: became.cuts,
        kept,
        lost: became.lost,
    }
}

/// Whether the addresses of the lines are numbers of 64 bits.
fn are_addressed(run: &[Ran]) -> bool
    ensures { IsTrue result → AreAddressed run.now }
{
    match run {
        [] => true,
        [newest, earlier @ ..] => {
            if !is_addressed(&newest.line) {
                return false;
            }
            are_addressed(earlier)
        }
    }
}

fn is_addressed(line: &Line) -> bool
    ensures { IsTrue result → IsAddressed line.now }
{
    match line {
        Line::Write { lba, count, .. } => lba.checked_add(*count).is_some(),
        Line::Read { lba, count } => lba.checked_add(*count).is_some(),
        _ => true,
    }
}
