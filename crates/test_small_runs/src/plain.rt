//! The text that a plain disk prints of a trace, when power stopped as a printed text says.

ghost use Rattle.std.specs.Prelude.{IsTrue};
ghost use Rattle.trace_model.specs.Plain.{AreAddressed, AreRunLines, IsAddressed, IsKeptWithin, IsRunLine};

use ft_base::Ack;
use std::alloc::{AllocError, Global};
use trace_model::{Line, Ran, plain_end, plain_fits, plain_told};
use trace_text::{Answer, next_line, put_answer, read_answer, read_line};

/// Reads from a printed text what became of each line of a trace. Says whether a plain disk then prints this text, if
/// each write is acknowledged for good when it answers.
pub fn is_plain(alloc: Global, trace: &[u8], text: &[u8], size: u64) -> Result<bool, AllocError> {
    is_plain_with(alloc, Ack::Write, trace, text, size)
}

/// The same, if writes are acknowledged for good as `ack` says.
pub fn is_plain_with(
    alloc: Global,
    ack: Ack,
    trace: &[u8],
    text: &[u8],
    size: u64,
) -> Result<bool, AllocError> {
    let run = run_of(alloc, trace, text, size)?;
    let run = run.as_slice();
    if !are_run_lines(run) || !plain_fits(alloc, ack, run)? {
        return Ok(false);
    }
    let mut wanted = Vec::new(alloc);
    for answer in &plain_told(alloc, run)? {
        put_answer(&mut wanted, answer)?;
    }
    // The flush before the end line prints nothing itself.
    wanted.truncate(wanted.len().saturating_sub(b"flushed\n".len()));
    put_answer(&mut wanted, &plain_end(alloc, run, 0)?)?;
    Ok(wanted.as_slice() == text)
}

/// How many of the printed lines say a stop, and how many say a write that was cut.
pub fn cuts_told(text: &[u8]) -> (u64, u64) {
    let mut stops: u64 = 0;
    let mut writes: u64 = 0;
    let mut rest = text;
    for _ in 0..text.len() {
        let Some((answer, after)) = next_answer(rest) else {
            break;
        };
        match answer {
            Answer::Stopped => stops = stops.saturating_add(1),
            Answer::Kept { .. } => writes = writes.saturating_add(1),
            _ => {}
        }
        rest = after;
    }
    (stops, writes)
}

/// How many block writes the printed lines say were lost.
pub fn lost_told(text: &[u8]) -> u64 {
    let mut lost: u64 = 0;
    let mut rest = text;
    for _ in 0..text.len() {
        let Some((answer, after)) = next_answer(rest) else {
            break;
        };
        if let Answer::Lost { count } = answer {
            lost = lost.saturating_add(count);
        }
        rest = after;
    }
    lost
}

/// The lines of a run and what became of them, newest first. What comes between the last line and the end line is told
/// as of a flush, since no more and no less can become of a flush.
fn run_of(alloc: Global, trace: &[u8], text: &[u8], size: u64) -> Result<Vec<Ran>, AllocError> {
    let mut run = Vec::new(alloc);
    let mut lines = trace;
    let mut answers = text;
    for _ in 0..trace.len() {
        let Some((spelled, after)) = next_line(lines, true) else {
            break;
        };
        lines = after;
        let Ok(line) = read_line(spelled, size) else {
            break;
        };
        let (ran, rest) = became(line, answers);
        run.insert(0, ran)?;
        answers = rest;
    }
    let (end, _) = became(Line::Flush, answers);
    run.insert(0, end)?;
    Ok(run)
}

/// What became of a line, and the text after its answers.
fn became(line: Line, answers: &[u8]) -> (Ran, &[u8]) {
    let ((cuts, lost), rest) = match line {
        Line::Stop { .. } | Line::Nothing => ((0, 0), answers),
        _ => without_cuts(answers),
    };
    let (kept, rest) = match line {
        Line::Write { count, .. } => kept_of(rest, count),
        Line::Read { count, .. } => (0, after_answers(rest, count)),
        Line::Flush | Line::Idle | Line::Cut { .. } => (0, after_answers(rest, 1)),
        Line::Stop { .. } | Line::Nothing => (0, rest),
    };
    let ran = Ran {
        line,
        cuts,
        kept,
        lost,
    };
    (ran, rest)
}

/// How many lines that say a stop come first, how many block writes were lost then, and the text after that.
fn without_cuts(answers: &[u8]) -> ((u64, u64), &[u8]) {
    let (cuts, rest) = without_stops(answers);
    match next_answer(rest) {
        Some((Answer::Lost { count }, after)) => ((cuts, count), after),
        _ => ((cuts, 0), rest),
    }
}

/// How many lines that say a stop come first, and the text after them.
fn without_stops(answers: &[u8]) -> (u64, &[u8]) {
    let mut cuts: u64 = 0;
    let mut rest = answers;
    for _ in 0..answers.len() {
        match next_answer(rest) {
            Some((Answer::Stopped, after)) => {
                cuts = cuts.saturating_add(1);
                rest = after;
            }
            _ => break,
        }
    }
    (cuts, rest)
}

/// How many blocks of a write count if it has this answer, and the text after the answer.
fn kept_of(answers: &[u8], count: u64) -> (u64, &[u8]) {
    match next_answer(answers) {
        Some((Answer::Kept { kept, .. }, after)) => (kept, after),
        Some((_, after)) => (count, after),
        None => (0, answers),
    }
}

fn after_answers(answers: &[u8], count: u64) -> &[u8] {
    let mut rest = answers;
    for _ in 0..count {
        let Some((_, after)) = next_answer(rest) else {
            break;
        };
        rest = after;
    }
    rest
}

fn next_answer(answers: &[u8]) -> Option<(Answer, &[u8])> {
    let (line, after) = next_line(answers, true)?;
    Some((read_answer(line)?, after))
}

/// Whether the addresses of the lines are numbers of 64 bits, and no more blocks count than a write has.
#[tactic(auto, using(crate::proofs::PlainLemmas::first_runs, crate::proofs::PlainLemmas::first_addressed))]
fn are_run_lines(run: &[Ran]) -> bool
    ensures run { IsTrue result → AreRunLines run.now }
    ensures addressed { IsTrue result → AreAddressed run.now }
{
    let mut rest = run;
    'lines: while !rest.is_empty() {
        if !is_run_line(&rest[0]) {
            return false;
        }
        rest = &rest[1..];
    }
    true
}

fn is_run_line(ran: &Ran) -> bool
    ensures { IsTrue result → IsRunLine ran.now }
{
    is_in_range(ran)
}

fn is_in_range(ran: &Ran) -> bool
    ensures addressed { IsTrue result → IsAddressed ran.now.line }
    ensures kept { IsTrue result → IsKeptWithin ran.now.line ran.now.kept }
{
    match ran.line {
        Line::Write { lba, count, .. } => lba.checked_add(count).is_some() && ran.kept <= count,
        Line::Read { lba, count } => lba.checked_add(count).is_some(),
        _ => true,
    }
}
