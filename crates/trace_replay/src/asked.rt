//! What the lines of a run ask for, counted.
ghost use Rattle.std.specs.Prelude.{◌≡◌, ◌+◌, ◌++◌, ◌∷◌, ℕ, [], List};
ghost use Rattle.trace_model.specs.Fits.{block_count};
ghost use Rattle.trace_replay.specs.Asked as asked;
ghost use Rattle.trace_replay.specs.Asked.{IsAskedIn, IsTotal};
ghost use Rattle.trace_replay.specs.Events.{Event};
ghost use Rattle.trace_replay.specs.Events.Event.{Gave, Took};

use trace_model::{Answer, Line};

/// What the lines of a run asked for, and how often power was cut. None stands for a number that doesn't fit.
#[derive(Clone, Copy, Debug, PartialEq, Eq)]
pub struct Asked {
    /// Blocks that its lines write.
    pub written: Option<u64>,
    /// Blocks that its lines read.
    pub read: Option<u64>,
    /// Power cuts, by stops and by lines.
    pub cuts: Option<u64>,
}

/// The blocks that a line writes.
fn written_by(line: &Line) -> u64
    ensures { result ≡ block_count line.now }
{
    match *line {
        Line::Write { count, .. } => count,
        _ => 0,
    }
}

/// The blocks that a line reads.
fn read_by(line: &Line) -> u64
    ensures { result ≡ asked.read_blocks line.now }
{
    match *line {
        Line::Read { count, .. } => count,
        _ => 0,
    }
}

/// How often an answer tells that power was cut.
fn cuts_by(answer: &Answer) -> u64
    ensures { result ≡ asked.power_cut answer.now }
{
    match *answer {
        Answer::Stopped | Answer::Cut => 1,
        _ => 0,
    }
}

/// A total and so many more.
fn more(total: Option<u64>, count: u64) -> Option<u64>
    ensures { (n : ℕ) → IsTotal n total → IsTotal (n + count) result }
{
    match total {
        Some(total) => total.checked_add(count),
        None => None,
    }
}

impl Asked {
    /// Nothing was asked.
    pub(crate) fn new() -> Asked
        ensures { IsAskedIn [] result }
    {
        Asked {
            written: Some(0),
            read: Some(0),
            cuts: Some(0),
        }
    }

    /// Counts a line that was given.
    pub(crate) fn give(&mut self, line: &Line)
        ensures { (e : List Event) → IsAskedIn e self.old → IsAskedIn (e ++ Gave line.now ∷ []) self.new }
    {
        self.written = more(self.written, written_by(line));
        self.read = more(self.read, read_by(line));
    }

    /// Counts an answer that was taken.
    pub(crate) fn take(&mut self, answer: &Answer)
        ensures { (e : List Event) → IsAskedIn e self.old → IsAskedIn (e ++ Took answer.now ∷ []) self.new }
    {
        self.cuts = more(self.cuts, cuts_by(answer));
    }
}
