//! The held trace: its lines are taken from bytes, up to the first that isn't within the limits of a sweep.
ghost use Rattle.std.specs.Prelude.{◌≡◌, ◌≤◌, ◌<◌, ◌+◌, ◌++◌, ◌∷◌, [], ℕ, All, length, map, vec_len, Ok, Err, OnOk, OnErr, IsErrOf};
ghost use Rattle.trace_model.specs.declared.line.Line.{Line};
ghost use Rattle.trace_model.specs.declared.line.LineError.{LineError};
ghost use Rattle.trace_model.specs.Lines.{line_of, lines_in};
ghost use Rattle.trace_model.specs.Readings.{accepted};
ghost use Rattle.held_trace.specs.Sweep.{IsSweepLine, AreSweepLines-prop, RefusesFirst, blocks_in, blocks_in_line, lines_say, reading_behind};

use crate::TakeError;
use crate::limits::{blocks_of, read_behind};
use std::alloc::Global;
use trace_model::{Line, LineError};
use trace_text::next_line;

/// The lines of a whole trace that a sweep runs, including the lines that say nothing.
#[derive(Drop)]
pub struct HeldTrace {
    /// The size for which the lines were read.
    size: u64,
    lines: Vec<Line>,
    /// How many blocks the lines write and read together.
    blocks: u64,
    ghost few_lines: { vec_len lines ≤ 4096 },
    ghost sweepable: { All (IsSweepLine size) lines.items } by { AreSweepLines-prop size lines.items },
    ghost counted: { blocks ≡ blocks_in lines.items },
    ghost few_blocks: { blocks ≤ 256 },
}

impl HeldTrace {
    ghost use Rattle.held_trace.specs.Held.{lines_of, size_of};

    /// A trace of no line.
    pub(crate) fn new(alloc: Global, size: u64) -> HeldTrace
        ensures none { lines_of result ≡ [] }
        ensures size { size_of result ≡ size }
    {
        HeldTrace {
            size,
            lines: Vec::new(alloc),
            blocks: 0,
        }
    }

    /// The lines, in their order.
    pub fn lines(&self) -> &[Line]
        ensures held { result.now ≡ lines_of self.now }
        ensures sweepable { All (IsSweepLine (size_of self.now)) result.now }
    {
        self.lines.as_slice()
    }

    /// How many lines there are: at most 4,096.
    pub fn turns(&self) -> u64
        ensures count { result ≡ length (lines_of self.now) }
        ensures few { result ≤ 4096 }
    {
        self.lines.len() as u64
    }

    /// How many blocks the lines write and read together: at most 256.
    pub fn blocks(&self) -> u64
        ensures count { result ≡ blocks_in (lines_of self.now) }
        ensures few { result ≤ 256 }
    {
        self.blocks
    }

    /// Why the next line is refused.
    pub(crate) fn refusal(&self, cause: LineError) -> TakeError
        ensures { result ≡ TakeError.Refused (length (lines_of self.now) + 1) cause }
    {
        TakeError::Refused {
            line: self.turns() + 1,
            cause,
        }
    }

    /// Holds the lines of these bytes, up to the first that is refused. Bytes that no line feed follows are a line if
    /// the trace is `whole`.
    pub(crate) fn hold_lines(&mut self, bytes: &[u8], whole: bool) -> Result<(), TakeError>
        requires none { lines_of self.old ≡ [] }
        requires few { length bytes.now ≤ 4096 }
        ensures held { OnOk result (lines_say (size_of self.old) (lines_in whole bytes.now) ≡ map accepted (lines_of self.new)) }
        ensures refused { (number : ℕ) → (cause : LineError) → IsErrOf result (TakeError.Refused number cause)
            → RefusesFirst (lines_say (size_of self.old) (lines_in whole bytes.now)) number cause }
        ensures read { IsErrOf result TakeError.Source → ⊥ }
        ensures size { size_of self.new ≡ size_of self.old }
    {
        let mut rest = bytes;
        'lines: while let Some((line, after)) = next_line(rest, whole) {
            if let Err(error) = self.hold_line(line) {
                return Err(error);
            }
            rest = after;
        }
        Ok(())
    }

    /// Holds the line with this spelling, unless the line is refused.
    fn hold_line(&mut self, spelled: &[u8]) -> Result<(), TakeError>
        requires room { length (lines_of self.old) < 4096 }
        ensures held { OnOk result ((line : Line) × (reading_behind self.old.blocks (line_of (size_of self.old) spelled.now) ≡ Ok line)
            × (lines_of self.new ≡ lines_of self.old ++ line ∷ []) × (self.new.blocks ≡ self.old.blocks + blocks_in_line line)) }
        ensures refused { (number : ℕ) → (cause : LineError) → IsErrOf result (TakeError.Refused number cause)
            → (reading_behind self.old.blocks (line_of (size_of self.old) spelled.now) ≡ Err cause)
            × (number ≡ length (lines_of self.old) + 1) }
        ensures read { IsErrOf result TakeError.Source → ⊥ }
        ensures size { size_of self.new ≡ size_of self.old }
    {
        match read_behind(spelled, self.size, self.blocks) {
            Ok(line) => self.push(line),
            Err(cause) => Err(self.refusal(cause)),
        }
    }

    fn push(&mut self, line: Line) -> Result<(), TakeError>
        requires room { length (lines_of self.old) < 4096 }
        requires sweepable { IsSweepLine (size_of self.old) line }
        requires few { self.old.blocks + blocks_in_line line ≤ 256 }
        ensures held { OnOk result (lines_of self.new ≡ lines_of self.old ++ line ∷ []) }
        ensures blocks { OnOk result (self.new.blocks ≡ self.old.blocks + blocks_in_line line) }
        ensures refused { OnErr result (IsErrOf result TakeError.Memory) }
        ensures size { size_of self.new ≡ size_of self.old }
    {
        let Ok(()) = self.lines.push(line) else {
            return Err(TakeError::Memory);
        };
        self.blocks += blocks_of(&line);
        Ok(())
    }
}
