//! Reads a trace, and then holds its lines.
ghost use Rattle.std.specs.Prelude.{◌≡◌, ◌≤◌, ℕ, Bool, true, false, List, [], length, map, IfOk, OnOk, IsErrOf};
ghost use Rattle.ft_base.specs.Count.{Rose};
ghost use Rattle.trace_model.specs.declared.line.Line.{Line};
ghost use Rattle.trace_model.specs.declared.line.LineError.{LineError};
ghost use Rattle.trace_model.specs.Lines.{lines_in};
ghost use Rattle.trace_model.specs.Readings.{Reading, accepted};
ghost use Rattle.held_trace.specs.Front.{IsFrontTo, is_whole};
ghost use Rattle.held_trace.specs.Held.{lines_of, size_of};
ghost use Rattle.held_trace.specs.Sweep.{RefusesFirst, SweepReads, sweep_readings};

use crate::HeldTrace;
use crate::front::{ReadTo, read_front};
use crate::limits::{BYTE_LIMIT, first_bytes, is_over_long};
use ft_base::Source;
use std::alloc::Global;
use thiserror::Error;
use trace_model::LineError;

/// Why a trace can't be held.
#[derive(Clone, Copy, Debug, PartialEq, Eq, Error)]
pub enum TakeError {
    /// A line is refused, and all lines before it are accepted.
    #[error("line {line} of the trace is refused: {cause}")]
    Refused {
        /// The line's number, counted from 1.
        line: u64,
        /// Why the line is refused.
        cause: LineError,
    },
    /// The source failed, and its count of faults rose.
    #[error("the source failed")]
    Source,
    /// Out of memory.
    #[error("out of memory")]
    Memory,
}

impl HeldTrace {
    /// Reads a trace to its end and holds its lines, for a volume of `size` blocks. It takes at most the first byte
    /// past the limit of 4,096 bytes.
    ///
    /// It refuses each line that `read_line` refuses, and three more. The line with the first byte past the limit is
    /// `TooLong`, whatever it says. A line with which the `w` and `r` lines have more than 256 blocks together is
    /// `TooLong`. A `stop` or `cut` line is `BadWord`.
    ///
    /// If a line before the place of a fault is refused, the answer is the refusal and not the fault.
    pub fn take<I: Source>(alloc: Global, source: &mut I, size: u64) -> Result<HeldTrace, TakeError>
        ensures held { IfOk result (λ t. SweepReads size (I.state source.old) (I.state source.new) (map accepted (lines_of t)) true) }
        ensures size { IfOk result (λ t. size_of t ≡ size) }
        ensures refused { (line : ℕ) → (cause : LineError) → IsErrOf result (TakeError.Refused line cause)
            → (all : List Reading) × (whole : Bool) × SweepReads size (I.state source.old) (I.state source.new) all whole
            × RefusesFirst all line cause }
        ensures source { IsErrOf result TakeError.Source → Rose (I.state source.old).faults (I.state source.new).faults
            × ((lines : List Line) × SweepReads size (I.state source.old) (I.state source.new) (map accepted lines) false) }
        ensures told { OnOk result ((I.state source.new).faults ≡ (I.state source.old).faults) }
        ensures later { (I.state source.old).faults ≤ (I.state source.new).faults }
        ensures lent { (I.state source.new).lent ≡ (I.state source.old).lent }
    {
        let mut buffer = [0u8; 4097];
        let (count, to) = read_front(source, &mut buffer);
        hold_front(alloc, &buffer[..count], to, size)
    }
}

/// Holds the lines of the front of a trace if the front is the whole trace and no line is refused.
fn hold_front(alloc: Global, front: &[u8], to: ReadTo, size: u64) -> Result<HeldTrace, TakeError>
    requires far { IsFrontTo to (length front.now) }
    ensures so_far { IsFrontTo to (length front.now) }
    ensures held { IfOk result (λ t. (to ≡ ReadTo.End) × (sweep_readings size true front.now ≡ map accepted (lines_of t))) }
    ensures size { IfOk result (λ t. size_of t ≡ size) }
    ensures refused { (line : ℕ) → (cause : LineError) → IsErrOf result (TakeError.Refused line cause)
        → RefusesFirst (sweep_readings size (is_whole to) front.now) line cause }
    ensures source { IsErrOf result TakeError.Source → (to ≡ ReadTo.Fault)
        × ((lines : List Line) × (sweep_readings size false front.now ≡ map accepted lines)) }
{
    let held = HeldTrace::new(alloc, size);
    match to {
        ReadTo::End => hold_whole(held, front),
        ReadTo::Fault => Err(after_fault(held, front)),
        ReadTo::Limit => Err(past_limit(held, front)),
    }
}

/// Holds the lines of a whole trace if none of them is refused.
fn hold_whole(held: HeldTrace, trace: &[u8]) -> Result<HeldTrace, TakeError>
    requires none { lines_of held ≡ [] }
    requires few { length trace.now ≤ 4096 }
    ensures held { IfOk result (λ t. sweep_readings (size_of held) true trace.now ≡ map accepted (lines_of t)) }
    ensures size { IfOk result (λ t. size_of t ≡ size_of held) }
    ensures refused { (line : ℕ) → (cause : LineError) → IsErrOf result (TakeError.Refused line cause)
        → RefusesFirst (sweep_readings (size_of held) true trace.now) line cause }
    ensures read { IsErrOf result TakeError.Source → ⊥ }
{
    let mut held = held;
    match held.hold_lines(trace, true) {
        Ok(()) => Ok(held),
        Err(error) => Err(error),
    }
}

/// Why a trace can't be held, when these bytes of it were read before the source failed.
fn after_fault(held: HeldTrace, front: &[u8]) -> TakeError
    requires none { lines_of held ≡ [] }
    requires few { length front.now ≤ 4096 }
    ensures refused { (line : ℕ) → (cause : LineError) → result ≡ TakeError.Refused line cause
        → RefusesFirst (sweep_readings (size_of held) false front.now) line cause }
    ensures source { result ≡ TakeError.Source
        → (lines : List Line) × (sweep_readings (size_of held) false front.now ≡ map accepted lines) }
{
    let mut held = held;
    if let Err(error) = held.hold_lines(front, false) {
        return error;
    }
    if is_over_long(front) {
        return held.refusal(LineError::LineTooLong);
    }
    TakeError::Source
}

/// Why a trace that goes on past the limit can't be held.
fn past_limit(held: HeldTrace, front: &[u8]) -> TakeError
    requires none { lines_of held ≡ [] }
    requires long { length front.now ≡ 4097 }
    ensures refused { (line : ℕ) → (cause : LineError) → result ≡ TakeError.Refused line cause
        → RefusesFirst (sweep_readings (size_of held) false front.now) line cause }
    ensures read { result ≡ TakeError.Source → ⊥ }
{
    let mut held = held;
    if let Err(error) = held.hold_lines(first_bytes(front, BYTE_LIMIT), false) {
        return error;
    }
    held.refusal(LineError::TooLong)
}
