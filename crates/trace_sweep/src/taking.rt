//! Reads the whole trace before any of it is run.
ghost use Rattle.std.specs.Prelude.{◌≡◌, ◌≢◌, ◌≤◌, ◌∷◌, [], Some, true, All, length, map, OnOk, OnErr, IfErr, IfOk, IsErrOf};
ghost use Rattle.ft_base.specs.Count.{Rose};
ghost use Rattle.held_trace.specs.Held.{lines_of, size_of};
ghost use Rattle.held_trace.specs.Sweep.{SweepReads};
ghost use Rattle.trace_model.specs.declared.answer.Answer.TheVariants as answer_kind;
ghost use Rattle.trace_model.specs.Readings.{accepted};
ghost use Rattle.trace_replay.specs.Causes.{EndHasCause};
ghost use Rattle.trace_replay.specs.Said.{Said, SaidPart};
ghost use Rattle.trace_sweep.specs.Ends.{EndsTaken};

use ft_base::{Sink, Source};
use held_trace::{HeldTrace, TakeError};
use std::alloc::Global;
use trace_model::{Answer, LineError};
use trace_replay::{Ended, say};

/// Prints the refusal of a line.
fn say_refusal<O: Sink>(alloc: Global, sink: &mut O, line: u64, cause: LineError) -> Ended
    ensures whole { result ≡ Ended.Trace → Said (O.state sink.old) (O.state sink.new) (answer_kind.Refused line cause ∷ []) }
    ensures part { result ≡ Ended.Sink → SaidPart (O.state sink.old) (O.state sink.new) [] (Some (answer_kind.Refused line cause)) }
    ensures none { result ≡ Ended.Memory → Said (O.state sink.old) (O.state sink.new) [] }
    ensures rose { result ≡ Ended.Sink → Rose (O.state sink.old).faults (O.state sink.new).faults }
    ensures stays { result ≢ Ended.Sink → (O.state sink.new).faults ≡ (O.state sink.old).faults }
    ensures only { (result ≢ Ended.Source) × ((result ≢ Ended.Flash) × (result ≢ Ended.Disk)) }
    ensures later { (O.state sink.old).faults ≤ (O.state sink.new).faults }
    ensures lent { (O.state sink.new).lent ≡ (O.state sink.old).lent }
{
    match say(alloc, sink, &Answer::Refused { line, cause }) {
        Ok(()) => Ended::Trace,
        Err(ended) => ended,
    }
}

/// Reads a whole trace and holds its lines, for a volume with this number of blocks. Prints which line is refused.
pub(crate) fn take_trace<I: Source, O: Sink>(
    alloc: Global,
    source: &mut I,
    sink: &mut O,
    size: u64,
) -> Result<HeldTrace, Ended>
    ensures held { IfOk result (λ t. SweepReads size (I.state source.old) (I.state source.new) (map accepted (lines_of t)) true) }
    ensures size { IfOk result (λ t. size_of t ≡ size) }
    ensures silent { OnOk result (sink.new ≡ sink.old) }
    ensures ends { OnErr result (EndsTaken (SweepReads size (I.state source.old) (I.state source.new)) (O.state sink.old) (O.state sink.new)
        result) }
    ensures source { IsErrOf result Ended.Source → Rose (I.state source.old).faults (I.state source.new).faults }
    ensures sink { IsErrOf result Ended.Sink → Rose (O.state sink.old).faults (O.state sink.new).faults }
    ensures source_stays { OnOk result ((I.state source.new).faults ≡ (I.state source.old).faults) }
    ensures sink_stays { (IsErrOf result Ended.Sink → ⊥) → (O.state sink.new).faults ≡ (O.state sink.old).faults }
    ensures later { (O.state sink.old).faults ≤ (O.state sink.new).faults }
    ensures source_lent { (I.state source.new).lent ≡ (I.state source.old).lent }
    ensures sink_lent { (O.state sink.new).lent ≡ (O.state sink.old).lent }
{
    match HeldTrace::take(alloc, source, size) {
        Ok(held) => Ok(held),
        Err(TakeError::Refused { line, cause }) => Err(say_refusal(alloc, sink, line, cause)),
        Err(TakeError::Source) => Err(Ended::Source),
        Err(TakeError::Memory) => Err(Ended::Memory),
    }
}
