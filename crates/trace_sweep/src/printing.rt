//! The lines that only a sweep prints.
ghost use Rattle.std.specs.Prelude.{◌≡◌, ◌⊎◌, ◌≤◌, [], OnOk, OnErr, IfOk, IfErr, IsErrOf};
ghost use Rattle.std.specs.Io.KnownBytes.{Appends};
ghost use Rattle.std.specs.String.{string_bytes};
ghost use Rattle.ft_base.specs.Count.{Rose};
ghost use Rattle.trace_sweep.specs.Ends.{PrintsPart};
ghost use Rattle.trace_sweep.specs.Runs as runs;

use ft_base::{Sink, send};
use std::alloc::{AllocError, Global};
use trace_replay::Ended;

/// The line that is printed before a run.
#[tactic(auto, unfolding(crate::specs::Runs::at_text))]
pub(crate) fn at_line(alloc: Global, number: u64) -> Result<String, AllocError>
    ensures { IfOk result (λ t. string_bytes t ≡ runs.at_text number) }
{
    format!(in alloc; "at {number}\n")
}

/// The last line.
#[tactic(auto, unfolding(crate::specs::Runs::swept_text))]
fn swept_line(alloc: Global, count: u64) -> Result<String, AllocError>
    ensures { IfOk result (λ t. string_bytes t ≡ runs.swept_text count) }
{
    format!(in alloc; "swept {count}\n")
}

/// Prints a line, or a front of it if the sink fails.
fn print_line<O: Sink>(sink: &mut O, line: &[u8]) -> Result<(), Ended>
    ensures printed { OnOk result (Appends (O.state sink.old).taken (O.state sink.new).taken line.now) }
    ensures part { IfErr result (λ e. PrintsPart e [] line.now (O.state sink.old) (O.state sink.new)) }
    ensures rose { OnErr result (Rose (O.state sink.old).faults (O.state sink.new).faults) }
    ensures stays { OnOk result ((O.state sink.new).faults ≡ (O.state sink.old).faults) }
    ensures only { OnErr result (IsErrOf result Ended.Sink) }
    ensures later { (O.state sink.old).faults ≤ (O.state sink.new).faults }
    ensures lent { (O.state sink.new).lent ≡ (O.state sink.old).lent }
{
    match send(sink, line) {
        Ok(()) => Ok(()),
        Err(_) => Err(Ended::Sink),
    }
}

/// Prints the line of a run.
pub(crate) fn print_at<O: Sink>(alloc: Global, sink: &mut O, number: u64) -> Result<(), Ended>
    ensures printed { OnOk result (Appends (O.state sink.old).taken (O.state sink.new).taken (runs.at_text number)) }
    ensures part { IfErr result (λ e. PrintsPart e [] (runs.at_text number) (O.state sink.old) (O.state sink.new)) }
    ensures rose { IsErrOf result Ended.Sink → Rose (O.state sink.old).faults (O.state sink.new).faults }
    ensures stays { (IsErrOf result Ended.Sink → ⊥) → (O.state sink.new).faults ≡ (O.state sink.old).faults }
    ensures only { OnErr result (IsErrOf result Ended.Sink ⊎ IsErrOf result Ended.Memory) }
    ensures later { (O.state sink.old).faults ≤ (O.state sink.new).faults }
    ensures lent { (O.state sink.new).lent ≡ (O.state sink.old).lent }
{
    let Ok(line) = at_line(alloc, number) else {
        return Err(Ended::Memory);
    };
    print_line(sink, line.as_bytes())
}

/// Prints the last line.
pub(crate) fn print_swept<O: Sink>(alloc: Global, sink: &mut O, count: u64) -> Result<(), Ended>
    ensures printed { OnOk result (Appends (O.state sink.old).taken (O.state sink.new).taken (runs.swept_text count)) }
    ensures part { IfErr result (λ e. PrintsPart e [] (runs.swept_text count) (O.state sink.old) (O.state sink.new)) }
    ensures rose { IsErrOf result Ended.Sink → Rose (O.state sink.old).faults (O.state sink.new).faults }
    ensures stays { (IsErrOf result Ended.Sink → ⊥) → (O.state sink.new).faults ≡ (O.state sink.old).faults }
    ensures only { OnErr result (IsErrOf result Ended.Sink ⊎ IsErrOf result Ended.Memory) }
    ensures later { (O.state sink.old).faults ≤ (O.state sink.new).faults }
    ensures lent { (O.state sink.new).lent ≡ (O.state sink.old).lent }
{
    let Ok(line) = swept_line(alloc, count) else {
        return Err(Ended::Memory);
    };
    print_line(sink, line.as_bytes())
}
