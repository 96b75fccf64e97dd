//! A whole sweep.
ghost use Rattle.std.specs.Prelude.{◌≡◌, ◌⊎◌, ◌≤◌, All, length, true, OnOk, IsErrOf};
ghost use Rattle.std.specs.Io.KnownBytes.{IsAtEnd};
ghost use Rattle.cache_model.specs.Stands.{ImageStandsFor};
ghost use Rattle.cache_run.specs.Ends.{told_by};
ghost use Rattle.held_trace.specs.Sweep.{IsSweepLine, SweepReads};
ghost use Rattle.trace_replay.specs.Causes.{EndHasCauseUntraced, KeepsStreamsUntraced};
ghost use Rattle.trace_replay.specs.Lent.{KeepsLent};
ghost use Rattle.trace_sweep.specs.Causes.{SweepHasCause};
ghost use Rattle.trace_sweep.specs.Ends.{EndsHeld, EndsSweep};

use crate::printing::print_swept;
use crate::runs::{Sweep, sweep_each};
use crate::taking::take_trace;
use cache_run::{Setup, count_lines};
use ft_base::{Outcome, Sink, Source};
use ft_media::{Media, Rig};
use std::alloc::Global;
use trace_model::Line;
use trace_replay::Ended;

/// Runs these lines once to count their device writes, then once for each device write. Prints how many there are.
fn sweep_lines<O: Sink, R: Rig>(
    alloc: Global,
    setup: &Setup,
    outcome: Outcome,
    lines: &[Line],
    sink: &mut O,
    rig: &mut R,
) -> Result<(), Ended>
    requires lines { All (IsSweepLine setup.now.options.geometry.size) lines.now }
    requires few { length lines.now ≤ 4096 }
    ensures ends { EndsHeld (told_by setup.now) outcome lines.now (O.state sink.old) (O.state sink.new)
        (ImageStandsFor setup.now.options.geometry) (R.state rig.old) (R.state rig.new) result }
    ensures causes { EndHasCauseUntraced result (O.state sink.old) (O.state sink.new) (R.state rig.old) (R.state rig.new) }
    ensures on { (IsErrOf result Ended.Memory → ⊥) → (R.state rig.new).power.on ≡ true }
    ensures goes { KeepsStreamsUntraced (O.state sink.old) (O.state sink.new) (R.state rig.old) (R.state rig.new) }
{
    let count = count_lines(alloc, setup, lines, rig)?;
    let sweep = Sweep {
        setup,
        outcome,
        lines,
    };
    match sweep_each(alloc, &sweep, count, sink, rig) {
        Ok(()) => print_swept(alloc, sink, count),
        Err(ended) => Err(ended),
    }
}

/// Reads a whole small trace, and runs it over new volumes of this setup. The first run prints nothing and counts the
/// device writes. Then the trace is run once for each device write, with power cut there and in the second device write
/// after it. Each of these runs prints `at K` and then the answer to each request. `swept N` is printed at the end.
///
/// The trace has at most 4,096 bytes, its `w` and `r` lines at most 256 blocks together, and no line cuts power. A
/// refused line is printed before anything is run. The lines are held once, and no text is kept.
pub fn sweep_with<I: Source, O: Sink, R: Rig>(
    alloc: Global,
    setup: &Setup,
    outcome: Outcome,
    source: &mut I,
    sink: &mut O,
    rig: &mut R,
) -> Result<(), Ended>
    ensures ends { EndsSweep (told_by setup.now) outcome
        (SweepReads setup.now.options.geometry.size (I.state source.old) (I.state source.new)) (O.state sink.old)
        (O.state sink.new) (ImageStandsFor setup.now.options.geometry) (R.state rig.old) (R.state rig.new) result }
    ensures end { OnOk result (IsAtEnd (I.state source.new).left) }
    ensures causes { SweepHasCause result (I.state source.old) (I.state source.new) (O.state sink.old) (O.state sink.new) (R.state rig.old)
        (R.state rig.new) }
    // A refused trace leaves the rig as it was, and power off if it was off.
    ensures untouched { IsErrOf result Ended.Trace ⊎ IsErrOf result Ended.Source → rig.new ≡ rig.old }
    ensures on { (IsErrOf result Ended.Memory → ⊥) → (rig.new ≡ rig.old) ⊎ ((R.state rig.new).power.on ≡ true) }
    ensures lent { KeepsLent (I.state source.old) (I.state source.new) (O.state sink.old) (O.state sink.new) (R.state rig.old)
        (R.state rig.new) }
{
    let held = take_trace(alloc, source, sink, setup.options.geometry.size())?;
    sweep_lines(alloc, setup, outcome, held.lines(), sink, rig)
}
