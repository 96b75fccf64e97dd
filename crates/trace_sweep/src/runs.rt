//! The runs of a sweep.
ghost use Rattle.std.specs.Prelude.{◌≡◌, ◌≢◌, ◌⊎◌, ◌≤◌, ◌<◌, ◌^◌, ℕ, [], List, All, length, true, OnOk, IfErr, IsErrOf};
ghost use Rattle.cache_model.specs.Stands.{ImageStandsFor};
ghost use Rattle.cache_run.specs.Ends.{told_by};
ghost use Rattle.trace_model.specs.Lines.{IsRunnable};
ghost use Rattle.trace_replay.specs.Causes.{EndHasCauseUntraced, KeepsStreamsUntraced};
ghost use Rattle.trace_replay.specs.Held.{AreRunnable-prop, stops_held};
ghost use Rattle.trace_sweep.specs.Ends.{BreaksAt};
ghost use Rattle.trace_sweep.specs.Runs.{Swept};
ghost use Rattle.trace_sweep.specs.SoFar.{BreaksSweep, HasSwept, RunsAt};

use crate::printing::print_at;
use cache_run::{Setup, replay_lines};
use ft_base::{Outcome, Sink};
use ft_media::{Media, Rig};
use std::alloc::Global;
use trace_model::Line;
use trace_replay::Ended;

/// The trace that is run again and again, over new volumes of a setup. None of its lines arms a stop.
#[derive(Drop)]
pub(crate) struct Sweep<'a> {
    pub(crate) setup: &'a Setup,
    /// What each power cut leaves.
    pub(crate) outcome: Outcome,
    pub(crate) lines: &'a [Line],
    ghost runnable: { All (IsRunnable setup.now.options.geometry.size) lines.now } by { AreRunnable-prop setup.now.options.geometry.size lines.now },
    ghost few: { length lines.now ≤ 4096 },
    ghost unarmed: { stops_held lines.now ≡ 0 },
}

/// Runs the trace with power cut in this device write, counted from 1, and in the second one after it. Prints the
/// line of the run and then the answer to each request.
pub(crate) fn sweep_at<O: Sink, R: Rig>(
    alloc: Global,
    sweep: &Sweep<'_>,
    number: u64,
    sink: &mut O,
    rig: &mut R,
) -> Result<(), Ended>
    requires first { 1 ≤ number }
    requires on { (R.state rig.old).power.on ≡ true }
    ensures whole { OnOk result (RunsAt (told_by sweep.now.setup.now) sweep.now.outcome sweep.now.lines.now (O.state sink.old)
        (O.state sink.new) (ImageStandsFor sweep.now.setup.now.options.geometry) (R.state rig.old) (R.state rig.new) number) }
    ensures part { IfErr result (λ e. BreaksAt (told_by sweep.now.setup.now) sweep.now.outcome sweep.now.lines.now number []
        (O.state sink.old) (O.state sink.new) (ImageStandsFor sweep.now.setup.now.options.geometry) (R.state rig.new) e) }
    ensures causes { EndHasCauseUntraced result (O.state sink.old) (O.state sink.new) (R.state rig.old) (R.state rig.new) }
    ensures on { (R.state rig.new).power.on ≡ true }
    ensures goes { KeepsStreamsUntraced (O.state sink.old) (O.state sink.new) (R.state rig.old) (R.state rig.new) }
{
    print_at(alloc, sink, number)?;
    let outcome = sweep.outcome;
    let stops = [
        Line::Stop {
            after: number,
            outcome,
        },
        Line::Stop { after: 2, outcome },
    ];
    replay_lines(alloc, sweep.setup, &stops, sweep.lines, sink, rig)
}

/// Runs the trace once for each of `count` device writes, in their order.
pub(crate) fn sweep_each<O: Sink, R: Rig>(
    alloc: Global,
    sweep: &Sweep<'_>,
    count: u64,
    sink: &mut O,
    rig: &mut R,
) -> Result<(), Ended>
    requires on { (R.state rig.old).power.on ≡ true }
    ensures whole { OnOk result ((runs : List Swept) × (length runs ≡ count) × HasSwept (told_by sweep.now.setup.now)
        sweep.now.outcome sweep.now.lines.now (O.state sink.old) (O.state sink.new)
        (ImageStandsFor sweep.now.setup.now.options.geometry) (R.state rig.old) (R.state rig.new) runs) }
    ensures part { IfErr result (λ e. BreaksSweep (told_by sweep.now.setup.now) sweep.now.outcome sweep.now.lines.now
        (O.state sink.old) (O.state sink.new) (ImageStandsFor sweep.now.setup.now.options.geometry) (R.state rig.old)
        (R.state rig.new) count e) }
    ensures causes { EndHasCauseUntraced result (O.state sink.old) (O.state sink.new) (R.state rig.old) (R.state rig.new) }
    ensures on { (R.state rig.new).power.on ≡ true }
    ensures goes { KeepsStreamsUntraced (O.state sink.old) (O.state sink.new) (R.state rig.old) (R.state rig.new) }
{
    let mut number = 0;
    'runs: while number < count {
        number += 1;
        match sweep_at(alloc, sweep, number, sink, rig) {
            Ok(()) => {}
            Err(ended) => return Err(ended),
        }
    }
    Ok(())
}
