//! A trace that is read, in the form in which its lines are spelled, over one disk or several.
ghost use Rattle.std.specs.Prelude.{◌≡◌, ◌≤◌, ◌⊎◌, true, OnOk, IsErrOf};
ghost use Rattle.std.specs.Io.KnownBytes.{IsAtEnd};
ghost use Rattle.flashtier_words.specs.declared.command.Command.TheVariants.{Cost, Replay};
ghost use Rattle.trace_replay.specs.Causes.{EndHasCause};
ghost use Rattle.trace_replay.specs.Lent.{KeepsLent};
ghost use Rattle.trace_replay.specs.Said.{Tells, TellsPart};
ghost use Rattle.cache_run.specs.Begun.{IsUnbegun};
ghost use Rattle.cache_run.specs.Ends.{EndsNew};
ghost use Rattle.flashtier_run.specs.Ends.{EndsCommand, ReadsIn};

use cache_run::{Setup, cost_with, replay_form_with, replay_many_with, replay_with};
use flashtier_words::TraceForm;
use ft_base::{Sink, Source};
use ft_media::{Media, Rig};
use msr_trace::MsrForm;
use std::alloc::Global;
use trace_replay::{Ended, TextForm};

/// A trace that is read.
#[derive(Clone, Copy, Debug, PartialEq, Eq)]
pub(crate) struct ReadTrace {
    /// How its lines are spelled if there is one disk. Over several they are words.
    pub(crate) form: TraceForm,
    /// How many disks share the volume.
    pub(crate) disks: u32,
}

/// Runs a trace over its disks, which share a new volume, and prints what each request answered.
pub(crate) fn replay_over<I: Source, O: Sink, R: Rig>(
    alloc: Global,
    setup: &Setup,
    trace: ReadTrace,
    source: &mut I,
    sink: &mut O,
    rig: &mut R,
) -> Result<(), Ended>
    requires some { 1 ≤ trace.disks }
    requires few { trace.disks ≤ 16 }
    requires shared { trace.disks ≤ setup.now.options.geometry.size }
    // It ended before the volume was made, or as a run over it.
    ensures ends { IsUnbegun result source.old source.new sink.old sink.new (R.state rig.old) (R.state rig.new)
        ⊎ EndsCommand (I.state source.old) (I.state source.new) (O.state sink.old) (O.state sink.new) (R.state rig.old)
        (R.state rig.new) (Replay setup.now.mode setup.now.options trace.form trace.disks) result }
    ensures end { OnOk result (IsAtEnd (I.state source.new).left) }
    ensures causes { EndHasCause result (I.state source.old) (I.state source.new) (O.state sink.old) (O.state sink.new) (R.state rig.old)
        (R.state rig.new) }
    ensures on { (IsErrOf result Ended.Memory → ⊥) → (R.state rig.new).power.on ≡ true }
    ensures lent { KeepsLent (I.state source.old) (I.state source.new) (O.state sink.old) (O.state sink.new) (R.state rig.old)
        (R.state rig.new) }
{
    if trace.disks == 1 {
        return replay_spelled(alloc, setup, trace.form, source, sink, rig);
    }
    replay_many_with(alloc, setup, trace.disks, source, sink, rig)
}

/// Runs a trace whose lines are in this form over a new volume, and prints what each request answered.
fn replay_spelled<I: Source, O: Sink, R: Rig>(
    alloc: Global,
    setup: &Setup,
    form: TraceForm,
    source: &mut I,
    sink: &mut O,
    rig: &mut R,
) -> Result<(), Ended>
    // It ended before the volume was made, or as a run over it.
    ensures ends { EndsNew setup.now (ReadsIn form setup.now.options.geometry.size (I.state source.old) (I.state source.new))
        (Tells (O.state sink.old) (O.state sink.new)) (TellsPart (O.state sink.old) (O.state sink.new)) source.old source.new
        sink.old sink.new (R.state rig.old) (R.state rig.new) result }
    ensures end { OnOk result (IsAtEnd (I.state source.new).left) }
    ensures causes { EndHasCause result (I.state source.old) (I.state source.new) (O.state sink.old) (O.state sink.new) (R.state rig.old)
        (R.state rig.new) }
    ensures on { (IsErrOf result Ended.Memory → ⊥) → (R.state rig.new).power.on ≡ true }
    ensures lent { KeepsLent (I.state source.old) (I.state source.new) (O.state sink.old) (O.state sink.new) (R.state rig.old)
        (R.state rig.new) }
{
    match form {
        TraceForm::Lines => replay_with(alloc, setup, source, sink, rig),
        TraceForm::Msr => replay_form_with::<MsrForm, I, O, R>(alloc, setup, source, sink, rig),
    }
}

/// Runs a trace whose lines are in this form over a new volume, and prints what it cost.
pub(crate) fn cost_spelled<I: Source, O: Sink, R: Rig>(
    alloc: Global,
    setup: &Setup,
    form: TraceForm,
    source: &mut I,
    sink: &mut O,
    rig: &mut R,
) -> Result<(), Ended>
    // It ended before the volume was made, or as a run over it of which the cost is told.
    ensures ends { IsUnbegun result source.old source.new sink.old sink.new (R.state rig.old) (R.state rig.new)
        ⊎ EndsCommand (I.state source.old) (I.state source.new) (O.state sink.old) (O.state sink.new) (R.state rig.old)
        (R.state rig.new) (Cost setup.now.mode setup.now.options form) result }
    ensures end { OnOk result (IsAtEnd (I.state source.new).left) }
    ensures causes { EndHasCause result (I.state source.old) (I.state source.new) (O.state sink.old) (O.state sink.new) (R.state rig.old)
        (R.state rig.new) }
    ensures on { (IsErrOf result Ended.Memory → ⊥) → (R.state rig.new).power.on ≡ true }
    ensures lent { KeepsLent (I.state source.old) (I.state source.new) (O.state sink.old) (O.state sink.new) (R.state rig.old)
        (R.state rig.new) }
{
    match form {
        TraceForm::Lines => cost_with::<TextForm, I, O, R>(alloc, setup, source, sink, rig),
        TraceForm::Msr => cost_with::<MsrForm, I, O, R>(alloc, setup, source, sink, rig),
    }
}
