//! Runs over a trace that is read from a source, in either mode: in any form of lines, or over several disks.
ghost use Rattle.std.specs.Prelude.{◌≡◌, ◌⊎◌, ◌≤◌, true, OnOk, IsErrOf};
ghost use Rattle.std.specs.Io.KnownBytes.{IsAtEnd};
ghost use Rattle.cache_model.specs.Stands.{ImageStandsFor};
ghost use Rattle.trace_model.specs.Readings.{Reads};
ghost use Rattle.many_disks.specs.Ends.{EndsMany};
ghost use Rattle.trace_replay.specs.Causes.{EndHasCause};
ghost use Rattle.trace_replay.specs.Forms.{ReadsBy};
ghost use Rattle.trace_replay.specs.Lent.{KeepsLent};
ghost use Rattle.trace_replay.specs.Said.{Tells, TellsPart};
ghost use Rattle.cache_run.specs.Begun.{IsUnbegun};
ghost use Rattle.cache_run.specs.Ends.{EndsNew, told_by};
ghost use Rattle.cache_run.specs.Fitted.{fitted_for};

use crate::beginning::{begin_back, begin_through};
use crate::setup::Setup;
use ft_base::{Sink, Source};
use ft_media::{Media, Rig};
use ft_volume::Mode;
use many_disks::replay_many;
use std::alloc::Global;
use trace_replay::{Ended, LineForm, TextForm, replay_form};
use write_back::WriteBack;
use write_through::WriteThrough;

/// Fits the rig, makes a volume of this setup on it, runs a trace in this form over it, and prints what each request
/// answered. Power may stop within any device write; the run then goes on after recovery.
pub fn replay_form_with<F: LineForm, I: Source, O: Sink, R: Rig>(
    alloc: Global,
    setup: &Setup,
    source: &mut I,
    sink: &mut O,
    rig: &mut R,
) -> Result<(), Ended>
    // It ended before the volume was made, or as a run over it.
    ensures ends { EndsNew setup.now (ReadsBy (F.says setup.now.options.geometry.size) (I.state source.old) (I.state source.new))
        (Tells (O.state sink.old) (O.state sink.new)) (TellsPart (O.state sink.old) (O.state sink.new)) source.old source.new
        sink.old sink.new (R.state rig.old) (R.state rig.new) result }
    ensures end { OnOk result (IsAtEnd (I.state source.new).left) }
    ensures causes { EndHasCause result (I.state source.old) (I.state source.new) (O.state sink.old) (O.state sink.new) (R.state rig.old)
        (R.state rig.new) }
    ensures on { (IsErrOf result Ended.Memory → ⊥) → (R.state rig.new).power.on ≡ true }
    ensures lent { KeepsLent (I.state source.old) (I.state source.new) (O.state sink.old) (O.state sink.new) (R.state rig.old)
        (R.state rig.new) }
{
    match setup.mode {
        Mode::Back => match begin_back(alloc, rig, &setup.options) {
            Ok(mut volume) => {
                replay_form::<F, I, O, R, WriteBack>(alloc, source, sink, rig, &mut volume)
            }
            Err(ended) => Err(ended),
        },
        Mode::Through => match begin_through(alloc, rig, &setup.options) {
            Ok(mut volume) => {
                replay_form::<F, I, O, R, WriteThrough>(alloc, source, sink, rig, &mut volume)
            }
            Err(ended) => Err(ended),
        },
    }
}

/// Fits the rig, makes a volume of this setup on it, and runs a trace over so many disks that share it. It prints what each
/// request answered, by the addresses of its disk. Power may stop within any device write; the run then goes on after
/// recovery.
pub fn replay_many_with<I: Source, O: Sink, R: Rig>(
    alloc: Global,
    setup: &Setup,
    disks: u32,
    source: &mut I,
    sink: &mut O,
    rig: &mut R,
) -> Result<(), Ended>
    requires some { 1 ≤ disks }
    requires few { disks ≤ 16 }
    requires shared { disks ≤ setup.now.options.geometry.size }
    // It ended before the volume was made, or as a run over it.
    ensures ends { IsUnbegun result source.old source.new sink.old sink.new (R.state rig.old) (R.state rig.new)
        ⊎ EndsMany (told_by setup.now) disks (I.state source.old) (I.state source.new) (O.state sink.old) (O.state sink.new)
        (ImageStandsFor setup.now.options.geometry) (fitted_for setup.now.options.geometry (R.state rig.old)) (R.state rig.new) result }
    ensures end { OnOk result (IsAtEnd (I.state source.new).left) }
    ensures causes { EndHasCause result (I.state source.old) (I.state source.new) (O.state sink.old) (O.state sink.new) (R.state rig.old)
        (R.state rig.new) }
    ensures on { (IsErrOf result Ended.Memory → ⊥) → (R.state rig.new).power.on ≡ true }
    ensures lent { KeepsLent (I.state source.old) (I.state source.new) (O.state sink.old) (O.state sink.new) (R.state rig.old)
        (R.state rig.new) }
{
    match setup.mode {
        Mode::Back => match begin_back(alloc, rig, &setup.options) {
            Ok(mut volume) => {
                replay_many::<I, O, R, WriteBack>(alloc, disks, source, sink, rig, &mut volume)
            }
            Err(ended) => Err(ended),
        },
        Mode::Through => match begin_through(alloc, rig, &setup.options) {
            Ok(mut volume) => {
                replay_many::<I, O, R, WriteThrough>(alloc, disks, source, sink, rig, &mut volume)
            }
            Err(ended) => Err(ended),
        },
    }
}

/// Runs a trace in the form of `read_line` as `replay_form_with` does.
pub fn replay_with<I: Source, O: Sink, R: Rig>(
    alloc: Global,
    setup: &Setup,
    source: &mut I,
    sink: &mut O,
    rig: &mut R,
) -> Result<(), Ended>
    // It ended before the volume was made, or as a run over it.
    ensures ends { EndsNew setup.now (Reads setup.now.options.geometry.size (I.state source.old) (I.state source.new))
        (Tells (O.state sink.old) (O.state sink.new)) (TellsPart (O.state sink.old) (O.state sink.new)) source.old source.new
        sink.old sink.new (R.state rig.old) (R.state rig.new) result }
    ensures end { OnOk result (IsAtEnd (I.state source.new).left) }
    ensures causes { EndHasCause result (I.state source.old) (I.state source.new) (O.state sink.old) (O.state sink.new) (R.state rig.old)
        (R.state rig.new) }
    ensures on { (IsErrOf result Ended.Memory → ⊥) → (R.state rig.new).power.on ≡ true }
    ensures lent { KeepsLent (I.state source.old) (I.state source.new) (O.state sink.old) (O.state sink.new) (R.state rig.old)
        (R.state rig.new) }
{
    replay_form_with::<TextForm, I, O, R>(alloc, setup, source, sink, rig)
}
