//! A run over lines that are held in memory, in either mode. A sweep makes such a run for each device write.
ghost use Rattle.std.specs.Prelude.{◌≡◌, ◌≤◌, ◌<◌, ◌+◌, ◌^◌, ◌++◌, All, length, true, IsErrOf};
ghost use Rattle.trace_model.specs.Lines.{IsRunnable};
ghost use Rattle.trace_replay.specs.Causes.{EndHasCauseUntraced, KeepsStreamsUntraced};
ghost use Rattle.trace_replay.specs.Commands.{Gives};
ghost use Rattle.trace_replay.specs.Held.{stops_held};
ghost use Rattle.trace_replay.specs.Said.{Tells, TellsPart};
ghost use Rattle.cache_run.specs.Ends.{EndsNew};

use crate::beginning::{begin_back, begin_through};
use crate::setup::Setup;
use ft_base::Sink;
use ft_media::{Media, Rig};
use ft_volume::Mode;
use std::alloc::Global;
use trace_model::Line;
use trace_replay::{Ended, replay_held};

/// Fits the rig, makes a volume of this setup on it, runs these first lines and then those of a trace over it, and prints
/// what each request answered. All of the lines are held, so no source is read. No more of them arm a stop than can be
/// armed, so none is refused. Power may stop within any device write; the run then goes on after recovery.
pub fn replay_lines<O: Sink, R: Rig>(
    alloc: Global,
    setup: &Setup,
    first: &[Line],
    lines: &[Line],
    sink: &mut O,
    rig: &mut R,
) -> Result<(), Ended>
    requires first { All (IsRunnable setup.now.options.geometry.size) first.now }
    requires lines { All (IsRunnable setup.now.options.geometry.size) lines.now }
    requires few { length first.now + length lines.now < 2 ^ 64 }
    requires stops { stops_held (first.now ++ lines.now) ≤ 16 }
    // It ended before the volume was made, or as a run over it.
    ensures ends { EndsNew setup.now (Gives (first.now ++ lines.now)) (Tells (O.state sink.old) (O.state sink.new))
        (TellsPart (O.state sink.old) (O.state sink.new)) (tt {0}) (tt {0}) sink.old sink.new (R.state rig.old) (R.state rig.new)
        result }
    ensures causes { EndHasCauseUntraced result (O.state sink.old) (O.state sink.new) (R.state rig.old) (R.state rig.new) }
    ensures on { (IsErrOf result Ended.Memory → ⊥) → (R.state rig.new).power.on ≡ true }
    ensures goes { KeepsStreamsUntraced (O.state sink.old) (O.state sink.new) (R.state rig.old) (R.state rig.new) }
{
    match setup.mode {
        Mode::Back => match begin_back(alloc, rig, &setup.options) {
            Ok(mut volume) => replay_held(alloc, first, lines, sink, rig, &mut volume),
            Err(ended) => Err(ended),
        },
        Mode::Through => match begin_through(alloc, rig, &setup.options) {
            Ok(mut volume) => replay_held(alloc, first, lines, sink, rig, &mut volume),
            Err(ended) => Err(ended),
        },
    }
}
