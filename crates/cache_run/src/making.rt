//! A run over a made trace, in either mode. No source is read, and no line is refused.
ghost use Rattle.std.specs.Prelude.{◌≡◌, true, IsErrOf};
ghost use Rattle.trace_gen.specs.Made.{made_trace};
ghost use Rattle.trace_replay.specs.Causes.{EndHasCauseUntraced, KeepsLentUntraced};
ghost use Rattle.trace_replay.specs.Commands.{Gives, TellsEnd, TellsEndPart};
ghost use Rattle.cache_run.specs.Ends.{EndsNew};

use crate::beginning::{begin_back, begin_through};
use crate::setup::Setup;
use ft_base::Sink;
use ft_media::{Media, Rig};
use ft_volume::Mode;
use std::alloc::Global;
use trace_gen::TraceGen;
use trace_replay::{Ended, replay_made};

/// Fits the rig, makes a volume of this setup on it, runs the made trace of this number over it, with so many lines, and
/// prints the end line alone.
pub fn gen_with<O: Sink, R: Rig>(
    alloc: Global,
    setup: &Setup,
    number: u64,
    count: u64,
    sink: &mut O,
    rig: &mut R,
) -> Result<(), Ended>
    // It ended before the volume was made, or as a run over it; there is no source.
    ensures ends { EndsNew setup.now (Gives (made_trace number count setup.now.options.geometry))
        (TellsEnd (O.state sink.old) (O.state sink.new)) (TellsEndPart (O.state sink.old) (O.state sink.new)) (tt {0}) (tt {0})
        sink.old sink.new (R.state rig.old) (R.state rig.new) result }
    // No line of a made trace is refused, and no source is read.
    ensures causes { EndHasCauseUntraced result (O.state sink.old) (O.state sink.new) (R.state rig.old) (R.state rig.new) }
    ensures on { (IsErrOf result Ended.Memory → ⊥) → (R.state rig.new).power.on ≡ true }
    ensures lent { KeepsLentUntraced (O.state sink.old) (O.state sink.new) (R.state rig.old) (R.state rig.new) }
{
    let made = TraceGen::new(number, count, &setup.options.geometry);
    match setup.mode {
        Mode::Back => match begin_back(alloc, rig, &setup.options) {
            Ok(mut volume) => replay_made(alloc, made, sink, rig, &mut volume),
            Err(ended) => Err(ended),
        },
        Mode::Through => match begin_through(alloc, rig, &setup.options) {
            Ok(mut volume) => replay_made(alloc, made, sink, rig, &mut volume),
            Err(ended) => Err(ended),
        },
    }
}
