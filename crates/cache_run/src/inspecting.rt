//! A trace that is run without printing, and what it leaves in the cache.
ghost use Rattle.std.specs.Prelude.{◌≡◌, ◌⊎◌, true, OnOk, IsErrOf};
ghost use Rattle.std.specs.Io.KnownBytes.{IsAtEnd};
ghost use Rattle.cache_model.specs.Stands.{ImageStandsFor};
ghost use Rattle.trace_model.specs.Readings.{Reads};
ghost use Rattle.trace_replay.specs.Causes.{EndHasCause};
ghost use Rattle.trace_replay.specs.Lent.{KeepsLent};
ghost use Rattle.trace_replay.specs.AsMade.{IsAsMade};
ghost use Rattle.cache_run.specs.Fitted.{fitted_for};
ghost use Rattle.cache_run.specs.Begun.{IsUnbegun};
ghost use Rattle.cache_run.specs.Ends.{told_by};
ghost use Rattle.cache_run.specs.Inspected.{EndsInspected, LoadsAs};

use crate::beginning::{begin_back, begin_through};
use crate::reporting::tell_report;
use crate::setup::Setup;
use ft_base::{Sink, Source};
use ft_media::{Media, Rig};
use ft_volume::{Mode, Volume};
use std::alloc::Global;
use trace_replay::{Ended, replay_quiet};

/// Runs a trace over a new volume without printing, and then prints a report of what is in its cache.
fn inspect<I: Source, O: Sink, R: Rig, V: Volume<R>>(
    alloc: Global,
    source: &mut I,
    sink: &mut O,
    rig: &mut R,
    volume: &mut V,
) -> Result<(), Ended>
    requires owns { V.owns volume.old (R.state rig.old).contents }
    requires fresh { IsAsMade (V.owes volume.old (R.state rig.old).contents) V.stands (V.state volume.old) (R.state rig.old) }
    ensures told { (V.state volume.new).told ≡ (V.state volume.old).told }
    ensures ends { EndsInspected (V.state volume.old).told
        (Reads (V.state volume.old).told.geometry.size (I.state source.old) (I.state source.new)) (V.loads (V.state volume.old).told)
        (O.state sink.old) (O.state sink.new) (V.stands (V.state volume.new).told) (R.state rig.old) (R.state rig.new) result }
    ensures causes { EndHasCause result (I.state source.old) (I.state source.new) (O.state sink.old) (O.state sink.new) (R.state rig.old)
        (R.state rig.new) }
    ensures on { (R.state rig.new).power.on ≡ true }
    ensures lent { KeepsLent (I.state source.old) (I.state source.new) (O.state sink.old) (O.state sink.new) (R.state rig.old)
        (R.state rig.new) }
{
    match replay_quiet(alloc, source, sink, rig, volume) {
        Ok(()) => tell_report(alloc, sink, rig, volume),
        Err(ended) => Err(ended),
    }
}

/// Fits the rig, makes a volume of this setup on it, runs the trace over it without printing more than a refused line, and
/// then prints what is in the cache: the addresses that are held, the groups with a dirty one, the buckets of the map of
/// page-mapped addresses, and the pages that were read to see that all of it is there. Power may stop within any device write; the run then goes on after recovery.
pub fn inspect_with<I: Source, O: Sink, R: Rig>(
    alloc: Global,
    setup: &Setup,
    source: &mut I,
    sink: &mut O,
    rig: &mut R,
) -> Result<(), Ended>
    // It ended before the volume was made, or as a run over it with a report.
    ensures ends { let geometry = setup.now.options.geometry in
        IsUnbegun result source.old source.new sink.old sink.new (R.state rig.old) (R.state rig.new)
        ⊎ EndsInspected (told_by setup.now) (Reads geometry.size (I.state source.old) (I.state source.new)) (LoadsAs geometry)
        (O.state sink.old) (O.state sink.new) (ImageStandsFor geometry) (fitted_for geometry (R.state rig.old)) (R.state rig.new) result }
    ensures end { OnOk result (IsAtEnd (I.state source.new).left) }
    ensures causes { EndHasCause result (I.state source.old) (I.state source.new) (O.state sink.old) (O.state sink.new) (R.state rig.old)
        (R.state rig.new) }
    ensures on { (IsErrOf result Ended.Memory → ⊥) → (R.state rig.new).power.on ≡ true }
    ensures lent { KeepsLent (I.state source.old) (I.state source.new) (O.state sink.old) (O.state sink.new) (R.state rig.old)
        (R.state rig.new) }
{
    match setup.mode {
        Mode::Back => match begin_back(alloc, rig, &setup.options) {
            Ok(mut volume) => inspect(alloc, source, sink, rig, &mut volume),
            Err(ended) => Err(ended),
        },
        Mode::Through => match begin_through(alloc, rig, &setup.options) {
            Ok(mut volume) => inspect(alloc, source, sink, rig, &mut volume),
            Err(ended) => Err(ended),
        },
    }
}
