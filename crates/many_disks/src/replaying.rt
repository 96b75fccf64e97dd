//! Runs of a trace over several disks.
ghost use Rattle.std.specs.Prelude.{◌≤◌};
ghost use Rattle.ft_volume.specs.Volume.{StaysOwner};
ghost use Rattle.trace_replay.specs.AsMade.{IsAsMade};
ghost use Rattle.trace_replay.specs.Causes.{EndHasCause};
ghost use Rattle.trace_replay.specs.Lent.{KeepsLent};
ghost use Rattle.many_disks.specs.Ends.{EndsMany};

use crate::script::ManyScript;
use ft_base::{Sink, Source};
use ft_media::{Media, Rig};
use ft_volume::Volume;
use std::alloc::Global;
use trace_replay::{Ended, replay_script};

/// Runs a trace over several disks of equal size that share a volume, and prints what as many plain disks answer,
/// whenever power stops. The source is read in pieces, each when the lines of the last piece were run.
///
/// Each disk has as many blocks as the volume has for each of them, rounded down. The volume is as it was made: its
/// plain disk is empty, its cache has no address, and no block waits to be written back. No more groups may stay dirty
/// than the cache has, else the cache would have to write some back before that many are dirty.
pub fn replay_many<I: Source, O: Sink, R: Rig, V: Volume<R>>(
    alloc: Global,
    disks: u32,
    source: &mut I,
    sink: &mut O,
    rig: &mut R,
    volume: &mut V,
) -> Result<(), Ended>
    requires owns { V.owns volume.old (R.state rig.old).contents }
    requires fresh { IsAsMade (V.owes volume.old (R.state rig.old).contents) V.stands (V.state volume.old) (R.state rig.old) }
    requires some { 1 ≤ disks }
    requires few { disks ≤ 16 }
    requires shared { disks ≤ (V.state volume.old).told.geometry.size }
    ensures owner { StaysOwner (V.owns volume.new) (R.state rig.new).contents (V.state volume.old) (V.state volume.new) }
    ensures ends { EndsMany (V.state volume.old).told disks (I.state source.old) (I.state source.new) (O.state sink.old)
        (O.state sink.new) (V.stands (V.state volume.new).told) (R.state rig.old) (R.state rig.new) result }
    ensures causes { EndHasCause result (I.state source.old) (I.state source.new) (O.state sink.old) (O.state sink.new) (R.state rig.old)
        (R.state rig.new) }
    ensures lent { KeepsLent (I.state source.old) (I.state source.new) (O.state sink.old) (O.state sink.new) (R.state rig.old)
        (R.state rig.new) }
{
    let mut script = ManyScript::new(alloc, source, sink, volume.size(), disks);
    replay_script(alloc, &mut script, rig, volume)
}
