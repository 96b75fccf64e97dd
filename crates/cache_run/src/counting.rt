//! The device writes of a run, counted.
ghost use Rattle.std.specs.Prelude.{◌≡◌, ◌≤◌, ◌<◌, ◌+◌, ◌^◌, ◌⊎◌, All, length, true, IfOk, IfSome, OnErr, IsErrOf};
ghost use Rattle.ft_base.specs.Count.{Rose, last_count};
ghost use Rattle.ft_media.specs.Passes.{NeverFall, device_writes};
ghost use Rattle.trace_model.specs.Backs.{IsUncut};
ghost use Rattle.trace_model.specs.Lines.{IsRunnable};
ghost use Rattle.trace_replay.specs.AsMade.{IsAsMade};
ghost use Rattle.trace_replay.specs.Said.{NoneFailed};
ghost use Rattle.cache_run.specs.Counted.{CountsFrom, CountsWrites, RigGoesOn};
ghost use Rattle.cache_run.specs.Ends.{told_by};

use crate::beginning::{begin_back, begin_through};
use crate::setup::Setup;
use ft_base::{Failed, Sink};
use ft_media::{Counts, Media, Rig};
use ft_volume::{Mode, Volume};
use std::alloc::Global;
use trace_model::Line;
use trace_replay::{Ended, replay_held};

/// Takes all bytes, and keeps none.
#[derive(Drop)]
struct NoSink;

impl Sink for NoSink {
    ghost use Rattle.std.specs.Prelude.{None, []};
    ghost use Rattle.cache_run.specs.Counted.{none_few};

    ghost state = { λ s. record { taken = None; faults = 0; lent = [] } };

    ghost few_faults = { λ s. none_few };

    fn write(&mut self, bytes: &[u8]) -> Result<usize, Failed> {
        Ok(bytes.len())
    }
}

/// How many device writes were made between these counts. None if the count of programs is at its last value, or
/// if they are more than a number can say.
#[tactic(auto, unfolding(ft_base::specs::Count::last_count))]
fn writes_between(before: &Counts, after: &Counts) -> Option<u64>
    requires never { NeverFall before.now after.now }
    ensures exact { IfSome result (λ n. device_writes after.now ≡ device_writes before.now + n) }
    ensures below { IfSome result (λ n. after.now.programs < last_count) }
{
    if after.programs == u64::MAX {
        return None;
    }
    let programs = after.programs - before.programs;
    let erases = after.erases - before.erases;
    let writes = after.disk_writes - before.disk_writes;
    let flushes = after.disk_flushes - before.disk_flushes;
    programs
        .checked_add(erases)?
        .checked_add(writes)?
        .checked_add(flushes)
}

/// Runs these lines without printing, and says how many device writes they made.
fn count_over<R: Rig, V: Volume<R>>(
    alloc: Global,
    lines: &[Line],
    rig: &mut R,
    volume: &mut V,
) -> Result<u64, Ended>
    requires lines { All (IsRunnable (V.state volume.old).told.geometry.size) lines.now }
    requires uncut { All IsUncut lines.now }
    requires few { length lines.now < 2 ^ 64 }
    requires owns { V.owns volume.old (R.state rig.old).contents }
    requires fresh { IsAsMade (V.owes volume.old (R.state rig.old).contents) V.stands (V.state volume.old) (R.state rig.old) }
    ensures counted { IfOk result (λ n. CountsFrom (V.state volume.old).told lines.now n (R.state rig.old) (R.state rig.new)) }
    ensures flash { IsErrOf result Ended.Flash → Rose (R.state rig.old).faults.flash (R.state rig.new).faults.flash }
    ensures disk { IsErrOf result Ended.Disk → Rose (R.state rig.old).faults.disk (R.state rig.new).faults.disk }
    ensures only { OnErr result (IsErrOf result Ended.Flash ⊎ IsErrOf result Ended.Disk ⊎ IsErrOf result Ended.Memory) }
    ensures sound { (IsErrOf result Ended.Flash → ⊥) → (IsErrOf result Ended.Disk → ⊥) → NoneFailed (R.state rig.old) (R.state rig.new) }
    ensures on { (R.state rig.new).power.on ≡ true }
    ensures goes { RigGoesOn (R.state rig.old) (R.state rig.new) }
{
    let before = rig.counts();
    let mut sink = NoSink;
    match replay_held(alloc, &[], lines, &mut sink, rig, volume) {
        Ok(()) => match writes_between(&before, &rig.counts()) {
            Some(count) => Ok(count),
            None => Err(Ended::Memory),
        },
        Err(ended) => Err(ended),
    }
}

/// Fits the rig, makes a volume of this setup on it, runs these lines over it without printing, and says how many device
/// writes they made, from the end of the volume's creation on. None of the lines cuts power.
/// Exactly the blocks that such a volume writes to the disk for these lines were written to it.
///
/// It ends as for want of memory also if the rig can count no further.
pub fn count_lines<R: Rig>(
    alloc: Global,
    setup: &Setup,
    lines: &[Line],
    rig: &mut R,
) -> Result<u64, Ended>
    requires lines { All (IsRunnable setup.now.options.geometry.size) lines.now }
    requires uncut { All IsUncut lines.now }
    requires few { length lines.now < 2 ^ 64 }
    ensures counted { IfOk result (λ n. CountsWrites (told_by setup.now) lines.now n (R.state rig.old) (R.state rig.new)) }
    ensures flash { IsErrOf result Ended.Flash → Rose (R.state rig.old).faults.flash (R.state rig.new).faults.flash }
    ensures disk { IsErrOf result Ended.Disk → Rose (R.state rig.old).faults.disk (R.state rig.new).faults.disk }
    ensures only { OnErr result (IsErrOf result Ended.Flash ⊎ IsErrOf result Ended.Disk ⊎ IsErrOf result Ended.Memory) }
    ensures sound { (IsErrOf result Ended.Flash → ⊥) → (IsErrOf result Ended.Disk → ⊥) → NoneFailed (R.state rig.old) (R.state rig.new) }
    ensures on { (IsErrOf result Ended.Memory → ⊥) → (R.state rig.new).power.on ≡ true }
    ensures memory { IsErrOf result Ended.Memory → (R.state rig.new ≡ R.state rig.old) ⊎ ((R.state rig.new).power.on ≡ true) }
    ensures goes { RigGoesOn (R.state rig.old) (R.state rig.new) }
{
    match setup.mode {
        Mode::Back => {
            let mut volume = begin_back(alloc, rig, &setup.options)?;
            count_over(alloc, lines, rig, &mut volume)
        }
        Mode::Through => {
            let mut volume = begin_through(alloc, rig, &setup.options)?;
            count_over(alloc, lines, rig, &mut volume)
        }
    }
}
