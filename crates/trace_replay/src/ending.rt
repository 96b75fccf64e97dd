//! The end of a run, if writes are on the media only after a flush.
ghost use Rattle.std.specs.Prelude.{◌<◌, [], All, OnOk, IfOk, IfErr};
ghost use Rattle.ft_volume.specs.Volume.{StaysOwner};
ghost use Rattle.trace_model.specs.Fits.{kept_since_flush};
ghost use Rattle.trace_model.specs.Run.{writes_after};
ghost use Rattle.trace_replay.specs.MayRun.{CanCallOwing};
ghost use Rattle.trace_replay.specs.Owing.{EndsFlushed, IfRan, IsClear, IsFlushed, StandForOlder};
ghost use Rattle.trace_replay.specs.Ran.{IsTallyOf};
ghost use Rattle.trace_replay.specs.Said.{Cuts};
ghost use Rattle.trace_replay.specs.Spends.{SpendsSteps, touches_each};
ghost use Rattle.trace_replay.specs.Went.{KeepsFrame};

use crate::later::flush_later;
use crate::later_lines::say_losses;
use crate::scratch::{Settled, Work};
use crate::tally::Tally;
use crate::touched::tell_touched;
use crate::{Ended, Script};
use ft_media::{Media, Rig};
use ft_volume::Volume;

/// Flushes the volume. Then it reads each touched block and gives it to the script, and says how many block writes were
/// lost, and the counts.
pub(crate) fn say_end_later<P: Script, R: Rig, V: Volume<R>>(
    script: &mut P,
    rig: &mut R,
    volume: &mut V,
    tally: &Tally,
    work: &mut Work,
) -> Result<Settled, Ended>
    requires may { CanCallOwing (V.owns volume.old) (V.owes volume.old) V.stands (V.state volume.old) (R.state rig.old) work.old.recent }
    requires within { All (λ a. a < (V.state volume.old).told.geometry.size) tally.now.touched.keys }
    ensures owner { StaysOwner (V.owns volume.new) (R.state rig.new).contents (V.state volume.old) (V.state volume.new) }
    ensures flushed { IfOk result (λ s. IfRan (V.owes volume.old (R.state rig.old).contents) (V.stands (V.state volume.old).told) (R.state rig.old)
        work.old.recent (λ run. IsTallyOf run tally.now
        → IsFlushed P.came script.old script.new (V.stands (V.state volume.new).told) (R.state rig.new).contents s.cuts s.lost run)) }
    ensures clear { OnOk result (IsClear (V.owes volume.new (R.state rig.new).contents) (V.stands (V.state volume.new).told)
        (R.state rig.new).contents) }
    ensures cuts { IfOk result (λ s. Cuts s.cuts 0 (R.state rig.old) (R.state rig.new)) }
    ensures images { IfRan (V.owes volume.old (R.state rig.old).contents) (V.stands (V.state volume.old).told) (R.state rig.old)
        work.old.recent (λ run. StandForOlder (V.stands (V.state volume.new).told) (R.state rig.new).contents (kept_since_flush run)
        (writes_after run)) }
    ensures ends { IfErr result (λ e. IfRan (V.owes volume.old (R.state rig.old).contents) (V.stands (V.state volume.old).told) (R.state rig.old)
        work.old.recent (λ run. IsTallyOf run tally.now
        → EndsFlushed P.state P.came P.broke P.knows e script.old script.new (R.state rig.old) (R.state rig.new) run)) }
    ensures goes { KeepsFrame P.state P.came P.broke P.knows script.old script.new (R.state rig.old) (R.state rig.new) }
    ensures spends { SpendsSteps (touches_each tally.now.touched.keys) (V.state volume.old) (V.state volume.new) (R.state rig.old)
        (R.state rig.new) result }
{
    // At most 16 stops are armed, so the count of cuts can't overflow:
    let _armed = rig.armed();
    let settled = flush_later(script, rig, volume, work)?;
    let more = tell_touched(script, rig, volume, &tally.touched, &mut work.scratch.block)?;
    say_losses(script, settled.lost)?;
    let touched = tally.touched.len() as u64;
    script.end(tally.writes, tally.reads, touched)?;
    Ok(Settled {
        cuts: settled.cuts + more,
        kept: 0,
        lost: settled.lost,
    })
}
