//! The calls of a volume behind each kind of line, if writes are on the media only after a flush. After a cut the newest
//! block writes are read back.
ghost use Rattle.std.specs.Prelude.{◌≡◌, ◌+◌, ◌≤◌, ◌<◌, ◌∷◌, [], false, length, All, IfOk, IfErr, OnOk};
ghost use Rattle.ft_base.specs.PlainDisk.{PlainDisk};
ghost use Rattle.ft_volume.specs.Standing.{StandFor};
ghost use Rattle.ft_volume.specs.Volume.{StaysOwner};
ghost use Rattle.trace_model.specs.declared.line.Line.TheVariants as line_kind;
ghost use Rattle.trace_model.specs.Run.{disk_without, read_backs, stopped};
ghost use Rattle.trace_model.specs.Text.{IsTold};
ghost use Rattle.trace_replay.specs.Ends.{RunsLine, write_of};
ghost use Rattle.trace_replay.specs.Events.{Says};
ghost use Rattle.trace_replay.specs.Leaves.{LeavesClear, LeavesOwing};
ghost use Rattle.trace_replay.specs.MayRun.{CanCall, CanCallClear, CanCallOwing, MayOwe};
ghost use Rattle.trace_replay.specs.Owing.{GoesOwing, IfRan, IsClear, ShowsDisk};
ghost use Rattle.trace_replay.specs.Spends.{SpendsSteps, puts_of, touches_of};
ghost use Rattle.trace_replay.specs.Spends.Step.{Rests};
ghost use Rattle.trace_replay.specs.Went.{EndsCut, Keeps, KeepsFrame, Went, cut_if};

use crate::again::{flush_once, flush_through, idle_once, read_once};
use crate::back::settle;
use crate::recent::Request;
use crate::scratch::{Scratch, Settled, UNCUT, Work};
use crate::writing::write_blocks;
use crate::{Ended, Script};
use ft_base::{Outcome, tag};
use ft_media::{Media, Rig};
use ft_volume::Volume;
use trace_model::Answer;

/// A request that writes nothing.
const NOTHING: Request = Request {
    lba: 0,
    count: 0,
    tag: 0,
};

/// Writes the blocks of a request up to the first that a stop cuts, and keeps them in mind. After a cut it reads back.
pub(crate) fn write_later<P: Script, R: Rig, V: Volume<R>>(
    script: &mut P,
    rig: &mut R,
    volume: &mut V,
    request: Request,
    work: &mut Work,
) -> Result<Settled, Ended>
    requires may { CanCallOwing (V.owns volume.old) (V.owes volume.old) V.stands (V.state volume.old) (R.state rig.old) work.old.recent }
    requires request { request.lba + request.count ≤ (V.state volume.old).told.geometry.size }
    ensures leaves { LeavesOwing (V.owns volume.new) (V.owes volume.old) (V.owes volume.new) V.stands (V.state volume.old)
        (V.state volume.new) (R.state rig.old) (R.state rig.new)
        work.old.recent work.new.recent (write_of request) result }
    ensures went { Went P.state P.came P.broke P.knows (λ s. s.cuts) request.count script.old script.new (R.state rig.old) (R.state rig.new) result }
    ensures runs { IfOk result (λ s. RunsLine (write_of request) s.cuts (R.state rig.old) (R.state rig.new)) }
    ensures spends { SpendsSteps (puts_of request.lba request.count) (V.state volume.old) (V.state volume.new) (R.state rig.old) (R.state rig.new)
        result }
{
    let cut = write_blocks(script, rig, volume, request, &mut work.scratch.block)?;
    if !cut {
        // The size is a `u64`, so no address of the volume overflows:
        let _size = volume.size();
        work.recent.note(request);
        return Ok(Settled {
            cuts: 0,
            kept: request.count,
            lost: 0,
        });
    }
    // At most 16 stops are armed, so the count of cuts can't overflow:
    let _armed = rig.armed();
    let back = settle(script, rig, volume, request, work)?;
    Ok(Settled {
        cuts: back.cuts + 1,
        kept: back.kept,
        lost: back.lost,
    })
}

/// Flushes the volume, again after each cut. After the first cut it reads back. Nothing is owed then.
pub(crate) fn flush_later<P: Script, R: Rig, V: Volume<R>>(
    script: &mut P,
    rig: &mut R,
    volume: &mut V,
    work: &mut Work,
) -> Result<Settled, Ended>
    requires may { CanCallOwing (V.owns volume.old) (V.owes volume.old) V.stands (V.state volume.old) (R.state rig.old) work.old.recent }
    ensures leaves { LeavesOwing (V.owns volume.new) (V.owes volume.old) (V.owes volume.new) V.stands (V.state volume.old)
        (V.state volume.new) (R.state rig.old) (R.state rig.new) work.old.recent work.new.recent line_kind.Flush result }
    ensures clear { OnOk result (IsClear (V.owes volume.new (R.state rig.new).contents) (V.stands (V.state volume.new).told)
        (R.state rig.new).contents) }
    ensures kept { IfOk result (λ s. s.kept ≡ 0) }
    ensures forgot { OnOk result (work.new.recent ≡ []) }
    ensures went { Went P.state P.came P.broke P.knows (λ s. s.cuts) 0 script.old script.new (R.state rig.old) (R.state rig.new) result }
    ensures runs { IfOk result (λ s. RunsLine line_kind.Flush s.cuts (R.state rig.old) (R.state rig.new)) }
    ensures spends { SpendsSteps [] (V.state volume.old) (V.state volume.new) (R.state rig.old) (R.state rig.new)
        result }
{
    let cut = flush_once(script, rig, volume)?;
    if !cut {
        work.recent.clear();
        return Ok(UNCUT);
    }
    // At most 16 stops are armed, so the count of cuts can't overflow:
    let _armed = rig.armed();
    let back = settle(script, rig, volume, NOTHING, work)?;
    let more = flush_through(script, rig, volume)?;
    Ok(Settled {
        cuts: back.cuts + 1 + more,
        kept: 0,
        lost: back.lost,
    })
}

/// Runs one idle step. It isn't repeated if a stop cut it, but the newest block writes are read back then.
pub(crate) fn idle_later<P: Script, R: Rig, V: Volume<R>>(
    script: &mut P,
    rig: &mut R,
    volume: &mut V,
    work: &mut Work,
) -> Result<Settled, Ended>
    requires may { CanCallOwing (V.owns volume.old) (V.owes volume.old) V.stands (V.state volume.old) (R.state rig.old) work.old.recent }
    ensures leaves { LeavesOwing (V.owns volume.new) (V.owes volume.old) (V.owes volume.new) V.stands (V.state volume.old)
        (V.state volume.new) (R.state rig.old) (R.state rig.new) work.old.recent work.new.recent line_kind.Idle result }
    ensures kept { IfOk result (λ s. s.kept ≡ 0) }
    ensures went { Went P.state P.came P.broke P.knows (λ s. s.cuts) 0 script.old script.new (R.state rig.old) (R.state rig.new) result }
    ensures runs { IfOk result (λ s. RunsLine line_kind.Idle s.cuts (R.state rig.old) (R.state rig.new)) }
    ensures spends { SpendsSteps (Rests ∷ []) (V.state volume.old) (V.state volume.new) (R.state rig.old) (R.state rig.new)
        result }
{
    let cuts = idle_once(script, rig, volume)?;
    if cuts == 0 {
        return Ok(UNCUT);
    }
    // At most 16 stops are armed, so the count of cuts can't overflow:
    let _armed = rig.armed();
    let back = settle(script, rig, volume, NOTHING, work)?;
    Ok(Settled {
        cuts: back.cuts + cuts,
        kept: 0,
        lost: back.lost,
    })
}

/// Reads the blocks of a request, ascending, and gathers the answers. Says whether a stop cut a read. Then the answers
/// are not all there.
fn gather_once<P: Script, R: Rig, V: Volume<R>>(
    script: &mut P,
    rig: &mut R,
    volume: &mut V,
    lba: u64,
    count: u64,
    scratch: &mut Scratch,
) -> Result<bool, Ended>
    requires can { CanCall (V.owns volume.old) (R.state rig.old) }
    requires within { lba + count ≤ (V.state volume.old).told.geometry.size }
    ensures owner { StaysOwner (V.owns volume.new) (R.state rig.new).contents (V.state volume.old) (V.state volume.new) }
    ensures found { IfOk result (λ cut. cut ≡ false → (d : PlainDisk) → ShowsDisk (V.owes volume.old (R.state rig.old).contents)
        (V.stands (V.state volume.old).told) (R.state rig.old).contents d → scratch.new.answers.items ≡ read_backs lba count d) }
    ensures kept { IsClear (V.owes volume.old (R.state rig.old).contents) (V.stands (V.state volume.old).told) (R.state rig.old).contents
        → Keeps (V.stands (V.state volume.old).told) (V.stands (V.state volume.new).told) (R.state rig.old).contents
        (R.state rig.new).contents }
    ensures clear { IsClear (V.owes volume.old (R.state rig.old).contents) (V.stands (V.state volume.old).told) (R.state rig.old).contents
        → OnOk result (IsClear (V.owes volume.new (R.state rig.new).contents) (V.stands (V.state volume.new).told)
        (R.state rig.new).contents) }
    ensures owing { GoesOwing cut_if 0 (λ writes. writes) (V.owes volume.old (R.state rig.old).contents)
        (V.owes volume.new (R.state rig.new).contents) (V.stands (V.state volume.old).told) (V.stands (V.state volume.new).told)
        (R.state rig.old).contents (R.state rig.new).contents result }
    ensures went { Went P.state P.came P.broke P.knows cut_if 0 script.old script.new (R.state rig.old) (R.state rig.new) result }
    ensures spends { SpendsSteps (touches_of lba count) (V.state volume.old) (V.state volume.new) (R.state rig.old) (R.state rig.new)
        result }
{
    // The size is a `u64`, so no address of the volume overflows:
    let _size = volume.size();
    scratch.answers.clear();
    for i in 0..count {
        let cut = read_once(script, rig, volume, lba + i, &mut scratch.block)?;
        if cut {
            return Ok(true);
        }
        let answer = Answer::ReadBack {
            lba: lba + i,
            tag: tag(&scratch.block),
        };
        let Ok(()) = scratch.answers.push(answer) else {
            return Err(Ended::Memory);
        };
    }
    Ok(false)
}

/// Reads the blocks of a request and gathers the answers. After each cut it begins again at the first block. Nothing
/// is owed.
fn gather<P: Script, R: Rig, V: Volume<R>>(
    script: &mut P,
    rig: &mut R,
    volume: &mut V,
    lba: u64,
    count: u64,
    scratch: &mut Scratch,
) -> Result<u64, Ended>
    requires may { CanCallClear (V.owns volume.old) (V.owes volume.old) V.stands (V.state volume.old) (R.state rig.old) }
    requires within { lba + count ≤ (V.state volume.old).told.geometry.size }
    ensures leaves { LeavesClear (V.owns volume.new) (V.owes volume.new) V.stands (V.state volume.old) (V.state volume.new)
        (R.state rig.old) (R.state rig.new) result }
    ensures found { OnOk result ((d : PlainDisk) → StandFor (V.stands (V.state volume.old).told) (R.state rig.old).contents d
        → scratch.new.answers.items ≡ read_backs lba count d) }
    ensures went { Went P.state P.came P.broke P.knows (λ cuts. cuts) 0 script.old script.new (R.state rig.old) (R.state rig.new) result }
{
    let mut cuts = 0;
    // At most 16 stops are armed, so the count of cuts can't overflow:
    let _armed = rig.armed();
    'again: loop {
        let cut = gather_once(script, rig, volume, lba, count, scratch)?;
        if !cut {
            return Ok(cuts);
        }
        cuts += 1;
    }
}

/// Reads the blocks of a request and gathers the answers. After a cut it begins again at the first block, once the
/// newest block writes were read back.
pub(crate) fn read_later<P: Script, R: Rig, V: Volume<R>>(
    script: &mut P,
    rig: &mut R,
    volume: &mut V,
    lba: u64,
    count: u64,
    work: &mut Work,
) -> Result<Settled, Ended>
    requires may { CanCallOwing (V.owns volume.old) (V.owes volume.old) V.stands (V.state volume.old) (R.state rig.old) work.old.recent }
    requires within { lba + count ≤ (V.state volume.old).told.geometry.size }
    ensures leaves { LeavesOwing (V.owns volume.new) (V.owes volume.old) (V.owes volume.new) V.stands (V.state volume.old)
        (V.state volume.new) (R.state rig.old) (R.state rig.new) work.old.recent work.new.recent (line_kind.Read lba count) result }
    ensures kept { IfOk result (λ s. s.kept ≡ 0) }
    ensures found { IfOk result (λ s. IfRan (V.owes volume.old (R.state rig.old).contents) (V.stands (V.state volume.old).told) (R.state rig.old)
        work.old.recent (λ run. work.new.scratch.answers.items ≡ read_backs lba count (disk_without s.lost run))) }
    ensures told { OnOk result (All IsTold work.new.scratch.answers.items) }
    ensures went { Went P.state P.came P.broke P.knows (λ s. s.cuts) 0 script.old script.new (R.state rig.old) (R.state rig.new) result }
    ensures runs { IfOk result (λ s. RunsLine (line_kind.Read lba count) s.cuts (R.state rig.old) (R.state rig.new)) }
    ensures spends { SpendsSteps (touches_of lba count) (V.state volume.old) (V.state volume.new) (R.state rig.old) (R.state rig.new)
        result }
{
    let cut = gather_once(script, rig, volume, lba, count, &mut work.scratch)?;
    if !cut {
        return Ok(UNCUT);
    }
    // At most 16 stops are armed, so the count of cuts can't overflow:
    let _armed = rig.armed();
    let back = settle(script, rig, volume, NOTHING, work)?;
    let more = gather(script, rig, volume, lba, count, &mut work.scratch)?;
    Ok(Settled {
        cuts: back.cuts + 1 + more,
        kept: 0,
        lost: back.lost,
    })
}

/// Cuts power between two device writes, and reads back.
pub(crate) fn cut_later<P: Script, R: Rig, V: Volume<R>>(
    script: &mut P,
    rig: &mut R,
    volume: &mut V,
    outcome: Outcome,
    work: &mut Work,
) -> Result<Settled, Ended>
    requires may { MayOwe (V.owns volume.old) (V.owes volume.old) V.stands (V.state volume.old) (R.state rig.old) work.old.recent }
    ensures leaves { LeavesOwing (V.owns volume.new) (V.owes volume.old) (V.owes volume.new) V.stands (V.state volume.old)
        (V.state volume.new) (R.state rig.old) (R.state rig.new) work.old.recent work.new.recent (line_kind.Cut outcome) result }
    ensures kept { IfOk result (λ s. s.kept ≡ 0) }
    ensures goes { KeepsFrame P.state P.came P.broke P.knows script.old script.new (R.state rig.old) (R.state rig.new) }
    ensures said { IfOk result (λ s. Says P.came script.old script.new (stopped s.cuts)) }
    ensures runs { IfOk result (λ s. RunsLine (line_kind.Cut outcome) s.cuts (R.state rig.old) (R.state rig.new)) }
    ensures ended { IfErr result (λ e. EndsCut P.state P.came P.broke P.knows e script.old script.new (R.state rig.old) (R.state rig.new)) }
{
    volume.cut(rig, outcome);
    let back = settle(script, rig, volume, NOTHING, work)?;
    Ok(Settled {
        cuts: back.cuts,
        kept: 0,
        lost: back.lost,
    })
}
