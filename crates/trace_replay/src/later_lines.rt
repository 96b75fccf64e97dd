//! Runs each kind of line, if writes are on the media only after a flush. All calls of the volume come first. Then the
//! script is told how many block writes are lost, and then the line's own answers.
ghost use Rattle.std.specs.Prelude.{◌≡◌, ◌≤◌, ◌<◌, ◌++◌, ◌==◌, List, ℕ, [], length, All, if◌then◌else◌, IfOk, IfErr, OnOk};
ghost use Rattle.ft_base.specs.PlainDisk.{PlainDisk};
ghost use Rattle.trace_model.specs.declared.answer.Answer.TheVariants as answer_kind;
ghost use Rattle.trace_model.specs.declared.line.Line.TheVariants as line_kind;
ghost use Rattle.trace_model.specs.declared.ran.Ran.{Ran};
ghost use Rattle.trace_model.specs.Run.{answers_of, disk_without, lost_told, own_answers, stopped};
ghost use Rattle.trace_model.specs.SoFar.{as_ran};
ghost use Rattle.trace_model.specs.Text.{IsTold};
ghost use Rattle.trace_replay.specs.Ends.{RunsLine};
ghost use Rattle.trace_replay.specs.Events.{Says};
ghost use Rattle.trace_replay.specs.Leaves.{LeavesOwing};
ghost use Rattle.trace_replay.specs.MayRun.{MayOwe, MayRun};
ghost use Rattle.trace_replay.specs.Owing.{EndsOwing, IfRan, IsGathered, SpendsOwing};
ghost use Rattle.trace_replay.specs.Saying.{GoesScript, SaysSo};
ghost use Rattle.trace_replay.specs.Went.{KeepsFrame};

use crate::later::{cut_later, flush_later, idle_later, read_later, write_later};
use crate::recent::Request;
use crate::saying::{say, say_all};
use crate::scratch::{Scratch, Settled, UNCUT, Work};
use crate::{Ended, Script};
use ft_media::{Media, Rig};
use ft_volume::Volume;
use trace_model::{Answer, Line};

/// Says how many block writes are lost, if some are.
pub(crate) fn say_losses<P: Script>(script: &mut P, lost: u64) -> Result<(), Ended>
    ensures { SaysSo P.state P.came P.broke P.knows script.old script.new (lost_told lost) result }
{
    if lost == 0 {
        return Ok(());
    }
    say(script, &Answer::Lost { count: lost })
}

/// Says how many block writes are lost, if some are, and then these answers.
fn say_lost<P: Script>(script: &mut P, lost: u64, answers: &[Answer]) -> Result<(), Ended>
    requires { All IsTold answers.now }
    ensures { SaysSo P.state P.came P.broke P.knows script.old script.new (lost_told lost ++ answers.now) result }
{
    say_losses(script, lost)?;
    say_all(script, answers)?;
    Ok(())
}

/// The answer to a write.
fn answer_to_write(lba: u64, count: u64, settled: &Settled) -> Answer
    ensures { result ≡ (if settled.now.cuts == 0 then answer_kind.Wrote lba count else answer_kind.Kept settled.now.kept count) }
{
    if settled.cuts == 0 {
        Answer::Wrote { lba, count }
    } else {
        let kept = settled.kept;
        Answer::Kept { kept, count }
    }
}

/// Says what a line answers after its cuts. The answers of a read were gathered.
fn say_line<P: Script>(
    script: &mut P,
    line: &Line,
    settled: &Settled,
    scratch: &Scratch,
) -> Result<(), Ended>
    requires told { (lba count : ℕ) → line.now ≡ line_kind.Read lba count → All IsTold scratch.now.answers.items }
    ensures goes { GoesScript P.state P.came P.broke P.knows script.old script.new }
    ensures said { (d : PlainDisk) → IsGathered line.now scratch.now.answers.items d
        → SaysSo P.state P.came P.broke P.knows script.old script.new
        (lost_told settled.now.lost ++ own_answers line.now settled.now.cuts settled.now.kept d) result }
{
    let lost = settled.lost;
    match *line {
        Line::Write { lba, count, .. } => {
            say_lost(script, lost, &[answer_to_write(lba, count, settled)])
        }
        Line::Read { .. } => say_lost(script, lost, scratch.answers.as_slice()),
        Line::Flush => say_lost(script, lost, &[Answer::Flushed]),
        Line::Idle => say_lost(script, lost, &[Answer::Idle]),
        Line::Cut { .. } => say_lost(script, lost, &[Answer::Cut]),
        Line::Stop { .. } | Line::Nothing => say_lost(script, lost, &[]),
    }
}

/// Makes the calls of the volume for a line that is not refused. The script is told of each cut, and of nothing else.
fn call_line<P: Script, R: Rig, V: Volume<R>>(
    script: &mut P,
    rig: &mut R,
    volume: &mut V,
    line: &Line,
    work: &mut Work,
) -> Result<Settled, Ended>
    requires may { MayOwe (V.owns volume.old) (V.owes volume.old) V.stands (V.state volume.old) (R.state rig.old) work.old.recent }
    requires may_run { MayRun line.now (V.state volume.old).told (R.state rig.old) }
    ensures leaves { LeavesOwing (V.owns volume.new) (V.owes volume.old) (V.owes volume.new) V.stands (V.state volume.old)
        (V.state volume.new) (R.state rig.old) (R.state rig.new) work.old.recent work.new.recent line.now result }
    ensures gathered { IfOk result (λ s. IfRan (V.owes volume.old (R.state rig.old).contents) (V.stands (V.state volume.old).told) (R.state rig.old)
        work.old.recent (λ run. IsGathered line.now work.new.scratch.answers.items (disk_without s.lost run))) }
    ensures told { OnOk result ((lba count : ℕ) → line.now ≡ line_kind.Read lba count → All IsTold work.new.scratch.answers.items) }
    ensures said { IfOk result (λ s. Says P.came script.old script.new (stopped s.cuts)) }
    ensures runs { IfOk result (λ s. RunsLine line.now s.cuts (R.state rig.old) (R.state rig.new)) }
    ensures ends { IfErr result (λ e. (run : List Ran)
        → EndsOwing P.state P.came P.broke P.knows e script.old script.new (R.state rig.old) (R.state rig.new) line.now run) }
    ensures goes { KeepsFrame P.state P.came P.broke P.knows script.old script.new (R.state rig.old) (R.state rig.new) }
    ensures spends { SpendsOwing line.now (V.state volume.old) (V.state volume.new) (R.state rig.old) (R.state rig.new) result }
{
    match *line {
        Line::Write { lba, count, tag } => {
            write_later(script, rig, volume, Request { lba, count, tag }, work)
        }
        Line::Read { lba, count } => read_later(script, rig, volume, lba, count, work),
        Line::Flush => flush_later(script, rig, volume, work),
        Line::Idle => idle_later(script, rig, volume, work),
        Line::Cut { outcome } => cut_later(script, rig, volume, outcome, work),
        Line::Stop { after, outcome } => {
            rig.arm(after, outcome);
            Ok(UNCUT)
        }
        Line::Nothing => Ok(UNCUT),
    }
}

/// Runs a line that is not refused, and gives the script its answers.
pub(crate) fn run_line_later<P: Script, R: Rig, V: Volume<R>>(
    script: &mut P,
    rig: &mut R,
    volume: &mut V,
    line: &Line,
    work: &mut Work,
) -> Result<Settled, Ended>
    requires may { MayOwe (V.owns volume.old) (V.owes volume.old) V.stands (V.state volume.old) (R.state rig.old) work.old.recent }
    requires may_run { MayRun line.now (V.state volume.old).told (R.state rig.old) }
    ensures leaves { LeavesOwing (V.owns volume.new) (V.owes volume.old) (V.owes volume.new) V.stands (V.state volume.old)
        (V.state volume.new) (R.state rig.old) (R.state rig.new) work.old.recent work.new.recent line.now result }
    ensures said { IfOk result (λ s. IfRan (V.owes volume.old (R.state rig.old).contents) (V.stands (V.state volume.old).told) (R.state rig.old)
        work.old.recent (λ run. Says P.came script.old script.new (answers_of (as_ran line.now s.cuts s.kept s.lost) (disk_without s.lost run)))) }
    ensures runs { IfOk result (λ s. RunsLine line.now s.cuts (R.state rig.old) (R.state rig.new)) }
    ensures ends { IfErr result (λ e. IfRan (V.owes volume.old (R.state rig.old).contents) (V.stands (V.state volume.old).told) (R.state rig.old)
        work.old.recent (λ run. EndsOwing P.state P.came P.broke P.knows e script.old script.new (R.state rig.old) (R.state rig.new) line.now run)) }
    ensures goes { KeepsFrame P.state P.came P.broke P.knows script.old script.new (R.state rig.old) (R.state rig.new) }
    ensures spends { SpendsOwing line.now (V.state volume.old) (V.state volume.new) (R.state rig.old) (R.state rig.new) result }
{
    let settled = call_line(script, rig, volume, line, work)?;
    say_line(script, line, &settled, &work.scratch)?;
    Ok(settled)
}
