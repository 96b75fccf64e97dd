//! A trace that is run without printing, and what it cost.
ghost use Rattle.std.specs.Prelude.{◌≡◌, ◌⊎◌, ◌≤◌, ◌<◌, ℕ, List, true, length, take, OnOk, OnErr, IfOk, IfSome, IsErrOf};
ghost use Rattle.std.specs.Io.KnownBytes.{Appends, IsAtEnd};
ghost use Rattle.std.specs.String.{string_bytes};
ghost use Rattle.ft_base.specs.Count.{Rose};
ghost use Rattle.ft_media.specs.Passes.{NeverFall};
ghost use Rattle.cache_model.specs.Stands.{ImageStandsFor};
ghost use Rattle.trace_model.specs.declared.ran.Ran.{Ran};
ghost use Rattle.trace_replay.specs.AsMade.{IsAsMade};
ghost use Rattle.trace_replay.specs.Asked.{IsAskedBy};
ghost use Rattle.trace_replay.specs.Causes.{EndHasCause};
ghost use Rattle.trace_replay.specs.Forms.{ReadsBy};
ghost use Rattle.trace_replay.specs.Lent.{KeepsLent};
ghost use Rattle.cache_run.specs.Begun.{IsUnbegun};
ghost use Rattle.cache_run.specs.Ends.{told_by};
ghost use Rattle.cache_run.specs.Costed.{EndsCost, EndsCosted, IsCostOf, cost_text, disk_text, flash_text};

use crate::beginning::{begin_back, begin_through};
use crate::setup::Setup;
use ft_base::{Sink, Source, send};
use ft_media::{Counts, Media, Rig};
use ft_volume::{Mode, Volume};
use std::alloc::{AllocError, Global};
use trace_replay::{Asked, Ended, LineForm, count_form};
use write_back::WriteBack;
use write_through::WriteThrough;

/// What a run cost.
#[derive(Clone, Copy, Debug, PartialEq, Eq)]
pub struct Cost {
    /// Blocks that its lines write.
    pub written: u64,
    /// Blocks that its lines read.
    pub read: u64,
    /// Pages programmed.
    pub programs: u64,
    /// Blocks erased.
    pub erases: u64,
    /// Disk blocks read.
    pub disk_reads: u64,
    /// Disk blocks written.
    pub disk_writes: u64,
    /// Disk flushes.
    pub disk_flushes: u64,
    /// Power cuts, by stops and by lines.
    pub cuts: u64,
}

/// What a run cost between these counts. None if a number of it is above 2^64 - 1.
fn cost_of(asked: &Asked, before: &Counts, after: &Counts) -> Option<Cost>
    requires never { NeverFall before.now after.now }
    ensures { IfSome result (λ cost. (run : List Ran) → IsAskedBy run asked.now → IsCostOf run before.now after.now cost) }
{
    let Some(written) = asked.written else {
        return None;
    };
    let Some(read) = asked.read else {
        return None;
    };
    let Some(cuts) = asked.cuts else {
        return None;
    };
    Some(Cost {
        written,
        read,
        programs: after.programs - before.programs,
        erases: after.erases - before.erases,
        disk_reads: after.disk_reads - before.disk_reads,
        disk_writes: after.disk_writes - before.disk_writes,
        disk_flushes: after.disk_flushes - before.disk_flushes,
        cuts,
    })
}

/// The four lines of a cost that tell what its lines asked for, and what the flash did.
#[tactic(auto, unfolding(crate::specs::Costed::flash_text))]
fn flash_part(alloc: Global, cost: &Cost) -> Result<String, AllocError>
    ensures { IfOk result (λ t. string_bytes t ≡ flash_text cost.now) }
{
    let written = cost.written;
    let read = cost.read;
    let programs = cost.programs;
    let erases = cost.erases;
    format!(in alloc;
        "blocks written {written}\nblocks read {read}\nflash programs {programs}\nflash erases {erases}\n"
    )
}

/// The four lines behind them, which tell what the disk did, and how often power was cut.
#[tactic(auto, unfolding(crate::specs::Costed::disk_text))]
fn disk_part(alloc: Global, cost: &Cost) -> Result<String, AllocError>
    ensures { IfOk result (λ t. string_bytes t ≡ disk_text cost.now) }
{
    let disk_reads = cost.disk_reads;
    let disk_writes = cost.disk_writes;
    let disk_flushes = cost.disk_flushes;
    let cuts = cost.cuts;
    format!(in alloc;
        "disk reads {disk_reads}\ndisk writes {disk_writes}\ndisk flushes {disk_flushes}\npower cuts {cuts}\n"
    )
}

/// The eight lines of a cost.
#[tactic(auto, unfolding(crate::specs::Costed::cost_text))]
fn text_of(alloc: Global, cost: &Cost) -> Result<String, AllocError>
    ensures { IfOk result (λ t. string_bytes t ≡ cost_text cost.now) }
{
    let mut text = flash_part(alloc, cost)?;
    let rest = disk_part(alloc, cost)?;
    text.push_str(&rest)?;
    Ok(text)
}

/// Prints the eight lines of a cost together.
fn print_cost<O: Sink>(alloc: Global, sink: &mut O, cost: &Cost) -> Result<(), Ended>
    ensures printed { OnOk result (Appends (O.state sink.old).taken (O.state sink.new).taken (cost_text cost.now)) }
    ensures short { IsErrOf result Ended.Sink → (n : ℕ) × (n < length (cost_text cost.now))
        × Appends (O.state sink.old).taken (O.state sink.new).taken (take n (cost_text cost.now)) }
    ensures silent { IsErrOf result Ended.Memory → sink.new ≡ sink.old }
    ensures rose { IsErrOf result Ended.Sink → Rose (O.state sink.old).faults (O.state sink.new).faults }
    ensures stays { (IsErrOf result Ended.Sink → ⊥) → (O.state sink.new).faults ≡ (O.state sink.old).faults }
    ensures only { OnErr result (IsErrOf result Ended.Sink ⊎ IsErrOf result Ended.Memory) }
    ensures lent { (O.state sink.new).lent ≡ (O.state sink.old).lent }
{
    let Ok(text) = text_of(alloc, cost) else {
        return Err(Ended::Memory);
    };
    match send(sink, text.as_bytes()) {
        Ok(()) => Ok(()),
        Err(_) => Err(Ended::Sink),
    }
}

/// Runs a trace in this form over a new volume without printing, and then prints what it cost.
fn cost_over<F: LineForm, I: Source, O: Sink, R: Rig, V: Volume<R>>(
    alloc: Global,
    source: &mut I,
    sink: &mut O,
    rig: &mut R,
    volume: &mut V,
) -> Result<(), Ended>
    requires owns { V.owns volume.old (R.state rig.old).contents }
    requires fresh { IsAsMade (V.owes volume.old (R.state rig.old).contents) V.stands (V.state volume.old) (R.state rig.old) }
    ensures told { (V.state volume.new).told ≡ (V.state volume.old).told }
    ensures ends { EndsCost (V.state volume.old).told
        (ReadsBy (F.says (V.state volume.old).told.geometry.size) (I.state source.old) (I.state source.new))
        (O.state sink.old) (O.state sink.new) (V.stands (V.state volume.new).told) (R.state rig.old) (R.state rig.new) result }
    ensures causes { EndHasCause result (I.state source.old) (I.state source.new) (O.state sink.old) (O.state sink.new) (R.state rig.old)
        (R.state rig.new) }
    ensures on { (R.state rig.new).power.on ≡ true }
    ensures lent { KeepsLent (I.state source.old) (I.state source.new) (O.state sink.old) (O.state sink.new) (R.state rig.old)
        (R.state rig.new) }
{
    let before = rig.counts();
    match count_form::<F, I, O, R, V>(alloc, source, sink, rig, volume) {
        Ok(asked) => match cost_of(&asked, &before, &rig.counts()) {
            Some(cost) => print_cost(alloc, sink, &cost),
            None => Err(Ended::Memory),
        },
        Err(ended) => Err(ended),
    }
}

/// Fits the rig, makes a volume of this setup on it, runs a trace in this form over it without printing more than a refused
/// line, and then prints what it cost: the blocks that its lines write and read, what the devices did from the end of the
/// volume's creation to the end of the last line, and how often power was cut. No address is read at the end. Power may stop within any device write; the run then goes on after recovery.
///
/// It ends as for want of memory also if a number to be printed is above 2^64 - 1.
pub fn cost_with<F: LineForm, I: Source, O: Sink, R: Rig>(
    alloc: Global,
    setup: &Setup,
    source: &mut I,
    sink: &mut O,
    rig: &mut R,
) -> Result<(), Ended>
    // It ended before the volume was made, or as a run over it of which the cost is told.
    ensures ends { IsUnbegun result source.old source.new sink.old sink.new (R.state rig.old) (R.state rig.new)
        ⊎ EndsCosted (told_by setup.now) (ReadsBy (F.says setup.now.options.geometry.size) (I.state source.old) (I.state source.new))
        (O.state sink.old) (O.state sink.new) (ImageStandsFor setup.now.options.geometry) (R.state rig.old) (R.state rig.new) result }
    ensures end { OnOk result (IsAtEnd (I.state source.new).left) }
    ensures causes { EndHasCause result (I.state source.old) (I.state source.new) (O.state sink.old) (O.state sink.new) (R.state rig.old)
        (R.state rig.new) }
    ensures on { (IsErrOf result Ended.Memory → ⊥) → (R.state rig.new).power.on ≡ true }
    ensures lent { KeepsLent (I.state source.old) (I.state source.new) (O.state sink.old) (O.state sink.new) (R.state rig.old)
        (R.state rig.new) }
{
    match setup.mode {
        Mode::Back => match begin_back(alloc, rig, &setup.options) {
            Ok(mut volume) => cost_over::<F, I, O, R, WriteBack>(
                alloc,
                source,
                sink,
                rig,
                &mut volume,
            ),
            Err(ended) => Err(ended),
        },
        Mode::Through => match begin_through(alloc, rig, &setup.options) {
            Ok(mut volume) => {
                cost_over::<F, I, O, R, WriteThrough>(alloc, source, sink, rig, &mut volume)
            }
            Err(ended) => Err(ended),
        },
    }
}
