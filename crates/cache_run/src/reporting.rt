//! A report of what is in the cache, asked for again after each cut, and its text.
ghost use Rattle.std.specs.Prelude.{◌≡◌, ◌≢◌, ◌⊎◌, ◌<◌, ℕ, [], length, take, OnOk, OnErr, IfOk, IfErr, IfSome, IsErrOf};
ghost use Rattle.std.specs.Io.KnownBytes.{Appends};
ghost use Rattle.std.specs.Option.{OnSome};
ghost use Rattle.std.specs.String.{string_bytes};
ghost use Rattle.ft_base.specs.Count.{Rose};
ghost use Rattle.ft_media.specs.Fitted.{KeepsReady};
ghost use Rattle.ft_media.specs.Rig.{powered};
ghost use Rattle.ft_volume.specs.Volume.{StaysOwner};
ghost use Rattle.ft_volume.specs.declared.volume.VolumeError.TheVariants as volume_error;
ghost use Rattle.trace_replay.specs.Causes.{EndHasCauseUntraced};
ghost use Rattle.trace_replay.specs.Said.{NoneFailed, ended_of};
ghost use Rattle.trace_replay.specs.Went.{Keeps};
ghost use Rattle.cache_run.specs.Inspected.{Asks, CanReport, IsReportOf, Prints, PrintsFront, PrintsReport, cuts_by, report_text};

use ft_base::{Sink, send};
use ft_media::{Media, Rig};
use ft_volume::{Report, Volume, VolumeError};
use std::alloc::{AllocError, Global};
use trace_replay::{Ended, end_at};

/// Turns power on again if it was lost. After any other refusal the run ends.
fn power_again<R: Rig>(rig: &mut R, error: VolumeError) -> Result<(), Ended>
    requires range { error ≢ volume_error.OutOfVolume }
    ensures lost { OnOk result (error ≡ volume_error.PowerLost) }
    ensures powered { OnOk result (R.state rig.new ≡ powered (R.state rig.old)) }
    ensures same { OnErr result (R.state rig.new ≡ R.state rig.old) }
    ensures other { OnErr result (error ≢ volume_error.PowerLost) }
    ensures ended { IfErr result (λ e. e ≡ ended_of error) }
{
    match error {
        VolumeError::PowerLost => {
            rig.power_on();
            Ok(())
        }
        other => Err(end_at(other)),
    }
}

/// Asks a volume that owes nothing for its report. If a stop cut that, it gives none, and power is on again.
fn report_once<R: Rig, V: Volume<R>>(rig: &mut R, volume: &mut V) -> Result<Option<Report>, Ended>
    requires can { CanReport (V.owns volume.old) (V.owes volume.old) (V.stands (V.state volume.old).told) (R.state rig.old) }
    ensures owner { StaysOwner (V.owns volume.new) (R.state rig.new).contents (V.state volume.old) (V.state volume.new) }
    ensures nothing_owed { V.owes volume.new (R.state rig.new).contents [] }
    ensures kept { Keeps (V.stands (V.state volume.old).told) (V.stands (V.state volume.new).told) (R.state rig.old).contents
        (R.state rig.new).contents }
    ensures asks { Asks (cuts_by result) (R.state rig.old) (R.state rig.new) }
    ensures ready { IfOk result (λ found. OnSome found (KeepsReady (R.state rig.old) (R.state rig.new))) }
    ensures report { IfOk result (λ found. IfSome found
        (λ report. IsReportOf (V.state volume.old).told.geometry (V.loads (V.state volume.old).told) (R.state rig.new) report)) }
    ensures flash { IsErrOf result Ended.Flash → Rose (R.state rig.old).faults.flash (R.state rig.new).faults.flash }
    ensures disk { IsErrOf result Ended.Disk → Rose (R.state rig.old).faults.disk (R.state rig.new).faults.disk }
    ensures only { OnErr result (IsErrOf result Ended.Flash ⊎ IsErrOf result Ended.Disk ⊎ IsErrOf result Ended.Memory) }
    ensures sound { (IsErrOf result Ended.Flash → ⊥) → (IsErrOf result Ended.Disk → ⊥) → NoneFailed (R.state rig.old) (R.state rig.new) }
{
    match volume.report(rig) {
        Ok(report) => Ok(Some(report)),
        Err(error) => match power_again(rig, error) {
            Ok(()) => Ok(None),
            Err(ended) => Err(ended),
        },
    }
}

/// Asks a volume that owes nothing for its report, again after each cut.
pub(crate) fn report_through<R: Rig, V: Volume<R>>(
    rig: &mut R,
    volume: &mut V,
) -> Result<Report, Ended>
    requires can { CanReport (V.owns volume.old) (V.owes volume.old) (V.stands (V.state volume.old).told) (R.state rig.old) }
    ensures owner { StaysOwner (V.owns volume.new) (R.state rig.new).contents (V.state volume.old) (V.state volume.new) }
    ensures nothing_owed { V.owes volume.new (R.state rig.new).contents [] }
    ensures kept { Keeps (V.stands (V.state volume.old).told) (V.stands (V.state volume.new).told) (R.state rig.old).contents
        (R.state rig.new).contents }
    ensures asks { (cuts : ℕ) × Asks cuts (R.state rig.old) (R.state rig.new)
        × OnOk result (cuts ≡ 0 → KeepsReady (R.state rig.old) (R.state rig.new)) }
    ensures report { IfOk result (λ report. IsReportOf (V.state volume.old).told.geometry (V.loads (V.state volume.old).told)
        (R.state rig.new) report) }
    ensures flash { IsErrOf result Ended.Flash → Rose (R.state rig.old).faults.flash (R.state rig.new).faults.flash }
    ensures disk { IsErrOf result Ended.Disk → Rose (R.state rig.old).faults.disk (R.state rig.new).faults.disk }
    ensures only { OnErr result (IsErrOf result Ended.Flash ⊎ IsErrOf result Ended.Disk ⊎ IsErrOf result Ended.Memory) }
    ensures sound { (IsErrOf result Ended.Flash → ⊥) → (IsErrOf result Ended.Disk → ⊥) → NoneFailed (R.state rig.old) (R.state rig.new) }
{
    'again: loop {
        match report_once(rig, volume) {
            Ok(Some(report)) => return Ok(report),
            Ok(None) => {}
            Err(ended) => return Err(ended),
        }
    }
}

/// The four lines of a report.
#[tactic(auto, unfolding(crate::specs::Inspected::report_text))]
fn text_of(alloc: Global, report: &Report) -> Result<String, AllocError>
    ensures { IfOk result (λ t. string_bytes t ≡ report_text report.now) }
{
    let held = report.held;
    let dirty_groups = report.dirty_groups;
    let buckets = report.buckets;
    let scrubbed = report.scrubbed;
    format!(in alloc;
        "held {held}\ndirty groups {dirty_groups}\nbuckets {buckets}\nscrubbed {scrubbed}\n"
    )
}

/// Prints the four lines of a report together.
fn print_report<O: Sink>(alloc: Global, sink: &mut O, report: &Report) -> Result<(), Ended>
    ensures printed { OnOk result (Prints report.now (O.state sink.old) (O.state sink.new)) }
    ensures short { IsErrOf result Ended.Sink → (n : ℕ) × (n < length (report_text report.now))
        × Appends (O.state sink.old).taken (O.state sink.new).taken (take n (report_text report.now)) }
    ensures silent { IsErrOf result Ended.Memory → sink.new ≡ sink.old }
    ensures rose { IsErrOf result Ended.Sink → Rose (O.state sink.old).faults (O.state sink.new).faults }
    ensures stays { (IsErrOf result Ended.Sink → ⊥) → (O.state sink.new).faults ≡ (O.state sink.old).faults }
    ensures only { OnErr result (IsErrOf result Ended.Sink ⊎ IsErrOf result Ended.Memory) }
    ensures lent { (O.state sink.new).lent ≡ (O.state sink.old).lent }
{
    let Ok(text) = text_of(alloc, report) else {
        return Err(Ended::Memory);
    };
    match send(sink, text.as_bytes()) {
        Ok(()) => Ok(()),
        Err(_) => Err(Ended::Sink),
    }
}

/// Prints a report of what is in the cache, which it asks for again after each cut.
pub(crate) fn tell_report<O: Sink, R: Rig, V: Volume<R>>(
    alloc: Global,
    sink: &mut O,
    rig: &mut R,
    volume: &mut V,
) -> Result<(), Ended>
    requires can { CanReport (V.owns volume.old) (V.owes volume.old) (V.stands (V.state volume.old).told) (R.state rig.old) }
    ensures told { (V.state volume.new).told ≡ (V.state volume.old).told }
    ensures kept { Keeps (V.stands (V.state volume.old).told) (V.stands (V.state volume.new).told) (R.state rig.old).contents
        (R.state rig.new).contents }
    ensures asks { (cuts : ℕ) × Asks cuts (R.state rig.old) (R.state rig.new)
        × OnOk result (cuts ≡ 0 → KeepsReady (R.state rig.old) (R.state rig.new)) }
    ensures printed { OnOk result (PrintsReport (V.state volume.old).told.geometry (V.loads (V.state volume.old).told) (R.state rig.new)
        (O.state sink.old) (O.state sink.new)) }
    ensures short { IsErrOf result Ended.Sink → PrintsFront (V.state volume.old).told.geometry (V.loads (V.state volume.old).told)
        (R.state rig.new) (O.state sink.old) (O.state sink.new) }
    ensures silent { IfErr result (λ e. e ≢ Ended.Sink → sink.new ≡ sink.old) }
    ensures causes { EndHasCauseUntraced result (O.state sink.old) (O.state sink.new) (R.state rig.old) (R.state rig.new) }
    ensures lent { (O.state sink.new).lent ≡ (O.state sink.old).lent }
{
    match report_through(rig, volume) {
        Ok(report) => print_report(alloc, sink, &report),
        Err(ended) => Err(ended),
    }
}
