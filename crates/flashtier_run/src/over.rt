//! A command over the devices that words say.
ghost use Rattle.std.specs.Prelude.{◌≡◌};
ghost use Rattle.flashtier_words.specs.declared.devices.Parity.TheVariants.{On};
ghost use Rattle.flashtier_run.specs.Ends.{HasDisks};
ghost use Rattle.flashtier_run.specs.Over.{OnSealed};
ghost use Rattle.flashtier_run.specs.Runs.{Runs};

use crate::running::run_command;
use flashtier_words::{Command, Parity};
use ft_base::{Sink, Source};
use ft_media::{Media, Rig};
use parity_media::{ParityRig, Start};
use sealed_media::{RawMedia, RawRig, SealedRig};
use std::alloc::Global;
use std::marker::Brand;

/// Runs this command over this rig, with parity or without, and answers its status.
pub(crate) fn run_over<I: Source, O: Sink, R: Rig>(
    alloc: Global,
    command: Command,
    parity: Parity,
    source: &mut I,
    sink: &mut O,
    rig: &mut R,
) -> u8
    requires { HasDisks command }
    ensures { Runs parity command result source.old source.new sink.old sink.new rig.old rig.new (I.state source.old) (I.state source.new)
        (O.state sink.old) (O.state sink.new) (R.state rig.old) (R.state rig.new) }
{
    match parity {
        Parity::Off => run_command(alloc, command, source, sink, rig),
        Parity::On => run_with_parity(alloc, command, source, sink, rig),
    }
}

/// Runs this command over this rig with parity, and answers its status.
fn run_with_parity<I: Source, O: Sink, R: Rig>(
    alloc: Global,
    command: Command,
    source: &mut I,
    sink: &mut O,
    rig: &mut R,
) -> u8
    requires { HasDisks command }
    ensures { Runs On command result source.old source.new sink.old sink.new rig.old rig.new (I.state source.old) (I.state source.new)
        (O.state sink.old) (O.state sink.new) (R.state rig.old) (R.state rig.new) }
{
    run_counted::<I, O, R, Brand>(alloc, command, source, sink, rig)
}

/// Runs this command so over a rig whose counts of faults are known, and answers its status.
fn run_counted<I: Source, O: Sink, R: Rig, K: Start>(
    alloc: Global,
    command: Command,
    source: &mut I,
    sink: &mut O,
    rig: &mut R,
) -> u8
    requires disks { HasDisks command }
    requires flash { K.flash ≡ (R.state rig.old).faults.flash }
    requires cuts { K.cuts ≡ (R.state rig.old).faults.cuts }
    ensures { Runs On command result source.old source.new sink.old sink.new rig.old rig.new (I.state source.old) (I.state source.new)
        (O.state sink.old) (O.state sink.new) (R.state rig.old) (R.state rig.new) }
{
    let mut over = ParityRig::<R, K>::since(alloc, rig);
    over.parity_laws();
    let status = run_command(alloc, command, source, sink, &mut over);
    over.parity_laws();
    let _beneath = over.into_rig();
    status
}

/// Runs this command over a raw rig, with parity or without, and answers its status. Each page carries a seal.
pub(crate) fn run_sealed<I: Source, O: Sink, W: RawRig>(
    alloc: Global,
    command: Command,
    parity: Parity,
    source: &mut I,
    sink: &mut O,
    raw: &mut W,
) -> u8
    requires { HasDisks command }
    ensures { OnSealed (Runs parity command result source.old source.new sink.old sink.new raw.old raw.new (I.state source.old)
        (I.state source.new) (O.state sink.old) (O.state sink.new)) (W.state raw.old) (W.state raw.new) }
{
    let mut sealed = SealedRig::new(raw);
    run_over(alloc, command, parity, source, sink, &mut sealed)
}
