//! A command over a rig.
ghost use Rattle.std.specs.Prelude.{◌≡◌};
ghost use Rattle.flashtier_words.specs.declared.devices.Parity.TheVariants.{Off};
ghost use Rattle.flashtier_run.specs.Ends.{HasDisks};
ghost use Rattle.flashtier_run.specs.Runs.{Runs};
ghost use Rattle.flashtier_run.specs.Setup.{setup_in};

use crate::spelled::{ReadTrace, cost_spelled, replay_over};
use cache_run::{Setup, gen_with, inspect_with, status_of};
use flashtier_words::Command;
use ft_base::{Sink, Source};
use ft_media::{Media, Rig};
use std::alloc::Global;
use trace_sweep::sweep_with;

/// What this command sets its volume up with.
fn setup_of(command: &Command) -> Setup
    ensures { result ≡ setup_in command.now }
{
    match *command {
        Command::Replay { mode, options, .. }
        | Command::Cost { mode, options, .. }
        | Command::Gen { mode, options, .. }
        | Command::Inspect { mode, options }
        | Command::Sweep { mode, options, .. } => Setup { mode, options },
    }
}

/// Runs this command over this rig, and answers its status.
pub(crate) fn run_command<I: Source, O: Sink, R: Rig>(
    alloc: Global,
    command: Command,
    source: &mut I,
    sink: &mut O,
    rig: &mut R,
) -> u8
    requires { HasDisks command }
    ensures { Runs Off command result source.old source.new sink.old sink.new rig.old rig.new (I.state source.old) (I.state source.new)
        (O.state sink.old) (O.state sink.new) (R.state rig.old) (R.state rig.new) }
{
    let setup = setup_of(&command);
    match command {
        Command::Replay { form, disks, .. } => {
            let trace = ReadTrace { form, disks };
            status_of(replay_over(alloc, &setup, trace, source, sink, rig))
        }
        Command::Cost { form, .. } => {
            status_of(cost_spelled(alloc, &setup, form, source, sink, rig))
        }
        Command::Gen { number, count, .. } => {
            status_of(gen_with(alloc, &setup, number, count, sink, rig))
        }
        Command::Inspect { .. } => status_of(inspect_with(alloc, &setup, source, sink, rig)),
        Command::Sweep { outcome, .. } => {
            status_of(sweep_with(alloc, &setup, outcome, source, sink, rig))
        }
    }
}
