//! The commands `replay`, `cost`, `gen`, `inspect` and `sweep`, each with its values, read from words.
ghost use Rattle.std.specs.Prelude.{◌∷◌, ℕ, IfOk, IfSome, IfNone, codes, map};
ghost use Rattle.std.specs.String.{string_bytes};
ghost use Rattle.ft_base.specs.Told.{Told};
ghost use Rattle.ft_base.specs.declared.power.Outcome.{Outcome};
ghost use Rattle.ft_volume.specs.Volume.{told_for};
ghost use Rattle.flashtier_words.specs.Command.{IsCommand, IsCost, IsGen, IsInspect, IsOver, IsRunOf, IsSweep, Text};
ghost use Rattle.flashtier_words.specs.Spoken.{AreWordsFor};
ghost use Rattle.flashtier_words.specs.declared.command.TraceForm.{TraceForm};

use crate::devices::{Devices, Spoken};
use crate::matching::{cost_options, gen_options, replay_options, run_options, sweep_options};
use crate::settings::{disks_of, form_of, made_of, outcome_of, volume_of};
use ft_base::Outcome;
use ft_volume::{Mode, Options};
use std::alloc::{AllocError, Global};

/// The form in which the lines of a trace are spelled.
#[derive(Clone, Copy, Debug, PartialEq, Eq)]
pub enum TraceForm {
    /// Words, one request a line.
    Lines,
    /// Fields with commas between them, as in the traces of MSR Cambridge.
    Msr,
}

/// A command: to run a trace over a volume of this mode, made with these options.
#[derive(Clone, Copy, Debug, PartialEq, Eq)]
pub enum Command {
    /// Over a trace that is read.
    Replay {
        /// When a block that was written comes to the disk.
        mode: Mode,
        /// What the volume is made with.
        options: Options,
        /// How its lines are spelled.
        form: TraceForm,
        /// How many disks share the volume.
        disks: u32,
    },
    /// Over a trace that is read, to tell what it cost.
    Cost {
        /// When a block that was written comes to the disk.
        mode: Mode,
        /// What the volume is made with.
        options: Options,
        /// How its lines are spelled.
        form: TraceForm,
    },
    /// Over a made trace.
    Gen {
        /// When a block that was written comes to the disk.
        mode: Mode,
        /// What the volume is made with.
        options: Options,
        /// Which made trace.
        number: u64,
        /// How many lines it has.
        count: u64,
    },
    /// Over a trace that is read, to tell what it leaves in the cache.
    Inspect {
        /// When a block that was written comes to the disk.
        mode: Mode,
        /// What the volume is made with.
        options: Options,
    },
    /// Over a trace that is read, once for each device write that it makes, with power cut at this one.
    Sweep {
        /// When a block that was written comes to the disk.
        mode: Mode,
        /// What the volume is made with.
        options: Options,
        /// What each power cut leaves.
        outcome: Outcome,
    },
}

/// The command that the words after the program's name say, and the devices that it runs over; or None if they are no
/// command.
///
/// The first word is `replay`, `gen`, `inspect`, `cost` or `sweep`. After it come options in any order, each at most once, as
/// `--name value` or `--name=value`. A value in a word by itself doesn't begin with `-`. A number is `0`, or
/// decimal digits of which the first isn't 0. Every other word is refused, also `--` and flags for help or a
/// version. No volume has both `--mode through` and `--ack flush`. Lines of the form `msr` are for one disk alone.
///
/// | Option | Value | Default |
/// |---|---|---|
/// | `--mode` | `back` or `through` | `back` |
/// | `--pages` | pages of an erase block, 4 to 128 | 64 |
/// | `--data` | greatest number of data blocks, 1 to 512 | 128 |
/// | `--log` | greatest number of log blocks, 2 to 64 | 16 |
/// | `--journal` | erase blocks of a log region, 1 to 16 | 2 |
/// | `--size` | blocks of the volume, 1 to 2^40 | 1,048,576 |
/// | `--dirty` | dirty groups that an idle step leaves alone, 1 to the data blocks | half of these, rounded up |
/// | `--ack` | when a write is on the media: when it answers, `write`, or when the next flush answers, `flush` | `write` |
/// | `--flash` | whether flash tells which of its pages are torn, `plain`, or gives their bytes alone, `raw` | `plain` |
/// | `--parity` | whether an erase block has a page of parity: `off` or `on` | `off` |
/// | `--form`, of `replay` and `cost` alone | form of the trace's lines: `lines` or `msr` | `lines` |
/// | `--disks`, of `replay` alone | disks that share the volume, 1 to 16 and at most its blocks | 1 |
/// | `--number`, of `gen` alone | which made trace, 0 to 2^64 - 1 | 1 |
/// | `--count`, of `gen` alone | lines of the made trace, 1 to 1,000,000 | 20,000 |
/// | `--outcome`, of `sweep` alone | what a power cut leaves: `blank`, `whole`, `torn` or `mixed` | `torn` |
pub fn command_of(alloc: Global, words: &[String]) -> Result<Option<Spoken>, AllocError>
    ensures command { IfOk result (λ c. IfSome c (AreWordsFor (map string_bytes words.now))) }
    ensures none { IfOk result (λ c. IfNone c ((o : Told) → IsCommand (map string_bytes words.now) o → ⊥)) }
    ensures none_inspected { IfOk result (λ c. IfNone c ((o : Told) → IsInspect (map string_bytes words.now) o → ⊥)) }
    ensures none_costed { IfOk result (λ c. IfNone c ((o : Told) (form : TraceForm) → IsCost (map string_bytes words.now) o form → ⊥)) }
    ensures none_made { IfOk result (λ c. IfNone c ((o : Told) (number count : ℕ)
        → IsGen (map string_bytes words.now) o number count → ⊥)) }
    ensures none_swept { IfOk result (λ c. IfNone c ((o : Told) (outcome : Outcome) → IsSweep (map string_bytes words.now) o outcome → ⊥)) }
{
    let Some((first, others)) = words.split_first() else {
        return Ok(None);
    };
    if first.as_str() == "replay" {
        return replay_command(alloc, others);
    }
    if first.as_str() == "gen" {
        return gen_command(alloc, others);
    }
    if first.as_str() == "inspect" {
        return inspect_command(alloc, others);
    }
    if first.as_str() == "cost" {
        return cost_command(alloc, others);
    }
    if first.as_str() == "sweep" {
        return sweep_command(alloc, others);
    }
    Ok(None)
}

/// The mode, the options and the devices that these words after the word of a command say, or None if they say none.
fn run_of(alloc: Global, others: &[String]) -> Result<Option<(Mode, Options, Devices)>, AllocError>
    ensures some { IfOk result (λ it. IfSome it (λ it. (word : Text)
        → IsRunOf word (word ∷ map string_bytes others.now) (told_for it.0 it.1) × IsOver (word ∷ map string_bytes others.now) it.2)) }
    ensures none { IfOk result (λ it. IfNone it ((word : Text) (o : Told) → IsRunOf word (word ∷ map string_bytes others.now) o → ⊥)) }
{
    let Some(matches) = run_options(alloc, others)? else {
        return Ok(None);
    };
    let Some(said) = volume_of(&matches) else {
        return Ok(None);
    };
    Ok(Some(said))
}

/// The command that `replay` and these words after it say, or None if they are none.
fn replay_command(alloc: Global, others: &[String]) -> Result<Option<Spoken>, AllocError>
    ensures command { IfOk result (λ c. IfSome c (AreWordsFor (codes "replay" ∷ map string_bytes others.now))) }
    ensures none { IfOk result (λ c. IfNone c ((o : Told) → IsCommand (codes "replay" ∷ map string_bytes others.now) o → ⊥)) }
{
    let Some(matches) = replay_options(alloc, others)? else {
        return Ok(None);
    };
    let Some((mode, options, devices)) = volume_of(&matches) else {
        return Ok(None);
    };
    let Some(form) = form_of(&matches) else {
        return Ok(None);
    };
    let Some(disks) = disks_of(&matches, form, options.geometry.size) else {
        return Ok(None);
    };
    let command = Command::Replay {
        mode,
        options,
        form,
        disks,
    };
    Ok(Some(Spoken { command, devices }))
}

/// The command that `cost` and these words after it say, or None if they are none.
fn cost_command(alloc: Global, others: &[String]) -> Result<Option<Spoken>, AllocError>
    ensures command { IfOk result (λ c. IfSome c (AreWordsFor (codes "cost" ∷ map string_bytes others.now))) }
    ensures none { IfOk result (λ c. IfNone c ((o : Told) (form : TraceForm)
        → IsCost (codes "cost" ∷ map string_bytes others.now) o form → ⊥)) }
{
    let Some(matches) = cost_options(alloc, others)? else {
        return Ok(None);
    };
    let Some((mode, options, devices)) = volume_of(&matches) else {
        return Ok(None);
    };
    let Some(form) = form_of(&matches) else {
        return Ok(None);
    };
    let command = Command::Cost {
        mode,
        options,
        form,
    };
    Ok(Some(Spoken { command, devices }))
}

/// The command that `inspect` and these words after it say, or None if they are none.
fn inspect_command(alloc: Global, others: &[String]) -> Result<Option<Spoken>, AllocError>
    ensures command { IfOk result (λ c. IfSome c (AreWordsFor (codes "inspect" ∷ map string_bytes others.now))) }
    ensures none { IfOk result (λ c. IfNone c ((o : Told) → IsInspect (codes "inspect" ∷ map string_bytes others.now) o → ⊥)) }
{
    match run_of(alloc, others)? {
        Some((mode, options, devices)) => Ok(Some(Spoken {
            command: Command::Inspect { mode, options },
            devices,
        })),
        None => Ok(None),
    }
}

/// The command that `gen` and these words after it say, or None if they are none.
fn gen_command(alloc: Global, others: &[String]) -> Result<Option<Spoken>, AllocError>
    ensures command { IfOk result (λ c. IfSome c (AreWordsFor (codes "gen" ∷ map string_bytes others.now))) }
    ensures none { IfOk result (λ c. IfNone c ((o : Told) (number count : ℕ)
        → IsGen (codes "gen" ∷ map string_bytes others.now) o number count → ⊥)) }
{
    let Some(matches) = gen_options(alloc, others)? else {
        return Ok(None);
    };
    let Some((mode, options, devices)) = volume_of(&matches) else {
        return Ok(None);
    };
    let Some((number, count)) = made_of(&matches) else {
        return Ok(None);
    };
    let command = Command::Gen {
        mode,
        options,
        number,
        count,
    };
    Ok(Some(Spoken { command, devices }))
}

/// The command that `sweep` and these words after it say, or None if they are none.
fn sweep_command(alloc: Global, others: &[String]) -> Result<Option<Spoken>, AllocError>
    ensures command { IfOk result (λ c. IfSome c (AreWordsFor (codes "sweep" ∷ map string_bytes others.now))) }
    ensures none { IfOk result (λ c. IfNone c ((o : Told) (outcome : Outcome)
        → IsSweep (codes "sweep" ∷ map string_bytes others.now) o outcome → ⊥)) }
{
    let Some(matches) = sweep_options(alloc, others)? else {
        return Ok(None);
    };
    let Some((mode, options, devices)) = volume_of(&matches) else {
        return Ok(None);
    };
    let Some(outcome) = outcome_of(&matches) else {
        return Ok(None);
    };
    let command = Command::Sweep {
        mode,
        options,
        outcome,
    };
    Ok(Some(Spoken { command, devices }))
}
