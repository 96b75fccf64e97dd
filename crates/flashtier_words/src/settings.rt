//! The value of each option: read from its word and held against its range, or else the default.
ghost use Rattle.std.specs.Prelude.{◌≡◌, ◌<◌, ◌≤◌, ◌^◌, ◌↔◌, ℕ, IsTrue, IfSome, IfNone, codes, decimal};
ghost use Rattle.ft_base.specs.Told.{Told};
ghost use Rattle.ft_base.specs.declared.geometry.Geometry.{Geometry};
ghost use Rattle.ft_base.specs.declared.power.Outcome.{Outcome};
ghost use Rattle.ft_base.specs.declared.power.Outcome.TheVariants.{Torn};
ghost use Rattle.ft_base.specs.declared.told.Ack.{Ack};
ghost use Rattle.ft_base.specs.declared.told.Ack.TheVariants.{Flush, Write};
ghost use Rattle.ft_base.specs.declared.told.Mode.{Mode};
ghost use Rattle.ft_base.specs.declared.told.Mode.TheVariants.{Back};
ghost use Rattle.ft_volume.specs.Volume.{told_for};
ghost use Rattle.flashtier_words.specs.Command.{AreDisks, AreNumbers, IsCount, IsDirty, IsGiven, IsWriting, Say, SayDevices, SayMade, ack_word, flash_word, form_word, mode_word, outcome_word, parity_word};
ghost use Rattle.flashtier_words.specs.Matching.{value_of};
ghost use Rattle.flashtier_words.specs.declared.command.TraceForm.{TraceForm};
ghost use Rattle.flashtier_words.specs.declared.command.TraceForm.TheVariants.{Lines, Msr};
ghost use Rattle.flashtier_words.specs.declared.devices.Devices.{Devices};
ghost use Rattle.flashtier_words.specs.declared.devices.FlashKind.{FlashKind};
ghost use Rattle.flashtier_words.specs.declared.devices.FlashKind.TheVariants.{Plain};
ghost use Rattle.flashtier_words.specs.declared.devices.Parity.{Parity};
ghost use Rattle.flashtier_words.specs.declared.devices.Parity.TheVariants.{Off};

use crate::command::TraceForm;
use crate::devices::{Devices, FlashKind, Parity};
use crate::matching::value;
use crate::number::number_of;
use clap::ArgMatches;
use ft_base::{Ack, Geometry, Outcome};
use ft_volume::{Mode, Options};

/// The number of the option of this name, or the default if it is not given.
fn number(matches: &ArgMatches<'_>, name: &str, default: u64) -> Option<u64>
    ensures some { IfSome result (IsGiven decimal default (value_of matches.now name.now)) }
    ensures none { IfNone result ((n : ℕ) → n < 2 ^ 64 → IsGiven decimal default (value_of matches.now name.now) n → ⊥) }
{
    match value(matches, name) {
        Some(word) => number_of(word),
        None => Some(default),
    }
}

/// The same if it fits 32 bits.
fn small_number(matches: &ArgMatches<'_>, name: &str, default: u32) -> Option<u32>
    ensures some { IfSome result (IsGiven decimal default (value_of matches.now name.now)) }
    ensures none { IfNone result ((n : ℕ) → n < 2 ^ 32 → IsGiven decimal default (value_of matches.now name.now) n → ⊥) }
{
    let number = number(matches, name, u64::from(default))?;
    u32::try_from(number).ok()
}

/// The numbers of the cache if each of them is in its range.
fn geometry_of(matches: &ArgMatches<'_>) -> Option<Geometry>
    ensures some { IfSome result (AreNumbers (value_of matches.now)) }
    ensures none { IfNone result ((g : Geometry) → AreNumbers (value_of matches.now) g → ⊥) }
{
    let p = small_number(matches, "pages", 64)?;
    let c = small_number(matches, "data", 128)?;
    let l = small_number(matches, "log", 16)?;
    let j = small_number(matches, "journal", 2)?;
    let size = number(matches, "size", 1048576)?;
    Geometry::new(p, c, l, j, size).ok()
}

/// How many dirty groups an idle step leaves alone if there are so many data blocks.
fn dirty_of(matches: &ArgMatches<'_>, data_blocks: u32) -> Option<u32>
    requires { data_blocks ≤ 512 }
    ensures some { IfSome result (IsDirty (value_of matches.now) data_blocks) }
    ensures none { IfNone result ((dirty : ℕ) → IsDirty (value_of matches.now) data_blocks dirty → ⊥) }
{
    let dirty = small_number(matches, "dirty", (data_blocks + 1) / 2)?;
    if dirty < 1 || dirty > data_blocks {
        return None;
    }
    Some(dirty)
}

/// What the volume is made with, if its writes are on the media at this time.
fn options_of(matches: &ArgMatches<'_>, ack: Ack) -> Option<Options>
    ensures ack { IfSome result (λ it. it.ack ≡ ack) }
    ensures some { IfSome result (λ it. AreNumbers (value_of matches.now) it.geometry
        × IsDirty (value_of matches.now) it.geometry.c it.dirty) }
    ensures none { IfNone result ((g : Geometry) (dirty : ℕ) → AreNumbers (value_of matches.now) g
        → IsDirty (value_of matches.now) g.c dirty → ⊥) }
{
    let geometry = geometry_of(matches)?;
    let dirty = dirty_of(matches, geometry.c)?;
    Some(Options {
        geometry,
        dirty,
        ack,
    })
}

/// The mode of which this is the word.
fn mode_named(word: &str) -> Option<Mode>
    ensures some { IfSome result (λ m. word.now ≡ mode_word m) }
    ensures none { IfNone result ((m : Mode) → word.now ≡ mode_word m → ⊥) }
{
    if word == "back" {
        return Some(Mode::Back);
    }
    if word == "through" {
        return Some(Mode::Through);
    }
    None
}

/// The mode that is given, or write-back.
fn mode_of(matches: &ArgMatches<'_>) -> Option<Mode>
    ensures some { IfSome result (IsGiven mode_word Back (value_of matches.now (codes "mode"))) }
    ensures none { IfNone result ((m : Mode) → IsGiven mode_word Back (value_of matches.now (codes "mode")) m → ⊥) }
{
    match value(matches, "mode") {
        Some(word) => mode_named(word),
        None => Some(Mode::Back),
    }
}

/// When a write is on the media, by this word.
fn ack_named(word: &str) -> Option<Ack>
    ensures some { IfSome result (λ a. word.now ≡ ack_word a) }
    ensures none { IfNone result ((a : Ack) → word.now ≡ ack_word a → ⊥) }
{
    if word == "write" {
        return Some(Ack::Write);
    }
    if word == "flush" {
        return Some(Ack::Flush);
    }
    None
}

/// When a write is on the media: the word that is given, or when the write answers.
fn ack_of(matches: &ArgMatches<'_>) -> Option<Ack>
    ensures some { IfSome result (IsGiven ack_word Write (value_of matches.now (codes "ack"))) }
    ensures none { IfNone result ((a : Ack) → IsGiven ack_word Write (value_of matches.now (codes "ack")) a → ⊥) }
{
    match value(matches, "ack") {
        Some(word) => ack_named(word),
        None => Some(Ack::Write),
    }
}

/// Whether a volume of this mode can have its writes on the media at this time.
fn is_offered(mode: Mode, ack: Ack) -> bool
    ensures { IsTrue result ↔ (ack ≡ Flush → mode ≡ Back) }
{
    match mode {
        Mode::Back => true,
        Mode::Through => match ack {
            Ack::Write => true,
            Ack::Flush => false,
        },
    }
}

/// The mode, and when a write is on the media; or None if no volume has both.
fn writing_of(matches: &ArgMatches<'_>) -> Option<(Mode, Ack)>
    ensures some { IfSome result (λ it. IsWriting (value_of matches.now) it.0 it.1) }
    ensures none { IfNone result ((m : Mode) (a : Ack) → IsWriting (value_of matches.now) m a → ⊥) }
{
    let mode = mode_of(matches)?;
    let ack = ack_of(matches)?;
    if !is_offered(mode, ack) {
        return None;
    }
    Some((mode, ack))
}

/// The kind of flash of which this is the word.
fn flash_named(word: &str) -> Option<FlashKind>
    ensures some { IfSome result (λ f. word.now ≡ flash_word f) }
    ensures none { IfNone result ((f : FlashKind) → word.now ≡ flash_word f → ⊥) }
{
    if word == "plain" {
        return Some(FlashKind::Plain);
    }
    if word == "raw" {
        return Some(FlashKind::Raw);
    }
    None
}

/// The kind of flash that is given, or flash that tells of its torn pages.
fn flash_of(matches: &ArgMatches<'_>) -> Option<FlashKind>
    ensures some { IfSome result (IsGiven flash_word Plain (value_of matches.now (codes "flash"))) }
    ensures none { IfNone result ((f : FlashKind) → IsGiven flash_word Plain (value_of matches.now (codes "flash")) f → ⊥) }
{
    match value(matches, "flash") {
        Some(word) => flash_named(word),
        None => Some(FlashKind::Plain),
    }
}

/// Whether there is parity if this is the word.
fn parity_named(word: &str) -> Option<Parity>
    ensures some { IfSome result (λ p. word.now ≡ parity_word p) }
    ensures none { IfNone result ((p : Parity) → word.now ≡ parity_word p → ⊥) }
{
    if word == "off" {
        return Some(Parity::Off);
    }
    if word == "on" {
        return Some(Parity::On);
    }
    None
}

/// Whether there is parity: what is given, or none.
fn parity_of(matches: &ArgMatches<'_>) -> Option<Parity>
    ensures some { IfSome result (IsGiven parity_word Off (value_of matches.now (codes "parity"))) }
    ensures none { IfNone result ((p : Parity) → IsGiven parity_word Off (value_of matches.now (codes "parity")) p → ⊥) }
{
    match value(matches, "parity") {
        Some(word) => parity_named(word),
        None => Some(Parity::Off),
    }
}

/// What the options say of the devices, or None if one has no such value.
fn devices_of(matches: &ArgMatches<'_>) -> Option<Devices>
    ensures some { IfSome result (SayDevices (value_of matches.now)) }
    ensures none { IfNone result ((d : Devices) → SayDevices (value_of matches.now) d → ⊥) }
{
    let flash = flash_of(matches)?;
    let parity = parity_of(matches)?;
    Some(Devices { flash, parity })
}

/// What the options say of the volume and of the devices beneath it, or None if one of them has no such value.
pub(crate) fn volume_of(matches: &ArgMatches<'_>) -> Option<(Mode, Options, Devices)>
    ensures some { IfSome result (λ it. Say (value_of matches.now) (told_for it.0 it.1) × SayDevices (value_of matches.now) it.2) }
    ensures none { IfNone result ((o : Told) → Say (value_of matches.now) o → ⊥) }
{
    let (mode, ack) = writing_of(matches)?;
    let options = options_of(matches, ack)?;
    let devices = devices_of(matches)?;
    Some((mode, options, devices))
}

/// How many lines a made trace has.
fn count_of(matches: &ArgMatches<'_>) -> Option<u64>
    ensures some { IfSome result (IsCount (value_of matches.now)) }
    ensures none { IfNone result ((count : ℕ) → IsCount (value_of matches.now) count → ⊥) }
{
    let count = number(matches, "count", 20000)?;
    if count < 1 || count > 1000000 {
        return None;
    }
    Some(count)
}

/// What the options say of a made trace, its number and its lines, or None if one has no such value.
pub(crate) fn made_of(matches: &ArgMatches<'_>) -> Option<(u64, u64)>
    ensures some { IfSome result (λ it. SayMade (value_of matches.now) it.0 it.1) }
    ensures none { IfNone result ((number count : ℕ) → SayMade (value_of matches.now) number count → ⊥) }
{
    let which = number(matches, "number", 1)?;
    let count = count_of(matches)?;
    Some((which, count))
}

/// The form of lines of which this is the word.
fn form_named(word: &str) -> Option<TraceForm>
    ensures some { IfSome result (λ f. word.now ≡ form_word f) }
    ensures none { IfNone result ((f : TraceForm) → word.now ≡ form_word f → ⊥) }
{
    if word == "lines" {
        return Some(TraceForm::Lines);
    }
    if word == "msr" {
        return Some(TraceForm::Msr);
    }
    None
}

/// The form of a trace's lines: what is given, or lines of words.
pub(crate) fn form_of(matches: &ArgMatches<'_>) -> Option<TraceForm>
    ensures some { IfSome result (IsGiven form_word Lines (value_of matches.now (codes "form"))) }
    ensures none { IfNone result ((f : TraceForm) → IsGiven form_word Lines (value_of matches.now (codes "form")) f → ⊥) }
{
    match value(matches, "form") {
        Some(word) => form_named(word),
        None => Some(TraceForm::Lines),
    }
}

/// Whether lines in this form can choose among so many disks.
fn is_chosen_by(form: TraceForm, disks: u32) -> bool
    ensures { IsTrue result ↔ (form ≡ Msr → disks ≡ 1) }
{
    match form {
        TraceForm::Lines => true,
        TraceForm::Msr => disks == 1,
    }
}

/// How many disks share a volume of so many blocks, if the trace's lines are in this form: what is given, or one.
pub(crate) fn disks_of(matches: &ArgMatches<'_>, form: TraceForm, size: u64) -> Option<u32>
    ensures some { IfSome result (AreDisks (value_of matches.now) form size) }
    ensures none { IfNone result ((disks : ℕ) → AreDisks (value_of matches.now) form size disks → ⊥) }
{
    let disks = small_number(matches, "disks", 1)?;
    if disks < 1 || disks > 16 || u64::from(disks) > size {
        return None;
    }
    if !is_chosen_by(form, disks) {
        return None;
    }
    Some(disks)
}

/// The outcome of which this is the word.
fn outcome_named(word: &str) -> Option<Outcome>
    ensures some { IfSome result (λ x. word.now ≡ outcome_word x) }
    ensures none { IfNone result ((x : Outcome) → word.now ≡ outcome_word x → ⊥) }
{
    if word == "blank" {
        return Some(Outcome::Blank);
    }
    if word == "whole" {
        return Some(Outcome::Whole);
    }
    if word == "torn" {
        return Some(Outcome::Torn);
    }
    if word == "mixed" {
        return Some(Outcome::Mixed);
    }
    None
}

/// What each power cut leaves: what is given, or torn pages.
pub(crate) fn outcome_of(matches: &ArgMatches<'_>) -> Option<Outcome>
    ensures some { IfSome result (IsGiven outcome_word Torn (value_of matches.now (codes "outcome"))) }
    ensures none { IfNone result ((x : Outcome) → IsGiven outcome_word Torn (value_of matches.now (codes "outcome")) x → ⊥) }
{
    match value(matches, "outcome") {
        Some(word) => outcome_named(word),
        None => Some(Outcome::Torn),
    }
}
