//! The options of each command, and how the words are matched against them by clap. Words that clap would misread are
//! refused before.
ghost use Rattle.std.specs.Prelude.{◌≡◌, ◌≢◌, List, [], map, true, false, IfOk, IfSome, IfNone, option_map};
ghost use Rattle.std.specs.String.{string_bytes};
ghost use Rattle.std.specs.List.{list_all};
ghost use Rattle.clap.specs.Words.{app_of, rule_of, rows_of, found_of, matches_of, fault_of, is_simple_and_free};
ghost use Rattle.flashtier_words.specs.Command.{Setting, Spells, Text, cost_names, gen_names, option_names, replay_names, sweep_names, value_in};
ghost use Rattle.flashtier_words.specs.Matching.{bare_app, is_fair_word, is_name, option_rule, options_app, value_of};

use clap::error::ErrorKind;
use clap::{Arg, ArgAction, ArgMatches, Command};
use std::alloc::{AllocError, Global};

/// The options of a run.
static RUN_NAMES: [&str; 10] = [
    "mode", "pages", "data", "log", "journal", "size", "dirty", "ack", "flash", "parity",
];

/// The options of a replay.
static REPLAY_NAMES: [&str; 12] = [
    "mode", "pages", "data", "log", "journal", "size", "dirty", "ack", "flash", "parity", "form",
    "disks",
];

/// The options of a run of which the cost is told.
static COST_NAMES: [&str; 11] = [
    "mode", "pages", "data", "log", "journal", "size", "dirty", "ack", "flash", "parity", "form",
];

/// The options of a made trace.
static GEN_NAMES: [&str; 12] = [
    "mode", "pages", "data", "log", "journal", "size", "dirty", "ack", "flash", "parity", "number",
    "count",
];

/// The options of a sweep.
static SWEEP_NAMES: [&str; 11] = [
    "mode", "pages", "data", "log", "journal", "size", "dirty", "ack", "flash", "parity", "outcome",
];

/// An option of this name, which takes a value.
fn option<'a>(alloc: Global, name: &'a str) -> Arg<'a>
    ensures rule { rule_of result ≡ option_rule name.entry.now }
    ensures local { result.global ≡ false }
{
    Arg::new(alloc, name).long(name).action(ArgAction::Set)
}

/// A command that takes no word yet, and has no flag for help or a version.
fn bare<'a>(alloc: Global) -> Command<'a>
    ensures { app_of result ≡ bare_app }
{
    Command::new(alloc, "flashtier")
        .no_binary_name(true)
        .disable_help_flag(true)
        .disable_version_flag(true)
}

/// A command that takes an option of each name, and nothing else.
#[tactic(auto, using(crate::proofs::NameLemmas::one_more_name))]
fn command<'a>(alloc: Global, names: &[&'a str]) -> Result<Command<'a>, AllocError>
    ensures { IfOk result (λ c. app_of c ≡ options_app (map (λ s. s.now) names.now)) }
{
    let mut command = bare(alloc);
    for name in names {
        command = command.arg(option(alloc, name))?;
    }
    Ok(command)
}

/// What clap finds in the words, or None if it refuses them.
fn parse<'a>(
    alloc: Global,
    names: &[&'a str],
    words: &'a [String],
) -> Result<Option<ArgMatches<'a>>, AllocError>
    requires { is_simple_and_free (options_app (map (λ s. s.now) names.now)) ≡ true }
    ensures some { IfOk result (λ r. IfSome r (λ m. (fault_of (options_app (map (λ s. s.now) names.now))
        (map string_bytes words.entry.now) ≡ [])
        × (rows_of (found_of m) ≡ matches_of (options_app (map (λ s. s.now) names.now)) (map string_bytes words.entry.now)))) }
    ensures none { IfOk result (λ r. IfNone r (fault_of (options_app (map (λ s. s.now) names.now))
        (map string_bytes words.entry.now) ≢ [])) }
{
    match command(alloc, names)?.try_get_matches_from(words) {
        Ok(matches) => Ok(Some(matches)),
        Err(error) => match error.kind() {
            ErrorKind::OutOfMemory => Err(AllocError),
            _ => Ok(None),
        },
    }
}

/// Whether the word begins with no `-`, or is `--` with something after it. Clap sees no other words, since it
/// would pass over a last `--` and take `-` as a value.
fn is_fair(word: &str) -> bool
    ensures { result ≡ is_fair_word word.now }
{
    let bytes = word.as_bytes();
    if bytes.is_empty() || bytes[0] != b'-' {
        return true;
    }
    bytes.len() > 2 && bytes[1] == b'-'
}

#[tactic(auto, using(crate::proofs::ParseLemmas::fair_more, crate::proofs::ParseLemmas::fair_stops))]
fn all_fair(words: &[String]) -> bool
    ensures { result ≡ list_all is_fair_word (map string_bytes words.now) }
{
    for word in words {
        if !is_fair(word.as_str()) {
            return false;
        }
    }
    true
}

/// The options of these names that the words spell, or None if they spell none.
fn options<'a>(
    alloc: Global,
    names: &[&'a str],
    words: &'a [String],
) -> Result<Option<ArgMatches<'a>>, AllocError>
    requires { list_all is_name (map (λ s. s.now) names.now) ≡ true }
    ensures some { IfOk result (λ r. IfSome r (λ m. (settings : List Setting)
        × Spells (map (λ s. s.now) names.now) (map string_bytes words.entry.now) settings
        × ((name : Text) → value_of m name ≡ value_in settings name))) }
    ensures none { IfOk result (λ r. IfNone r ((settings : List Setting)
        → Spells (map (λ s. s.now) names.now) (map string_bytes words.entry.now) settings → ⊥)) }
{
    if !all_fair(words) {
        return Ok(None);
    }
    parse(alloc, names, words)
}

/// The options of a run that the words spell, or None if they spell none.
pub(crate) fn run_options<'a>(
    alloc: Global,
    words: &'a [String],
) -> Result<Option<ArgMatches<'a>>, AllocError>
    ensures some { IfOk result (λ r. IfSome r (λ m. (settings : List Setting)
        × Spells option_names (map string_bytes words.entry.now) settings
        × ((name : Text) → value_of m name ≡ value_in settings name))) }
    ensures none { IfOk result (λ r. IfNone r ((settings : List Setting) → Spells option_names (map string_bytes words.entry.now) settings
        → ⊥)) }
{
    options(alloc, RUN_NAMES.as_slice(), words)
}

/// The options of a replay that the words spell, or None if they spell none.
pub(crate) fn replay_options<'a>(
    alloc: Global,
    words: &'a [String],
) -> Result<Option<ArgMatches<'a>>, AllocError>
    ensures some { IfOk result (λ r. IfSome r (λ m. (settings : List Setting)
        × Spells replay_names (map string_bytes words.entry.now) settings
        × ((name : Text) → value_of m name ≡ value_in settings name))) }
    ensures none { IfOk result (λ r. IfNone r ((settings : List Setting) → Spells replay_names (map string_bytes words.entry.now) settings
        → ⊥)) }
{
    options(alloc, REPLAY_NAMES.as_slice(), words)
}

/// The options of a run of which the cost is told, if the words spell them.
pub(crate) fn cost_options<'a>(
    alloc: Global,
    words: &'a [String],
) -> Result<Option<ArgMatches<'a>>, AllocError>
    ensures some { IfOk result (λ r. IfSome r (λ m. (settings : List Setting)
        × Spells cost_names (map string_bytes words.entry.now) settings
        × ((name : Text) → value_of m name ≡ value_in settings name))) }
    ensures none { IfOk result (λ r. IfNone r ((settings : List Setting) → Spells cost_names (map string_bytes words.entry.now) settings
        → ⊥)) }
{
    options(alloc, COST_NAMES.as_slice(), words)
}

/// The options of a made trace that the words spell, or None if they spell none.
pub(crate) fn gen_options<'a>(
    alloc: Global,
    words: &'a [String],
) -> Result<Option<ArgMatches<'a>>, AllocError>
    ensures some { IfOk result (λ r. IfSome r (λ m. (settings : List Setting) × Spells gen_names (map string_bytes words.entry.now) settings
        × ((name : Text) → value_of m name ≡ value_in settings name))) }
    ensures none { IfOk result (λ r. IfNone r ((settings : List Setting) → Spells gen_names (map string_bytes words.entry.now) settings
        → ⊥)) }
{
    options(alloc, GEN_NAMES.as_slice(), words)
}

/// The options of a sweep that the words spell, or None if they spell none.
pub(crate) fn sweep_options<'a>(
    alloc: Global,
    words: &'a [String],
) -> Result<Option<ArgMatches<'a>>, AllocError>
    ensures some { IfOk result (λ r. IfSome r (λ m. (settings : List Setting)
        × Spells sweep_names (map string_bytes words.entry.now) settings
        × ((name : Text) → value_of m name ≡ value_in settings name))) }
    ensures none { IfOk result (λ r. IfNone r ((settings : List Setting) → Spells sweep_names (map string_bytes words.entry.now) settings
        → ⊥)) }
{
    options(alloc, SWEEP_NAMES.as_slice(), words)
}

/// The value of the option of this name if it is given.
#[tactic(auto, using(crate::proofs::ParseLemmas::value_row))]
pub(crate) fn value<'a>(matches: &ArgMatches<'a>, name: &str) -> Option<&'a str>
    ensures { option_map (λ s. s.now) result ≡ value_of matches.now name.now }
{
    matches.get_str(name)
}
