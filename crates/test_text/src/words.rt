//! The words after the program's name: some are commands, and some are none.

use flashtier_words::{
    Command, Devices, FlashKind, Parity, Spoken, TraceForm, command_law, command_of,
};
use ft_base::{Ack, Outcome};
use ft_volume::{Mode, Options};
use std::alloc::Global;
use std::test::Fail;

/// What the words between these spaces say.
fn spoken_in(alloc: Global, line: &str) -> Result<Option<Spoken>, Fail> {
    let mut words = Vec::new(alloc);
    for word in line.split(' ') {
        words.push(String::from_str(alloc, word)?)?;
    }
    Ok(command_of(alloc, words.as_slice())?)
}

// ---- no commands

/// The first line whose words are a command, if there is one.
fn first_command(alloc: Global, lines: &[&str]) -> Result<Option<usize>, Fail> {
    for i in 0..lines.len() {
        if spoken_in(alloc, lines[i])?.is_some() {
            return Ok(Some(i));
        }
    }
    Ok(None)
}

const OTHER_WORDS: [&str; 39] = [
    "",
    "play",
    "Replay",
    "REPLAY",
    "replay x",
    "x replay",
    "replay replay",
    "generate",
    "Gen",
    "Sweep",
    "inspect inspect",
    "inspect replay",
    "inspect --number 1",
    "Inspect",
    "gen replay",
    "gen 1",
    "replay gen",
    "gen --help",
    "gen --",
    "help",
    "--help",
    "-h",
    "--version",
    "-V",
    "replay help",
    "replay --help",
    "replay -h",
    "replay --version",
    "replay -V",
    "--",
    "-- replay",
    "replay -",
    "replay --",
    "replay -- --pages 8",
    "replay --pages 8 --",
    "replay --pages -- 8",
    "replay ",
    "replay --pages 8 ",
    "replay --pages 8 8",
];

#[test]
fn no_other_words_are_a_command(rt: HostRuntime) -> Result<(), Fail> {
    assert!(rt; command_of(rt.alloc(), &[])?.is_none());
    assert_eq!(rt; first_command(rt.alloc(), &OTHER_WORDS)?, None);
    Ok(())
}

const OTHER_OPTIONS: [&str; 25] = [
    "replay --siz=64",
    "replay --sizes=64",
    "replay --SIZE=64",
    "replay -size=64",
    "replay -s 64",
    "replay size=64",
    "replay --size64",
    "replay --=64",
    "replay --number 1",
    "replay --count 5",
    "replay --pages",
    "replay --pages --data 2",
    "replay --pages -",
    "replay --pages --",
    "replay --mode",
    "replay --mode=",
    "replay --mode forward",
    "replay --mode Back",
    "replay --mode back through",
    "replay --mode=backs",
    "replay --size=64 --size=64",
    "replay --size 64 --size 64",
    "replay --size=64 --size 64",
    "replay --size 64 --data 2 --size=64",
    "replay --mode back --mode=back",
];

#[test]
fn an_option_has_its_name_and_its_value(rt: HostRuntime) -> Result<(), Fail> {
    assert_eq!(rt; first_command(rt.alloc(), &OTHER_OPTIONS)?, None);
    Ok(())
}

const OTHER_SPELLINGS: [&str; 15] = [
    "replay --pages=",
    "replay --pages ",
    "replay --pages 08",
    "replay --pages=08",
    "replay --pages=+8",
    "replay --pages +8",
    "replay --pages=-8",
    "replay --pages -8",
    "replay --pages 8x",
    "replay --pages 0x8",
    "replay --pages=8=8",
    "replay --pages \t8",
    "replay --pages 4294967304",
    "replay --size 18446744073709551680",
    "replay --size 18446744073709551616",
];

#[test]
fn a_number_has_one_spelling(rt: HostRuntime) -> Result<(), Fail> {
    assert_eq!(rt; first_command(rt.alloc(), &OTHER_SPELLINGS)?, None);
    Ok(())
}

const OUT_OF_RANGE: [&str; 15] = [
    "replay --pages 3",
    "replay --pages 129",
    "replay --data 0",
    "replay --data 513",
    "replay --log 1",
    "replay --log 65",
    "replay --journal 0",
    "replay --journal 17",
    "replay --size 0",
    "replay --size 1099511627777",
    "replay --size 18446744073709551615",
    "replay --dirty 0",
    "replay --dirty 129",
    "replay --data 2 --dirty 3",
    "replay --dirty=3 --data=2",
];

#[test]
fn a_number_is_in_its_range(rt: HostRuntime) -> Result<(), Fail> {
    assert_eq!(rt; first_command(rt.alloc(), &OUT_OF_RANGE)?, None);
    Ok(())
}

const NO_MADE_TRACES: [&str; 12] = [
    "gen --count 0",
    "gen --count 1000001",
    "gen --count=01",
    "gen --count",
    "gen --count=",
    "gen --count -1",
    "gen --number=18446744073709551616",
    "gen --number=",
    "gen --number 1 --number 1",
    "gen --number=1 --count 5 --count=5",
    "gen --size 0",
    "gen --outcome torn",
];

#[test]
fn a_made_trace_has_its_options_once_and_in_range(rt: HostRuntime) -> Result<(), Fail> {
    assert_eq!(rt; first_command(rt.alloc(), &NO_MADE_TRACES)?, None);
    Ok(())
}

const NO_SWEEPS: [&str; 16] = [
    "sweep torn",
    "sweep replay",
    "sweep --outcome",
    "sweep --outcome=",
    "sweep --outcome soon",
    "sweep --outcome Torn",
    "sweep --outcome=torn,blank",
    "sweep --outcome torn blank",
    "sweep --outcome torn --outcome torn",
    "sweep --outcomes torn",
    "sweep --number 1",
    "sweep --count=5",
    "sweep --size 0",
    "sweep --",
    "replay --outcome torn",
    "inspect --outcome=torn",
];

#[test]
fn what_a_cut_leaves_is_one_word_and_of_a_sweep_alone(rt: HostRuntime) -> Result<(), Fail> {
    assert_eq!(rt; first_command(rt.alloc(), &NO_SWEEPS)?, None);
    Ok(())
}

const NO_FORMS: [&str; 14] = [
    "replay --form",
    "replay --form=",
    "replay --form text",
    "replay --form MSR",
    "replay --form=line",
    "replay --form msr,lines",
    "replay --form msr lines",
    "replay --form msr --form=msr",
    "replay --forms msr",
    "cost --form",
    "cost --number 1",
    "gen --form lines",
    "inspect --form=msr",
    "sweep --form msr",
];

#[test]
fn a_form_is_one_of_two_words_and_of_a_replay_alone(rt: HostRuntime) -> Result<(), Fail> {
    assert_eq!(rt; first_command(rt.alloc(), &NO_FORMS)?, None);
    Ok(())
}

const NO_DISKS: [&str; 21] = [
    "replay --disks",
    "replay --disks=",
    "replay --disks two",
    "replay --disks=02",
    "replay --disks 2,3",
    "replay --disks 2 3",
    "replay --disks 0",
    "replay --disks=17",
    "replay --disks 4294967298",
    "replay --disks 2 --disks=2",
    "replay --disk 2",
    "replay --size 1 --disks 2",
    "replay --disks=16 --size=15",
    "replay --form msr --disks 2",
    "replay --disks=16 --size 64 --form=msr",
    "gen --disks 2",
    "inspect --disks=2",
    "cost --disks 1",
    "cost --form lines --disks 2",
    "sweep --disks=2",
    "sweep --disks 1",
];

#[test]
fn disks_are_few_and_of_a_replay_of_words_alone(rt: HostRuntime) -> Result<(), Fail> {
    assert_eq!(rt; first_command(rt.alloc(), &NO_DISKS)?, None);
    Ok(())
}

const NO_DEVICES: [&str; 18] = [
    "replay --flash",
    "replay --flash=",
    "replay --flash on",
    "replay --flash Raw",
    "replay --flash=plain,raw",
    "replay --flash raw plain",
    "replay --flash raw --flash raw",
    "replay --flash=raw --flash=plain",
    "replay --parity",
    "replay --parity=",
    "replay --parity raw",
    "replay --parity ON",
    "replay --parity=yes",
    "replay --parity on --parity=on",
    "gen --flash=torn",
    "inspect --parity 1",
    "cost --flashes raw",
    "sweep --parity=of",
];

#[test]
fn devices_are_said_by_their_words(rt: HostRuntime) -> Result<(), Fail> {
    assert_eq!(rt; first_command(rt.alloc(), &NO_DEVICES)?, None);
    Ok(())
}

const NO_ACKS: [&str; 15] = [
    "replay --ack",
    "replay --ack=",
    "replay --ack on",
    "replay --ack Flush",
    "replay --ack=write,flush",
    "replay --ack flush write",
    "replay --ack flush --ack=flush",
    "replay --acks flush",
    "replay --mode through --ack flush",
    "replay --ack=flush --pages 4 --mode=through",
    "gen --ack=flush --mode=through",
    "inspect --mode=through --ack flush",
    "cost --ack flush --form msr --mode through",
    "sweep --mode through --outcome torn --ack=flush",
    "inspect --ack 1",
];

#[test]
fn only_a_write_back_acknowledges_before_the_flush(rt: HostRuntime) -> Result<(), Fail> {
    assert_eq!(rt; first_command(rt.alloc(), &NO_ACKS)?, None);
    Ok(())
}

// ---- commands

/// The numbers in the order of the options.
fn numbers_of(options: &Options) -> [u64; 6] {
    let numbers = options.geometry;
    [
        u64::from(numbers.p()),
        u64::from(numbers.c()),
        u64::from(numbers.l()),
        u64::from(numbers.j()),
        numbers.size(),
        u64::from(options.dirty),
    ]
}

/// The kind of a command.
#[derive(Clone, Copy, PartialEq, Eq)]
enum Kind {
    Replay,
    /// A replay of a trace in the form of MSR Cambridge.
    ReplayMsr,
    /// The cost of a trace in this form.
    Cost(TraceForm),
    Inspect,
    /// A made trace of this number, and the number of its lines.
    Gen(u64, u64),
    /// A sweep in which each power cut leaves this.
    Sweep(Outcome),
}

/// A line, and the meaning of its words: the command, the mode, and the numbers in the order of the options.
type Row<'a> = (&'a str, Kind, Mode, [u64; 6]);

fn says(command: Command, kind: Kind, mode: Mode, numbers: [u64; 6]) -> bool {
    let (found, how, options) = match command {
        Command::Replay {
            mode,
            options,
            form: TraceForm::Lines,
            ..
        } => (Kind::Replay, mode, options),
        Command::Replay {
            mode,
            options,
            form: TraceForm::Msr,
            ..
        } => (Kind::ReplayMsr, mode, options),
        Command::Cost {
            mode,
            options,
            form,
        } => (Kind::Cost(form), mode, options),
        Command::Inspect { mode, options } => (Kind::Inspect, mode, options),
        Command::Gen {
            mode,
            options,
            number,
            count,
        } => (Kind::Gen(number, count), mode, options),
        Command::Sweep {
            mode,
            options,
            outcome,
        } => (Kind::Sweep(outcome), mode, options),
    };
    found == kind && how == mode && numbers_of(&options) == numbers
}

fn is_said(alloc: Global, row: Row) -> Result<bool, Fail> {
    let (line, kind, mode, numbers) = row;
    match spoken_in(alloc, line)? {
        Some(spoken) => Ok(says(spoken.command, kind, mode, numbers)),
        None => Ok(false),
    }
}

/// The first line whose words say something else, if there is one.
fn first_other(alloc: Global, rows: &[Row]) -> Result<Option<usize>, Fail> {
    for i in 0..rows.len() {
        if !is_said(alloc, rows[i])? {
            return Ok(Some(i));
        }
    }
    Ok(None)
}

const NUMBERS: [u64; 6] = [64, 128, 16, 2, 1048576, 64];

const INSPECTION: [Row; 1] = [(
    "inspect --mode=through --pages 4 --data=2 --log 2 --journal=1 --size 64 --dirty=1",
    Kind::Inspect,
    Mode::Through,
    [4, 2, 2, 1, 64, 1],
)];

#[test]
fn an_inspection_has_the_options_of_a_replay(rt: HostRuntime) -> Result<(), Fail> {
    assert_eq!(rt; first_other(rt.alloc(), &INSPECTION)?, None);
    Ok(())
}

const FORMS: [Row; 6] = [
    ("replay --form lines", Kind::Replay, Mode::Back, NUMBERS),
    ("replay --form msr", Kind::ReplayMsr, Mode::Back, NUMBERS),
    ("replay --form=msr", Kind::ReplayMsr, Mode::Back, NUMBERS),
    ("cost", Kind::Cost(TraceForm::Lines), Mode::Back, NUMBERS),
    (
        "cost --form msr",
        Kind::Cost(TraceForm::Msr),
        Mode::Back,
        NUMBERS,
    ),
    (
        "replay --mode=through --pages 4 --form msr --data=2 --log 2 --journal=1 --size 64 --dirty=1",
        Kind::ReplayMsr,
        Mode::Through,
        [4, 2, 2, 1, 64, 1],
    ),
];

#[test]
fn a_replay_has_the_form_of_its_lines(rt: HostRuntime) -> Result<(), Fail> {
    assert_eq!(rt; first_other(rt.alloc(), &FORMS)?, None);
    Ok(())
}

const SWEEPS: [Row; 6] = [
    ("sweep", Kind::Sweep(Outcome::Torn), Mode::Back, NUMBERS),
    (
        "sweep --outcome blank",
        Kind::Sweep(Outcome::Blank),
        Mode::Back,
        NUMBERS,
    ),
    (
        "sweep --outcome=whole",
        Kind::Sweep(Outcome::Whole),
        Mode::Back,
        NUMBERS,
    ),
    (
        "sweep --outcome=torn",
        Kind::Sweep(Outcome::Torn),
        Mode::Back,
        NUMBERS,
    ),
    (
        "sweep --outcome mixed",
        Kind::Sweep(Outcome::Mixed),
        Mode::Back,
        NUMBERS,
    ),
    (
        "sweep --mode=through --pages 4 --outcome mixed --data=2 --log 2 --journal=1 --size 64 --dirty=1",
        Kind::Sweep(Outcome::Mixed),
        Mode::Through,
        [4, 2, 2, 1, 64, 1],
    ),
];

#[test]
fn a_sweep_has_the_options_of_a_replay_and_what_a_cut_leaves(rt: HostRuntime) -> Result<(), Fail> {
    assert_eq!(rt; first_other(rt.alloc(), &SWEEPS)?, None);
    Ok(())
}

const DEFAULTS: [Row; 14] = [
    ("replay", Kind::Replay, Mode::Back, NUMBERS),
    ("replay --mode back", Kind::Replay, Mode::Back, NUMBERS),
    (
        "replay --mode=through",
        Kind::Replay,
        Mode::Through,
        NUMBERS,
    ),
    (
        "replay --pages 4",
        Kind::Replay,
        Mode::Back,
        [4, 128, 16, 2, 1048576, 64],
    ),
    (
        "replay --pages=128",
        Kind::Replay,
        Mode::Back,
        [128, 128, 16, 2, 1048576, 64],
    ),
    (
        "replay --data=1",
        Kind::Replay,
        Mode::Back,
        [64, 1, 16, 2, 1048576, 1],
    ),
    (
        "replay --data 2",
        Kind::Replay,
        Mode::Back,
        [64, 2, 16, 2, 1048576, 1],
    ),
    (
        "replay --data 3",
        Kind::Replay,
        Mode::Back,
        [64, 3, 16, 2, 1048576, 2],
    ),
    (
        "replay --data=512",
        Kind::Replay,
        Mode::Back,
        [64, 512, 16, 2, 1048576, 256],
    ),
    (
        "replay --log=2",
        Kind::Replay,
        Mode::Back,
        [64, 128, 2, 2, 1048576, 64],
    ),
    (
        "replay --journal 16",
        Kind::Replay,
        Mode::Back,
        [64, 128, 16, 16, 1048576, 64],
    ),
    (
        "replay --size=1",
        Kind::Replay,
        Mode::Back,
        [64, 128, 16, 2, 1, 64],
    ),
    (
        "replay --dirty 128",
        Kind::Replay,
        Mode::Back,
        [64, 128, 16, 2, 1048576, 128],
    ),
    (
        "replay --dirty=1 --data=1",
        Kind::Replay,
        Mode::Back,
        [64, 1, 16, 2, 1048576, 1],
    ),
];

#[test]
fn what_is_not_given_is_the_default(rt: HostRuntime) -> Result<(), Fail> {
    command_law();
    assert_eq!(rt; first_other(rt.alloc(), &DEFAULTS)?, None);
    Ok(())
}

const SMALL: [u64; 6] = [4, 2, 2, 1, 64, 2];

const GREAT: [u64; 6] = [64, 512, 64, 16, 1099511627776, 512];

const ANY_ORDER: [Row; 5] = [
    (
        "replay --mode through --pages 4 --data 2 --log 2 --journal 1 --size 64 --dirty 2",
        Kind::Replay,
        Mode::Through,
        SMALL,
    ),
    (
        "replay --dirty=2 --size=64 --journal=1 --log=2 --data=2 --pages=4 --mode=through",
        Kind::Replay,
        Mode::Through,
        SMALL,
    ),
    (
        "replay --size 64 --dirty=2 --mode through --data=2 --pages 4 --journal=1 --log 2",
        Kind::Replay,
        Mode::Through,
        SMALL,
    ),
    (
        "replay --pages 64 --data 512 --log 64 --journal 16 --size 1099511627776 --dirty 512",
        Kind::Replay,
        Mode::Back,
        GREAT,
    ),
    (
        "replay --dirty 512 --log=64 --size=1099511627776 --mode=back --data 512 --journal=16",
        Kind::Replay,
        Mode::Back,
        GREAT,
    ),
];

#[test]
fn options_come_in_any_order(rt: HostRuntime) -> Result<(), Fail> {
    assert_eq!(rt; first_other(rt.alloc(), &ANY_ORDER)?, None);
    Ok(())
}

const MADE_TRACES: [Row; 6] = [
    ("gen", Kind::Gen(1, 20000), Mode::Back, NUMBERS),
    ("gen --number 0", Kind::Gen(0, 20000), Mode::Back, NUMBERS),
    ("gen --count=1", Kind::Gen(1, 1), Mode::Back, NUMBERS),
    (
        "gen --count 1000000 --number 7",
        Kind::Gen(7, 1000000),
        Mode::Back,
        NUMBERS,
    ),
    (
        "gen --number=18446744073709551615",
        Kind::Gen(18446744073709551615, 20000),
        Mode::Back,
        NUMBERS,
    ),
    (
        "gen --count 300 --mode=through --pages 4 --data 2 --log=2 --journal 1 --size 64 --number 9",
        Kind::Gen(9, 300),
        Mode::Through,
        [4, 2, 2, 1, 64, 1],
    ),
];

#[test]
fn a_made_trace_has_a_number_and_a_count(rt: HostRuntime) -> Result<(), Fail> {
    assert_eq!(rt; first_other(rt.alloc(), &MADE_TRACES)?, None);
    Ok(())
}

/// Lines, and how many disks their words say.
const DISKS: [(&str, u32); 9] = [
    ("replay", 1),
    ("replay --disks 1", 1),
    ("replay --disks=2", 2),
    ("replay --disks 16", 16),
    ("replay --size 16 --disks=16", 16),
    ("replay --disks 1 --size=1", 1),
    ("replay --form msr", 1),
    ("replay --form=msr --disks=1", 1),
    ("replay --disks 3 --form lines --mode through --size 64", 3),
];

#[test]
fn a_replay_says_how_many_disks_share_its_volume(rt: HostRuntime) -> Result<(), Fail> {
    for (line, count) in DISKS {
        match spoken_in(rt.alloc(), line)? {
            Some(
                Spoken {
                    command: Command::Replay { disks, .. },
                    ..
                },
            ) => assert_eq!(rt; disks, count, "{line}"),
            _ => assert!(rt; false, "{line}"),
        }
    }
    Ok(())
}

/// Lines, and the devices that their words say.
const DEVICES: [(&str, FlashKind, Parity); 9] = [
    ("replay", FlashKind::Plain, Parity::Off),
    (
        "replay --flash plain --parity=off",
        FlashKind::Plain,
        Parity::Off,
    ),
    ("replay --flash raw", FlashKind::Raw, Parity::Off),
    ("replay --parity on", FlashKind::Plain, Parity::On),
    (
        "replay --parity=on --size 64 --flash=raw",
        FlashKind::Raw,
        Parity::On,
    ),
    ("gen --flash=raw --count 5", FlashKind::Raw, Parity::Off),
    (
        "inspect --pages 4 --parity on",
        FlashKind::Plain,
        Parity::On,
    ),
    ("cost --form msr --flash raw", FlashKind::Raw, Parity::Off),
    (
        "sweep --flash raw --parity on --outcome blank",
        FlashKind::Raw,
        Parity::On,
    ),
];

#[test]
fn all_commands_say_their_devices(rt: HostRuntime) -> Result<(), Fail> {
    for (line, flash, parity) in DEVICES {
        match spoken_in(rt.alloc(), line)? {
            Some(spoken) => {
                assert_eq!(rt; spoken.devices, Devices { flash, parity }, "{line}");
            }
            None => assert!(rt; false, "{line}"),
        }
    }
    Ok(())
}

/// The options of the volume.
fn options_in(command: &Command) -> Options {
    match *command {
        Command::Replay { options, .. }
        | Command::Cost { options, .. }
        | Command::Gen { options, .. }
        | Command::Inspect { options, .. }
        | Command::Sweep { options, .. } => options,
    }
}

/// Lines, and when a write is on the media by their words.
const ACKS: [(&str, Ack); 10] = [
    ("replay", Ack::Write),
    ("replay --ack write", Ack::Write),
    ("replay --ack=flush", Ack::Flush),
    ("replay --mode back --ack flush", Ack::Flush),
    ("replay --ack=write --mode=through", Ack::Write),
    ("replay --mode through", Ack::Write),
    ("gen --ack flush --count 5", Ack::Flush),
    ("inspect --pages 4 --ack=flush", Ack::Flush),
    ("cost --form msr --ack flush", Ack::Flush),
    ("sweep --ack flush --outcome blank", Ack::Flush),
];

#[test]
fn all_commands_say_when_a_write_is_on_the_media(rt: HostRuntime) -> Result<(), Fail> {
    for (line, ack) in ACKS {
        match spoken_in(rt.alloc(), line)? {
            Some(spoken) => {
                assert_eq!(rt; options_in(&spoken.command).ack, ack, "{line}");
            }
            None => assert!(rt; false, "{line}"),
        }
    }
    Ok(())
}
