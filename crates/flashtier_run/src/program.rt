//! The program's two calls, `run` over one rig and `run_on` over plain or raw flash, with their options and statuses.
ghost use Rattle.std.specs.Prelude.{◌≡◌, map};
ghost use Rattle.std.specs.String.{string_bytes};
ghost use Rattle.flashtier_words.specs.declared.devices.FlashKind.TheVariants.{Plain, Raw};
ghost use Rattle.flashtier_run.specs.Over.{OnSealed};
ghost use Rattle.flashtier_run.specs.Runs.{RunsWords};
ghost use Rattle.flashtier_run.specs.Words.{AreOverFlash};

use crate::over::{run_over, run_sealed};
use flashtier_words::{FlashKind, command_of};
use ft_base::{Sink, Source};
use ft_media::{Media, Rig};
use sealed_media::{RawMedia, RawRig};
use std::alloc::Global;

/// Runs the command that the words say, and answers its status.
///
/// The words are those after the program's name: `replay`, `gen`, `inspect`, `cost` or `sweep`, and after it options, in
/// any order and each at most once, as `--name value` or `--name=value`.
///
/// | Option | Says | Range | Default |
/// |---|---|---|---|
/// | `--mode` | whether the disk gets a block later, `back`, or when it is written, `through` | | `back` |
/// | `--pages` | pages of an erase block | 4 to 128 | 64 |
/// | `--data` | data blocks of the cache at most | 1 to 512 | 128 |
/// | `--log` | log blocks of the cache at most | 2 to 64 | 16 |
/// | `--journal` | erase blocks of a log region | 1 to 16 | 2 |
/// | `--size` | blocks of the volume | 1 to 2^40 | 1,048,576 |
/// | `--dirty` | groups that an idle step leaves dirty | 1 to the data blocks | half of these, rounded up |
/// | `--ack` | when a write is acknowledged for good: when it answers, `write`, or at the next flush, `flush`, which is no value with `--mode through` | | `write` |
/// | `--flash` | whether flash tells which of its pages are torn, `plain`, or gives back their bytes alone, `raw` | | `plain` |
/// | `--parity` | whether an erase block has one more page with the parity of the others: `off` or `on` | | `off` |
/// | `--form`, of `replay` and `cost` alone | form of the trace's lines: `lines`, or `msr` for those of MSR Cambridge | | `lines` |
/// | `--disks`, of `replay` alone | disks that share the volume; only one with `--form msr` | 1 to 16, and at most its blocks | 1 |
/// | `--number`, of `gen` alone | which made trace | 0 to 2^64 - 1 | 1 |
/// | `--count`, of `gen` alone | lines of the made trace | 1 to 1,000,000 | 20,000 |
/// | `--outcome`, of `sweep` alone | what a power cut leaves: `blank`, `whole`, `torn` or `mixed` | | `torn` |
///
/// With `replay` it reads a trace from the source, runs it over a cache of these numbers before a disk, both
/// of them on the rig, and prints to the sink what each request answered. Power may stop within any device
/// write; the run then goes on after recovery. With `--ack flush` it tells how many block writes since the last flush a
/// power cut lost. With `--form msr` its lines are those that storage people share,
/// `Timestamp,Hostname,DiskNumber,Type,Offset,Size,ResponseTime`, each widened to whole blocks.
///
/// With `--disks M` and M above 1 the volume is M disks of equal size. The line `disk I` chooses disk I for the lines that
/// follow it, and is printed; at the start disk 0 is chosen. The addresses in lines and answers are those of the chosen
/// disk. At the end `disk I` and an end line are printed for each disk.
///
/// With `gen` it runs a made trace so, and prints the end line alone. It takes nothing from the source.
///
/// With `inspect` it runs a trace as `replay` does, but prints of its answers a refusal alone. Then it puts all
/// that is in the cache on the flash, reads each page that is held, again after each cut, and prints four lines:
/// `held H`, the addresses that the cache has; `dirty groups D`, the groups with one that the disk lacks;
/// `buckets B`, those of the map of page-mapped addresses; and `scrubbed S`, the pages that were read.
///
/// With `cost` it runs a trace as `replay` does, but prints of its answers a refusal alone, and reads no address at the
/// end. Then it prints eight lines: `blocks written W` and `blocks read R`, those of the lines; `flash programs N`,
/// `flash erases N`, `disk reads N`, `disk writes N` and `disk flushes N`, what the devices did from the end of the
/// volume's creation to the end of the last line; and `power cuts N`.
///
/// With `sweep` it reads a trace of at most 4,096 bytes and 256 blocks, in which no line cuts power. It runs the trace
/// once without printing, and counts its device writes. Then it runs it once for each of these, over a new volume,
/// with power cut there and in the second device write after it. For each of these runs it prints `at K` and what
/// each request answered, and at the end `swept N`.
///
/// With `--parity on` a page that can't be read is rebuilt from the others of its erase block, if all of these were
/// programmed. A stop counts the programs of parity pages too. Raw flash needs a rig of its own: this function refuses
/// `--flash raw`, and `run_on` runs it.
///
/// | Status | Comes |
/// |---|---|
/// | 0 | the source was read to its end, or the trace is a made one, and every line was run |
/// | 1 | the words are no command, or ask for raw flash; nothing is read or printed |
/// | 2 | a line was refused, after those before it were run, or before any was with `sweep`; the last line printed says why; not with `gen` |
/// | 3 | the source failed, after the lines that ended before were run, or before any was with `sweep`; not with `gen` |
/// | 4 | the sink failed; what it took is a front of the text |
/// | 5, 6 | the flash, the disk failed |
/// | 7 | memory was refused, also that in which the words are read; with `cost` also if a number to be printed is above 2^64 - 1 |
pub fn run<I: Source, O: Sink, R: Rig>(
    alloc: Global,
    words: &[String],
    source: &mut I,
    sink: &mut O,
    rig: &mut R,
) -> u8
    // The words say a command over plain flash, and it ran so; or nothing was touched.
    ensures { RunsWords Plain (map string_bytes words.now) result source.old source.new sink.old sink.new rig.old rig.new
        (I.state source.old) (I.state source.new) (O.state sink.old) (O.state sink.new) (R.state rig.old) (R.state rig.new) }
{
    let Ok(spoken) = command_of(alloc, words) else {
        return 7;
    };
    let Some(spoken) = spoken else {
        return 1;
    };
    let parity = spoken.devices.parity;
    match spoken.devices.flash {
        FlashKind::Plain => run_over(alloc, spoken.command, parity, source, sink, rig),
        FlashKind::Raw => 1,
    }
}

/// Runs the command that the words say as `run` does, over the one of two rigs that they say, and answers its status. The
/// other is untouched.
///
/// With `--flash plain`, the default, it runs over `rig`. With `--flash raw` it runs over `raw`, and each page carries a
/// seal, by which a torn page is known.
pub fn run_on<I: Source, O: Sink, R: Rig, W: RawRig>(
    alloc: Global,
    words: &[String],
    source: &mut I,
    sink: &mut O,
    rig: &mut R,
    raw: &mut W,
) -> u8
    // Unless the words say raw flash, all is as `run` says of this rig.
    ensures plain { (AreOverFlash Raw (map string_bytes words.now) → ⊥) → (raw.new ≡ raw.old)
        × RunsWords Plain (map string_bytes words.now) result source.old source.new sink.old sink.new rig.old rig.new
        (I.state source.old) (I.state source.new) (O.state sink.old) (O.state sink.new) (R.state rig.old) (R.state rig.new) }
    // If they say it, all is so of the media for which the raw ones stand.
    ensures raw { AreOverFlash Raw (map string_bytes words.now) → (rig.new ≡ rig.old)
        × OnSealed (RunsWords Raw (map string_bytes words.now) result source.old source.new sink.old sink.new raw.old raw.new
        (I.state source.old) (I.state source.new) (O.state sink.old) (O.state sink.new)) (W.state raw.old) (W.state raw.new) }
{
    let Ok(spoken) = command_of(alloc, words) else {
        return 7;
    };
    let Some(spoken) = spoken else {
        return 1;
    };
    let parity = spoken.devices.parity;
    match spoken.devices.flash {
        FlashKind::Plain => run_over(alloc, spoken.command, parity, source, sink, rig),
        FlashKind::Raw => run_sealed(alloc, spoken.command, parity, source, sink, raw),
    }
}
