//! The lines that are printed.
ghost use Rattle.std.specs.Prelude.{◌≡◌, ◌≤◌, ◌++◌, ◌⊎◌, ℕ, List, All, IfErr, IfOk, IsErrOf, OnErr, OnOk, map};
ghost use Rattle.std.specs.List.{list_any};
ghost use Rattle.std.specs.String.{string_bytes};
ghost use Rattle.ft_base.specs.Count.{Rose};
ghost use Rattle.ft_base.specs.PlainDisk.{BlockWrite};
ghost use Rattle.trace_model.specs.declared.line.Line.{Line};
ghost use Rattle.trace_model.specs.Text.{IsTold};
ghost use Rattle.trace_replay.specs.Commands as commands;
ghost use Rattle.trace_replay.specs.Said.{Said, SaidFront};
ghost use Rattle.many_disks.specs.Printing.{Prints};
ghost use Rattle.many_disks.specs.Tally.{AreTalliesOf, ends_by};
ghost use Rattle.many_disks.specs.Told as told;
ghost use Rattle.many_disks.specs.Told.{printed_text, printed_text_of};
ghost use Rattle.many_disks.specs.Told.Printed.{Chose};

use crate::tally::Tallies;
use ft_base::{Sink, send};
use std::alloc::{AllocError, Global};
use trace_model::Answer;
use trace_replay::Ended;
use trace_text::put_answer;

/// Lines that are printed together are sent as soon as they have this many bytes.
const PIECE: usize = 65536;

/// Appends the line that says which disk is chosen.
pub(crate) fn put_disk(out: &mut Vec<u8>, disk: u32) -> Result<(), AllocError>
    ensures put { OnOk result (out.new.items ≡ out.old.items ++ printed_text_of (Chose disk)) }
{
    let line = print_disk(*out.allocator(), disk)?;
    out.extend_from_slice(line.as_bytes())
}

fn print_disk(alloc: Global, disk: u32) -> Result<String, AllocError>
    ensures { IfOk result (λ t. string_bytes t ≡ printed_text_of (Chose disk)) }
{
    format!(in alloc; "disk {disk}\n")
}

/// Prints which disk is chosen.
pub(crate) fn say_disk<O: Sink>(alloc: Global, sink: &mut O, disk: u32) -> Result<(), Ended>
    ensures said { Prints (O.state sink.old) (O.state sink.new) (printed_text_of (Chose disk)) result }
    ensures later { (O.state sink.old).faults ≤ (O.state sink.new).faults }
    ensures rose { IsErrOf result Ended.Sink → Rose (O.state sink.old).faults (O.state sink.new).faults }
    ensures only { OnErr result (IsErrOf result Ended.Sink ⊎ IsErrOf result Ended.Memory) }
    ensures lent { (O.state sink.new).lent ≡ (O.state sink.old).lent }
{
    let Ok(line) = print_disk(alloc, disk) else {
        return Err(Ended::Memory);
    };
    match send(sink, line.as_bytes()) {
        Ok(()) => Ok(()),
        Err(_) => Err(Ended::Sink),
    }
}

/// Prints the end of each of the first `disks` disks, all together.
pub(crate) fn say_ends<O: Sink>(
    alloc: Global,
    sink: &mut O,
    tallies: &Tallies,
    disks: u32,
) -> Result<(), Ended>
    requires few { disks ≤ 16 }
    ensures said { (share : ℕ) → (lines : List Line) → (blocks : List BlockWrite) → AreTalliesOf share 0 lines blocks tallies.now.each
        → Prints (O.state sink.old) (O.state sink.new) (printed_text (ends_by share disks lines blocks)) result }
    ensures later { (O.state sink.old).faults ≤ (O.state sink.new).faults }
    ensures rose { IsErrOf result Ended.Sink → Rose (O.state sink.old).faults (O.state sink.new).faults }
    ensures only { OnErr result (IsErrOf result Ended.Sink ⊎ IsErrOf result Ended.Memory) }
    ensures lent { (O.state sink.new).lent ≡ (O.state sink.old).lent }
{
    let Ok(text) = tallies.ends(alloc, disks) else {
        return Err(Ended::Memory);
    };
    match send(sink, text.as_slice()) {
        Ok(()) => Ok(()),
        Err(_) => Err(Ended::Sink),
    }
}

/// Whether the answer is an end line.
pub(crate) fn is_end(answer: &Answer) -> bool
    ensures { result ≡ commands.is_end answer.now }
{
    matches!(*answer, Answer::End { .. })
}

/// Whether an end line is among the answers.
pub(crate) fn has_end(answers: &[Answer]) -> bool
    ensures { result ≡ list_any commands.is_end answers.now }
{
    answers.iter().any(|answer| is_end(answer))
}

/// The answer with the addresses of the disk whose first block is block `start` of the volume.
pub(crate) fn own(answer: &Answer, start: u64) -> Answer
    ensures { result ≡ told.own start answer.now }
{
    match *answer {
        Answer::Wrote { lba, count } => Answer::Wrote {
            lba: lba.saturating_sub(start),
            count,
        },
        Answer::ReadBack { lba, tag } => Answer::ReadBack {
            lba: lba.saturating_sub(start),
            tag,
        },
        other => other,
    }
}

/// Prints these answers with the addresses of the disk whose first block is block `start` of the volume. They go out in
/// pieces of at most one line more than `PIECE` bytes. If memory runs out, the pieces before were printed.
pub(crate) fn say_own<O: Sink>(
    alloc: Global,
    sink: &mut O,
    start: u64,
    answers: &[Answer],
) -> Result<(), Ended>
    requires { All IsTold answers.now }
    ensures ok { OnOk result (Said (O.state sink.old) (O.state sink.new) (map (told.own start) answers.now)) }
    ensures part { IfErr result (λ e. SaidFront e (O.state sink.old) (O.state sink.new) (map (told.own start) answers.now)) }
    ensures later { (O.state sink.old).faults ≤ (O.state sink.new).faults }
    ensures rose { IsErrOf result Ended.Sink → Rose (O.state sink.old).faults (O.state sink.new).faults }
    ensures only { OnErr result (IsErrOf result Ended.Sink ⊎ IsErrOf result Ended.Memory) }
    ensures lent { (O.state sink.new).lent ≡ (O.state sink.old).lent }
{
    let mut lines = Vec::new(alloc);
    for answer in answers {
        let Ok(()) = put_answer(&mut lines, &own(answer, start)) else {
            return Err(Ended::Memory);
        };
        if lines.len() >= PIECE {
            let Ok(()) = send(sink, lines.as_slice()) else {
                return Err(Ended::Sink);
            };
            lines.clear();
        }
    }
    match send(sink, lines.as_slice()) {
        Ok(()) => Ok(()),
        Err(_) => Err(Ended::Sink),
    }
}
