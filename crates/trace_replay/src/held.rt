//! A script over lines that are held.
ghost use Rattle.std.specs.Prelude.{◌≡◌, ◌∷◌, ◌++◌, ◌≤◌, ◌<◌, ◌+◌, ◌^◌, [], All, length, slice_get, true};
ghost use Rattle.trace_model.specs.Lines.{IsRunnable};
ghost use Rattle.ft_volume.specs.Volume.{StaysOwner};
ghost use Rattle.trace_model.specs.SoFar as so_far;
ghost use Rattle.trace_replay.specs.AsMade.{IsAsMade};
ghost use Rattle.trace_replay.specs.Causes.{EndHasCauseUntraced, KeepsStreamsUntraced};
ghost use Rattle.trace_replay.specs.Commands.{Gives};
ghost use Rattle.trace_replay.specs.Held.{AreRunnable-prop, stops_held};
ghost use Rattle.trace_replay.specs.Said.{Tells, TellsPart};
ghost use Rattle.trace_replay.specs.Theorem.{EndsAs};

use crate::Ended;
use crate::digest::EndDigest;
use crate::output::{say, say_all};
use crate::running::replay_script;
use crate::script::Script;
use ft_base::{Block, Sink};
use ft_media::{Media, Rig};
use ft_volume::Volume;
use std::alloc::Global;
use trace_model::{Answer, Line, LineError};

/// At most this many stops can be armed.
const STOP_LIMIT: u32 = 16;

/// Gives some lines first and then the lines of a trace, all of which are held elsewhere, and prints what becomes of
/// them. It allocates only to print.
#[derive(Drop)]
pub struct HeldScript<'a, O: Sink> {
    alloc: Global,
    /// The size of the volume for which the lines can be run.
    size: u64,
    first: &'a [Line],
    lines: &'a [Line],
    /// How many lines were given.
    given: usize,
    sink: &'a mut O,
    /// Takes the touched blocks.
    digest: EndDigest,
    ghost few: { length first.now + length lines.now < 2 ^ 64 },
    ghost within: { given ≤ length (first.now ++ lines.now) },
    ghost runnable: { All (IsRunnable size) (first.now ++ lines.now) } by { AreRunnable-prop size (first.now ++ lines.now) },
}

fn is_stop(line: &Line) -> bool
    ensures { result ≡ so_far.is_stop line.now }
{
    matches!(*line, Line::Stop { .. })
}

impl<'a, O: Sink> HeldScript<'a, O> {
    ghost use Rattle.sha2.specs.Hashers.{Holds256};
    ghost use Rattle.trace_replay.specs.Held.{CameHeld, held_left, lines_numbered, stand_in};

    /// A script over these first lines, and then the lines of a trace, for a volume with this number of blocks.
    pub fn new(
        alloc: Global,
        first: &'a [Line],
        lines: &'a [Line],
        sink: &'a mut O,
        size: u64,
    ) -> HeldScript<'a, O>
        requires first { All (IsRunnable size) first.now }
        requires lines { All (IsRunnable size) lines.now }
        requires few { length first.now + length lines.now < 2 ^ 64 }
        ensures size { (⟦<HeldScript<'a, O> as Script>⟧.state result).size ≡ size }
        ensures spare { (⟦<HeldScript<'a, O> as Script>⟧.state result).spare ≡ true }
        ensures came { ⟦<HeldScript<'a, O> as Script>⟧.came (stand_in (first.now ++ lines.now)) (O.state sink.old) [] result }
        ensures sink { result.sink.now ≡ sink.old }
        ensures same_sink { result.sink.ghost_name ≡ sink.entry.ghost_name }
    {
        HeldScript {
            alloc,
            size,
            first,
            lines,
            given: 0,
            sink,
            digest: EndDigest::new(),
        }
    }

    /// The line after the first `given` lines.
    fn line_at(&self, given: usize) -> Option<Line>
        ensures { result ≡ slice_get (self.now.first.now ++ self.now.lines.now) given }
    {
        let first = self.first.len();
        if given < first {
            return Some(self.first[given]);
        }
        match self.lines.get(given - first) {
            Some(line) => Some(*line),
            None => None,
        }
    }
}

impl<'a, O: Sink> Script for HeldScript<'a, O> {
    ghost use Rattle.std.specs.Prelude.{◌-◌};
    ghost use Rattle.std.proofs.Common.{refl};
    ghost use Rattle.sha2.specs.Hashers.{Holds256};
    ghost use Rattle.trace_replay.specs.Events.{told_bytes};
    ghost use Rattle.trace_replay.specs.Held.{CameHeld, few_held, held_left, lines_numbered};
    ghost use Rattle.trace_replay.specs.Stream.{BrokeStream};

    ghost state = { λ v. record {
      size = v.size;
      turns = length (held_left v.first.now v.lines.now v.given);
      spare = true;
      source_faults = 0;
      sink_faults = (O.state v.sink.now).faults;
      lent = v.sink.ghost_name ∷ (O.state v.sink.now).lent;
    } };

    ghost came = { λ s b e v. CameHeld (lines_numbered s.lent) (held_left v.first.now v.lines.now v.given) v.given (O.state v.sink.now) b e
        × Holds256 v.digest.hasher (told_bytes e) };

    ghost broke = { λ s b e event v. BrokeStream b (O.state v.sink.now) e event };

    ghost knows = { λ s v lines all whole. Gives (lines_numbered s.lent) lines all whole };

    fn next(&mut self, armed: u32) -> Result<Option<Line>, Ended> {
        let given = self.given;
        let Some(line) = self.line_at(given) else {
            return Ok(None);
        };
        if is_stop(&line) && armed >= STOP_LIMIT {
            let line = given as u64 + 1;
            let cause = LineError::TooManyStops;
            match say(
                self.alloc,
                &mut *self.sink,
                &Answer::Refused { line, cause },
            ) {
                Ok(()) => Err(Ended::Trace),
                Err(ended) => Err(ended),
            }
        } else {
            self.given += 1;
            Ok(Some(line))
        }
    }

    fn answer(&mut self, answer: &Answer) -> Result<(), Ended> {
        say(self.alloc, &mut *self.sink, answer)
    }

    fn answers(&mut self, answers: &[Answer]) -> Result<(), Ended> {
        say_all(self.alloc, &mut *self.sink, answers)
    }

    fn touched(&mut self, lba: u64, block: &Block) -> Result<(), Ended> {
        self.digest.take(lba, block);
        Ok(())
    }

    fn end(&mut self, writes: u64, reads: u64, touched: u64) -> Result<(), Ended> {
        let Ok(end) = self.digest.end(writes, reads, touched) else {
            return Err(Ended::Memory);
        };
        say(self.alloc, &mut *self.sink, &end)
    }

    ghost known = { λ v s b e came. record { all = _; whole = _; left = _; known = (refl, refl); front = came.0.lines } };

    ghost few_turns = { λ v. few_held v.first.now v.lines.now v.given v.few };
}

/// Runs these first lines and then the lines of a trace, all of which are held elsewhere. Prints what a plain disk
/// answers, whenever power stops.
///
/// The volume is as it was made: its plain disk is empty, its cache has no address, and no block waits to be written
/// back. No more groups may stay dirty than the cache has, else the cache would have to write some back before that
/// many are dirty. No more lines arm a stop than can be armed, so none is refused. No source is read, so none fails.
pub fn replay_held<O: Sink, R: Rig, V: Volume<R>>(
    alloc: Global,
    first: &[Line],
    lines: &[Line],
    sink: &mut O,
    rig: &mut R,
    volume: &mut V,
) -> Result<(), Ended>
    requires first { All (IsRunnable (V.state volume.old).told.geometry.size) first.now }
    requires lines { All (IsRunnable (V.state volume.old).told.geometry.size) lines.now }
    requires few { length first.now + length lines.now < 2 ^ 64 }
    requires stops { stops_held (first.now ++ lines.now) ≤ 16 }
    requires owns { V.owns volume.old (R.state rig.old).contents }
    requires fresh { IsAsMade (V.owes volume.old (R.state rig.old).contents) V.stands (V.state volume.old) (R.state rig.old) }
    ensures owner { StaysOwner (V.owns volume.new) (R.state rig.new).contents (V.state volume.old) (V.state volume.new) }
    ensures ends { EndsAs (V.state volume.old).told (Gives (first.now ++ lines.now))
        (Tells (O.state sink.old) (O.state sink.new)) (TellsPart (O.state sink.old) (O.state sink.new))
        (V.stands (V.state volume.new).told) (R.state rig.old) (R.state rig.new) result }
    ensures causes { EndHasCauseUntraced result (O.state sink.old) (O.state sink.new) (R.state rig.old) (R.state rig.new) }
    ensures goes { KeepsStreamsUntraced (O.state sink.old) (O.state sink.new) (R.state rig.old) (R.state rig.new) }
{
    let mut script = HeldScript::new(alloc, first, lines, sink, volume.size());
    replay_script(alloc, &mut script, rig, volume)
}
