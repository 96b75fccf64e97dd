//! A quiet run of which it is counted what its lines ask for, and which ends behind the last of them.
ghost use Rattle.ft_volume.specs.Volume.{StaysOwner};
ghost use Rattle.trace_replay.specs.Asked.{EndsLines, IsAskedBy};
ghost use Rattle.trace_replay.specs.Causes.{EndHasCause, KeepsStreams};
ghost use Rattle.trace_replay.specs.Commands.{TellsRefusal, TellsRefusalPart};
ghost use Rattle.trace_replay.specs.Forms.{ReadsBy};
ghost use Rattle.trace_replay.specs.AsMade.{IsAsMade};

use crate::Ended;
use crate::asked::Asked;
use crate::form::LineForm;
use crate::quiet::QuietScript;
use crate::running::run_script;
use crate::script::Script;
use crate::stream::FormScript;
use ft_base::{Block, Sink, Source};
use ft_media::{Media, Rig};
use ft_volume::Volume;
use std::alloc::Global;
use trace_model::{Answer, Line};

/// Gives the lines of a source and lets a refusal alone be printed, and counts what they ask for and how often power is
/// cut.
#[derive(Drop)]
struct CountingScript<'a, I: Source, O: Sink, F: LineForm> {
    quiet: QuietScript<'a, I, O, F>,
    asked: Asked,
}

impl<'a, I: Source, O: Sink, F: LineForm> Script for CountingScript<'a, I, O, F> {
    ghost use Rattle.std.specs.Prelude.{length};
    ghost use Rattle.trace_replay.specs.Asked.{IsAskedIn};
    ghost use Rattle.trace_replay.specs.Events.{lines_given};
    ghost use Rattle.trace_replay.specs.Pending.{few_rest, rest_of};
    ghost use Rattle.trace_replay.specs.Quiet.{given_heard, heard, known_heard};
    ghost use Rattle.trace_replay.specs.Reader.{first_given, known_so, left_in};
    ghost use Rattle.trace_replay.specs.Stream.{few_bytes};

    ghost state = { λ v. ⟦<QuietScript<'a, I, O, F> as Script>⟧.state v.quiet };

    ghost came = { λ s b e v. ⟦<QuietScript<'a, I, O, F> as Script>⟧.came s b e v.quiet × IsAskedIn e v.asked };

    ghost broke = { λ s b e event v. ⟦<QuietScript<'a, I, O, F> as Script>⟧.broke s b e event v.quiet };

    ghost knows = { λ s v lines all whole. ⟦<QuietScript<'a, I, O, F> as Script>⟧.knows s v.quiet lines all whole };

    fn next(&mut self, armed: u32) -> Result<Option<Line>, Ended> {
        match self.quiet.next(armed) {
            Ok(Some(line)) => {
                self.asked.give(&line);
                Ok(Some(line))
            }
            Ok(None) => Ok(None),
            Err(ended) => Err(ended),
        }
    }

    fn answer(&mut self, answer: &Answer) -> Result<(), Ended> {
        match self.quiet.answer(answer) {
            Ok(()) => {
                self.asked.take(answer);
                Ok(())
            }
            Err(ended) => Err(ended),
        }
    }

    fn touched(&mut self, lba: u64, block: &Block) -> Result<(), Ended> {
        self.quiet.touched(lba, block)
    }

    fn end(&mut self, writes: u64, reads: u64, touched: u64) -> Result<(), Ended> {
        self.quiet.end(writes, reads, touched)
    }

    ghost known = { λ v s b e came. record {
      all = _;
      whole = v.quiet.stream.reader.ended;
      left = left_in (F.says v.quiet.stream.reader.size) (length (lines_given (heard e))) v.quiet.stream.reader.ended
          came.0.0.read.bytes (rest_of v.quiet.stream.reader.pending);
      known = known_heard _ _ _ _ _ e (known_so _ _ _ _ _ _ _ _
          (few_rest v.quiet.stream.reader.pending) came.0.0.read);
      front = given_heard _ _ e
          (first_given _ _ _ _ _ _ _ _ came.0.0.read);
    } };

    ghost few_turns = { λ v. few_bytes v.quiet.stream.reader.bytes };
}

/// Runs the lines of a trace in this form, wherever power stops, and prints nothing but a refused line. Behind the last
/// line nothing is done: no address is read. Tells what the lines asked for.
///
/// The volume is as it was made, as for `replay_form`.
pub fn count_form<F: LineForm, I: Source, O: Sink, R: Rig, V: Volume<R>>(
    alloc: Global,
    source: &mut I,
    sink: &mut O,
    rig: &mut R,
    volume: &mut V,
) -> Result<Asked, Ended>
    requires owns { V.owns volume.old (R.state rig.old).contents }
    requires fresh { IsAsMade (V.owes volume.old (R.state rig.old).contents) V.stands (V.state volume.old) (R.state rig.old) }
    ensures owner { StaysOwner (V.owns volume.new) (R.state rig.new).contents (V.state volume.old) (V.state volume.new) }
    ensures ends { EndsLines (V.state volume.old).told
        (ReadsBy (F.says (V.state volume.old).told.geometry.size) (I.state source.old) (I.state source.new))
        (TellsRefusal (O.state sink.old) (O.state sink.new)) (TellsRefusalPart (O.state sink.old) (O.state sink.new))
        (V.stands (V.state volume.new).told) (R.state rig.old) (R.state rig.new) (λ asked run. IsAskedBy run asked) result }
    ensures causes { EndHasCause result (I.state source.old) (I.state source.new) (O.state sink.old) (O.state sink.new) (R.state rig.old)
        (R.state rig.new) }
    ensures goes { KeepsStreams (I.state source.old) (I.state source.new) (O.state sink.old) (O.state sink.new) (R.state rig.old)
        (R.state rig.new) }
{
    let stream = FormScript::<'_, I, O, F>::new(alloc, source, sink, volume.size());
    let quiet = QuietScript { stream };
    let mut script = CountingScript {
        quiet,
        asked: Asked::new(),
    };
    match run_script(alloc, &mut script, rig, volume) {
        Ok(()) => Ok(script.asked),
        Err(ended) => Err(ended),
    }
}
