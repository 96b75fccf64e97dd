//! A script over a source whose lines choose among several disks.
ghost use Rattle.std.specs.Prelude.{◌≡◌, ◌≤◌, ◌<◌, ◌*◌, ◌/◌, ◌^◌, ◌∷◌, ◌++◌, [], length, false};
ghost use Rattle.trace_model.specs.Lines.{IsRunnable};
ghost use Rattle.many_disks.specs.Lines as many;
ghost use Rattle.many_disks.specs.Tally.{CountAtMost, CountAtMost-prop};

use crate::line::ManyLine;
use crate::next::{Next, seek_line};
use crate::printing::{has_end, is_end, own, say_disk, say_ends, say_own};
use crate::read::shifted;
use crate::tally::Tallies;
use ft_base::{Block, Sink, Source};
use std::alloc::Global;
use trace_model::{Answer, Line, LineError};
use trace_replay::{Ended, Reader, Script, say};

/// Gives the lines of a source for a volume that several disks share, and prints what becomes of them with the
/// addresses of the disks. It holds at most one piece of the source, one line and one piece of the text that it prints,
/// and for each disk a few numbers and the digest of its blocks. It allocates only to print.
#[derive(Drop)]
pub struct ManyScript<'a, I: Source, O: Sink> {
    alloc: Global,
    source: &'a mut I,
    sink: &'a mut O,
    /// Reads lines with the addresses of a disk.
    reader: Reader,
    /// The number of blocks of the volume.
    size: u64,
    /// The number of blocks of each disk.
    share: u64,
    disks: u32,
    /// The disk that is chosen.
    chosen: u32,
    tallies: Tallies,
    ghost sized: { size < 2 ^ 64 },
    ghost some: { 1 ≤ share },
    ghost few: { disks ≤ 16 },
    ghost within: { disks * share ≤ size },
    ghost choice: { chosen < disks },
    ghost counted: { CountAtMost reader.bytes tallies.each } by { CountAtMost-prop reader.bytes tallies.each },
}

impl<'a, I: Source, O: Sink> ManyScript<'a, I, O> {
    /// A script over the lines of this source, for a volume with this number of blocks. Each of the disks has
    /// `size / disks` blocks.
    pub fn new(
        alloc: Global,
        source: &'a mut I,
        sink: &'a mut O,
        size: u64,
        disks: u32,
    ) -> ManyScript<'a, I, O>
        requires some { 1 ≤ disks }
        requires few { disks ≤ 16 }
        requires shared { disks ≤ size }
        ensures size { (⟦<ManyScript<'a, I, O> as Script>⟧.state result).size ≡ size }
        ensures spare { (⟦<ManyScript<'a, I, O> as Script>⟧.state result).spare ≡ false }
        ensures came { ⟦<ManyScript<'a, I, O> as Script>⟧.came (I.state source.old) (O.state sink.old) [] result }
        ensures share { result.share ≡ size / disks }
        ensures disks { result.disks ≡ disks }
        ensures source { result.source.now ≡ source.old }
        ensures sink { result.sink.now ≡ sink.old }
        ensures same_source { result.source.ghost_name ≡ source.entry.ghost_name }
        ensures same_sink { result.sink.ghost_name ≡ sink.entry.ghost_name }
    {
        let share = size / disks as u64;
        ManyScript {
            alloc,
            source,
            sink,
            reader: Reader::new(share),
            size,
            share,
            disks,
            chosen: 0,
            tallies: Tallies::new(),
        }
    }

    /// The first block of the chosen disk.
    fn start(&self) -> u64
        ensures { result ≡ self.now.chosen * self.now.share }
    {
        self.chosen as u64 * self.share
    }

    /// The line of the chosen disk, with the addresses of the volume.
    fn volume_line(&self, line: Line) -> Line
        requires runnable { IsRunnable self.now.share line }
        ensures { result ≡ many.shifted (self.now.chosen * self.now.share) line }
    {
        shifted(self.share, self.chosen, line)
    }
}

impl<'a, I: Source, O: Sink> Script for ManyScript<'a, I, O> {
    ghost use Rattle.std.specs.Prelude.{◌-◌};
    ghost use Rattle.many_disks.specs.Known.{known_many};
    ghost use Rattle.many_disks.specs.Readings.{ReadsMany};
    ghost use Rattle.many_disks.specs.Script.{BrokeMany, CameMany, few_bytes};

    // The numbers of the disks stand with what lies beneath, since they stay too.
    ghost state = { λ v. record {
      size = v.size;
      turns = 4294967296 - v.reader.bytes;
      spare = false;
      source_faults = (I.state v.source.now).faults;
      sink_faults = (O.state v.sink.now).faults;
      lent = v.share ∷ v.disks ∷ v.source.ghost_name ∷ v.sink.ghost_name ∷ length (I.state v.source.now).lent
          ∷ (I.state v.source.now).lent ++ (O.state v.sink.now).lent;
    } };

    ghost came = { λ s b e v. CameMany v.share v.disks v.reader v.chosen v.tallies.each (I.state v.source.now) (O.state v.sink.now) s b e };

    ghost broke = { λ s b e event v. BrokeMany v.share v.disks (O.state v.sink.now) s b e event };

    ghost knows = { λ s v lines all whole. ReadsMany v.share v.disks s (I.state v.source.now) lines all whole };

    fn next(&mut self, armed: u32) -> Result<Option<Line>, Ended> {
        match seek_line(
            &mut self.reader,
            &mut *self.source,
            self.share,
            self.disks,
            armed,
        ) {
            Next::Line(ManyLine::Disk { disk }) => {
                match say_disk(self.alloc, &mut *self.sink, disk) {
                    Ok(()) => {
                        self.chosen = disk;
                        self.reader.pass();
                        Ok(Some(Line::Nothing))
                    }
                    Err(ended) => Err(ended),
                }
            }
            Next::Line(ManyLine::Plain { line }) => {
                let given = self.volume_line(line);
                self.tallies.count(self.chosen, &line);
                self.reader.pass();
                Ok(Some(given))
            }
            Next::End => Ok(None),
            Next::Refused(cause) => {
                let line = self.reader.number();
                match say(
                    self.alloc,
                    &mut *self.sink,
                    &Answer::Refused { line, cause },
                ) {
                    Ok(()) => Err(Ended::Trace),
                    Err(ended) => Err(ended),
                }
            }
            Next::Failed => Err(Ended::Source),
        }
    }

    fn answer(&mut self, answer: &Answer) -> Result<(), Ended> {
        if is_end(answer) {
            return say_ends(self.alloc, &mut *self.sink, &self.tallies, self.disks);
        }
        let own = own(answer, self.start());
        say(self.alloc, &mut *self.sink, &own)
    }

    fn answers(&mut self, answers: &[Answer]) -> Result<(), Ended> {
        if !has_end(answers) {
            let start = self.start();
            return say_own(self.alloc, &mut *self.sink, start, answers);
        }
        for answer in answers {
            self.answer(answer)?;
        }
        Ok(())
    }

    fn touched(&mut self, lba: u64, block: &Block) -> Result<(), Ended> {
        self.tallies.take(self.share, lba, block)
    }

    fn end(&mut self, _writes: u64, _reads: u64, _touched: u64) -> Result<(), Ended> {
        say_ends(self.alloc, &mut *self.sink, &self.tallies, self.disks)
    }

    ghost known = { λ v s b e came. known_many _ _ _ _ _ _ _ _ _ _ came _ v (λ lines all whole reads. reads) };

    ghost few_turns = { λ v. few_bytes v.reader.bytes };
}
