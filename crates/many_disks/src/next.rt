//! What comes next in a source.
ghost use Rattle.std.specs.Prelude.{◌≡◌, ◌≢◌, ◌≤◌, ◌<◌, ℕ, List, true, false, Some, Ok, IfErr, IfOk, length, map};
ghost use Rattle.ft_base.specs.Count.{Rose};
ghost use Rattle.ft_base.specs.StreamState.{SourceState};
ghost use Rattle.trace_model.specs.declared.line.Line.{Line};
ghost use Rattle.trace_model.specs.declared.line.LineError.{LineError};
ghost use Rattle.trace_model.specs.Readings.{accepted};
ghost use Rattle.trace_model.specs.SoFar as so_far;
ghost use Rattle.trace_replay.specs.Events.{refused_for};
ghost use Rattle.trace_replay.specs.Forms.{ReadsBy};
ghost use Rattle.trace_replay.specs.Pending.{line_so_far};
ghost use Rattle.trace_replay.specs.Reader.{CameTo, RefusesNext, StandsAtLine};
ghost use Rattle.many_disks.specs.declared.line.ManyLine.{ManyLine};
ghost use Rattle.many_disks.specs.Lines.{IsRunnableMany, many_of};
ghost use Rattle.many_disks.specs.Script.{code, coded, coded_reading};

use crate::line::ManyLine;
use crate::read::read_own;
use ft_base::Source;
use trace_model::{Line, LineError};
use trace_replay::{Reader, Seen};

/// At most this many stops can be armed.
const STOP_LIMIT: u32 = 16;

/// What comes next.
#[derive(Clone, Copy, Debug, PartialEq, Eq)]
pub(crate) enum Next {
    /// A line, which was gathered.
    Line(ManyLine),
    /// The end of the source.
    End,
    /// A line that is refused.
    Refused(LineError),
    /// A fault of the source.
    Failed,
}

/// Reads the source up to the end of the next line, and says what comes next when `armed` stops are armed. Each of the
/// `disks` disks has `share` blocks.
pub(crate) fn seek_line<I: Source>(
    reader: &mut Reader,
    source: &mut I,
    share: u64,
    disks: u32,
    armed: u32,
) -> Next
    requires some { 1 ≤ disks }
    ensures came { (s : SourceState) → (lines : List Line) → CameTo (coded disks) s lines (I.state source.old) reader.old
        → CameTo (coded disks) s lines (I.state source.new) reader.new }
    ensures line { (m : ManyLine) → result ≡ Next.Line m → StandsAtLine reader.new × (many_of share disks (line_so_far reader.new.pending) ≡ Ok m)
        × IsRunnableMany share disks m × (so_far.is_stop (code m) ≡ true → armed < 16) }
    ensures end { result ≡ Next.End → (s : SourceState) → (lines : List Line) → CameTo (coded disks) s lines (I.state source.new) reader.new
        → ReadsBy (coded disks reader.new.size) s (I.state source.new) (length lines) (map accepted lines) true }
    ensures refused { (cause : LineError) → result ≡ Next.Refused cause → reader.new.size ≡ share → (s : SourceState) → (lines : List Line)
        → CameTo (coded disks) s lines (I.state source.new) reader.new
        → RefusesNext (coded disks reader.new.size) s (I.state source.new) lines armed cause }
    ensures fault { result ≡ Next.Failed → Rose (I.state source.old).faults (I.state source.new).faults }
    ensures told { result ≢ Next.Failed → (I.state source.new).faults ≡ (I.state source.old).faults }
    ensures failed { result ≡ Next.Failed → (s : SourceState) → (lines : List Line) → CameTo (coded disks) s lines (I.state source.new) reader.new
        → ReadsBy (coded disks reader.new.size) s (I.state source.new) (length lines) (map accepted lines) false }
    ensures bytes { reader.new.bytes ≡ reader.old.bytes }
    ensures size { reader.new.size ≡ reader.old.size }
    ensures later { (I.state source.old).faults ≤ (I.state source.new).faults }
    ensures lent { (I.state source.new).lent ≡ (I.state source.old).lent }
{
    match reader.seek(source) {
        Seen::Line | Seen::Last => match read_next(reader.line(), share, disks, armed) {
            Ok(line) => Next::Line(line),
            Err(cause) => Next::Refused(cause),
        },
        Seen::End => Next::End,
        Seen::Long => Next::Refused(LineError::LineTooLong),
        Seen::AtLimit => Next::Refused(LineError::TooLong),
        Seen::Failed => Next::Failed,
    }
}

/// What a line says, or why it is refused when `armed` stops are armed.
fn read_next(bytes: &[u8], share: u64, disks: u32, armed: u32) -> Result<ManyLine, LineError>
    requires some { 1 ≤ disks }
    ensures line { IfOk result (λ m. many_of share disks bytes.now ≡ Ok m) }
    ensures runnable { IfOk result (IsRunnableMany share disks) }
    ensures few { IfOk result (λ m. so_far.is_stop (code m) ≡ true → armed < 16) }
    ensures refused { IfErr result (λ cause. refused_for armed (coded_reading (many_of share disks bytes.now)) ≡ Some cause) }
{
    match read_own(bytes, share, disks) {
        Ok(line) if is_stop(&line) && armed >= STOP_LIMIT => Err(LineError::TooManyStops),
        other => other,
    }
}

fn is_stop(line: &ManyLine) -> bool
    ensures { result ≡ so_far.is_stop (code line.now) }
{
    matches!(
        *line,
        ManyLine::Plain {
            line: Line::Stop { .. }
        }
    )
}
