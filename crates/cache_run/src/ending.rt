//! The exit status of a run: 0, or a number from 2 to 7 for the cause of its early end.
ghost use Rattle.std.specs.Prelude.{◌≡◌};
ghost use Rattle.cache_run.specs.Status as status;

use trace_replay::Ended;

/// The status of a run that ended so.
pub fn status_of(ended: Result<(), Ended>) -> u8
    ensures { result ≡ status.status_of ended }
{
    match ended {
        Ok(()) => 0,
        Err(Ended::Trace) => 2,
        Err(Ended::Source) => 3,
        Err(Ended::Sink) => 4,
        Err(Ended::Flash) => 5,
        Err(Ended::Disk) => 6,
        Err(Ended::Memory) => 7,
    }
}
