//! A clock whose readings are all known.
use std::cell::Cell;
use std::io;
use std::rt::Clock;
use std::time::Duration;

/// A clock that goes on by one more millisecond with each reading: 0, 1, 3, 6 and so on.
#[derive(Drop)]
pub(crate) struct Slowing {
    readings: Cell<u64>,
}

impl Slowing {
    /// A clock that was read this many times.
    pub(crate) fn after(readings: u64) -> Slowing {
        Slowing {
            readings: Cell::new(readings),
        }
    }
}

impl Clock for Slowing {
    fn monotonic(&self) -> io::Result<Duration> {
        let before = self.readings.get().min(1_000);
        self.readings.set(before + 1);
        Ok(Duration::from_millis(before * (before + 1) / 2))
    }

    fn since_1970(&self) -> io::Result<Duration> {
        Ok(Duration::ZERO)
    }
}
