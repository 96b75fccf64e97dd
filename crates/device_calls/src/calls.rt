//! The count of a device's calls. The number of a call and the power decide how it ends.
ghost use Rattle.std.specs.Prelude.{◌≡◌, ◌≤◌};
ghost use Rattle.ft_base.specs.Count.{last_count};

use crate::{Current, Ending};
use ft_base::bump;

/// Counts the calls of a device, and its faults. The calls with the listed numbers fail. The numbers start at 1, and
/// count since the device was made.
#[derive(Drop)]
pub struct Calls {
    failing: Vec<u64>,
    made: u64,
    faults: u64,
    ghost made_small: { made ≤ last_count },
    ghost faults_small: { faults ≤ last_count },
}

impl Calls {
    ghost use Rattle.device_calls.specs.Calls.{calls_made, fault_count, failing_numbers, is_listed, ending_of, CountsRead, CountsWrite};

    /// No call was made yet. The calls with these numbers will fail.
    pub fn new(failing: Vec<u64>) -> Calls
        ensures failing { failing_numbers result ≡ failing.items }
        ensures made { calls_made result ≡ 0 }
        ensures faults { fault_count result ≡ 0 }
    {
        Calls {
            failing,
            made: 0,
            faults: 0,
        }
    }

    /// Makes a call that is no device write, with power on, and says whether it fails.
    pub fn read_fails(&mut self) -> bool
        ensures fails { result ≡ is_listed self.old }
        ensures counts { CountsRead result self.old self.new }
    {
        self.made = bump(self.made);
        let fails = self.failing.contains(&self.made);
        if fails {
            self.faults = bump(self.faults);
        }
        fails
    }

    /// How the next device write ends under this power.
    pub fn next_ending(&self, current: Current) -> Ending
        ensures { result ≡ ending_of current (is_listed self.now) }
    {
        match current {
            Current::Off => Ending::Off,
            Current::Stops(outcome) => Ending::Cut(outcome),
            Current::On => {
                if self.failing.contains(&bump(self.made)) {
                    return Ending::Failed;
                }
                Ending::Done
            }
        }
    }

    /// Counts a device write with this ending.
    pub fn count_write(&mut self, ending: Ending)
        ensures { CountsWrite ending self.old self.new }
    {
        match ending {
            Ending::Done => self.made = bump(self.made),
            Ending::Cut(_) => self.made = bump(self.made),
            Ending::Failed => {
                self.made = bump(self.made);
                self.faults = bump(self.faults);
            }
            Ending::Off => {}
        }
    }

    /// Makes a device write under this power, and says how it ends.
    pub fn write_ends(&mut self, current: Current) -> Ending
        ensures ending { result ≡ ending_of current (is_listed self.old) }
        ensures counts { CountsWrite result self.old self.new }
    {
        let ending = self.next_ending(current);
        self.count_write(ending);
        ending
    }

    /// How often the device failed.
    pub fn faults(&self) -> u64
        ensures { result ≡ fault_count self.now }
    {
        self.faults
    }
}
