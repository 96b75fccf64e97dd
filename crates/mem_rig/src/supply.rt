//! The power supply and its queue of stops: whether the next device write finds power on, off, or going off.
ghost use Rattle.std.specs.Prelude.{◌≡◌, ◌<◌, ◌≤◌, ◌∷◌, length, true, []};
ghost use Rattle.ft_base.specs.declared.power.Stop.{Stop};

use device_calls::Current;
use ft_base::{Outcome, Stop};

/// Power, and the queue of the stops that are armed.
#[derive(Drop)]
pub(crate) struct Supply {
    on: bool,
    room: [Stop; 16],
    armed: u32,
    rest: u64,
    ghost few: { armed ≤ 16 },
}

impl Supply {
    ghost use Rattle.mem_rig.specs.Power.{current_of, power_after_arm, power_after_write, rest_at_front};
    ghost use Rattle.mem_rig.specs.Supply.{power_of};

    /// Power on, and nothing armed.
    pub(crate) fn new() -> Supply
        ensures { power_of result ≡ record { on = true; stops = []; rest = 0 } }
    {
        let none = Stop {
            after: 1,
            outcome: Outcome::Blank,
        };
        Supply {
            on: true,
            room: [none; 16],
            armed: 0,
            rest: 0,
        }
    }

    /// How many stops are armed.
    pub(crate) fn armed(&self) -> u32
        ensures armed { result ≡ length (power_of self.now).stops }
        ensures few { result ≤ 16 }
    {
        self.armed
    }

    /// Whether power is on.
    pub(crate) fn is_on(&self) -> bool
        ensures { result ≡ (power_of self.now).on }
    {
        self.on
    }

    /// Turns power on or off.
    pub(crate) fn turn(&mut self, on: bool)
        ensures { power_of self.new ≡ record (power_of self.old) { on = on } }
    {
        self.on = on;
    }

    /// Puts a stop at the end of the queue.
    pub(crate) fn arm(&mut self, after: u64, outcome: Outcome)
        requires room { length (power_of self.old).stops < 16 }
        requires after { 1 ≤ after }
        ensures { power_of self.new ≡ power_after_arm (power_of self.old) after outcome }
    {
        self.room[self.armed as usize] = Stop { after, outcome };
        if self.armed == 0 {
            self.rest = after - 1;
        }
        self.armed += 1;
    }

    /// The current during the next device write.
    pub(crate) fn current(&self) -> Current
        ensures { result ≡ current_of (power_of self.now) }
    {
        if !self.on {
            return Current::Off;
        }
        if self.armed > 0 && self.rest == 0 {
            return Current::Stops(self.room[0].outcome);
        }
        Current::On
    }

    /// Counts a device write.
    pub(crate) fn count_write(&mut self)
        ensures { power_of self.new ≡ power_after_write (power_of self.old) }
    {
        if !self.on || self.armed == 0 {
            return;
        }
        if self.rest > 0 {
            self.rest -= 1;
            return;
        }
        self.on = false;
        self.drop_front();
    }

    /// Takes the front stop away; the next one begins to count.
    fn drop_front(&mut self)
        requires { 0 < self.old.armed }
        ensures on { self.new.on ≡ self.old.on }
        ensures front { (front : Stop) × ((power_of self.old).stops ≡ front ∷ (power_of self.new).stops) }
        ensures rest { self.new.rest ≡ rest_at_front (power_of self.new).stops }
    {
        let armed = self.armed as usize;
        let mut room = self.room;
        room[..armed].rotate_left(1);
        self.room = room;
        self.armed -= 1;
        self.rest = if self.armed > 0 {
            self.room[0].after.saturating_sub(1)
        } else {
            0
        };
    }
}
