//! The time of one step in a map whose number of entries stays: its oldest address is taken out, and a new address is
//! set.
ghost use Rattle.std.specs.Prelude.{◌≡◌, ◌<◌, ◌≤◌, IfOk};

use crate::measured::{Measured, Size};
use std::alloc::{AllocError, Global};
use std::io;
use std::rt::Clock;
use std::time::{Duration, Instant};

/// The size of the map at the end of some steps, and the time that the steps took.
#[derive(Clone, Copy, Debug, PartialEq, Eq)]
pub struct Churned {
    /// The size of the map after the steps.
    pub size: Size,
    /// The number of steps.
    pub steps: u32,
    /// The time of all steps together.
    pub time: Duration,
}

/// How many steps one map takes before the other map has its turn.
const STEPS_A_TURN: u32 = 10_000;

/// A map whose entries come and go, with the results of its steps so far.
#[derive(Drop)]
struct Turning<M> {
    map: M,
    found: u32,
    time: Duration,
}

impl<M: Measured> Turning<M> {
    /// A map of the addresses below `addresses`, before its first step.
    fn new(alloc: Global, addresses: u32) -> Result<Self, AllocError> {
        Ok(Turning {
            map: first_addresses::<M>(alloc, addresses)?,
            found: 0,
            time: Duration::ZERO,
        })
    }

    /// Takes `steps` steps, the first of which has the number `from`.
    fn take_turn(
        &mut self,
        rt: &impl Clock,
        addresses: u32,
        from: u32,
        steps: u32,
    ) -> io::Result<()>
        requires { 0 < addresses }
    {
        let start = Instant::now(rt)?;
        let found = turn_over(&mut self.map, addresses, from, steps)?;
        self.time = self.time.saturating_add(start.elapsed(rt)?);
        self.found = self.found.saturating_add(found);
        Ok(())
    }

    /// The results of `steps` steps.
    fn churned(&self, steps: u32) -> io::Result<Churned>
        ensures { IfOk result (λ c. c.steps ≡ steps) }
    {
        // The count of found addresses is looked at, so that no compiler leaves the work out.
        if self.found != steps {
            return Err(io::Error::other("a map lost an address"));
        }
        Ok(Churned {
            size: self.map.size(),
            steps: self.found,
            time: self.time,
        })
    }
}

/// Sets the addresses below `addresses` in each of two maps, and takes `steps` steps in each. The maps have turns of
/// some steps, so that a cause that slows the machine for a while slows both.
pub fn churn_in_turns<M: Measured, N: Measured>(
    rt: &(impl AllocGlobal + Clock),
    addresses: u32,
    steps: u32,
) -> io::Result<(Churned, Churned)>
    requires { 0 < addresses }
    ensures { IfOk result (λ c. (c.0.steps ≡ steps) × (c.1.steps ≡ steps)) }
{
    let mut first = Turning::<M>::new(rt.alloc(), addresses)?;
    let mut second = Turning::<N>::new(rt.alloc(), addresses)?;
    for turn in 0..=steps / STEPS_A_TURN {
        let from = turn * STEPS_A_TURN;
        let count = (steps - from).min(STEPS_A_TURN);
        first.take_turn(rt, addresses, from, count)?;
        second.take_turn(rt, addresses, from, count)?;
    }
    Ok((first.churned(steps)?, second.churned(steps)?))
}

/// A map of the addresses below `addresses`, each with itself as its value.
fn first_addresses<M: Measured>(alloc: Global, addresses: u32) -> Result<M, AllocError> {
    let mut map = M::empty(alloc);
    for address in 0..addresses {
        map.set(u64::from(address), u64::from(address))?;
    }
    Ok(map)
}

/// Takes `steps` steps, of which the first has the number `from`. In each the oldest address goes, and the address
/// after the newest comes, going round twice their number. Gives how many addresses had themselves as their value.
fn turn_over<M: Measured>(
    map: &mut M,
    addresses: u32,
    from: u32,
    steps: u32,
) -> Result<u32, AllocError>
    requires { 0 < addresses }
    ensures { IfOk result (λ found. found ≤ steps) }
{
    let all = 2 * u64::from(addresses);
    let mut found = 0;
    for step in 0..steps {
        let number = u64::from(from) + u64::from(step);
        let oldest = number % all;
        if map.take(oldest) == Some(oldest) {
            found += 1;
        }
        let next = (number + u64::from(addresses)) % all;
        map.set(next, next)?;
    }
    Ok(found)
}
