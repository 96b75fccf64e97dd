//! The numbered calls alone: a listed one fails unless power stops it, and a write without power isn't counted.

use device_calls::{Calls, Current, Ending};
use ft_base::Outcome;
use std::test::Fail;

#[test]
fn calls_fail_at_their_numbers(rt: HostRuntime) -> Result<(), Fail> {
    let mut calls = Calls::new(Vec::from_slice(rt.alloc(), &[2, 3, 5])?);
    let cut = Current::Stops(Outcome::Torn);
    assert!(rt; !calls.read_fails());
    assert_eq!(rt; calls.write_ends(Current::Off), Ending::Off);
    assert_eq!(rt; calls.next_ending(Current::On), Ending::Failed);
    assert_eq!(rt; calls.write_ends(cut), Ending::Cut(Outcome::Torn));
    assert!(rt; calls.read_fails());
    assert_eq!(rt; calls.write_ends(Current::On), Ending::Done);
    assert_eq!(rt; calls.write_ends(Current::On), Ending::Failed);
    assert_eq!(rt; calls.faults(), 2);
    Ok(())
}
