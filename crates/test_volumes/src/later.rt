//! A volume that writes back and may owe its writes until the next flush.

use crate::back::{created, fitted, options};
use crate::steps::{Step, first_wrong};
use ft_base::Outcome;
use ft_volume::{Ack, Options};
use std::alloc::Global;
use std::test::Fail;

/// The first step that answers something else, over a volume to which nothing was written.
fn first_wrong_later(alloc: Global, steps: &[Step]) -> Result<Option<usize>, Fail> {
    let options = options()?;
    let later = Options {
        geometry: options.geometry,
        dirty: options.dirty,
        ack: Ack::Flush,
    };
    let mut rig = fitted(alloc, &later)?;
    let mut volume = created(alloc, &mut rig, &later)?;
    Ok(first_wrong(&mut volume, &mut rig, steps))
}

// The second write over a block is owed when power is cut, so the first one is read again.
const LOST: [Step; 12] = [
    Step::Acks(Ack::Flush),
    Step::Owed(0),
    Step::Write(5, 7),
    Step::Owed(1),
    Step::Flush,
    Step::Owed(0),
    Step::Write(5, 8),
    Step::Read(5, 8),
    Step::Owed(1),
    Step::Cut(Outcome::Torn),
    Step::Owed(0),
    Step::Read(5, 7),
];

#[test]
fn a_cut_loses_what_is_owed_and_a_flush_keeps_it(rt: HostRuntime) -> Result<(), Fail> {
    assert_eq!(rt; first_wrong_later(rt.alloc(), &LOST)?, None);
    Ok(())
}

// The first two writes are committed before the first group goes to the disk.
const WRITTEN_BACK: [Step; 8] = [
    Step::Write(0, 7),
    Step::Write(4, 8),
    Step::Owed(2),
    Step::Write(8, 9),
    Step::Owed(1),
    Step::DiskWrites(1),
    Step::Cut(Outcome::Torn),
    Step::Read(0, 7),
];

#[test]
fn a_group_is_written_back_once_nothing_is_owed(rt: HostRuntime) -> Result<(), Fail> {
    assert_eq!(rt; first_wrong_later(rt.alloc(), &WRITTEN_BACK)?, None);
    Ok(())
}
