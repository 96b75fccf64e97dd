//! The definition of a cut, computed for one disk block from all values that it had since the last flush.
ghost use Rattle.std.specs.Prelude.{◌≡◌};
ghost use Rattle.ft_media.specs.Rig as cuts;

use ft_base::{Block, Outcome};

/// What a cut leaves of a disk block that had these values since the last flush, newest first.
pub fn block_of_cut(outcome: Outcome, lba: u64, newest: &Block, earlier: &[Block]) -> Block
    ensures { result ≡ cuts.cut_value outcome lba (record { newest = newest.now; earlier = earlier.now }) }
{
    match outcome {
        Outcome::Blank => oldest(newest, earlier),
        Outcome::Whole => *newest,
        Outcome::Torn => torn(lba, newest, earlier),
        Outcome::Mixed => torn(lba, newest, earlier),
    }
}

fn torn(lba: u64, newest: &Block, earlier: &[Block]) -> Block
    ensures { result ≡ cuts.torn_value lba (record { newest = newest.now; earlier = earlier.now }) }
{
    if lba % 2 == 1 {
        *newest
    } else {
        oldest(newest, earlier)
    }
}

/// The oldest of these values.
fn oldest(newest: &Block, earlier: &[Block]) -> Block
    ensures { result ≡ cuts.oldest newest.now earlier.now }
{
    let mut last = *newest;
    for block in earlier {
        last = *block;
    }
    last
}
