//! The cost of a run's pages and blocks in a plain loop: each page that was programmed is copied once, and each block
//! that was touched is hashed once.
ghost use Rattle.std.specs.Prelude.{◌≡◌, ◌<◌, length};
ghost use Rattle.sha2.specs.Sha256.{sha256};
ghost use Rattle.bench_run.specs.Floor.{blocks_told};

use crate::ring::Ring;
use crate::slot::Slot;
use sha2::{Digest, Sha256};
use std::io;
use std::rt::Clock;
use std::time::{Duration, Instant};

/// The time that a plain loop takes. It makes `programs` copies of a page, in as much memory as `pages` pages take,
/// and hashes `touched` addresses with a block each.
pub fn floor(
    rt: &(impl AllocGlobal + Clock),
    pages: u64,
    programs: u64,
    touched: u64,
) -> io::Result<Duration> {
    let pages = usize::try_from(pages).unwrap_or(usize::MAX);
    let mut ring = Ring::new(rt.alloc(), pages.max(2))?;
    let start = Instant::now(rt)?;
    ring.copy(programs);
    let digest = hashed(ring.slots(), touched);
    let time = start.elapsed(rt)?;
    // The copies and the digest are looked at, so that no compiler leaves the work out.
    if !ring.is_marked() || digest == [0; 32] {
        return Err(io::Error::other("a page was lost"));
    }
    Ok(time)
}

/// The digest of `count` addresses, ascending, and a block for each. The blocks are the ring's blocks in turn.
pub fn hashed(slots: &[Slot], count: u64) -> [u8; 32]
    requires { 0 < length slots.now }
    ensures { result ≡ sha256 (blocks_told slots.now count) }
{
    let mut hasher = Sha256::new();
    for address in 0..count {
        let at = (address % slots.len() as u64) as usize;
        hasher.update(address.to_be_bytes());
        hasher.update(slots[at].block.0.as_slice());
    }
    hasher.finalize()
}
