//! The newest block writes, which a power cut may lose.
ghost use Rattle.std.specs.Prelude.{◌≡◌, ◌≤◌, ◌+◌, ◌<◌, ◌^◌, [], length, take, slice_get, Some, IfOk};
ghost use Rattle.trace_replay.specs.Owing.{most_lost, with_recent};

use circular_buffer::HeapCircularBuffer;
use std::alloc::{AllocError, Global};
use std::marker::Model;

/// A power cut loses at most this many acknowledged block writes.
const MOST: usize = 126;

/// Blocks to write, each with the pattern of its address and the tag.
#[derive(Clone, Copy, Debug, PartialEq, Eq)]
pub(crate) struct Request {
    pub(crate) lba: u64,
    pub(crate) count: u64,
    pub(crate) tag: u64,
}

/// A block write: the pattern of an address and a tag.
#[derive(Clone, Copy, Debug, PartialEq, Eq)]
pub(crate) struct Recent {
    pub(crate) lba: u64,
    pub(crate) tag: u64,
}

/// The newest block writes since the last flush, the newest first.
#[derive(Drop)]
pub(crate) struct RecentWrites {
    writes: HeapCircularBuffer<Recent>,
}

impl Model for RecentWrites {
    ghost use Rattle.std.specs.Prelude.{◌≡◌, List};
    ghost use Rattle.trace_replay.specs.Owing.{most_lost};
    ghost use Rattle.trace_replay.specs.declared.recent.Recent.{Recent};

    ghost Value = { List Recent };

    ghost view = { λ r. r.writes.items };

    ghost invariant = { λ r. r.writes.capacity ≡ most_lost };
}

impl RecentWrites {
    /// No block write, with room for all that a power cut may lose.
    pub(crate) fn new(alloc: Global) -> Result<RecentWrites, AllocError>
        ensures { IfOk result (λ r. r ≡ []) }
    {
        let writes = HeapCircularBuffer::with_capacity(alloc, MOST)?;
        Ok(RecentWrites { writes })
    }

    pub(crate) fn len(&self) -> usize
        ensures { result ≡ length self.now }
    {
        self.writes.len()
    }

    /// The write before which `place` newer ones are kept.
    pub(crate) fn get(&self, place: usize) -> Recent
        requires within { place < length self.now }
        ensures { slice_get self.now place ≡ Some result }
    {
        match self.writes.get(place) {
            Some(write) => *write,
            None => unreachable!(),
        }
    }

    /// Keeps the blocks of a request too, and forgets the oldest ones if there are too many.
    pub(crate) fn note(&mut self, request: Request)
        requires within { request.lba + request.count < 2 ^ 64 }
        ensures { self.new ≡ take most_lost (with_recent request.lba request.tag request.count self.old) }
    {
        // Never more are kept than the ring has room for:
        let _room = self.writes.capacity();
        for i in 0..request.count {
            self.writes.push_front(Recent {
                lba: request.lba + i,
                tag: request.tag,
            });
        }
    }

    pub(crate) fn clear(&mut self)
        ensures { self.new ≡ [] }
    {
        self.writes.clear();
    }
}
