//! The buffer of a log: a ring for the most records that any page takes, allocated once.
ghost use Rattle.std.specs.Prelude.{◌≡◌, ◌<◌, ◌≤◌, ◌++◌, ◌∷◌, [], length, take, IfOk};
ghost use Rattle.ft_base.specs.Layout.{most_page_records};

use circular_buffer::HeapCircularBuffer;
use ft_base::Record;
use std::alloc::{AllocError, Global};
use std::marker::Model;

/// The most records that a page takes.
pub(crate) const MOST: usize = 127;

/// The records that no page has yet, the oldest first.
#[derive(Drop)]
pub(crate) struct Ring {
    records: HeapCircularBuffer<Record>,
}

impl Model for Ring {
    ghost use Rattle.std.specs.Prelude.{◌≡◌, List};
    ghost use Rattle.ft_base.specs.Layout.{most_page_records};
    ghost use Rattle.ft_base.specs.declared.record.Record.{Record};

    ghost Value = { List Record };

    ghost view = { λ r. r.records.items };

    ghost invariant = { λ r. r.records.capacity ≡ most_page_records };
}

impl Ring {
    /// An empty ring with all the room that it will ever have.
    pub(crate) fn new(alloc: Global) -> Result<Ring, AllocError>
        ensures { IfOk result (λ r. r ≡ []) }
    {
        let records = HeapCircularBuffer::with_capacity(alloc, MOST)?;
        Ok(Ring { records })
    }

    pub(crate) fn len(&self) -> u32
        ensures len { result ≡ length self.now }
        ensures within { result ≤ most_page_records }
    {
        self.records.len() as u32
    }

    /// Puts a record at the end.
    pub(crate) fn push(&mut self, change: Record)
        requires room { length self.old < most_page_records }
        ensures { self.new ≡ self.old ++ change ∷ [] }
    {
        match self.records.try_push_back(change) {
            Ok(()) => {}
            // The ring was made with room for the records of a whole page, and it has fewer.
            Err(_) => unreachable!(),
        }
    }

    /// Copies the records to the front of `out`.
    pub(crate) fn copy_into(&self, out: &mut [Record; 127]) -> u32
        ensures count { result ≡ length self.now }
        ensures within { result ≤ most_page_records }
        ensures read { take result out.new ≡ self.now }
    {
        let n = self.records.len();
        let (right, left) = self.records.as_slices();
        let cut = right.len();
        out[..cut].copy_from_slice(right);
        out[cut..n].copy_from_slice(left);
        n as u32
    }

    pub(crate) fn clear(&mut self)
        ensures { self.new ≡ [] }
    {
        self.records.clear();
    }
}
