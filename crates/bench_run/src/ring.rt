//! As many pages as a flash has, each copied into the next page, round and round.
ghost use Rattle.std.specs.Prelude.{◌≡◌, ◌<◌, ◌≤◌, length, vec_len, IfOk};

use crate::slot::{Slot, copy_next, copy_round};
use std::alloc::{AllocError, Global};

/// The byte of the first page, and the byte of the other pages.
const MARK: u8 = 0xA5;

const OTHER: u8 = 0x5A;

/// A ring of pages, and the page that is copied next.
#[derive(Drop)]
pub struct Ring {
    /// The pages.
    pub slots: Vec<Slot>,
    /// The page that is copied next.
    pub at: usize,
    ghost within: { at < vec_len slots },
    ghost some: { 2 ≤ vec_len slots },
}

impl Ring {
    ghost use Rattle.bench_run.specs.Floor.{after_copies, copied, pages_of};

    /// This many pages, of which the first one has a mark.
    pub fn new(alloc: Global, pages: usize) -> Result<Ring, AllocError>
        requires { 2 ≤ pages }
        ensures { IfOk result (λ ring. vec_len ring.slots ≡ pages) }
    {
        let mut slots = vec![in alloc; Slot::of(OTHER); pages]?;
        slots[0] = Slot::of(MARK);
        Ok(Ring { slots, at: 0 })
    }

    /// Its pages.
    pub fn slots(&self) -> &[Slot]
        ensures pages { result.now ≡ self.now.slots.items }
        ensures some { 2 ≤ length result.now }
    {
        self.slots.as_slice()
    }

    /// Whether the page that is copied next has the mark.
    pub fn is_marked(&self) -> bool {
        let slot = &self.slots[self.at];
        slot.block.0[4095] == MARK && slot.spare.0[31] == MARK
    }

    /// Makes `count` copies, each of a page into the next page.
    pub fn copy(&mut self, count: u64)
        ensures { pages_of self.new ≡ after_copies count (pages_of self.old) }
    {
        for _ in 0..count {
            self.copy_one();
        }
    }

    /// Copies a page into the next page, which is then the page to copy.
    fn copy_one(&mut self)
        ensures { pages_of self.new ≡ copied (pages_of self.old) }
    {
        let next = self.at + 1;
        if next == self.slots.len() {
            copy_round(self.slots.as_mut_slice());
            self.at = 0;
        } else {
            copy_next(self.slots.as_mut_slice(), self.at);
            self.at = next;
        }
    }
}
