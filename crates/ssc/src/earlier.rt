//! The buffered writes that are not committed yet, in their order, each with the page that its address had before.
ghost use Rattle.std.specs.Prelude.{◌≡◌, ◌<◌, ◌++◌, ◌∷◌, [], length, IfOk};
ghost use Rattle.ft_base.specs.Layout.{most_page_records};
ghost use Rattle.ssc.specs.Places.{places_kept, places_noted};

use circular_buffer::HeapCircularBuffer;
use ft_base::Place;
use std::alloc::{AllocError, Global};
use std::marker::Model;

/// The most records that are buffered.
const MOST: usize = 127;

/// The page that had the block of an address, and whether that was dirty.
#[derive(Clone, Copy, Debug, PartialEq, Eq)]
pub(crate) struct Before {
    pub(crate) place: Place,
    pub(crate) dirty: bool,
}

/// What the address of each write that is only buffered had just before it, the oldest first; nothing if it wasn't held.
#[derive(Drop)]
pub(crate) struct Places {
    places: HeapCircularBuffer<Option<Before>>,
}

impl Model for Places {
    ghost use Rattle.std.specs.Prelude.{◌≡◌, List, Option};
    ghost use Rattle.ft_base.specs.Layout.{most_page_records};
    ghost use Rattle.ssc.specs.declared.earlier.Before.{Before};

    ghost Value = { List (Option Before) };

    ghost view = { λ p. p.places.items };

    ghost invariant = { λ p. p.places.capacity ≡ most_page_records };
}

impl Places {
    /// No places, with room for the records of a whole page.
    pub(crate) fn new(alloc: Global) -> Result<Places, AllocError>
        ensures { IfOk result (λ p. p ≡ []) }
    {
        let places = HeapCircularBuffer::with_capacity(alloc, MOST)?;
        Ok(Places { places })
    }

    pub(crate) fn len(&self) -> u32
        ensures { result ≡ length self.now }
    {
        self.places.len() as u32
    }

    /// Forgets the places of writes that are committed. This many records are buffered, and the last of them is no write.
    pub(crate) fn forget(&mut self, buffered: u32)
        ensures { self.new ≡ places_kept buffered self.old }
    {
        if buffered <= 1 {
            self.places.clear();
        }
    }

    /// The same when the last of them is a write, at an address that had this before.
    pub(crate) fn note(&mut self, buffered: u32, before: Option<Before>)
        requires room { length self.old < most_page_records }
        ensures { self.new ≡ places_noted buffered before self.old }
    {
        self.forget(buffered);
        if buffered == 0 {
            return;
        }
        match self.places.try_push_back(before) {
            Ok(()) => {}
            // The ring has room for the records of a whole page, and fewer were in it.
            Err(_) => unreachable!(),
        }
    }

    pub(crate) fn clear(&mut self)
        ensures { self.new ≡ [] }
    {
        self.places.clear();
    }
}
