//! A page of a log block that has the block of an address, in the few bytes that a map keeps for it.
ghost use Rattle.std.specs.Prelude.{◌≡◌, ◌<◌, ◌^◌, false};

use ft_base::Place;
use std::marker::Model;
use std::mem::size_of;

// Together with its address an entry takes 16 bytes.
const _: [(); 16] = [(); size_of::<(u64, PageAt)>()];

/// Where the block of an address stands in a log block, and whether the disk lacks it.
#[derive(Clone, Copy, Debug, PartialEq, Eq)]
pub struct PageAt {
    block: u32,
    page: u16,
    dirty: bool,
}

impl Model for PageAt {
    ghost use Rattle.mapping.specs.MappedPages.{MappedPage};

    ghost Value = { MappedPage };

    ghost view = { λ p. record { place = record { block = p.block; page = p.page }; dirty = p.dirty } };

    ghost inverse = { λ p. record { block = p.place.block; page = p.place.page; dirty = p.dirty } };
}

impl PageAt {
    /// The page at a place.
    pub fn new(place: Place, dirty: bool) -> PageAt
        requires { place.page < 2 ^ 16 }
        ensures { result ≡ record { place = place; dirty = dirty } }
    {
        PageAt {
            block: place.block,
            page: place.page as u16,
            dirty,
        }
    }

    /// The place of the page.
    pub fn place(&self) -> Place
        ensures { result ≡ self.now.place }
    {
        Place {
            block: self.block,
            page: u32::from(self.page),
        }
    }

    /// Whether the disk lacks the block.
    pub fn is_dirty(&self) -> bool
        ensures { result ≡ self.now.dirty }
    {
        self.dirty
    }

    /// The same page, once the disk has the block.
    pub fn cleaned(&self) -> PageAt
        ensures { result ≡ record { place = self.now.place; dirty = false } }
    {
        PageAt {
            block: self.block,
            page: self.page,
            dirty: false,
        }
    }
}
