//! The part of raw pages for which the rig in memory has no room: 32 bytes of each page, by place.
ghost use Rattle.std.specs.Prelude.{◌≡◌, ◌<◌, ◌*◌, ◌^◌, ℕ, length};

use ft_base::Place;
use std::alloc::{AllocError, Global};

/// The last 32 bytes of each page of a flash.
#[derive(Drop)]
pub(crate) struct Seals {
    blocks: u32,
    pages: u32,
    all: Vec<[u8; 32]>,
    ghost blocks_small: { blocks < 2 ^ 32 },
    ghost pages_small: { pages < 2 ^ 32 },
    ghost each: { length all.items ≡ blocks * pages },
}

impl Seals {
    ghost use Rattle.std.specs.Prelude.{IfOk, if◌then◌else◌};
    ghost use Rattle.ft_base.specs.declared.block.Place.{Place};
    ghost use Rattle.ft_base.specs.Contents.{same_place};
    ghost use Rattle.sealed_media.specs.Seals.{seal_at, seal_blocks, seal_pages};

    /// The last bytes of no page.
    pub(crate) fn none(alloc: Global) -> Seals
        ensures blocks { seal_blocks result ≡ 0 }
        ensures pages { seal_pages result ≡ 0 }
    {
        Seals {
            blocks: 0,
            pages: 0,
            all: Vec::new(alloc),
        }
    }

    /// The last bytes of `pages` pages in each of `blocks` blocks.
    pub(crate) fn new(alloc: Global, blocks: u32, pages: u32) -> Result<Seals, AllocError>
        ensures blocks { IfOk result (λ made. seal_blocks made ≡ blocks) }
        ensures pages { IfOk result (λ made. seal_pages made ≡ pages) }
    {
        let mut all = Vec::new(alloc);
        all.resize(blocks as usize * pages as usize, [0; 32])?;
        Ok(Seals { blocks, pages, all })
    }

    /// The last bytes of this page.
    pub(crate) fn get(&self, at: Place) -> [u8; 32]
        requires block { at.block < seal_blocks self.now }
        requires page { at.page < seal_pages self.now }
        ensures { result ≡ seal_at self.now at }
    {
        self.all[at.block as usize * self.pages as usize + at.page as usize]
    }

    /// Sets the last bytes of this page.
    pub(crate) fn put(&mut self, at: Place, last: &[u8; 32])
        requires block { at.block < seal_blocks self.old }
        requires page { at.page < seal_pages self.old }
        ensures seals { (q : Place) → q.page < seal_pages self.old
            → seal_at self.new q ≡ (if same_place at q then last.now else seal_at self.old q) }
        ensures blocks { seal_blocks self.new ≡ seal_blocks self.old }
        ensures pages { seal_pages self.new ≡ seal_pages self.old }
    {
        self.all[at.block as usize * self.pages as usize + at.page as usize] = *last;
    }
}
