//! The traits `Media` and `Rig` over a raw rig: pages are sealed when programmed, and classified by seal when read.

use crate::sealing::take_out;
use crate::{RawPage, RawRig, seal};
use ft_base::{Block, Outcome, Place, Spare};
use ft_media::{Counts, Media, MediaError, PageRead, Rig};
use std::alloc::{AllocError, Global};

/// A rig over a raw rig. It seals each page that it programs, and classifies each page that it reads by its seal. It
/// allocates nothing itself.
#[derive(Drop)]
pub struct SealedRig<'a, W: RawRig> {
    raw: &'a mut W,
}

impl<'a, W: RawRig> SealedRig<'a, W> {
    ghost use Rattle.std.specs.Prelude.{◌≡◌};
    ghost use Rattle.sealed_media.specs.Sealed.{sealed_state};

    /// A rig over this raw rig.
    pub fn new(raw: &'a mut W) -> SealedRig<'a, W>
        ensures state { ⟦<SealedRig<'a, W> as Media>⟧.state result ≡ sealed_state (W.state raw.old) result.raw.ghost_name }
        ensures raw { result.raw.now ≡ raw.old }
        ensures same_raw { result.raw.ghost_name ≡ raw.entry.ghost_name }
    {
        SealedRig { raw }
    }
}

impl<'a, W: RawRig> Media for SealedRig<'a, W> {
    ghost use Rattle.sealed_media.specs.Sealed.{sealed_state, small_beneath};

    ghost state = { λ s. sealed_state (W.state s.raw.now) s.raw.ghost_name };

    ghost blank_ahead = { λ s. W.blank_ahead s.raw.now };

    ghost ready_inside = { λ s. W.ready_inside s.raw.now };

    ghost off_is_crashed = { λ s off. W.off_is_crashed s.raw.now off };

    ghost is_small = { λ s. small_beneath (W.state s.raw.now) s.raw.ghost_name (W.is_small s.raw.now) };

    fn blocks(&self) -> u32 {
        self.raw.blocks()
    }

    fn pages(&self) -> u32 {
        self.raw.pages()
    }

    fn disk_size(&self) -> u64 {
        self.raw.disk_size()
    }

    fn read_page(
        &mut self,
        at: Place,
        block: &mut Block,
        spare: &mut Spare,
    ) -> Result<PageRead, MediaError> {
        let mut page = RawPage([0; 4160]);
        match self.raw.read_raw(at, &mut page) {
            Ok(()) => Ok(take_out(&page, block, spare)),
            Err(error) => Err(error),
        }
    }

    fn program(&mut self, at: Place, block: &Block, spare: &Spare) -> Result<(), MediaError> {
        let page = seal(block, spare);
        self.raw.program_raw(at, &page)
    }

    fn erase(&mut self, block: u32) -> Result<(), MediaError> {
        self.raw.erase(block)
    }

    fn read_block(&mut self, lba: u64, block: &mut Block) -> Result<(), MediaError> {
        self.raw.read_block(lba, block)
    }

    fn write_block(&mut self, lba: u64, block: &Block) -> Result<(), MediaError> {
        self.raw.write_block(lba, block)
    }

    fn flush_disk(&mut self) -> Result<(), MediaError> {
        self.raw.flush_disk()
    }
}

impl<'a, W: RawRig> Rig for SealedRig<'a, W> {
    fn fit(&mut self, alloc: Global, blocks: u32, pages: u32, size: u64) -> Result<(), AllocError> {
        self.raw.fit(alloc, blocks, pages, size)
    }

    fn arm(&mut self, after: u64, outcome: Outcome) {
        self.raw.arm(after, outcome);
    }

    fn armed(&self) -> u32 {
        self.raw.armed()
    }

    fn cut(&mut self, outcome: Outcome) {
        self.raw.cut(outcome);
    }

    fn power_on(&mut self) {
        self.raw.power_on();
    }

    fn is_on(&self) -> bool {
        self.raw.is_on()
    }

    fn counts(&self) -> Counts {
        self.raw.counts()
    }
}
