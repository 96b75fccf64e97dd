//! The raw rig in memory: it has the bytes of programmed pages, and draws bytes for torn ones.
ghost use Rattle.std.specs.Prelude.{◌≡◌};
ghost use Rattle.mem_rig.specs.Rig.{state_of};
ghost use Rattle.sealed_media.specs.Seals.{seal_blocks, seal_pages};

use crate::seals::Seals;
use crate::shown::{parts_of, show};
use crate::{RawMedia, RawPage, RawRig};
use ft_base::{Block, Outcome, Place, Spare, zero_block};
use ft_media::{Counts, Media, MediaError, Rig};
use mem_rig::MemRig;
use std::alloc::{AllocError, Global};

/// Raw flash, disk and power in memory: a `MemRig`, and the last bytes of each page. A torn page shows bytes that
/// are drawn at random for its place, and are never sealed.
#[derive(Drop)]
pub struct MemRawRig {
    rig: MemRig,
    seals: Seals,
    tear: u64,
    ghost blocks: { seal_blocks seals ≡ (state_of rig).contents.shape.blocks },
    ghost pages: { seal_pages seals ≡ (state_of rig).contents.shape.pages },
}

impl MemRawRig {
    ghost use Rattle.std.specs.Prelude.{true, []};
    ghost use Rattle.ft_media.specs.Fitted.{new_contents};
    ghost use Rattle.sealed_media.specs.RawState.{plain_state};
    ghost use Rattle.sealed_media.specs.Mem.{WillFail, raw_state_of, torn_number};

    /// Media without a block, with power on and nothing armed. No call will fail. Torn pages are drawn from this
    /// number.
    pub fn new(alloc: Global, tear: u64) -> MemRawRig
        ensures contents { (plain_state (raw_state_of result)).contents ≡ new_contents 0 0 0 }
        ensures counts { (raw_state_of result).counts ≡ record { programs = 0; erases = 0; disk_reads = 0; disk_writes = 0; disk_flushes = 0 } }
        ensures faults { (raw_state_of result).faults ≡ record { flash = 0; disk = 0; cuts = 0 } }
        ensures power { (raw_state_of result).power ≡ record { on = true; stops = []; rest = 0 } }
        ensures tear { torn_number result ≡ tear }
        ensures fails { WillFail result [] [] }
    {
        MemRawRig::failing(alloc, tear, Vec::new(alloc), Vec::new(alloc))
    }

    /// The same, but the calls of the flash and of the disk with these numbers will fail. The numbers start at 1, and
    /// count from now on.
    pub fn failing(alloc: Global, tear: u64, flash: Vec<u64>, disk: Vec<u64>) -> MemRawRig
        ensures contents { (plain_state (raw_state_of result)).contents ≡ new_contents 0 0 0 }
        ensures counts { (raw_state_of result).counts ≡ record { programs = 0; erases = 0; disk_reads = 0; disk_writes = 0; disk_flushes = 0 } }
        ensures faults { (raw_state_of result).faults ≡ record { flash = 0; disk = 0; cuts = 0 } }
        ensures power { (raw_state_of result).power ≡ record { on = true; stops = []; rest = 0 } }
        ensures tear { torn_number result ≡ tear }
        ensures fails { WillFail result flash.items disk.items }
    {
        MemRawRig {
            rig: MemRig::failing(alloc, flash, disk),
            seals: Seals::none(alloc),
            tear,
        }
    }
}

impl RawMedia for MemRawRig {
    ghost use Rattle.mem_rig.specs.contracts.media.MemRigMedia.TheImpl.Laws as laws;
    ghost use Rattle.sealed_media.specs.Seal.{IsSealed};
    ghost use Rattle.sealed_media.specs.Mem.{raw_state_of, blank_so, crashed_so, small_so};

    ghost state = { raw_state_of };

    ghost torn = { λ page. IsSealed page → ⊥ };

    ghost never_sealed = { λ page torn. torn };

    ghost blank_ahead = { λ m. blank_so m (laws.blank_ahead-law m.rig) };

    ghost ready_inside = { λ m. laws.ready_inside-law m.rig };

    ghost off_is_crashed = { λ m off. crashed_so m (laws.off_is_crashed-law m.rig off) };

    ghost is_small = { λ m. small_so m (laws.is_small-law m.rig) };

    fn blocks(&self) -> u32 {
        self.rig.blocks()
    }

    fn pages(&self) -> u32 {
        self.rig.pages()
    }

    fn disk_size(&self) -> u64 {
        self.rig.disk_size()
    }

    fn read_raw(&mut self, at: Place, page: &mut RawPage) -> Result<(), MediaError> {
        let mut block = zero_block();
        let mut spare = Spare([0; 32]);
        match self.rig.read_page(at, &mut block, &mut spare) {
            Ok(found) => {
                let last = self.seals.get(at);
                *page = show(found, &block, &spare, &last, self.tear, at);
                Ok(())
            }
            Err(error) => Err(error),
        }
    }

    fn program_raw(&mut self, at: Place, page: &RawPage) -> Result<(), MediaError> {
        let parts = parts_of(page);
        let written = self.rig.program(at, &parts.0, &parts.1);
        self.seals.put(at, &parts.2);
        written
    }

    fn erase(&mut self, block: u32) -> Result<(), MediaError> {
        self.rig.erase(block)
    }

    fn read_block(&mut self, lba: u64, block: &mut Block) -> Result<(), MediaError> {
        self.rig.read_block(lba, block)
    }

    fn write_block(&mut self, lba: u64, block: &Block) -> Result<(), MediaError> {
        self.rig.write_block(lba, block)
    }

    fn flush_disk(&mut self) -> Result<(), MediaError> {
        self.rig.flush_disk()
    }
}

impl RawRig for MemRawRig {
    fn fit(&mut self, alloc: Global, blocks: u32, pages: u32, size: u64) -> Result<(), AllocError> {
        let seals = Seals::new(alloc, blocks, pages)?;
        match self.rig.fit(alloc, blocks, pages, size) {
            Ok(()) => {
                self.seals = seals;
                Ok(())
            }
            Err(error) => Err(error),
        }
    }

    fn arm(&mut self, after: u64, outcome: Outcome) {
        self.rig.arm(after, outcome);
    }

    fn armed(&self) -> u32 {
        self.rig.armed()
    }

    fn cut(&mut self, outcome: Outcome) {
        self.rig.cut(outcome);
    }

    fn power_on(&mut self) {
        self.rig.power_on();
    }

    fn is_on(&self) -> bool {
        self.rig.is_on()
    }

    fn counts(&self) -> Counts {
        self.rig.counts()
    }
}
