//! Disks that only remember.

use ft_base::{Block, pattern, tag_of, zero_block};
use sha2::{Digest, Sha256};
use std::alloc::{AllocError, Global};
use std::collections::BTreeSet;

/// A block write: its disk, its address on that disk, and the block.
#[derive(Clone, Copy)]
struct DiskWrite {
    disk: u32,
    lba: u64,
    block: Block,
}

/// What is counted of a disk.
#[derive(Drop)]
struct Counts {
    writes: u64,
    reads: u64,
    touched: BTreeSet<u64>,
}

/// Several disks of `share` blocks each, as one list of block writes, the newest last.
#[derive(Drop)]
pub(crate) struct Disks {
    share: u64,
    writes: Vec<DiskWrite>,
    counts: Vec<Counts>,
}

impl Disks {
    pub(crate) fn new(alloc: Global, share: u64, disks: u32) -> Result<Disks, AllocError> {
        let mut counts = Vec::new(alloc);
        for _ in 0..disks {
            counts.push(Counts {
                writes: 0,
                reads: 0,
                touched: BTreeSet::new(alloc),
            })?;
        }
        Ok(Disks {
            share,
            writes: Vec::new(alloc),
            counts,
        })
    }

    /// Loses the newest block writes, this many at most.
    pub(crate) fn lose(&mut self, lost: u64) {
        for _ in 0..lost {
            if self.writes.pop().is_none() {
                return;
            }
        }
    }

    /// Writes the first `kept` blocks of a request.
    pub(crate) fn write(
        &mut self,
        disk: u32,
        lba: u64,
        kept: u64,
        tag: u64,
    ) -> Result<(), AllocError> {
        for i in 0..kept {
            let lba = lba.saturating_add(i);
            let mut block = zero_block();
            pattern(self.in_volume(disk, lba), tag, &mut block);
            self.writes.push(DiskWrite { disk, lba, block })?;
        }
        Ok(())
    }

    /// The tag of the block that a disk reads at an address.
    pub(crate) fn tag_at(&self, disk: u32, lba: u64) -> Option<u64> {
        tag_of(self.in_volume(disk, lba), &self.read(disk, lba))
    }

    /// Counts a request, and the addresses that it touches.
    pub(crate) fn count(
        &mut self,
        disk: u32,
        lba: u64,
        count: u64,
        writes: bool,
    ) -> Result<(), AllocError> {
        let Some(counts) = self.counts.as_mut_slice().get_mut(disk as usize) else {
            return Ok(());
        };
        if writes {
            counts.writes = counts.writes.saturating_add(1);
        } else {
            counts.reads = counts.reads.saturating_add(1);
        }
        for i in 0..count {
            counts.touched.insert(lba.saturating_add(i))?;
        }
        Ok(())
    }

    /// The end line of a disk.
    pub(crate) fn end(&self, alloc: Global, disk: u32) -> Result<String, AllocError> {
        let Some(counts) = self.counts.as_slice().get(disk as usize) else {
            return String::from_str(alloc, "");
        };
        let mut hasher = Sha256::new();
        for lba in &counts.touched {
            hasher.update(lba.to_be_bytes());
            hasher.update(self.read(disk, *lba).0.as_slice());
        }
        let digest = digits_of(alloc, &hasher.finalize())?;
        let (writes, reads, touched) = (counts.writes, counts.reads, counts.touched.len());
        format!(in alloc; "end {writes} {reads} {touched} {digest}\n")
    }

    /// The block that a disk reads at an address.
    fn read(&self, disk: u32, lba: u64) -> Block {
        let mut block = zero_block();
        for write in &self.writes {
            if write.disk == disk && write.lba == lba {
                block = write.block;
            }
        }
        block
    }

    /// The address in the volume of an address on a disk.
    fn in_volume(&self, disk: u32, lba: u64) -> u64 {
        (disk as u64).saturating_mul(self.share).saturating_add(lba)
    }
}

/// The bytes of a digest in lower-case digits.
fn digits_of(alloc: Global, digest: &[u8]) -> Result<String, AllocError> {
    let mut digits = String::new(alloc);
    for byte in digest {
        let two = format!(in alloc; "{byte:02x}")?;
        digits.push_str(two.as_str())?;
    }
    Ok(digits)
}
