//! The disk half alone: writes, flushes and calls that fail, and the block that each outcome of a cut leaves.

use device_calls::{Current, Ending};
use disk_model::{MemDisk, block_of_cut};
use ft_base::{Block, Outcome};
use ft_media::MediaError;
use std::test::Fail;

fn filled(byte: u8) -> Block {
    Block([byte; 4096])
}

/// The first byte of a block.
fn read(disk: &mut MemDisk, lba: u64) -> Result<u8, MediaError> {
    let mut block = filled(9);
    disk.read(lba, &mut block)?;
    Ok(block.0[0])
}

#[test]
fn blocks_are_written_and_flushed(rt: HostRuntime) -> Result<(), Fail> {
    let alloc = rt.alloc();
    let mut disk = MemDisk::new(alloc, Vec::from_slice(alloc, &[3, 5])?);
    disk.fit(alloc, 1 << 40);
    assert_eq!(rt; disk.size(), 1 << 40);
    let far = (1 << 40) - 1;
    assert_eq!(rt; disk.write(far, &filled(1), Current::On)?, Ending::Done);
    assert_eq!(rt; read(&mut disk, far), Ok(1));
    assert_eq!(rt; read(&mut disk, far), Err(MediaError::Failed));
    assert_eq!(rt; disk.flush(Current::On), Ending::Done);
    assert_eq!(rt; disk.write(far, &filled(2), Current::On)?, Ending::Failed);
    assert_eq!(rt; disk.write(far, &filled(2), Current::Off)?, Ending::Off);
    assert_eq!(rt; disk.write(far, &filled(3), Current::On)?, Ending::Done);
    assert_eq!(rt; disk.write(far, &filled(4), Current::On)?, Ending::Done);
    assert_eq!(rt; read(&mut disk, far), Ok(4));
    let cut = Current::Stops(Outcome::Blank);
    assert_eq!(rt; disk.flush(cut), Ending::Cut(Outcome::Blank));
    assert_eq!(rt; read(&mut disk, far), Ok(1));
    assert_eq!(rt; disk.write(6, &filled(5), Current::On)?, Ending::Done);
    disk.settle(Outcome::Torn);
    assert_eq!(rt; read(&mut disk, 6), Ok(0));
    let cut = Current::Stops(Outcome::Mixed);
    assert_eq!(rt;
        disk.write(7, &filled(6), cut)?,
        Ending::Cut(Outcome::Mixed)
    );
    assert_eq!(rt; read(&mut disk, 7), Ok(6));
    assert_eq!(rt;
        [disk.reads(), disk.writes(), disk.flushes(), disk.faults()],
        [5, 4, 1, 2]
    );
    Ok(())
}

#[test]
fn a_cut_leaves_the_newest_or_the_flushed_block(rt: HostRuntime) {
    let newest = filled(3);
    let earlier = [filled(2), filled(1)];
    let rows = [
        (Outcome::Blank, 1, 1),
        (Outcome::Whole, 3, 3),
        (Outcome::Torn, 1, 3),
        (Outcome::Mixed, 1, 3),
    ];
    for (outcome, even, odd) in rows {
        assert_eq!(rt; block_of_cut(outcome, 4, &newest, &earlier).0[0], even);
        assert_eq!(rt; block_of_cut(outcome, 5, &newest, &earlier).0[0], odd);
        assert_eq!(rt; block_of_cut(outcome, 4, &newest, &earlier[..0]).0[0], 3);
    }
}
