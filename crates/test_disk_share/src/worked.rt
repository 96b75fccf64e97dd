//! Traces over several disks, and the texts that they print. The digests are from outside.

use ft_base::{pattern, zero_block};
use sha2::{Digest, Sha256};
use std::alloc::{AllocError, Global};
use std::process::Abort;
use std::test::Fail;
use test_plain_disks::is_plain_many;
use test_small_runs::{Shape, THROUGH, at_flush, back, run, run_shared};

/// The end line of a disk that no line named.
const NONE: &str = "end 0 0 0 e3b0c44298fc1c149afbf4c8996fb92427ae41e4649b934ca495991b7852b855\n";

/// Runs a trace over so many disks that share 64 blocks. Its text must be this one, and the text of so many plain disks.
fn prints(
    rt: &impl Abort,
    alloc: Global,
    shape: &Shape,
    disks: u32,
    trace: &[u8],
    text: &str,
) -> Result<(), Fail> {
    let outcome = run_shared(alloc, shape, disks, trace)?;
    assert_eq!(rt; outcome.status, 0);
    assert_eq!(rt; outcome.text.as_slice(), text.as_bytes());
    assert!(rt; is_plain_many(alloc, shape.manner.ack(), trace, text.as_bytes(), 64, disks)?);
    Ok(())
}

#[test]
fn each_disk_has_addresses_and_an_end_line_of_its_own(rt: HostRuntime) -> Result<(), Fail> {
    let trace = b"w 0 1 7\ndisk 1\nw 0 1 9\nr 0 1\ndisk 0\nr 0 1\n";
    let text = "wrote 0 1\ndisk 1\nwrote 0 1\nread 0 9\ndisk 0\nread 0 7\n\
        disk 0\nend 1 1 1 05faf3cd2b28fb242ee9e49045f1af8677cd77ce82fc906c5e36314379b58e3b\n\
        disk 1\nend 1 1 1 586ff9671b986dfdc89fa1c4d3220009e5baf080590854755fa74ff03bf95169\n";
    for shape in [back(2, 2), at_flush(2, 2), THROUGH] {
        prints(&rt, rt.alloc(), &shape, 2, trace, text)?;
    }
    Ok(())
}

/// The digest of a disk of which address 0 alone was named. The disk reads there the block that was written with this tag
/// at this address of the volume.
fn digest_of(alloc: Global, lba: u64, tag: u64) -> Result<String, AllocError> {
    let mut block = zero_block();
    pattern(lba, tag, &mut block);
    let mut hasher = Sha256::new();
    hasher.update([0; 8]);
    hasher.update(block.0.as_slice());
    hex::encode(alloc, hasher.finalize())
}

// Disk 1 begins at block 32 of the volume, and disk 0 is as a volume by itself.
#[test]
fn a_digest_is_over_the_addresses_of_its_disk(rt: HostRuntime) -> Result<(), Fail> {
    let alloc = rt.alloc();
    let first = format!(in alloc; "end 1 1 1 {}\n", digest_of(alloc, 0, 7)?.as_str())?;
    let second = format!(in alloc; "end 1 1 1 {}\n", digest_of(alloc, 32, 9)?.as_str())?;
    let ends = format!(in alloc; "disk 0\n{}disk 1\n{}", first.as_str(), second.as_str())?;
    let trace = b"w 0 1 7\nr 0 1\ndisk 1\nw 0 1 9\nr 0 1\n";
    let shared = run_shared(alloc, &back(2, 2), 2, trace)?;
    assert!(rt; shared.text.ends_with(ends.as_bytes()));
    let alone = run(alloc, &back(2, 2), b"w 0 1 7\nr 0 1\n")?;
    assert!(rt; alone.text.ends_with(first.as_bytes()));
    Ok(())
}

#[test]
fn disks_that_no_line_names_have_end_lines(rt: HostRuntime) -> Result<(), Fail> {
    let alloc = rt.alloc();
    let mut text = String::new(alloc);
    for disk in 0..16 {
        text.push_str(format!(in alloc; "disk {disk}\n{NONE}")?.as_str())?;
    }
    prints(&rt, alloc, &back(2, 2), 16, b"", text.as_str())?;
    // The last line ends without a line feed.
    let chosen = format!(in alloc; "disk 9\ndisk 9\n{text}")?;
    prints(
        &rt,
        alloc,
        &back(2, 2),
        16,
        b"disk 9\ndisk 9",
        chosen.as_str(),
    )
}

// Three disks have 21 blocks each, so their last blocks lie in the middle of groups, and block 63 belongs to none.
#[test]
fn the_last_block_of_a_disk_is_no_block_of_the_next(rt: HostRuntime) -> Result<(), Fail> {
    let trace = b"w 19 2 3\ndisk 2\nw 20 1 4\ndisk 1\nr 0 1\nr 20 1\ndisk 2\nr 19 2\n";
    let text =
        "wrote 19 2\ndisk 2\nwrote 20 1\ndisk 1\nread 0 0\nread 20 0\ndisk 2\nread 19 0\nread 20 4\n\
        disk 0\nend 1 0 2 7ccd2410abd72c96ce3183e99a25a72dc7e43daeea8425ea945afd25fc32bda5\n\
        disk 1\nend 0 2 2 c84efa5354ce0673e41aceee761d08af67363decfb78bdd5dd3e6a889d61a7b0\n\
        disk 2\nend 1 1 2 9426d53c1972c153eb27bbe8cbd8191848fe8c04a3d55584c39039905ca48337\n";
    for shape in [back(2, 2), at_flush(2, 2), THROUGH] {
        prints(&rt, rt.alloc(), &shape, 3, trace, text)?;
    }
    Ok(())
}

// The first block of the cut write is acknowledged by two device writes, and its third block isn't begun.
#[test]
fn a_stop_that_is_armed_on_one_disk_cuts_a_write_of_another(rt: HostRuntime) -> Result<(), Fail> {
    let trace =
        b"w 0 1 1\ndisk 1\nw 0 2 2\ndisk 0\nstop 3 torn\ndisk 1\nw 0 3 3\nr 0 3\ndisk 0\nr 0 1\n";
    let text = "wrote 0 1\ndisk 1\nwrote 0 2\ndisk 0\ndisk 1\n\
        stopped\nkept 1 of 3\nread 0 3\nread 1 2\nread 2 0\ndisk 0\nread 0 1\n\
        disk 0\nend 1 1 1 8e50292b6a80dcdf08865a5ef350ec1b15d9daa1a50e79b7fde7bd98e9431cb5\n\
        disk 1\nend 2 1 3 3dea7fc85c8e350f51d67c8d793c6498ba55de239f4b65aa6f8f02d9f04bd32f\n";
    prints(&rt, rt.alloc(), &back(2, 2), 2, trace, text)
}

#[test]
fn a_cut_loses_the_newest_blocks_of_all_disks(rt: HostRuntime) -> Result<(), Fail> {
    let trace = b"w 0 1 4\nf\ndisk 1\nw 0 2 5\ndisk 0\nw 1 1 6\ncut blank\nr 0 2\ndisk 1\nr 0 2\n";
    let text = "wrote 0 1\nflushed\ndisk 1\nwrote 0 2\ndisk 0\nwrote 1 1\nlost 3\ncut\n\
        read 0 4\nread 1 0\ndisk 1\nread 0 0\nread 1 0\n\
        disk 0\nend 2 1 2 28a7f440d7ae54a4478bff659183070c295494042d8bcc6234c3dd81120b6802\n\
        disk 1\nend 1 1 2 ec743e5d9e361ae4112dbe75b2face485fa4a7229f45ccdc4477dbf03e30ef0e\n";
    prints(&rt, rt.alloc(), &at_flush(2, 2), 2, trace, text)
}

#[test]
fn what_a_cut_at_the_end_lost_is_told_before_the_first_disk(rt: HostRuntime) -> Result<(), Fail> {
    let alloc = rt.alloc();
    let three = "end 1 0 3 ef8542cfccbf836186d6d0c8036b6e756767d541f484e169a45d584ff60b5c57\n";
    let text = format!(in alloc;
        "disk 1\nwrote 0 3\nstopped\nlost 3\ndisk 0\n{NONE}disk 1\n{three}"
    )?;
    prints(
        &rt,
        alloc,
        &at_flush(2, 2),
        2,
        b"disk 1\nw 0 3 9\nstop 1 torn\n",
        text.as_str(),
    )
}

/// Traces with every kind of line, power cuts and lines that are refused.
const ALONE: [&[u8]; 5] = [
    b"",
    b"w 60 4 1\nstop 2 mixed\nw 0 3 2\nr 0 3\nr 61 2\ni\ncut whole\nr 60 4\n",
    b"w 0 3 9\nf\nw 4 2 8\ncut blank\nr 0 6\nw 8 2 7\nstop 1 whole\n",
    b"# one disk\n\nstop 1 blank\nw 5 1 1\nw 64 1 1\n",
    b"w 0 1 1\nq 5\n",
];

#[test]
fn one_disk_is_the_volume(rt: HostRuntime) -> Result<(), Fail> {
    let alloc = rt.alloc();
    for trace in ALONE {
        for shape in [back(2, 2), at_flush(2, 2), THROUGH] {
            let volume = run(alloc, &shape, trace)?;
            let disk = run_shared(alloc, &shape, 1, trace)?;
            assert_eq!(rt; disk.status, volume.status);
            assert_eq!(rt; disk.text.as_slice(), volume.text.as_slice());
        }
    }
    Ok(())
}
