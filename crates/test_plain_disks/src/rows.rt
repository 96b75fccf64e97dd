//! Worked traces over two disks of 32 blocks each. Their digests are from outside.

use crate::{DiskLine, is_plain_many, line_says};
use ft_base::Ack;
use std::alloc::Global;
use std::process::Abort;
use std::test::Fail;
use trace_model::{Line, LineError};

/// Whether two disks print this text of the trace.
fn is_text(alloc: Global, ack: Ack, trace: &[u8], text: &[u8]) -> Result<bool, Fail> {
    Ok(is_plain_many(alloc, ack, trace, text, 64, 2)?)
}

const TWO: &[u8] = b"w 0 1 7\ndisk 1\nw 0 1 9\nr 0 1\ndisk 0\nr 0 1\n";

#[test]
fn each_disk_has_addresses_of_its_own(rt: HostRuntime) -> Result<(), Fail> {
    let right = b"wrote 0 1\ndisk 1\nwrote 0 1\nread 0 9\ndisk 0\nread 0 7\n\
        disk 0\nend 1 1 1 05faf3cd2b28fb242ee9e49045f1af8677cd77ce82fc906c5e36314379b58e3b\n\
        disk 1\nend 1 1 1 586ff9671b986dfdc89fa1c4d3220009e5baf080590854755fa74ff03bf95169\n";
    assert!(rt; is_text(rt.alloc(), Ack::Write, TWO, right.as_slice())?);
    let one_range = b"wrote 0 1\ndisk 1\nwrote 0 1\nread 0 9\ndisk 0\nread 0 9\n\
        disk 0\nend 1 1 1 05faf3cd2b28fb242ee9e49045f1af8677cd77ce82fc906c5e36314379b58e3b\n\
        disk 1\nend 1 1 1 586ff9671b986dfdc89fa1c4d3220009e5baf080590854755fa74ff03bf95169\n";
    assert!(rt; !is_text(rt.alloc(), Ack::Write, TWO, one_range.as_slice())?);
    let whole_digest = b"wrote 0 1\ndisk 1\nwrote 0 1\nread 0 9\ndisk 0\nread 0 7\n\
        disk 0\nend 1 1 1 17564a9dff1bef68c966e1983a00b8771f9de8338fb4e023c6310814a506034a\n\
        disk 1\nend 1 1 1 17564a9dff1bef68c966e1983a00b8771f9de8338fb4e023c6310814a506034a\n";
    assert!(rt; !is_text(rt.alloc(), Ack::Write, TWO, whole_digest.as_slice())?);
    Ok(())
}

const CUT: &[u8] = b"disk 1\nw 3 2 5\nstop 2 whole\nw 3 3 8\nr 3 3\n";

#[test]
fn a_cut_write_keeps_its_first_blocks(rt: HostRuntime) -> Result<(), Fail> {
    let right = b"disk 1\nwrote 3 2\nstopped\nkept 1 of 3\nread 3 8\nread 4 5\nread 5 0\n\
        disk 0\nend 0 0 0 e3b0c44298fc1c149afbf4c8996fb92427ae41e4649b934ca495991b7852b855\n\
        disk 1\nend 2 1 3 ef90013859a6b12ba2214359b99a84c1430083f645bd26c86ffb239f78a4796f\n";
    assert!(rt; is_text(rt.alloc(), Ack::Write, CUT, right.as_slice())?);
    let more_kept = b"disk 1\nwrote 3 2\nstopped\nkept 2 of 3\nread 3 8\nread 4 5\nread 5 0\n\
        disk 0\nend 0 0 0 e3b0c44298fc1c149afbf4c8996fb92427ae41e4649b934ca495991b7852b855\n\
        disk 1\nend 2 1 3 ef90013859a6b12ba2214359b99a84c1430083f645bd26c86ffb239f78a4796f\n";
    assert!(rt; !is_text(rt.alloc(), Ack::Write, CUT, more_kept.as_slice())?);
    Ok(())
}

const LOST: &[u8] = b"w 0 1 4\ndisk 1\nw 0 1 5\nw 1 1 6\ncut blank\nr 0 2\n";

#[test]
fn lost_block_writes_are_the_newest_of_all_disks(rt: HostRuntime) -> Result<(), Fail> {
    let right = b"wrote 0 1\ndisk 1\nwrote 0 1\nwrote 1 1\nlost 2\ncut\nread 0 0\nread 1 0\n\
        disk 0\nend 1 0 1 5a70879bfee905193a94022de94772a0d27dfd05ee3ff519925a1082c120bb9f\n\
        disk 1\nend 2 1 2 ec743e5d9e361ae4112dbe75b2face485fa4a7229f45ccdc4477dbf03e30ef0e\n";
    assert!(rt; is_text(rt.alloc(), Ack::Flush, LOST, right.as_slice())?);
    assert!(rt; !is_text(rt.alloc(), Ack::Write, LOST, right.as_slice())?);
    Ok(())
}

/// A line for two disks must say this.
fn must_say(
    rt: &impl Abort,
    alloc: Global,
    line: &[u8],
    wanted: Result<DiskLine, LineError>,
) -> Result<(), Fail> {
    assert!(rt; line_says(alloc, line, 32, 2)? == wanted);
    Ok(())
}

#[test]
fn lines_choose_disks(rt: HostRuntime) -> Result<(), Fail> {
    let alloc = rt.alloc();
    must_say(&rt, alloc, b"\tdisk  1\r", Ok(DiskLine::Disk { disk: 1 }))?;
    must_say(&rt, alloc, b"disk 2", Err(LineError::BadNumber))?;
    must_say(&rt, alloc, b"disk", Err(LineError::BadCount))?;
    must_say(&rt, alloc, b"w 32 1 1", Err(LineError::OutOfVolume))?;
    let line = Line::Read { lba: 31, count: 1 };
    must_say(&rt, alloc, b"r 31 1", Ok(DiskLine::Plain { line }))?;
    Ok(())
}
