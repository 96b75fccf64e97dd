//! The costs of traces, as `cost` prints them.

use crate::replay::run_on;
use mem_rig::MemRig;
use std::alloc::{AllocError, Global};
use std::test::Fail;

/// The words of a command, a trace, the status of its run, and its text.
type Row<'a> = (&'a [&'a str], &'a [u8], u8, &'a [u8]);

/// The first row whose run ends otherwise, if there is one.
fn first_other(alloc: Global, rows: &[Row]) -> Result<Option<usize>, AllocError> {
    for i in 0..rows.len() {
        let (words, trace, status, text) = rows[i];
        let outcome = run_on(alloc, words, trace, MemRig::new(alloc))?;
        if outcome.status != status || outcome.text.as_slice() != text {
            return Ok(Some(i));
        }
    }
    Ok(None)
}

const BLOCKS: [Row; 4] = [
    (
        &["cost"],
        b"w 0 2 1\nr 0 4\n",
        0,
        b"blocks written 2\nblocks read 4\nflash programs 6\nflash erases 1\ndisk reads 2\ndisk writes 0\ndisk flushes 0\npower cuts 0\n",
    ),
    (
        &["cost", "--form", "msr"],
        b"1,hm,0,Write,4095,2,5\n2,hm,0,Read,0,16384,5\n",
        0,
        b"blocks written 2\nblocks read 4\nflash programs 6\nflash erases 1\ndisk reads 2\ndisk writes 0\ndisk flushes 0\npower cuts 0\n",
    ),
    (
        &["cost", "--mode", "through"],
        b"w 0 2 1\nr 0 4\n",
        0,
        b"blocks written 2\nblocks read 4\nflash programs 4\nflash erases 1\ndisk reads 2\ndisk writes 2\ndisk flushes 2\npower cuts 0\n",
    ),
    (
        &["cost", "--mode", "through", "--form", "msr"],
        b"1,hm,0,Write,4095,2,5\n2,hm,0,Read,0,16384,5\n",
        0,
        b"blocks written 2\nblocks read 4\nflash programs 4\nflash erases 1\ndisk reads 2\ndisk writes 2\ndisk flushes 2\npower cuts 0\n",
    ),
];

#[test]
fn both_forms_of_a_trace_cost_the_same(rt: HostRuntime) -> Result<(), Fail> {
    assert_eq!(rt; first_other(rt.alloc(), &BLOCKS)?, None);
    Ok(())
}

const ENDS: [Row; 4] = [
    (
        &["cost"],
        b"",
        0,
        b"blocks written 0\nblocks read 0\nflash programs 0\nflash erases 0\ndisk reads 0\ndisk writes 0\ndisk flushes 0\npower cuts 0\n",
    ),
    (&["cost"], b"w 0 1 1\nr 0 0\n", 2, b"line 2: BadNumber\n"),
    (
        &["cost", "--form", "msr"],
        b"1,hm,0,Read,0,1\n",
        2,
        b"line 1: BadCount\n",
    ),
    (&["cost", "--number", "1"], b"w 0 1 1\n", 1, b""),
];

#[test]
fn a_cost_is_told_only_of_a_whole_trace(rt: HostRuntime) -> Result<(), Fail> {
    assert_eq!(rt; first_other(rt.alloc(), &ENDS)?, None);
    Ok(())
}
