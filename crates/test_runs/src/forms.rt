//! Traces in the form of MSR Cambridge: requests that are widened to whole blocks, and lines that are refused.

use crate::replay::run_on;
use mem_rig::MemRig;
use std::alloc::{AllocError, Global};
use std::test::Fail;

/// A trace in the form of MSR Cambridge, the status of its run, and the front of the text.
type Row<'a> = (&'a [u8], u8, &'a [u8]);

/// Whether the run of a row ends like this. If the row shows the end line, the run prints just a digest behind the
/// front.
fn ends_so(alloc: Global, row: Row) -> Result<bool, AllocError> {
    let (trace, status, front) = row;
    let outcome = run_on(
        alloc,
        &["replay", "--form", "msr"],
        trace,
        MemRig::new(alloc),
    )?;
    let behind = if status == 0 { 65 } else { 0 };
    Ok(
        outcome.status == status
            && outcome.text.as_slice().starts_with(front)
            && outcome.text.as_slice().len() == front.len() + behind,
    )
}

/// The first row whose run ends otherwise, if there is one.
fn first_other(alloc: Global, rows: &[Row]) -> Result<Option<usize>, AllocError> {
    for i in 0..rows.len() {
        if !ends_so(alloc, rows[i])? {
            return Ok(Some(i));
        }
    }
    Ok(None)
}

const RUN: [Row; 6] = [
    (b"", 0, b"end 0 0 0 "),
    (
        b"128166372003061629,hm,0,Read,383496192,32768,41286",
        0,
        b"read 93627 0\nread 93628 0\nread 93629 0\nread 93630 0\nread 93631 0\nread 93632 0\nread 93633 0\nread 93634 0\nend 0 1 8 ",
    ),
    (
        b"1,hm,0,Write,4095,2,5\n2,hm,0,Read,0,1,5\n",
        0,
        b"wrote 0 2\nread 0 1\nend 1 1 2 ",
    ),
    (
        b"\r\n1,\"h,m\",0,\"Write\",0,1,5\r\n3,\"h\"\"m\",0,Read,0,1,5\r\n",
        0,
        b"wrote 0 1\nread 0 2\nend 1 1 1 ",
    ),
    (b"1,hm,0,Read,99999999999999,0,5\n", 0, b"end 0 0 0 "),
    (
        b"1,hm,0,Read,4294967295,1,5\n",
        0,
        b"read 1048575 0\nend 0 1 1 ",
    ),
];

#[test]
fn requests_are_widened_to_blocks(rt: HostRuntime) -> Result<(), Fail> {
    assert_eq!(rt; first_other(rt.alloc(), &RUN)?, None);
    Ok(())
}

const REFUSED: [Row; 8] = [
    (b"1,hm,0,Trim,0,1,5\n", 2, b"line 1: BadWord\n"),
    (b"1,hm,0,Read,0,1\n", 2, b"line 1: BadCount\n"),
    (b"1,hm,0,Read,0,1,5,6\n", 2, b"line 1: BadCount\n"),
    (b"w 0 1 1\n", 2, b"line 1: BadCount\n"),
    (b"1,hm,0,Read,4294967296,1,5\n", 2, b"line 1: OutOfVolume\n"),
    (
        b"1,hm,0,Read,18446744073709551615,1,5\n",
        2,
        b"line 1: BadNumber\n",
    ),
    (b"1,hm,0,Read,0,268435457,5\n", 2, b"line 1: BadNumber\n"),
    (
        b"1,hm,0,Write,0,1,5\n\n1,hm,0,Write,00,1,5\n",
        2,
        b"wrote 0 1\nline 3: BadNumber\n",
    ),
];

#[test]
fn the_first_refused_line_ends_a_run_in_this_form(rt: HostRuntime) -> Result<(), Fail> {
    assert_eq!(rt; first_other(rt.alloc(), &REFUSED)?, None);
    Ok(())
}

#[test]
fn words_are_no_fields_and_fields_no_words(rt: HostRuntime) -> Result<(), Fail> {
    let alloc = rt.alloc();
    let fields = b"1,hm,0,Read,0,1,5\n".as_slice();
    let outcome = run_on(
        alloc,
        &["replay", "--form", "lines"],
        fields,
        MemRig::new(alloc),
    )?;
    assert_eq!(rt;
        (outcome.status, outcome.text.as_slice()),
        (2, b"line 1: BadWord\n".as_slice())
    );
    Ok(())
}
