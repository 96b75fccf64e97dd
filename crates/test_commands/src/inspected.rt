//! The contents that a trace leaves in the cache, as `inspect` prints them.

use flashtier_run::run;
use ft_base::{MemSink, MemSource};
use mem_rig::MemRig;
use std::alloc::Global;
use std::process::Abort;
use std::test::Fail;

/// The options of a volume of 64 blocks in 16 groups, on flash with erase blocks of 4 pages.
const SMALL: [&str; 10] = [
    "--pages",
    "4",
    "--data",
    "2",
    "--log",
    "2",
    "--journal",
    "1",
    "--size",
    "64",
];

/// How a run ended, and what it printed.
#[derive(Drop)]
struct Outcome {
    status: u8,
    text: Vec<u8>,
}

/// Runs `inspect` with these options over a new rig.
fn inspect(alloc: Global, options: &[&str], trace: &[u8]) -> Result<Outcome, Fail> {
    inspect_on(alloc, options, trace, MemRig::new(alloc))
}

/// Runs `inspect` with these options over this rig, with the trace in pieces of 7 bytes.
fn inspect_on(
    alloc: Global,
    options: &[&str],
    trace: &[u8],
    mut rig: MemRig,
) -> Result<Outcome, Fail> {
    let mut words = Vec::new(alloc);
    words.push(String::from_str(alloc, "inspect")?)?;
    for option in options {
        words.push(String::from_str(alloc, option)?)?;
    }
    let mut source = MemSource::new(Vec::from_slice(alloc, trace)?, 7, Vec::new(alloc));
    let mut sink = MemSink::new(alloc, 1000, 10, Vec::new(alloc))?;
    let status = run(alloc, words.as_slice(), &mut source, &mut sink, &mut rig);
    let text = Vec::from_slice(alloc, sink.bytes())?;
    Ok(Outcome { status, text })
}

#[test]
fn buckets_double_where_three_quarters_are_full(rt: HostRuntime) -> Result<(), Fail> {
    let alloc = rt.alloc();
    let tables: [(&[&str], &[u8], &[u8]); 5] = [
        (
            &[],
            b"w 0 30 1\n",
            b"held 30\ndirty groups 1\nbuckets 64\nscrubbed 30\n",
        ),
        (
            &SMALL,
            b"w 0 2 1\n",
            b"held 2\ndirty groups 1\nbuckets 32\nscrubbed 2\n",
        ),
        // Two dirty groups, and a clean group of a block that was read.
        (
            &SMALL,
            b"w 3 2 1\nr 9 1\n",
            b"held 3\ndirty groups 2\nbuckets 32\nscrubbed 3\n",
        ),
        // Each block goes to the disk when it is written.
        (
            &["--mode=through"],
            b"w 0 2 1\n",
            b"held 2\ndirty groups 0\nbuckets 32\nscrubbed 2\n",
        ),
        (
            &SMALL,
            b"",
            b"held 0\ndirty groups 0\nbuckets 0\nscrubbed 0\n",
        ),
    ];
    for (options, trace, text) in tables {
        let outcome = inspect(alloc, options, trace)?;
        assert_eq!(rt; (outcome.status, outcome.text.as_slice()), (0, text));
    }
    Ok(())
}

#[test]
fn a_refused_line_is_all_that_is_printed(rt: HostRuntime) -> Result<(), Fail> {
    let alloc = rt.alloc();
    let refused = inspect(alloc, &SMALL, b"w 0 1 1\nr 0 1\nw 63 2 1\nr 0 1\n")?;
    assert_eq!(rt;
        (refused.status, refused.text.as_slice()),
        (2, b"line 3: OutOfVolume\n".as_slice())
    );
    Ok(())
}

// A block was read, and the cache holds it. The flash doesn't say so before the report, whose first device write is
// that page of the log. Torn, the page is no part of the log.
#[test]
fn a_report_that_is_cut_tells_what_recovery_found(rt: HostRuntime) -> Result<(), Fail> {
    let alloc = rt.alloc();
    let cut: [(&[u8], &[u8]); 3] = [
        (
            b"w 0 2 1\nr 9 1\nstop 2 torn\n",
            b"held 3\ndirty groups 1\nbuckets 32\nscrubbed 3\n",
        ),
        (
            b"w 0 2 1\nr 9 1\nstop 1 torn\n",
            b"held 2\ndirty groups 1\nbuckets 32\nscrubbed 2\n",
        ),
        (
            b"w 0 2 1\nr 9 1\nstop 1 whole\n",
            b"held 3\ndirty groups 1\nbuckets 32\nscrubbed 3\n",
        ),
    ];
    for (trace, text) in cut {
        let outcome = inspect(alloc, &SMALL, trace)?;
        assert_eq!(rt; (outcome.status, outcome.text.as_slice()), (0, text));
    }
    Ok(())
}

/// Inspects a trace over a rig that fails at this call of the flash or of the disk.
fn inspect_without(
    alloc: Global,
    trace: &[u8],
    of_flash: bool,
    number: u64,
) -> Result<Outcome, Fail> {
    let one = [number].to_vec(alloc)?;
    let none = Vec::new(alloc);
    let rig = if of_flash {
        MemRig::failing(alloc, one, none)
    } else {
        MemRig::failing(alloc, none, one)
    };
    inspect_on(alloc, &SMALL, trace, rig)
}

/// Lets each call of a device fail in turn. Either the run ends for the fault with this status and prints nothing, or
/// nothing failed and the text is whole. Says how many calls failed.
fn inspect_each(
    rt: &impl Abort,
    alloc: Global,
    trace: &[u8],
    of_flash: bool,
    status: u8,
) -> Result<u64, Fail> {
    let whole = inspect(alloc, &SMALL, trace)?;
    let mut failed: u64 = 0;
    for number in 1..200 {
        let outcome = inspect_without(alloc, trace, of_flash, number)?;
        if outcome.status == 0 {
            assert_eq!(rt; outcome.text.as_slice(), whole.text.as_slice());
        } else {
            assert_eq!(rt;
                (outcome.status, outcome.text.as_slice()),
                (status, b"".as_slice())
            );
            failed = failed.saturating_add(1);
        }
    }
    Ok(failed)
}

// A failed read within a merge, a failed page of the log in the report and a failed page that the report reads
// are among these calls.
#[test]
fn each_call_of_a_device_that_fails_ends_it_silently(rt: HostRuntime) -> Result<(), Fail> {
    let alloc = rt.alloc();
    let trace = b"w 0 2 1\nr 0 3\nw 4 2 2\nw 9 1 3\nr 20 1\ni\nw 1 1 4\n";
    let of_flash = inspect_each(&rt, alloc, trace, true, 5)?;
    assert!(rt; of_flash > 40 && of_flash < 199);
    let of_disk = inspect_each(&rt, alloc, trace, false, 6)?;
    assert!(rt; of_disk > 4 && of_disk < 199);
    Ok(())
}
