//! Sweeps over the devices.

use crate::over::{DEVICES, NONE, SMALL, run_over};
use std::alloc::Global;
use std::process::Abort;
use std::test::Fail;
use test_small_runs::is_plain;
use trace_text::next_line;

/// The words for the outcomes of a power cut, and those of a sweep with each.
const OUTCOMES: [(&str, &[&str]); 4] = [
    ("blank", &["sweep", "--outcome=blank"]),
    ("whole", &["sweep", "--outcome=whole"]),
    ("torn", &["sweep", "--outcome=torn"]),
    ("mixed", &["sweep", "--outcome=mixed"]),
];

/// Two groups, the first of which fills an erase block.
const TRACE: &[u8] = b"w 0 5 1\nr 0 5\n";

/// The text of one run, and the bytes after it.
fn run_text(alloc: Global, text: &[u8]) -> Result<(Vec<u8>, &[u8]), Fail> {
    let mut run = Vec::new(alloc);
    let mut rest = text;
    for _ in 0..text.len() {
        let Some((line, after)) = next_line(rest, true) else {
            break;
        };
        if line.starts_with(b"at ") || line.starts_with(b"swept ") {
            break;
        }
        run.extend_from_slice(line)?;
        run.push(b'\n')?;
        rest = after;
    }
    Ok((run, rest))
}

/// The trace with power cut in this device write, and in the second one after it.
fn cut_at(alloc: Global, number: u64, outcome: &str) -> Result<Vec<u8>, Fail> {
    let stops = format!(in alloc; "stop {number} {outcome}\nstop 2 {outcome}\n")?;
    let mut lines = Vec::from_slice(alloc, stops.as_bytes())?;
    lines.extend_from_slice(TRACE)?;
    Ok(lines)
}

/// How many runs this sweep has. Each prints what a plain disk prints, and what a replay prints of the same stops over
/// the same devices.
fn runs_in(
    rt: &impl Abort,
    alloc: Global,
    outcome: &str,
    devices: &[&str],
    text: &[u8],
) -> Result<u64, Fail> {
    let mut rest = text;
    let mut runs: u64 = 0;
    for _ in 0..text.len() {
        let Some((line, after)) = next_line(rest, true) else {
            break;
        };
        if line.starts_with(b"swept ") {
            let last = format!(in alloc; "swept {runs}")?;
            assert_eq!(rt; line, last.as_bytes());
            assert!(rt; after.is_empty());
            return Ok(runs);
        }
        runs = runs.saturating_add(1);
        let at = format!(in alloc; "at {runs}")?;
        assert_eq!(rt; line, at.as_bytes());
        let (run, later) = run_text(alloc, after)?;
        let cut = cut_at(alloc, runs, outcome)?;
        assert!(rt; is_plain(alloc, cut.as_slice(), run.as_slice(), 64)?);
        let alone = run_over(alloc, &["replay"], &SMALL, devices, cut.as_slice())?;
        assert_eq!(rt; run.as_slice(), alone.text.as_slice());
        rest = later;
    }
    Ok(0)
}

/// Sweeps the trace with this outcome. Over raw flash the text is that of plain flash. With parity there are as many runs,
/// since a page and the parity page behind it are one program; but a stop counts both, so power is cut elsewhere.
fn is_swept(rt: &impl Abort, alloc: Global, outcome: &str, words: &[&str]) -> Result<(), Fail> {
    let plain = run_over(alloc, words, &SMALL, NONE, TRACE)?;
    let raw = run_over(alloc, words, &SMALL, DEVICES[0], TRACE)?;
    let parity = run_over(alloc, words, &SMALL, DEVICES[1], TRACE)?;
    let both = run_over(alloc, words, &SMALL, DEVICES[2], TRACE)?;
    assert_eq!(rt;
        (plain.status, raw.status, parity.status, both.status),
        (0, 0, 0, 0)
    );
    assert_eq!(rt; raw.text.as_slice(), plain.text.as_slice());
    assert_eq!(rt; both.text.as_slice(), parity.text.as_slice());
    let runs = runs_in(rt, alloc, outcome, NONE, plain.text.as_slice())?;
    assert!(rt; runs > 0);
    assert_eq!(rt;
        runs_in(rt, alloc, outcome, DEVICES[1], parity.text.as_slice())?,
        runs
    );
    Ok(())
}

#[test]
fn a_trace_is_swept_over_all_devices(rt: HostRuntime) -> Result<(), Fail> {
    for (outcome, words) in OUTCOMES {
        is_swept(&rt, rt.alloc(), outcome, words)?;
    }
    Ok(())
}
