//! Made traces. Another program drew their lines and computed the end line.

use flashtier_run::run;
use ft_base::{MemSink, MemSource};
use mem_rig::MemRig;
use std::alloc::Global;
use std::process::Abort;
use std::test::Fail;
use test_small_runs::Outcome;

/// The numbers of a small volume.
const SMALL: &str = "--pages 4 --data 2 --log=2 --journal 1 --size=64";

/// Runs the words between the spaces over this rig, and sees that nothing is read.
fn made_on(rt: &impl Abort, alloc: Global, line: &str, mut rig: MemRig) -> Result<Outcome, Fail> {
    let mut words = Vec::new(alloc);
    for word in line.split(' ') {
        words.push(String::from_str(alloc, word)?)?;
    }
    let trace = Vec::from_slice(alloc, b"w 0 1 1\n")?;
    let mut source = MemSource::new(trace, 7, [1].to_vec(alloc)?);
    let mut sink = MemSink::new(alloc, 1000, 100, Vec::new(alloc))?;
    let status = run(alloc, words.as_slice(), &mut source, &mut sink, &mut rig);
    assert_eq!(rt; source.faults(), 0);
    let text = Vec::from_slice(alloc, sink.bytes())?;
    Ok(Outcome { status, text, rig })
}

#[test]
fn a_made_trace_prints_its_end_line_alone(rt: HostRuntime) -> Result<(), Fail> {
    let alloc = rt.alloc();
    for (options, end) in [
        (
            "--count 300",
            "end 145 125 34 47cdd34b45860c0ca22c359980f39ca20988629b5d30bc1bdc3be94c92d283f9\n",
        ),
        (
            "--mode=through --count=300",
            "end 145 125 34 47cdd34b45860c0ca22c359980f39ca20988629b5d30bc1bdc3be94c92d283f9\n",
        ),
        (
            "--number 7 --dirty 1 --count 300",
            "end 134 139 57 50a46be20c86beb96fd1307e2c7aad1ea9612e51f6421422a6e842fe583e5959\n",
        ),
        (
            "--number=18446744073709551615 --count 300",
            "end 146 133 52 da4b2daff508884b97385e468303b1705645a7b94cd3419426e1dee678d445e1\n",
        ),
        (
            "--count 1",
            "end 0 1 8 c2ce4aca028c9bef989e7695151d242800c5ff215ffb571c050537b4b49c2ecb\n",
        ),
    ] {
        let line = format!(in alloc; "gen {SMALL} {options}")?;
        let outcome = made_on(&rt, alloc, line.as_str(), MemRig::new(alloc))?;
        assert_eq!(rt; outcome.status, 0, "{options}");
        assert_eq!(rt; outcome.text.as_slice(), end.as_bytes(), "{options}");
    }
    Ok(())
}

// The options that are not named have the same values in both.
#[test]
fn a_long_made_trace_prints_its_end_line_alone(rt: HostRuntime) -> Result<(), Fail> {
    let alloc = rt.alloc();
    let end =
        b"end 10083 7957 6066 9a8aae486b470615993d48616becf21deca7d1193ede2ff3a7b6f958dc07ce54\n";
    for line in ["gen --number 1 --count 20000", "gen"] {
        let outcome = made_on(&rt, alloc, line, MemRig::new(alloc))?;
        assert_eq!(rt; outcome.status, 0, "{line}");
        assert_eq!(rt; outcome.text.as_slice(), end.as_slice(), "{line}");
    }
    Ok(())
}

#[test]
fn a_made_trace_that_a_device_ends_prints_nothing(rt: HostRuntime) -> Result<(), Fail> {
    let alloc = rt.alloc();
    let line = format!(in alloc; "gen --count 300 {SMALL}")?;
    let rig = MemRig::failing(alloc, [100].to_vec(alloc)?, Vec::new(alloc));
    let outcome = made_on(&rt, alloc, line.as_str(), rig)?;
    assert_eq!(rt; (outcome.status, outcome.text.len()), (5, 0));
    let rig = MemRig::failing(alloc, Vec::new(alloc), [5].to_vec(alloc)?);
    let outcome = made_on(&rt, alloc, line.as_str(), rig)?;
    assert_eq!(rt; (outcome.status, outcome.text.len()), (6, 0));
    Ok(())
}
