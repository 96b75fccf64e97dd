//! The whole program once, over a small volume, and its floor; and a row of the table.
use crate::clock::Slowing;
use bench_run::acked::{Acked, Run, write_acked};
use bench_run::floor::floor;
use bench_run::forms::{Formed, read_forms};
use bench_run::memory::{peak_in, peak_memory};
use bench_run::replayed::{End, Replayed, replay};
use bench_run::ring::Ring;
use bench_run::row::Row;
use bench_run::swept::{Swept, sweep};
use ft_media::Counts;
use std::alloc::{AllocError, Global};
use std::test::Fail;
use std::time::Duration;

/// The words of a small made trace.
fn small_trace(alloc: Global) -> Result<Vec<String>, AllocError> {
    let mut words = Vec::new(alloc);
    for word in "--pages 4 --data 2 --log 2 --journal 1 --size 64 --count 300".split(' ') {
        words.push(String::from_str(alloc, word)?)?;
    }
    Ok(words)
}

#[test]
fn a_run_is_measured_by_its_end_line_and_its_devices(rt: HostRuntime) -> Result<(), Fail> {
    let words = small_trace(rt.alloc())?;
    let Ok(run) = replay(&rt, words.as_slice())? else {
        return Err(Fail::new("the run ended early"));
    };
    // Another program drew the trace and computed these numbers.
    assert_eq!(rt;
        (run.end.writes, run.end.reads, run.end.touched),
        (145, 125, 34)
    );
    // A checkpoint region has one erase block: 2 + 2 + 2 + 2 + 1 blocks of 4 pages.
    assert_eq!(rt; run.pages, 36);
    assert!(rt; run.counts.programs > 600 && run.counts.erases > 100);
    assert!(rt; run.counts.disk_writes > 34 && run.counts.disk_flushes > 10);
    assert!(rt; run.counts.disk_reads >= 1);
    Ok(())
}

#[test]
fn words_that_are_none_of_gen_end_with_1(rt: HostRuntime) -> Result<(), Fail> {
    let words = vec![in rt.alloc(); String::from_str(rt.alloc(), "--cound")?]?;
    assert_eq!(rt; replay(&rt, words.as_slice())?, Err(1));
    Ok(())
}

#[test]
fn a_sweep_is_measured_beside_its_runs(rt: HostRuntime) -> Result<(), Fail> {
    let mut words = Vec::new(rt.alloc());
    words.push(String::from_str(rt.alloc(), "--data=16")?)?;
    let Ok(swept) = sweep(&rt, words.as_slice())? else {
        return Err(Fail::new("the sweep ended early"));
    };
    // Two device writes for each of 32 blocks, and the erase of an erase block for the first block.
    assert_eq!(rt; swept.runs, 65);
    let swept = Swept {
        runs: 5,
        sweep: Duration::from_micros(2_100),
        single: Duration::from_micros(2_000),
    };
    assert_eq!(rt; swept.ratio(), 105);
    Ok(())
}

// With the default each write programs a page of the log too. Otherwise a log block of 64 writes has one such page.
#[test]
fn a_flush_spares_nearly_half_of_the_programs(rt: HostRuntime) -> Result<(), Fail> {
    let Ok(acked) = write_acked(&rt)? else {
        return Err(Fail::new("a run ended early"));
    };
    assert!(rt; acked.write.programs >= 40_000 && acked.flush.programs >= 20_000);
    assert!(rt; acked.programs_ratio() < 55);
    let acked = Acked {
        write: Run {
            programs: 4_000,
            time: Duration::from_micros(2_000),
        },
        flush: Run {
            programs: 2_100,
            time: Duration::from_micros(1_300),
        },
    };
    assert_eq!(rt; (acked.programs_ratio(), acked.time_ratio()), (52, 65));
    Ok(())
}

#[test]
fn a_trace_is_measured_in_both_forms(rt: HostRuntime) -> Result<(), Fail> {
    if read_forms(&rt, &[])?.is_err() {
        return Err(Fail::new("a run ended early"));
    }
    let formed = Formed {
        words: Duration::from_micros(2_000),
        msr: Duration::from_micros(2_500),
        reading: Duration::from_micros(600),
        floor: Duration::from_micros(4_000),
    };
    let ratios = (formed.ratio(), formed.reading_ratio(), formed.floor_ratio());
    assert_eq!(rt; ratios, (125, 30, 50));
    Ok(())
}

#[test]
fn each_column_shows_what_was_measured(rt: HostRuntime) -> Result<(), Fail> {
    let run = Replayed {
        end: End {
            writes: 700,
            reads: 300,
            touched: 20,
        },
        counts: Counts {
            programs: 31,
            erases: 42,
            disk_reads: 53,
            disk_writes: 64,
            disk_flushes: 75,
        },
        pages: 86,
        time: Duration::from_micros(2_345),
    };
    let row = Row {
        run,
        floor: Duration::from_micros(1_000),
        peak: Some(4_567),
    };
    let line = row.line(rt.alloc())?;
    let wanted =
        "    1000       20       31      42       53       64       75       2.34      1.00   2.34       2345     4567";
    assert_eq!(rt; line.as_str(), wanted);
    Ok(())
}

#[test]
fn the_floor_is_timed_from_its_first_copy_on(rt: HostRuntime) -> Result<(), Fail> {
    let clock = Slowing::after(4);
    let time = floor(&(clock, rt.alloc()), 3, 7, 5)?;
    // The first reading of its clock is the fifth.
    assert_eq!(rt; time, Duration::from_millis(5));
    Ok(())
}

#[test]
fn the_mark_goes_round_the_ring(rt: HostRuntime) -> Result<(), Fail> {
    let mut ring = Ring::new(rt.alloc(), 3)?;
    ring.copy(7);
    assert_eq!(rt; ring.at, 1);
    assert!(rt; ring.is_marked());
    Ok(())
}

#[test]
fn peak_memory_is_read_off_its_line(rt: HostRuntime) {
    let text = "Name:\tbench\nVmPeak:\t   2816 kB\nVmHWM:\t    1360 kB\nVmRSS:\t    1300 kB\n";
    assert_eq!(rt; peak_in(text), Some(1_360));
    assert_eq!(rt; peak_in("Name:\tbench\n"), None);
    assert!(rt; peak_memory(&rt).is_some_and(|peak| peak > 100));
}
