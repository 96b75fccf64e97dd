//! Held lines, some first lines and then the lines of a trace. They print what one trace of all these lines prints.

use cache_run::{Setup, default_options, replay_lines};
use flashtier_run::run;
use ft_base::{MemSink, MemSource, Outcome};
use ft_volume::Mode;
use mem_rig::MemRig;
use std::test::Fail;
use trace_model::Line;

#[test]
fn held_lines_are_printed_as_a_trace_is(rt: HostRuntime) -> Result<(), Fail> {
    let alloc = rt.alloc();
    let first = [Line::Stop {
        after: 4,
        outcome: Outcome::Torn,
    }];
    let lines = [
        Line::Write {
            lba: 0,
            count: 3,
            tag: 2,
        },
        Line::Read { lba: 0, count: 3 },
    ];
    let mut sink = MemSink::new(alloc, 1000, 10, Vec::new(alloc))?;
    let mut rig = MemRig::new(alloc);
    let setup = Setup {
        mode: Mode::Back,
        options: default_options(),
    };
    let ended = replay_lines(alloc, &setup, &first, &lines, &mut sink, &mut rig);
    assert!(rt; ended.is_ok());

    let words = [String::from_str(alloc, "replay")?];
    let trace = Vec::from_slice(alloc, b"stop 4 torn\nw 0 3 2\nr 0 3\n")?;
    let mut source = MemSource::new(trace, 7, Vec::new(alloc));
    let mut whole = MemSink::new(alloc, 1000, 10, Vec::new(alloc))?;
    let status = run(
        alloc,
        &words,
        &mut source,
        &mut whole,
        &mut MemRig::new(alloc),
    );
    assert_eq!(rt; status, 0);
    assert_eq!(rt; sink.bytes(), whole.bytes());
    assert!(rt; !sink.bytes().is_empty());
    Ok(())
}
