//! Words that are no command touch no stream and no device.

use flashtier_run::run;
use ft_base::{MemSink, MemSource};
use mem_rig::MemRig;
use std::test::Fail;

// The first call of each stream and device would fail, and be counted.
#[test]
fn words_that_are_no_command_touch_nothing(rt: HostRuntime) -> Result<(), Fail> {
    let alloc = rt.alloc();
    let refused: [&[&str]; 5] = [
        &[],
        &["report"],
        &["inspect", "--number=1"],
        &["inspect", "--pages=3"],
        &["--", "inspect"],
    ];
    for spelled in refused {
        let mut words = Vec::new(alloc);
        for word in spelled {
            words.push(String::from_str(alloc, word)?)?;
        }
        let trace = Vec::from_slice(alloc, b"w 0 1 1\n")?;
        let mut source = MemSource::new(trace, 7, [1].to_vec(alloc)?);
        let mut sink = MemSink::new(alloc, 100, 100, [1].to_vec(alloc)?)?;
        let mut rig = MemRig::new(alloc);
        let status = run(alloc, words.as_slice(), &mut source, &mut sink, &mut rig);
        assert_eq!(rt; status, 1);
        assert_eq!(rt; (source.faults(), sink.faults()), (0, 0));
        assert_eq!(rt; sink.bytes(), b"".as_slice());
        // No call of the source was made yet, so that the next one is the first.
        let mut bytes = [0u8; 8];
        assert!(rt; source.give(&mut bytes).is_err());
    }
    Ok(())
}
