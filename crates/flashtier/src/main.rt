//! The program: standard input is the trace, standard output takes the text, and flash and disk are in memory.
#![tactic(auto)]

use flashtier_run::run_on;
use ft_base::{StdSink, StdSource};
use mem_rig::MemRig;
use sealed_media::MemRawRig;
use std::io;
use std::process::ExitCode;

/// The number from which the torn pages of raw flash are drawn.
const TEAR: u64 = 1;

/// The words after the program's name.
fn words_of(rt: &(impl std::rt::Env + AllocGlobal)) -> io::Result<Vec<String>> {
    let mut words = Vec::new(rt.alloc());
    for word in std::env::args(rt)?.skip(1) {
        words.push(word)?;
    }
    Ok(words)
}

fn main(rt: HostRuntime) -> ExitCode {
    let alloc = rt.alloc();
    let words = match words_of(&rt) {
        Ok(words) => words,
        Err(error) if error.kind() == io::ErrorKind::OutOfMemory => return ExitCode::from(7),
        // A word is not UTF-8, so the words are no command.
        Err(_) => return ExitCode::from(1),
    };
    let mut source = StdSource::new(rt.reader());
    let mut sink = StdSink::new(io::writer(&rt));
    let mut rig = MemRig::new(alloc);
    let mut raw = MemRawRig::new(alloc, TEAR);
    ExitCode::from(run_on(
        alloc,
        words.as_slice(),
        &mut source,
        &mut sink,
        &mut rig,
        &mut raw,
    ))
}
