//! The program without words. Standard input is a trace, which is run over a cache of the default numbers that writes
//! back, as the word `replay` alone does. This program is built in less time than the whole program, which reads its
//! words with a large library. If there is a word, it ends with status 1, and reads and prints nothing. The other
//! statuses are the statuses of `replay`.
#![tactic(auto)]

use cache_run::{Setup, default_options, replay_with, status_of};
use ft_base::{StdSink, StdSource};
use ft_volume::Mode;
use mem_rig::MemRig;
use std::io;
use std::process::ExitCode;

/// Whether there is a word after the program's name.
fn has_words(rt: &(impl std::rt::Env + AllocGlobal)) -> io::Result<bool> {
    Ok(std::env::args(rt)?.nth(1).is_some())
}

fn main(rt: HostRuntime) -> ExitCode {
    match has_words(&rt) {
        Ok(false) => {}
        Err(error) if error.kind() == io::ErrorKind::OutOfMemory => return ExitCode::from(7),
        _ => return ExitCode::from(1),
    }
    let mut source = StdSource::new(rt.reader());
    let mut sink = StdSink::new(io::writer(&rt));
    let mut rig = MemRig::new(rt.alloc());
    let setup = Setup {
        mode: Mode::Back,
        options: default_options(),
    };
    let ended = replay_with(rt.alloc(), &setup, &mut source, &mut sink, &mut rig);
    ExitCode::from(status_of(ended))
}
