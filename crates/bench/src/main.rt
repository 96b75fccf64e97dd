//! Measures the program and parts of it, and prints its findings as a table. Without words it prints one fixed line.
//! The first word names the measurement. After `run` come the options of a made trace, as the program's own word
//! `gen` takes them; behind its row comes one of single writes with both values of `--ack`. After `sweep` and `form` come
//! the options that `replay` takes.
//!
//! | Status | When |
//! |---|---|
//! | 0 | the measurement was made and printed, or there was no word |
//! | 1 | the words are none of these; a line says which there are |
//! | 2 | memory, the clock or the output failed, a word can't be read, a map lost a key, the floor a page, or a run has no end line |
//! | another, or 1 | a run ended with it, as one does if its options are none of its word; a line says so |
#![tactic(auto)]

mod words;

use std::io;
use std::process::ExitCode;
use std::rt::{Clock, Env, Files};
use words::{Task, after_first, task_of};

/// The words after the program's name.
fn words_of(rt: &(impl Env + AllocGlobal)) -> io::Result<Vec<String>> {
    let mut words = Vec::new(rt.alloc());
    for word in std::env::args(rt)?.skip(1) {
        words.push(word)?;
    }
    Ok(words)
}

/// Makes the measurement that the words name, and answers the status.
fn run(rt: &(impl Env + AllocGlobal + Clock + Files + Print + Eprint)) -> io::Result<u8> {
    let words = words_of(rt)?;
    match task_of(words.as_slice()) {
        Some(Task::Hint) => println!(rt; "bench: give the word map, run, sweep or form")?,
        Some(Task::Map) => bench_map::measure(rt)?,
        Some(Task::Sweep) => {
            return bench_run::measure_sweep(rt, after_first(words.as_slice()));
        }
        Some(Task::Form) => {
            return bench_run::measure_forms(rt, after_first(words.as_slice()));
        }
        Some(Task::Run) => return bench_run::measure(rt, after_first(words.as_slice())),
        None => {
            eprintln!(rt;
                "use: bench [map | run [options of gen] | sweep [options of replay] | form [options of replay]]"
            )?;
            return Ok(1);
        }
    }
    Ok(0)
}

fn main(rt: HostRuntime) -> ExitCode {
    match run(&rt) {
        Ok(status) => ExitCode::from(status),
        Err(_) => ExitCode::from(2),
    }
}
