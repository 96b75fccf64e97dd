//! Opens 20,000 flash contents, and holds each answer against the plain program of what a flash stands for: blank
//! flash, random bytes, and what real runs left, with up to three pages or fields spoiled. If the flash is opened, the
//! list of dirty addresses, each block that is held, and what a scrub finds strange are compared as well. It prints how
//! often each answer came, and how often anything differed.
#![tactic(auto)]

mod flash;
mod opened;
mod runs;
mod spoiling;
mod stuck;
mod tally;

use std::io;
use std::process::ExitCode;
use tally::{Tally, tally_all};

/// Prints the table.
fn tell(rt: &(impl Print + AllocGlobal), tally: &Tally) -> io::Result<()> {
    println!(rt;
        "{} opened, {} of them with a strange page",
        tally.opened, tally.strange
    )?;
    println!(rt; "{} not formatted", tally.not_formatted)?;
    println!(rt; "{} of another geometry", tally.other_geometry)?;
    println!(rt; "{} damaged", tally.damaged)?;
    println!(rt; "{} differ", tally.differ)?;
    Ok(())
}

fn main(rt: HostRuntime) -> ExitCode {
    let Ok(tally) = tally_all(rt.alloc()) else {
        return ExitCode::from(1);
    };
    match tell(&rt, &tally) {
        Ok(()) => ExitCode::from(0),
        Err(_) => ExitCode::from(1),
    }
}
