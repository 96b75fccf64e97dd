//! Runs each command line that README and the page on traces show. Its trace is the one that it names, or the lines
//! of the table after it. The text that the program prints is compared with the text of that table, word for word,
//! and with the text beside the trace. A trace with a name is run over raw flash too, and with parity. Each command
//! line has to end with 0, or with the status that it names.
#![tactic(auto)]

mod example;
mod page;
#[cfg(test)]
mod tests;

use example::{Difference, differs};
use page::examples_in;
use std::process::ExitCode;
use std::rt::Files;
use std::{fs, io};

/// The page.
const PAGE: &str = "examples.md";

/// Tries each example of the page, and says how many there are. Answers whether each is as shown.
fn try_page(rt: &(impl AllocGlobal + Files + Print)) -> io::Result<bool> {
    let page = fs::read_to_string(rt, PAGE)?;
    let examples = examples_in(rt.alloc(), page.as_str())?;
    let mut tables = 0_usize;
    let mut texts = 0_usize;
    let mut are_shown = true;
    for example in examples.iter() {
        tables = tables.saturating_add(usize::from(!example.shown.is_empty()));
        texts = texts.saturating_add(usize::from(example.name.is_some() && example.has_text()));
        if let Some(difference) = differs(rt, example)? {
            tell(rt, difference, tables, texts)?;
            are_shown = false;
        }
    }
    let commands = examples.len();
    println!(rt; "{commands} commands are tried, {tables} tables and {texts} texts compared")?;
    Ok(are_shown)
}

/// Says what differs, after this many tables and texts.
fn tell(
    rt: &(impl AllocGlobal + Print),
    difference: Difference,
    tables: usize,
    texts: usize,
) -> io::Result<()> {
    match difference {
        Difference::Status(status) => println!(rt; "a command ends with {status}"),
        Difference::Devices => println!(rt; "text {texts} is another over other devices"),
        Difference::Text => println!(rt; "table {tables} or text {texts} is another"),
    }
}

fn main(rt: HostRuntime) -> ExitCode {
    match try_page(&rt) {
        Ok(true) => ExitCode::from(0),
        Ok(false) => ExitCode::from(1),
        Err(_) => ExitCode::from(2),
    }
}
