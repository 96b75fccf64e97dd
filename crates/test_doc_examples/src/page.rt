//! The examples that a page of the docs shows of the program: command lines, and tables of a trace and its text.

use std::alloc::{AllocError, Global};
use std::io;

/// The head of a table that shows a trace and the text that it prints.
const HEAD: &str = "| Trace | Text | What happens |";

/// The text between the words of a command and the name of the trace that it runs, without `.trace`.
const FROM: &str = " < examples/";

/// The text before the status with which a command ends, if that isn't 0.
const STATUS: &str = " # ends with ";

/// A command line of a page, and the table after it if there is one.
#[derive(Drop)]
pub(crate) struct Example {
    /// The words after the program's name.
    pub(crate) words: Vec<String>,
    /// The name of the trace that it runs, one of the traces in `examples/`.
    pub(crate) name: Option<String>,
    /// The status that it ends with.
    pub(crate) status: u8,
    /// The lines of the table's first column.
    pub(crate) lines: Vec<String>,
    /// The lines of the table's second column.
    pub(crate) shown: Vec<String>,
}

impl Example {
    /// The example of a command line, from the word after the program's name on. A status that is no number counts as
    /// 0.
    fn of(alloc: Global, command: &str) -> Result<Example, AllocError> {
        let (command, status) = match command.split_once(STATUS) {
            Some((front, status)) => (front, status.parse().unwrap_or(0)),
            None => (command, 0),
        };
        let (spelled, name) = match command.split_once(FROM) {
            Some((spelled, file)) => (spelled, file.strip_suffix(".trace")),
            None => (command, None),
        };
        let mut words = Vec::new(alloc);
        for word in spelled.split_whitespace() {
            words.push(String::from_str(alloc, word)?)?;
        }
        let name = match name {
            Some(name) => Some(String::from_str(alloc, name)?),
            None => None,
        };
        Ok(Example {
            words,
            name,
            status,
            lines: Vec::new(alloc),
            shown: Vec::new(alloc),
        })
    }

    /// Whether the example prints the answer to each line of its trace, and so has a text beside the trace.
    pub(crate) fn has_text(&self) -> bool {
        match self.words.first() {
            Some(word) => word.as_str() == "replay" || word.as_str() == "sweep",
            None => false,
        }
    }

    /// Whether its words name devices.
    pub(crate) fn has_devices(&self) -> bool {
        self.words.iter().any(|word| word.starts_with("--flash") || word.starts_with("--parity"))
    }

    /// Whether it is a sweep, which cuts power.
    pub(crate) fn is_sweep(&self) -> bool {
        match self.words.first() {
            Some(word) => word.as_str() == "sweep",
            None => false,
        }
    }

    /// Adds a row of the example's table.
    fn add_row(&mut self, alloc: Global, row: &str) -> Result<(), AllocError> {
        let mut cells = row.split('|').skip(1);
        if let Some(cell) = cells.next() {
            add_spans(alloc, cell, &mut self.lines)?;
        }
        if let Some(cell) = cells.next() {
            add_spans(alloc, cell, &mut self.shown)?;
        }
        Ok(())
    }
}

/// Adds the texts between backquotes.
fn add_spans(alloc: Global, cell: &str, spans: &mut Vec<String>) -> Result<(), AllocError> {
    let mut is_code = false;
    for piece in cell.split('`') {
        if is_code {
            spans.push(String::from_str(alloc, piece)?)?;
        }
        is_code = !is_code;
    }
    Ok(())
}

/// The words of a command line after the name of the program, or `None` if this is no command line. A command line
/// has four spaces before it, or stands in backquotes and ends with a colon.
fn command_in(line: &str) -> Option<&str> {
    if let Some(command) = line.strip_prefix("    ./flashtier ") {
        return Some(command);
    }
    line.strip_prefix("`./flashtier ")?.strip_suffix("`:")
}

/// The examples of a page, in their order.
pub(crate) fn examples_in(alloc: Global, page: &str) -> io::Result<Vec<Example>> {
    let mut examples: Vec<Example> = Vec::new(alloc);
    let mut is_table = false;
    for line in page.lines() {
        if let Some(command) = command_in(line) {
            examples.push(Example::of(alloc, command)?)?;
        }
        is_table = line == HEAD || is_table && line.starts_with("|");
        if is_table && line != HEAD && !line.starts_with("|-") {
            match examples.last_mut() {
                Some(example) => example.add_row(alloc, line)?,
                None => return Err(io::Error::other("a table comes before any command")),
            }
        }
    }
    Ok(examples)
}
