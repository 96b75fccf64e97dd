//! Runs one example, and compares the text that it prints with the text that is shown, and with the text beside its
//! trace. If its trace has a name, it is run over other devices as well.

use crate::page::Example;
use flashtier_run::run_on;
use ft_base::{MemSink, MemSource};
use mem_rig::MemRig;
use sealed_media::MemRawRig;
use std::alloc::{AllocError, Global};
use std::rt::Files;
use std::{fs, io};

/// The number from which torn pages of raw flash are drawn.
const TEAR: u64 = 1;

/// Room for the text that an example prints.
const ROOM: usize = 65_536;

/// How an example differs from the program.
#[derive(Clone, Copy, Debug, PartialEq, Eq)]
pub(crate) enum Difference {
    /// The example ends with another status.
    Status(u8),
    /// The program prints something else.
    Text,
    /// It ends or prints otherwise over other devices.
    Devices,
}

/// How a run ended, and the text that it printed.
#[derive(Drop)]
struct Outcome {
    status: u8,
    text: Vec<u8>,
}

/// The words of devices other than the plain ones.
const RAW: [&str; 1] = ["--flash=raw"];

const WITH_PARITY: [&str; 1] = ["--parity=on"];

const RAW_WITH_PARITY: [&str; 2] = ["--flash=raw", "--parity=on"];

/// Runs an example. `None` if it is as shown, and over other devices too.
pub(crate) fn differs(
    rt: &(impl AllocGlobal + Files),
    example: &Example,
) -> io::Result<Option<Difference>> {
    let trace = trace_of(rt, example)?;
    let outcome = run_over(rt.alloc(), example, trace.as_str(), &[])?;
    if outcome.status != example.status {
        return Ok(Some(Difference::Status(outcome.status)));
    }
    let text = outcome.text.as_slice();
    if !is_in_table(example, text) || !is_beside_trace(rt, example, text)? {
        return Ok(Some(Difference::Text));
    }
    if is_same_over_devices(rt.alloc(), example, trace.as_str(), &outcome)? {
        Ok(None)
    } else {
        Ok(Some(Difference::Devices))
    }
}

/// Whether an example whose trace has a name prints the same over raw flash, and with parity if no power cut counts its
/// programs.
fn is_same_over_devices(
    alloc: Global,
    example: &Example,
    trace: &str,
    plain: &Outcome,
) -> io::Result<bool> {
    if example.name.is_none() || example.has_devices() {
        return Ok(true);
    }
    if !is_same_over(alloc, example, trace, plain, &RAW)? {
        return Ok(false);
    }
    if example.is_sweep() || trace.contains("stop ") {
        return Ok(true);
    }
    Ok(
        is_same_over(alloc, example, trace, plain, &WITH_PARITY)?
            && is_same_over(alloc, example, trace, plain, &RAW_WITH_PARITY)?,
    )
}

/// Whether it ends and prints the same with these words of devices.
fn is_same_over(
    alloc: Global,
    example: &Example,
    trace: &str,
    plain: &Outcome,
    devices: &[&str],
) -> io::Result<bool> {
    let other = run_over(alloc, example, trace, devices)?;
    Ok(other.status == plain.status && other.text.as_slice() == plain.text.as_slice())
}

/// Runs an example over a trace, with further words of devices.
fn run_over(
    alloc: Global,
    example: &Example,
    trace: &str,
    devices: &[&str],
) -> io::Result<Outcome> {
    let mut words = example.words.clone()?;
    for word in devices {
        words.push(String::from_str(alloc, word)?)?;
    }
    let bytes = Vec::from_slice(alloc, trace.as_bytes())?;
    let mut source = MemSource::new(bytes, 4096, Vec::new(alloc));
    let mut sink = MemSink::new(alloc, ROOM, ROOM, Vec::new(alloc))?;
    let mut rig = MemRig::new(alloc);
    let mut raw = MemRawRig::new(alloc, TEAR);
    let status = run_on(
        alloc,
        words.as_slice(),
        &mut source,
        &mut sink,
        &mut rig,
        &mut raw,
    );
    let text = Vec::from_slice(alloc, sink.bytes())?;
    Ok(Outcome { status, text })
}

/// The trace of an example: the trace that it names, or the lines of its table.
fn trace_of(rt: &(impl AllocGlobal + Files), example: &Example) -> io::Result<String> {
    match &example.name {
        Some(name) => read_file(rt, name.as_str(), "trace"),
        None => Ok(joined(rt.alloc(), example.lines.as_slice())?),
    }
}

/// The file with this name, of this kind.
fn read_file(rt: &(impl AllocGlobal + Files), name: &str, kind: &str) -> io::Result<String> {
    let path = format!(in rt.alloc(); "{name}.{kind}")?;
    fs::read_to_string(rt, path.as_str())
}

/// Whether the table of an example shows this text. An example without a table shows any text.
fn is_in_table(example: &Example, text: &[u8]) -> bool {
    example.shown.is_empty() || is_text(example.shown.as_slice(), text)
}

/// Whether this text stands beside the trace that an example names, if one does.
fn is_beside_trace(
    rt: &(impl AllocGlobal + Files),
    example: &Example,
    text: &[u8],
) -> io::Result<bool> {
    match &example.name {
        Some(name) if example.has_text() => {
            let wanted = read_file(rt, name.as_str(), "text")?;
            Ok(wanted.as_bytes() == text)
        }
        _ => Ok(true),
    }
}

/// The lines as a trace.
fn joined(alloc: Global, lines: &[String]) -> Result<String, AllocError> {
    let mut trace = String::new(alloc);
    for line in lines {
        trace.push_str(line.as_str())?;
        trace.push('\n')?;
    }
    Ok(trace)
}

/// Whether the text has just these lines. A line that ends with three dots may go on.
pub(crate) fn is_text(shown: &[String], text: &[u8]) -> bool {
    let Ok(text) = str::from_utf8(text) else {
        return false;
    };
    let mut shown = shown.iter();
    for line in text.lines() {
        match shown.next() {
            Some(wanted) if is_line(wanted.as_str(), line) => {}
            _ => return false,
        }
    }
    shown.next().is_none()
}

/// Whether `line` is the line that is shown.
fn is_line(wanted: &str, line: &str) -> bool {
    match wanted.strip_suffix("…") {
        Some(front) => line.starts_with(front),
        None => wanted == line,
    }
}
