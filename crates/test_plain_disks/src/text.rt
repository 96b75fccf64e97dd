//! The text that the disks print of a trace.

use crate::became::Became;
use crate::disks::Disks;
use crate::lines::DiskLine;
use std::alloc::{AllocError, Global};
use trace_model::Line;

/// What `disks` disks of `share` blocks each print of these lines and at the end. `became` says what became of each
/// line, the oldest first, and then of the end. Of what it doesn't say, nothing became.
pub fn plain_many(
    alloc: Global,
    share: u64,
    disks: u32,
    lines: &[DiskLine],
    became: &[Became],
) -> Result<Vec<u8>, AllocError> {
    let mut text = Vec::new(alloc);
    let mut all = Disks::new(alloc, share, disks)?;
    let mut chosen = 0;
    for n in 0..lines.len() {
        match lines[n] {
            DiskLine::Disk { disk } => {
                chosen = disk;
                put(&mut text, format!(in alloc; "disk {disk}\n")?)?;
            }
            DiskLine::Plain { line } => {
                tell_line(&mut text, &mut all, chosen, &line, &became_at(became, n))?
            }
        }
    }
    tell_cuts(&mut text, &mut all, &became_at(became, lines.len()))?;
    for disk in 0..disks {
        put(&mut text, format!(in alloc; "disk {disk}\n")?)?;
        put(&mut text, all.end(alloc, disk)?)?;
    }
    Ok(text)
}

fn became_at(became: &[Became], n: usize) -> Became {
    match became.get(n) {
        Some(known) => *known,
        None => Became::default(),
    }
}

fn put(text: &mut Vec<u8>, printed: String) -> Result<(), AllocError> {
    text.extend_from_slice(printed.as_bytes())
}

/// What comes first: the cuts, and the block writes that they lost.
fn tell_cuts(text: &mut Vec<u8>, all: &mut Disks, became: &Became) -> Result<(), AllocError> {
    let alloc = *text.allocator();
    all.lose(became.lost);
    for _ in 0..became.cuts {
        text.extend_from_slice(b"stopped\n".as_slice())?;
    }
    let lost = became.lost;
    if lost > 0 {
        put(text, format!(in alloc; "lost {lost}\n")?)?;
    }
    Ok(())
}

/// The answers to a line while this disk is chosen.
fn tell_line(
    text: &mut Vec<u8>,
    all: &mut Disks,
    chosen: u32,
    line: &Line,
    became: &Became,
) -> Result<(), AllocError> {
    if matches!(line, Line::Nothing | Line::Stop { .. }) {
        return Ok(());
    }
    tell_cuts(text, all, became)?;
    match *line {
        Line::Write { lba, count, tag } => {
            all.count(chosen, lba, count, true)?;
            let kept = if became.cuts == 0 { count } else { became.kept };
            all.write(chosen, lba, kept, tag)?;
            tell_write(text, lba, count, became)
        }
        Line::Read { lba, count } => {
            all.count(chosen, lba, count, false)?;
            tell_read(text, all, chosen, lba, count)
        }
        Line::Flush => text.extend_from_slice(b"flushed\n".as_slice()),
        Line::Idle => text.extend_from_slice(b"idle\n".as_slice()),
        Line::Cut { .. } => text.extend_from_slice(b"cut\n".as_slice()),
        Line::Stop { .. } | Line::Nothing => Ok(()),
    }
}

fn tell_write(text: &mut Vec<u8>, lba: u64, count: u64, became: &Became) -> Result<(), AllocError> {
    let alloc = *text.allocator();
    if became.cuts == 0 {
        return put(text, format!(in alloc; "wrote {lba} {count}\n")?);
    }
    let kept = became.kept;
    put(text, format!(in alloc; "kept {kept} of {count}\n")?)
}

fn tell_read(
    text: &mut Vec<u8>,
    all: &Disks,
    chosen: u32,
    lba: u64,
    count: u64,
) -> Result<(), AllocError> {
    let alloc = *text.allocator();
    for i in 0..count {
        let lba = lba.saturating_add(i);
        match all.tag_at(chosen, lba) {
            Some(tag) => put(text, format!(in alloc; "read {lba} {tag}\n")?)?,
            None => put(text, format!(in alloc; "read {lba} without a tag\n")?)?,
        }
    }
    Ok(())
}
