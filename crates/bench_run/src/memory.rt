//! The most memory that the process had so far.

use std::fs;
use std::rt::Files;

/// The most memory that the process had so far, in kB. `None` if the system does not say it in a file.
pub fn peak_memory(rt: &(impl AllocGlobal + Files)) -> Option<u64> {
    let status = fs::read_to_string(rt, "/proc/self/status").ok()?;
    peak_in(status.as_str())
}

/// This number in the text of the file.
pub fn peak_in(status: &str) -> Option<u64> {
    for line in status.lines() {
        if let Some(number) = line.strip_prefix("VmHWM:") {
            return number.strip_suffix("kB")?.trim().parse().ok();
        }
    }
    None
}
