//! The devices that words choose beneath a volume: plain or raw flash, with parity or without.

use crate::Command;

/// Whether flash tells which of its pages are torn.
#[derive(Clone, Copy, Debug, PartialEq, Eq)]
pub enum FlashKind {
    /// It tells.
    Plain,
    /// It gives back the bytes of a page alone, so each page carries a seal.
    Raw,
}

/// Whether an erase block has a page of parity, by which a page that can't be read is rebuilt.
#[derive(Clone, Copy, Debug, PartialEq, Eq)]
pub enum Parity {
    /// It has none.
    Off,
    /// It has one more page, the parity of the others.
    On,
}

/// What lies beneath a volume.
#[derive(Clone, Copy, Debug, PartialEq, Eq)]
pub struct Devices {
    /// What the flash tells of its pages.
    pub flash: FlashKind,
    /// Whether its erase blocks have a page of parity.
    pub parity: Parity,
}

/// What words say: a command, and the devices that it runs over.
#[derive(Clone, Copy, Debug, PartialEq, Eq)]
pub struct Spoken {
    /// What is run.
    pub command: Command,
    /// What it runs over.
    pub devices: Devices,
}
