//! The commands of a cache that may write to the flash, as values without an address and a block.

/// A command of the cache.
#[derive(Clone, Copy, Debug, PartialEq, Eq)]
pub enum Kind {
    /// Holds a block at an address, dirty.
    WriteDirty,
    /// The same, but a crash may bring back what was there before, until the write is committed.
    WriteLater,
    /// Holds a block at an address, clean.
    WriteClean,
    /// Stops holding an address.
    Evict,
    /// Marks the block of an address clean.
    Clean,
    /// Puts the buffered changes on the flash.
    Commit,
    /// Makes a checkpoint.
    Checkpoint,
}
