//! An entry of the list of replaced blocks, along which a cut goes back to flushed values.

use ft_base::Block;

/// What a block write replaced: the block of an address, or `None` if none had been written.
#[derive(Drop)]
pub(crate) struct Replaced {
    pub(crate) lba: u64,
    pub(crate) block: Option<Box<Block>>,
}
