//! The plain programs, over a list of blocks in which the block that was put in first is in front.
ghost use Rattle.std.specs.Prelude.{◌≡◌, IfOk};
ghost use Rattle.log_blocks.specs.Logs.{is_in, without_block, last_of};

use std::alloc::{AllocError, Global};

/// Whether the block is in the list.
pub fn is_in_use(used: &[u32], block: u32) -> bool
    ensures { result ≡ is_in block used.now }
{
    used.iter().any(|&one| block == one)
}

/// The list without the block.
pub fn without(alloc: Global, used: &[u32], block: u32) -> Result<Vec<u32>, AllocError>
    ensures { IfOk result (λ left. left.items ≡ without_block block used.now) }
{
    let mut left = Vec::new(alloc);
    for &one in used {
        if one != block {
            left.push(one)?;
        }
    }
    Ok(left)
}

/// The last of the list.
pub fn last(used: &[u32]) -> Option<u32>
    ensures { result ≡ last_of used.now }
{
    used.last().copied()
}
