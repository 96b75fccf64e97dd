//! The table's plain programs, over a list of groups with the last touched first.
ghost use Rattle.std.specs.Prelude.{◌≡◌, IfOk};
ghost use Rattle.dirty_table.specs.Groups.{has, without_first, touched, oldest_of};

use std::alloc::{AllocError, Global};

/// Whether the group is in the list.
pub fn contains(order: &[u64], group: u64) -> bool
    ensures { result ≡ has group order.now }
{
    order.iter().any(|&one| group == one)
}

/// The list without the first place of the group.
pub fn removed(alloc: Global, order: &[u64], group: u64) -> Result<Vec<u64>, AllocError>
    ensures { IfOk result (λ left. left.items ≡ without_first group order.now) }
{
    let mut left = Vec::new(alloc);
    let mut found = false;
    for &one in order {
        if one == group && !found {
            found = true;
        } else {
            left.push(one)?;
        }
    }
    Ok(left)
}

/// The list with the group brought to the front.
pub fn brought_to_front(alloc: Global, order: &[u64], group: u64) -> Result<Vec<u64>, AllocError>
    ensures { IfOk result (λ after. after.items ≡ touched group order.now) }
{
    let mut after = Vec::new(alloc);
    after.push(group)?;
    after.extend_from_slice(&removed(alloc, order, group)?)?;
    Ok(after)
}

/// The last of the list.
pub fn oldest(order: &[u64]) -> Option<u64>
    ensures { result ≡ oldest_of order.now }
{
    order.last().copied()
}
