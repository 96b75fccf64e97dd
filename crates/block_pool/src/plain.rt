//! The plain programs: one block after another.
ghost use Rattle.std.specs.Prelude.{◌↔◌, IsTrue};
ghost use Rattle.block_pool.specs.Pool.{IsFree, IsInPool, IsNextTaken};

use crate::{Pool, Role};
use ft_base::Geometry;

/// Whether the erase block is one of the pool.
pub fn is_in_pool(geometry: &Geometry, block: u32) -> bool
    ensures { IsTrue result ↔ IsInPool geometry.now block }
{
    geometry.first_pool() <= block && block < geometry.blocks()
}

/// Whether the erase block is a free block of the pool.
pub fn is_free(pool: &Pool, block: u32) -> bool
    ensures { IsTrue result ↔ IsFree pool.now block }
{
    is_in_pool(&pool.geometry, block) && pool.role(block) == Role::Free
}

/// Whether the erase block is the next one that is taken: no other free block has fewer erases, and no free block with
/// equally many has a lower number.
pub fn is_next_taken(pool: &Pool, block: u32) -> bool
    ensures { IsTrue result ↔ IsNextTaken pool.now block }
{
    if !is_free(pool, block) {
        return false;
    }
    let erases = pool.erases(block);
    for other in 0..pool.geometry.blocks() {
        if !is_free(pool, other) {
            continue;
        }
        let others = pool.erases(other);
        if others < erases || others == erases && other < block {
            return false;
        }
    }
    true
}
