//! The pool: its free block with the fewest erases is taken next, and each block has a role and a count of its erases.
ghost use Rattle.std.specs.Prelude.{◌≡◌, ◌≢◌, ◌≤◌, ◌<◌, ℕ, IfOk, OnOk, OnErr, IsErrOf};
ghost use Rattle.ft_base.specs.Layout as layout;
ghost use Rattle.ft_media.specs.State.{failed, lost};
ghost use Rattle.ft_media.specs.Media.{after_erase, erase_counted, if_ok};
ghost use Rattle.ft_media.specs.Passes.{Spends};
ghost use Rattle.ft_media.specs.Drives.{DrivesFlash};
ghost use Rattle.block_pool.specs.Pool.{ErasedOnce, ErasesNext, IsFree, IsInPool, IsNextTaken, erases_of, role_of};

use ft_base::{Geometry, bump};
use ft_media::{Media, MediaError};
use std::alloc::{AllocError, Global};
use std::marker::Model;

/// What an erase block of the pool is used for.
#[derive(Clone, Copy, Debug, PartialEq, Eq)]
pub enum Role {
    /// For nothing: it can be taken.
    Free,
    /// A data block.
    Data,
    /// A log block.
    Log,
}

/// The role and the erases of one erase block of the pool.
#[derive(Clone, Copy, Debug, PartialEq, Eq)]
pub(crate) struct PoolBlock {
    pub(crate) role: Role,
    pub(crate) erases: u64,
}

/// The erase blocks of the pool, from its first one on.
#[derive(Drop)]
pub struct Pool {
    pub(crate) geometry: Geometry,
    // The number of the first erase block, which follows from the geometry.
    first: u32,
    blocks: Vec<PoolBlock>,
}

impl Model for Pool {
    ghost use Rattle.std.specs.Prelude.{◌≡◌, ◌+◌, ◌≤◌, length, vec_len};
    ghost use Rattle.std.specs.Vec.{vec_capacity};
    ghost use Rattle.ft_base.specs.Layout.{first_pool};
    ghost use Rattle.block_pool.specs.Pool.{PoolValue};

    ghost Value = { PoolValue };

    ghost view = { λ p. record { geometry = p.geometry; blocks = p.blocks.items } };

    ghost invariant = { λ p. (p.first ≡ first_pool p.geometry) × (length p.blocks.items ≡ p.geometry.c + p.geometry.l + 1)
        × (vec_capacity p.blocks ≡ vec_len p.blocks) };
}

impl Pool {
    /// A pool in which every block is free and was never erased. It allocates all memory that the pool will ever need,
    /// an entry for each of the C + L + 1 blocks, and fails only with out of memory.
    pub fn new(alloc: Global, geometry: &Geometry) -> Result<Pool, AllocError>
        ensures geometry { IfOk result (λ pool. pool.geometry ≡ geometry.now) }
        ensures free { IfOk result (λ pool. (b : ℕ) → IsInPool geometry.now b → IsFree pool b) }
        ensures unerased { IfOk result (λ pool. (b : ℕ) → IsInPool geometry.now b → erases_of pool b ≡ 0) }
    {
        let unused = PoolBlock {
            role: Role::Free,
            erases: 0,
        };
        let count = geometry.c + geometry.l + 1;
        let blocks = vec![in alloc; unused; count as usize]?;
        // The list that `vec!` makes has no more memory, but `vec!` doesn't promise that. So a longer list counts as
        // out of memory.
        if blocks.capacity() > blocks.len() {
            return Err(AllocError);
        }
        Ok(Pool {
            geometry: *geometry,
            first: geometry.first_pool(),
            blocks,
        })
    }

    /// What a block of the pool is used for.
    pub fn role(&self, block: u32) -> Role
        requires { IsInPool self.now.geometry block }
        ensures { result ≡ role_of self.now block }
    {
        self.blocks[(block - self.first) as usize].role
    }

    /// How often a block of the pool was erased since opening. The count stays at its last value once it gets there.
    pub fn erases(&self, block: u32) -> u64
        requires { IsInPool self.now.geometry block }
        ensures { result ≡ erases_of self.now block }
    {
        self.blocks[(block - self.first) as usize].erases
    }

    /// Gives a block of the pool this role from now on. No other block changes.
    pub fn set_role(&mut self, block: u32, role: Role)
        requires { IsInPool self.old.geometry block }
        ensures geometry { self.new.geometry ≡ self.old.geometry }
        ensures role { role_of self.new block ≡ role }
        ensures others { (b : ℕ) → IsInPool self.old.geometry b → b ≢ block → role_of self.new b ≡ role_of self.old b }
        ensures erases { (b : ℕ) → erases_of self.new b ≡ erases_of self.old b }
    {
        self.blocks[(block - self.first) as usize].role = role;
    }

    /// Erases the free block with the fewest erases since opening, and of several such blocks the one with the lowest
    /// number. It answers the block's number, and makes one device write. The block stays free until its role is set.
    /// On `Err`, when the flash fails or power is lost, the pool is unchanged. It never fails with out of memory.
    pub fn take<M: Media>(&mut self, media: &mut M) -> Result<u32, MediaError>
        requires shape { layout.blocks self.old.geometry ≤ (M.state media.old).contents.shape.blocks }
        requires free { (b : ℕ) × IsFree self.old b }
        ensures geometry { self.new.geometry ≡ self.old.geometry }
        ensures roles { (b : ℕ) → role_of self.new b ≡ role_of self.old b }
        ensures taken { IfOk result (λ b. IsNextTaken self.old b
            × ((M.state media.new).contents.flash ≡ after_erase (M.state media.old).contents.flash b)) }
        ensures erases { IfOk result (λ b. ErasedOnce self.old self.new b) }
        ensures refused { OnErr result (self.new ≡ self.old) }
        ensures pages { ErasesNext self.old (M.state media.old).contents.flash (M.state media.new).contents.flash (failed result) }
        ensures counts { (M.state media.new).counts ≡ if_ok result (erase_counted (M.state media.old).counts) (M.state media.old).counts }
        ensures spends { OnOk result (Spends 1 (M.state media.old) (M.state media.new)) }
        ensures memory { IsErrOf result MediaError.OutOfMemory → ⊥ }
        ensures drives { DrivesFlash (M.state media.old) (M.state media.new) (failed result) (lost result) }
    {
        let block = self.next_taken();
        media.erase(block)?;
        self.count_erase(block);
        Ok(block)
    }

    /// The free block with the fewest erases, and of several such blocks the one with the lowest number.
    fn next_taken(&self) -> u32
        requires { (b : ℕ) × IsFree self.now b }
        ensures { IsNextTaken self.now result }
    {
        let mut next = None;
        for block in self.first..self.geometry.blocks() {
            if self.role(block) != Role::Free {
                continue;
            }
            match next {
                Some(best) if self.erases(best) <= self.erases(block) => {}
                _ => next = Some(block),
            }
        }
        match next {
            Some(block) => block,
            None => unreachable!(),
        }
    }

    /// Counts an erase of a block of the pool.
    fn count_erase(&mut self, block: u32)
        requires { IsInPool self.old.geometry block }
        ensures geometry { self.new.geometry ≡ self.old.geometry }
        ensures roles { (b : ℕ) → role_of self.new b ≡ role_of self.old b }
        ensures erases { ErasedOnce self.old self.new block }
    {
        let erased = &mut self.blocks[(block - self.first) as usize];
        erased.erases = bump(erased.erases);
    }
}
