//! A page in memory, and copies from one page to another.
ghost use Rattle.std.specs.Prelude.{◌≡◌, ◌+◌, ◌-◌, ◌<◌, ◌≤◌, length};
ghost use Rattle.bench_run.specs.Floor.{set_slot, floor_slot};

use ft_base::{Block, Spare};

/// The contents of a page: a block and its spare bytes.
#[derive(Clone, Copy)]
pub struct Slot {
    /// Its block.
    pub block: Block,
    /// Its spare bytes.
    pub spare: Spare,
}

impl Slot {
    /// A page that repeats one byte.
    pub fn of(byte: u8) -> Slot {
        Slot {
            block: Block([byte; 4096]),
            spare: Spare([byte; 32]),
        }
    }
}

/// Copies a page into the one after it.
pub fn copy_next(slots: &mut [Slot], at: usize)
    requires { at + 1 < length slots.old }
    ensures { slots.new ≡ set_slot slots.old (at + 1) (floor_slot slots.old at) }
{
    let (front, back) = slots.split_at_mut(at + 1);
    copy_slot(&front[at], &mut back[0]);
}

/// Copies the last page into the first.
pub fn copy_round(slots: &mut [Slot])
    requires { 2 ≤ length slots.old }
    ensures { slots.new ≡ set_slot slots.old 0 (floor_slot slots.old (length slots.old - 1)) }
{
    let last = slots.len() - 1;
    let (front, back) = slots.split_at_mut(last);
    copy_slot(&back[0], &mut front[0]);
}

fn copy_slot(from: &Slot, to: &mut Slot)
    ensures { to.new ≡ from.now }
{
    to.block = from.block;
    to.spare = from.spare;
}
