//! How many block writes a power cut lost, told by reading back.
ghost use Rattle.std.specs.Prelude.{◌≡◌, ◌==◌, ◌||◌, [], List};
ghost use Rattle.std.specs.List.{list_any};
ghost use Rattle.ft_base.specs.PlainDisk.{BlockWrite, PlainDisk};
ghost use Rattle.trace_model.specs.Lost.{AreLooked, IsLeastLost, first_right, look_right};

/// A block write that was read back.
#[derive(Clone, Copy, Debug, PartialEq, Eq)]
pub struct Looked {
    /// The address.
    pub lba: u64,
    /// Whether the block at this address is the one that was written.
    pub shows: bool,
}

/// How many of the newest block writes were lost, the newest of which is the first: the least number with which the
/// disk reads as it does.
pub fn least_lost(looked: &[Looked]) -> usize
    ensures first { result ≡ first_right looked.now }
    ensures least { (writes : List BlockWrite) (disk : PlainDisk) → AreLooked looked.now writes disk → IsLeastLost writes disk result }
{
    for lost in 0..looked.len() {
        if looks_right(&looked[lost..]) {
            return lost;
        }
    }
    looked.len()
}

/// Whether each block that no newer write covers is there.
fn looks_right(looked: &[Looked]) -> bool
    ensures { result ≡ look_right [] looked.now }
{
    for i in 0..looked.len() {
        if !is_right(&looked[..i], &looked[i]) {
            return false;
        }
    }
    true
}

/// Whether a block is there, or one of these newer writes covers it.
fn is_right(newer: &[Looked], one: &Looked) -> bool
    ensures { result ≡ (list_any (λ l. l.lba == one.now.lba) newer.now || one.now.shows) }
{
    is_named(newer, one.lba) || one.shows
}

/// Whether one of these writes was to this address.
fn is_named(looked: &[Looked], lba: u64) -> bool
    ensures { result ≡ list_any (λ l. l.lba == lba) looked.now }
{
    looked.iter().any(|one| one.lba == lba)
}
