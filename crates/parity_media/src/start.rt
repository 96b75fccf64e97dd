//! The start of counting, as numbers for proofs alone. They tie the counts of a rig with parity to the rig beneath.
ghost use Rattle.std.specs.Prelude.{ℕ};

use std::marker::Brand;

/// What the rig beneath had counted when a rig with parity was made over it. Proofs alone read it.
pub trait Start {
    /// Failed calls of the flash.
    ghost flash: { ℕ };

    /// Power cuts, and calls without power.
    ghost cuts: { ℕ };
}

/// Nothing is known of what it had counted.
impl Start for Brand {
    ghost flash = { 0 };

    ghost cuts = { 0 };
}
