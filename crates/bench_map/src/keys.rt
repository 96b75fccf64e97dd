//! The keys for which a map is asked.
ghost use Rattle.std.specs.Prelude.{◌≡◌, length, IfOk};

use std::alloc::{AllocError, Global};

/// Two keys that are asked for one after the other lie this far apart in the order of insertion. The number is a
/// prime that divides no number of entries, so that each key is asked for once.
const STRIDE: usize = 7_919;

/// The keys of a measurement, spread over all 64 bits.
#[derive(Drop)]
pub struct Keys {
    /// The keys in the order of their insertion.
    pub inserted: Vec<u64>,
    /// The keys in the order of their look-up and removal.
    pub asked: Vec<u64>,
}

impl Keys {
    /// This many keys.
    pub fn new(alloc: Global, count: u32) -> Result<Keys, AllocError>
        ensures inserted { IfOk result (λ keys. length keys.inserted.items ≡ count) }
        ensures asked { IfOk result (λ keys. length keys.asked.items ≡ count) }
    {
        let mut inserted = Vec::with_capacity(alloc, count as usize)?;
        for i in 0..count {
            inserted.push(spread(u64::from(i)))?;
        }
        let asked = in_strides(alloc, inserted.as_slice())?;
        Ok(Keys { inserted, asked })
    }
}

/// The keys in another order.
fn in_strides(alloc: Global, keys: &[u64]) -> Result<Vec<u64>, AllocError>
    ensures { IfOk result (λ asked. length asked.items ≡ length keys.now) }
{
    let mut asked = Vec::with_capacity(alloc, keys.len())?;
    let mut at = 0;
    for _ in 0..keys.len() {
        asked.push(keys[at])?;
        at = (at + STRIDE) % keys.len();
    }
    Ok(asked)
}

/// Spreads a number over 64 bits, a different one for each (the finalizer of SplitMix64).
fn spread(number: u64) -> u64 {
    let mut mixed = number.wrapping_add(0x9E37_79B9_7F4A_7C15);
    mixed = (mixed ^ (mixed >> 30)).wrapping_mul(0xBF58_476D_1CE4_E5B9);
    mixed = (mixed ^ (mixed >> 27)).wrapping_mul(0x94D0_49BB_1331_11EB);
    mixed ^ (mixed >> 31)
}
