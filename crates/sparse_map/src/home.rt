//! The bucket in which a key is looked for first, and the order of buckets round the table.

ghost use Rattle.std.specs.Prelude.{◌≡◌, ◌+◌, ◌*◌, ◌^◌, ◌<◌, ◌≤◌, if◌then◌else◌, ◌==◌, ◌⊎◌, ◌↔◌, IsTrue};
ghost use Rattle.sparse_map.specs.Home.{home, steps, IsTableSize, IsDoubledFor};

/// 2^64 over the golden ratio, made odd: products with it spread neighbouring keys over the whole table.
const MULTIPLIER: u64 = 0x9E37_79B9_7F4A_7C15;

/// The home of a key among `2^bits` buckets: the top bits of the product, taken modulo 2^64.
#[tactic(auto, using(crate::proofs::HomeLemmas::home_is_top_bits, crate::proofs::HomeLemmas::top_bits_below))]
pub fn home_of(bits: u32, key: u64) -> u64
    requires many { 1 ≤ bits }
    requires few { bits ≤ 31 }
    ensures home { result ≡ home (2 ^ bits) key }
    ensures within { result < 2 ^ bits }
{
    key.wrapping_mul(MULTIPLIER) >> (64 - bits)
}

/// How many buckets have numbers of `bits` bits.
#[tactic(auto, using(crate::proofs::HomeLemmas::shifted_one))]
pub fn bucket_count(bits: u32) -> u64
    requires { bits ≤ 31 }
    ensures count { result ≡ 2 ^ bits }
    ensures few { result ≤ 2 ^ 31 }
{
    1 << bits
}

/// How many steps lead from bucket `from` to bucket `to`, going round past the last of `buckets`.
#[tactic(auto, using(crate::proofs::HomeLemmas::steps_ahead, crate::proofs::HomeLemmas::steps_round))]
pub fn steps_between(buckets: u64, from: u64, to: u64) -> u64
    requires few { buckets ≤ 2 ^ 31 }
    requires from { from < buckets }
    requires to { to < buckets }
    ensures { result ≡ steps buckets from to }
{
    if from <= to {
        to - from
    } else {
        to + buckets - from
    }
}

/// Whether the way of a key from its home to the bucket `at` leads over the bucket `over`.
#[tactic(auto, using(crate::proofs::HomeLemmas::home_below, crate::proofs::HomeLemmas::shifted_one))]
pub fn leads_over(bits: u32, key: u64, over: u64, at: u64) -> bool
    requires many { 1 ≤ bits }
    requires few { bits ≤ 31 }
    requires over { over < 2 ^ bits }
    requires at { at < 2 ^ bits }
    ensures { IsTrue result ↔ (steps (2 ^ bits) (home (2 ^ bits) key) over ≤ steps (2 ^ bits) (home (2 ^ bits) key) at) }
{
    let buckets = bucket_count(bits);
    let home = home_of(bits, key);
    steps_between(buckets, home, over) <= steps_between(buckets, home, at)
}

/// The bucket after `bucket`, going round.
pub fn next_bucket(buckets: u64, bucket: u64) -> u64
    requires few { buckets ≤ 2 ^ 31 }
    requires within { bucket < buckets }
    ensures { result ≡ (if bucket + 1 == buckets then 0 else bucket + 1) }
{
    if bucket + 1 == buckets { 0 } else { bucket + 1 }
}

/// The number of bits of the bucket number with which `need` items leave a quarter of the buckets free. It is at least
/// `bits`, and at least 5.
#[tactic(auto, using(crate::proofs::HomeLemmas::grew_none, crate::proofs::HomeLemmas::grew_from_none, crate::proofs::HomeLemmas::grew_more, crate::proofs::HomeLemmas::grew_enough, crate::proofs::HomeLemmas::below_thirty_one))]
pub fn bits_for(bits: u32, need: u64) -> u32
    requires room { need ≤ 2 ^ 30 }
    requires bits { bits ≤ 31 }
    requires some { bits ≡ 0 ⊎ 5 ≤ bits }
    ensures doubled { IsDoubledFor need (if bits == 0 then 0 else 2 ^ bits) (2 ^ result) }
    ensures size { IsTableSize result }
{
    let mut wide = if bits == 0 { 5 } else { bits };
    while 3 * (1u64 << wide) < 4 * need {
        wide += 1;
    }
    wide
}
