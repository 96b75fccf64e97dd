//! The kernels' plain programs: one number after another.
ghost use Rattle.std.specs.Prelude.{◌≡◌, ◌↔◌, [], length, IsTrue, IsNone, IfSome};
ghost use Rattle.lanes.specs.Kernels.{IsEach, xor_of, IsFirstLeast};

/// Whether each byte is `byte`.
pub fn is_each(bytes: &[u8], byte: u8) -> bool
    ensures { IsTrue result ↔ IsEach byte bytes.now }
{
    bytes.iter().all(|&one| one == byte)
}

/// Puts into each byte of `to` its exclusive or with the byte of `from` at the same place.
pub fn xor_into(to: &mut [u8], from: &[u8])
    requires { length to.old ≡ length from.now }
    ensures { to.new ≡ xor_of to.old from.now }
{
    for i in 0..to.len() {
        to[i] ^= from[i];
    }
}

/// The first place of the least count, and `None` if there are no counts, and only then.
pub fn least(counts: &[u16]) -> Option<usize>
    ensures none { IsNone result ↔ (counts.now ≡ []) }
    ensures first { IfSome result (IsFirstLeast counts.now) }
{
    if counts.is_empty() {
        return None;
    }
    let mut place = 0;
    for i in 1..counts.len() {
        if counts[i] < counts[place] {
            place = i;
        }
    }
    Some(place)
}
