//! Numbers in words: decimal digits, below 2^64, with no sign and no zero in front.
ghost use Rattle.std.specs.Prelude.{◌≡◌, ◌≢◌, ◌<◌, ◌^◌, ◌↔◌, ℕ, IsTrue, IfSome, IfNone, decimal, length, slice_index};

const PLUS: u8 = b'+';

const ZERO: u8 = b'0';

/// Whether the word begins as a number does: with no plus, and with a zero only if that stands alone.
fn begins_as_number(word: &str) -> bool
    ensures { IsTrue result ↔ ((0 < length word.now) × (slice_index word.now 0 ≢ PLUS)
        × (slice_index word.now 0 ≡ ZERO → length word.now ≡ 1)) }
{
    let bytes = word.as_bytes();
    if bytes.is_empty() {
        return false;
    }
    bytes[0] != PLUS && (bytes[0] != ZERO || bytes.len() == 1)
}

/// The number of which the word is the decimal digits.
pub(crate) fn number_of(word: &str) -> Option<u64>
    ensures some { IfSome result (λ n. word.now ≡ decimal n) }
    ensures none { IfNone result ((n : ℕ) → n < 2 ^ 64 → word.now ≡ decimal n → ⊥) }
{
    if !begins_as_number(word) {
        return None;
    }
    word.parse::<u64>().ok()
}
