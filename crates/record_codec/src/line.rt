//! Numbers and bytes put into a line or a page and taken out of it, and tests for zero bytes.
ghost use Rattle.std.specs.Prelude.{◌≡◌, ◌↔◌, ◌+◌, ◌-◌, ◌≤◌, ◌<◌, ◌^◌, ◌++◌, IsTrue, length, take, drop, slice_index, EachIndex};
ghost use Rattle.std.specs.Int.{w32, w64, w128, to_be_bytes};
ghost use Rattle.cache_model.specs.Spelling.{zeros};
ghost use Rattle.cache_model.specs.Reading.{number};

use ft_base::Block;

/// Puts these bytes into a line, from byte `at` on.
pub fn put_bytes<const N: usize>(line: &mut [u8; N], at: usize, bytes: &[u8])
    requires { at + length bytes.now ≤ N }
    ensures { line.new ≡ take at line.old ++ bytes.now ++ drop (at + length bytes.now) line.old }
{
    let all = &mut line[..];
    let part = &mut all[at..at + bytes.len()];
    part.copy_from_slice(bytes);
}

/// Puts a number into four bytes of a line, from byte `at` on.
pub fn put_u32<const N: usize>(line: &mut [u8; N], at: usize, value: u32)
    requires { at + 4 ≤ N }
    ensures { line.new ≡ take at line.old ++ to_be_bytes w32 value ++ drop (at + 4) line.old }
{
    put_bytes(line, at, &value.to_be_bytes());
}

/// Puts a number into eight bytes of a line, from byte `at` on.
pub fn put_u64(line: &mut [u8; 48], at: usize, value: u64)
    requires { at + 8 ≤ 48 }
    ensures placed { line.new ≡ take at line.old ++ to_be_bytes w64 value ++ drop (at + 8) line.old }
    ensures fits { value < 2 ^ 64 }
{
    put_bytes(line, at, &value.to_be_bytes());
}

/// Puts a number into sixteen bytes of a line, from byte `at` on.
pub fn put_u128(line: &mut [u8; 48], at: usize, value: u128)
    requires { at + 16 ≤ 48 }
    ensures { line.new ≡ take at line.old ++ to_be_bytes w128 value ++ drop (at + 16) line.old }
{
    put_bytes(line, at, &value.to_be_bytes());
}

/// The number in four bytes of a line, from byte `at` on.
pub fn u32_at<const N: usize>(line: &[u8; N], at: usize) -> u32
    requires { at + 4 ≤ N }
    ensures { result ≡ number w32 at line.now }
{
    let mut bytes = [0u8; 4];
    let all = &line[..];
    bytes.copy_from_slice(&all[at..at + 4]);
    u32::from_be_bytes(bytes)
}

/// The number in eight bytes of a line, from byte `at` on.
pub fn u64_at(line: &[u8; 48], at: usize) -> u64
    requires { at + 8 ≤ 48 }
    ensures { result ≡ number w64 at line.now }
{
    let mut bytes = [0u8; 8];
    bytes.copy_from_slice(&line[at..at + 8]);
    u64::from_be_bytes(bytes)
}

/// The number in sixteen bytes of a line, from byte `at` on.
pub fn u128_at(line: &[u8; 48], at: usize) -> u128
    requires { at + 16 ≤ 48 }
    ensures { result ≡ number w128 at line.now }
{
    let mut bytes = [0u8; 16];
    bytes.copy_from_slice(&line[at..at + 16]);
    u128::from_be_bytes(bytes)
}

/// The first 32 bytes of a page.
pub fn header_line(page: &Block) -> [u8; 32]
    ensures { result ≡ take 32 page.now.0 }
{
    let mut line = [0; 32];
    line.copy_from_slice(&page.0[..32]);
    line
}

/// `count` bytes of a page, from byte `at` on, and zero bytes behind them.
pub fn line_at(page: &Block, at: usize, count: usize) -> [u8; 48]
    requires page { at + count ≤ 4096 }
    requires line { count ≤ 48 }
    ensures { result ≡ take count (drop at page.now.0) ++ zeros (48 - count) }
{
    let mut line = [0; 48];
    let part = &mut line[..count];
    part.copy_from_slice(&page.0[at..at + count]);
    line
}

/// Puts these bytes into a page, from byte `at` on, and leaves all others.
pub fn put_part(out: &mut Block, at: usize, bytes: &[u8])
    requires { at + length bytes.now ≤ 4096 }
    ensures front { take (at + length bytes.now) out.new.0 ≡ take at out.old.0 ++ bytes.now }
    ensures tail { drop (at + length bytes.now) out.new.0 ≡ drop (at + length bytes.now) out.old.0 }
{
    let part = &mut out.0[at..at + bytes.len()];
    part.copy_from_slice(bytes);
}

/// Makes all these bytes zero.
fn clear(bytes: &mut [u8])
    ensures { bytes.new ≡ zeros (length bytes.old) }
{
    bytes.fill(0);
}

/// Puts zero bytes into a page from byte `at` on.
pub fn put_zeros(out: &mut Block, at: usize)
    requires { at ≤ 4096 }
    ensures { out.new.0 ≡ take at out.old.0 ++ zeros (4096 - at) }
{
    clear(&mut out.0[at..]);
}

/// Whether all these bytes are zero.
pub fn is_zero(bytes: &[u8]) -> bool
    ensures { IsTrue result ↔ EachIndex bytes.now (λ k. slice_index bytes.now k ≡ 0) }
{
    bytes.iter().all(|byte| *byte == 0)
}

/// Whether all bytes of a page are zero from byte `at` on.
pub fn is_zero_from(page: &Block, at: usize) -> bool
    requires { at ≤ 4096 }
    ensures { IsTrue result ↔ (drop at page.now.0 ≡ zeros (4096 - at)) }
{
    is_zero(&page.0[at..])
}
