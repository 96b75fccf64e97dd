//! Kernels over byte lanes: whether a page is all ones or all zeros, the exclusive or of two pages, and the first place
//! of the least count in a list.
//!
//! The layer above relies on this: each kernel gives what its plain program in `plain` gives, at every length. A kernel
//! takes whole vectors first, and then the numbers after them one after another.
#![tactic(auto)]

ghost use Rattle.std.specs.Prelude.{◌≡◌, ◌≢◌, ◌≤◌, ◌↔◌, ◌==◌, [], length, take, drop, fold, min, position, All, IsTrue, IsNone, IfSome};
ghost use Rattle.lanes.specs.Kernels.{IsEach, xor_of, IsFirstLeast, least_of};

pub mod plain;

use std::simd::prelude::*;

/// Whether each byte is 0xFF, as in an erased page. True of no bytes at all.
pub fn all_ff(bytes: &[u8]) -> bool
    ensures { IsTrue result ↔ IsEach 255 bytes.now }
{
    is_each(bytes, 0xff)
}

/// Whether each byte is zero. True of no bytes at all.
pub fn all_zero(bytes: &[u8]) -> bool
    ensures { IsTrue result ↔ IsEach 0 bytes.now }
{
    is_each(bytes, 0)
}

/// Puts into each byte of `to` its exclusive or with the byte of `from` at the same place.
pub fn xor_into(to: &mut [u8], from: &[u8])
    requires { length to.old ≡ length from.now }
    ensures { to.new ≡ xor_of to.old from.now }
{
    let done = xor_vectors(to, from);
    plain::xor_into(&mut to[done..], &from[done..]);
}

/// The first place of the least count, and `None` if there are no counts, and only then.
pub fn least(counts: &[u16]) -> Option<usize>
    ensures none { IsNone result ↔ (counts.now ≡ []) }
    ensures first { IfSome result (IsFirstLeast counts.now) }
{
    place_of(counts, least_count(counts))
}

fn is_each(bytes: &[u8], byte: u8) -> bool
    ensures { IsTrue result ↔ IsEach byte bytes.now }
{
    let done = vectors_of(bytes, byte);
    plain::is_each(&bytes[done..], byte)
}

// How many bytes from the front are `byte`, in whole vectors: up to the first vector with another byte.
fn vectors_of(bytes: &[u8], byte: u8) -> usize
    ensures within { result ≤ length bytes.now }
    ensures each { IsEach byte (take result bytes.now) }
{
    let sought = u8x16::splat(byte);
    let mut done = 0;
    while bytes.len() - done >= 16 {
        let others = u8x16::from_slice(&bytes[done..]).simd_ne(sought);
        if others.to_bitmask() != 0 {
            break;
        }
        done += 16;
    }
    done
}

// Joins whole vectors from the front and leaves the bytes after them. Answers how many it joined.
fn xor_vectors(to: &mut [u8], from: &[u8]) -> usize
    requires { length to.old ≡ length from.now }
    ensures within { result ≤ length from.now }
    ensures front { take result to.new ≡ xor_of (take result to.old) (take result from.now) }
    ensures back { drop result to.new ≡ drop result to.old }
{
    let mut done = 0;
    while to.len() - done >= 16 {
        let joined = u8x16::from_slice(&to[done..]) ^ u8x16::from_slice(&from[done..]);
        joined.copy_to_slice(&mut to[done..]);
        done += 16;
    }
    done
}

// The least count, and 65,535 if there are none.
fn least_count(counts: &[u16]) -> u16
    ensures { result ≡ least_of counts.now }
{
    let (lanes, done) = least_lanes(counts);
    let least = least_from(u16::MAX, &lanes);
    least_from(least, &counts[done..])
}

// The least count of each lane over whole vectors from the front, and how many counts those vectors have.
fn least_lanes(counts: &[u16]) -> ([u16; 8], usize)
    ensures within { result.1 ≤ length counts.now }
    ensures least { least_of result.0 ≡ least_of (take result.1 counts.now) }
{
    let mut lanes = u16x8::splat(u16::MAX);
    let mut done = 0;
    while counts.len() - done >= 8 {
        lanes = lanes.simd_min(u16x8::from_slice(&counts[done..]));
        done += 8;
    }
    (lanes.to_array(), done)
}

// The least of the start and the counts.
fn least_from(start: u16, counts: &[u16]) -> u16
    ensures { result ≡ fold min start counts.now }
{
    counts.iter().fold(start, |least, &count| least.min(count))
}

// The first place of the value.
fn place_of(counts: &[u16], value: u16) -> Option<usize>
    ensures { result ≡ position (λ count. count == value) counts.now }
{
    for place in vectors_without(counts, value)..counts.len() {
        if counts[place] == value {
            return Some(place);
        }
    }
    None
}

// How many counts from the front are not the value, in whole vectors: up to the first vector with it.
fn vectors_without(counts: &[u16], value: u16) -> usize
    ensures within { result ≤ length counts.now }
    ensures none { All (λ count. count ≢ value) (take result counts.now) }
{
    let sought = u16x8::splat(value);
    let mut done = 0;
    while counts.len() - done >= 8 {
        let found = u16x8::from_slice(&counts[done..]).simd_eq(sought);
        if found.to_bitmask() != 0 {
            break;
        }
        done += 8;
    }
    done
}

#[cfg(test)]
mod tests {
    use super::*;

    #[test]
    fn least_is_the_first_of_equals(rt: HostRuntime) {
        assert_eq!(rt; least(&[7, 3, 9, 3]), Some(1));
        assert_eq!(rt; least(&[]), None);
        let mut counts = [65_535; 20];
        assert_eq!(rt; least(&counts), Some(0));
        counts[18] = 4;
        counts[17] = 4;
        assert_eq!(rt; least(&counts), Some(17));
    }

    #[test]
    fn pages_of_one_byte(rt: HostRuntime) {
        let mut bytes = [0xff; 33];
        assert!(rt; all_ff(&bytes));
        bytes[32] = 0xfe;
        assert!(rt; !all_ff(&bytes));
        assert!(rt; all_ff(&[]));
        let mut zeros = [0; 33];
        assert!(rt; all_zero(&zeros));
        zeros[3] = 1;
        assert!(rt; !all_zero(&zeros));
    }

    #[test]
    fn xor_into_joins_each_byte(rt: HostRuntime) {
        let mut to = [0x0f; 19];
        let mut from = [0x3c; 19];
        from[18] = 0xf0;
        xor_into(&mut to, &from);
        assert_eq!(rt; to[0], 0x33);
        assert_eq!(rt; to[17], 0x33);
        assert_eq!(rt; to[18], 0xff);
    }

    // The compiler provides the vectors, so each length is run against the plain programs.
    #[test]
    fn kernels_give_what_the_plain_programs_give(rt: HostRuntime) {
        for length in 0..=40 {
            let counts = [
                9u16, 8, 7, 7, 5, 9, 4, 4, 4, 6, 3, 3, 2, 8, 2, 9, 1, 1, 7, 5,
            ];
            let counts = &counts[..length / 2];
            assert_eq!(rt; least(counts), plain::least(counts), "at {length}");
            let mut bytes = [0xffu8; 40];
            if length > 0 {
                bytes[length - 1] = length as u8;
            }
            let mut joined = bytes;
            let mut plainly = bytes;
            xor_into(&mut joined[..length], &[0x5a; 40][..length]);
            plain::xor_into(&mut plainly[..length], &[0x5a; 40][..length]);
            assert_eq!(rt; joined.as_slice(), plainly.as_slice(), "at {length}");
            assert_eq!(rt;
                all_ff(&bytes[..length]),
                plain::is_each(&bytes[..length], 0xff),
                "at {length}"
            );
        }
    }
}
