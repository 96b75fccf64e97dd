//! Bytes and big-endian numbers of a page, put in and read byte by byte. Behind the page all is zero.

use ft_base::Block;

/// Puts bytes into a page, from byte `at` on. Bytes that would lie behind the page are left out.
pub(crate) fn put(page: &mut Block, at: usize, bytes: &[u8]) {
    for (i, byte) in bytes.iter().enumerate() {
        let place = at.saturating_add(i);
        if place < 4096 {
            page.0[place] = *byte;
        }
    }
}

/// A byte of a page, or zero behind it.
pub(crate) fn byte(page: &Block, at: usize) -> u8 {
    if at < 4096 { page.0[at] } else { 0 }
}

/// The number in four bytes of a page, from byte `at` on, the greatest byte first.
pub(crate) fn u32_at(page: &Block, at: usize) -> u32 {
    let mut value: u32 = 0;
    for i in 0..4 {
        let next = byte(page, at.saturating_add(i));
        value = value.wrapping_mul(256).wrapping_add(u32::from(next));
    }
    value
}

/// The number in eight bytes of a page, from byte `at` on, the greatest byte first.
pub(crate) fn u64_at(page: &Block, at: usize) -> u64 {
    let mut value: u64 = 0;
    for i in 0..8 {
        let next = byte(page, at.saturating_add(i));
        value = value.wrapping_mul(256).wrapping_add(u64::from(next));
    }
    value
}

/// The number in sixteen bytes of a page, from byte `at` on, the greatest byte first.
pub(crate) fn u128_at(page: &Block, at: usize) -> u128 {
    let mut value: u128 = 0;
    for i in 0..16 {
        let next = byte(page, at.saturating_add(i));
        value = value.wrapping_mul(256).wrapping_add(u128::from(next));
    }
    value
}

/// Whether the bytes of a page from `from` on and before `end` are zero.
pub(crate) fn are_zero(page: &Block, from: usize, end: usize) -> bool {
    for at in from..end {
        if byte(page, at) != 0 {
            return false;
        }
    }
    true
}
