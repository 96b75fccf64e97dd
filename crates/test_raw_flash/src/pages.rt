//! Raw pages and their meaning: all ones, sealed, and sealed with one bit flipped.

use ft_base::{Block, Page, Spare, is_same, pattern, zero_block};
use ft_media::PageRead;
use sealed_media::plain::page_of;
use sealed_media::{RawPage, classify, seal};

/// The block of this tag.
fn tagged(number: u64) -> Block {
    let mut block = zero_block();
    pattern(5, number, &mut block);
    block
}

/// The page of this tag, sealed, with the bits of a byte flipped.
fn flipped(number: u64, byte: usize, bits: u8) -> RawPage {
    let mut page = seal(&tagged(number), &Spare([3; 32]));
    if byte < 4160 {
        page.0[byte] ^= bits;
    }
    page
}

#[test]
fn a_page_of_ones_is_blank(rt: HostRuntime) {
    let ones = RawPage([0xff; 4160]);
    assert_eq!(rt; classify(&ones), PageRead::Blank);
    assert!(rt; matches!(page_of(&ones), Page::Blank));
    for byte in [0, 4095, 4096, 4127, 4128, 4159] {
        let mut other = ones;
        other.0[byte] = 0xfe;
        assert_eq!(rt; classify(&other), PageRead::Torn, "byte {byte}");
    }
}

#[test]
fn a_sealed_page_is_whole(rt: HostRuntime) {
    for number in [1, 2, 77] {
        let page = seal(&tagged(number), &Spare([3; 32]));
        assert_eq!(rt; classify(&page), PageRead::Whole);
        // The top bit of a seal is never set.
        assert!(rt; page.0[4128] < 128);
        match page_of(&page) {
            Page::Whole(block, spare) => {
                assert!(rt; is_same(&block, &tagged(number)));
                assert_eq!(rt; spare.0, [3; 32]);
            }
            _ => assert!(rt; false, "no whole page"),
        }
    }
}

#[test]
fn one_bit_more_or_less_is_torn(rt: HostRuntime) {
    for byte in [0, 1, 4095, 4096, 4127, 4128, 4159] {
        for bits in [1, 0x80] {
            let page = flipped(1, byte, bits);
            assert_eq!(rt; classify(&page), PageRead::Torn, "byte {byte}");
            assert!(rt; matches!(page_of(&page), Page::Torn));
        }
    }
    assert_eq!(rt; classify(&flipped(1, 0, 0)), PageRead::Whole);
    assert_eq!(rt; classify(&RawPage([0; 4160])), PageRead::Torn);
}
