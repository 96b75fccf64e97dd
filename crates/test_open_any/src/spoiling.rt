//! Pages that are spoiled: a byte of a header, of a record or of the spare bytes, a page that is torn, blank or another
//! one, and regions that are swapped.

ghost use Rattle.std.specs.Prelude.{◌<◌, ◌≤◌};

use crate::flash::PAGES;
use ft_base::{Block, Geometry, Page, Spare, zero_block};
use rand_core::utils::NextWord;
use rand_pcg::Lcg64Xsh32;

/// A byte at random.
fn byte(words: &mut Lcg64Xsh32) -> u8 {
    (words.next_word() % 256) as u8
}

/// A small number at random.
fn small(words: &mut Lcg64Xsh32) -> u8
    ensures { result < 5 }
{
    (words.next_word() % 5) as u8
}

/// A number below an end, or zero.
fn below(words: &mut Lcg64Xsh32, end: u32) -> usize
    ensures { result ≤ end }
{
    if end == 0 {
        return 0;
    }
    (words.next_word() % end) as usize
}

/// A page of a checkpoint or of a log.
fn region_page(geometry: &Geometry, words: &mut Lcg64Xsh32) -> usize {
    let block = below(words, geometry.first_pool());
    let page = below(words, PAGES) & below(words, PAGES);
    block.saturating_mul(4).saturating_add(page)
}

fn set_byte(pages: &mut [Page], number: usize, at: usize, value: u8) {
    if number >= pages.len() || at >= 4096 {
        return;
    }
    if let Page::Whole(block, _) = &mut pages[number] {
        block.0[at] = value;
    }
}

fn set_spare_byte(pages: &mut [Page], number: usize, at: usize, value: u8) {
    if number >= pages.len() || at >= 32 {
        return;
    }
    if let Page::Whole(_, spare) = &mut pages[number] {
        spare.0[at] = value;
    }
}

fn set_page(pages: &mut [Page], number: usize, page: &Page) {
    if number < pages.len() {
        pages[number] = *page;
    }
}

/// Puts the page of a number in another list in the place of one.
fn take_over(pages: &mut [Page], number: usize, others: &[Page], other: usize) {
    if other < others.len() {
        set_page(pages, number, &others[other]);
    }
}

fn swap(pages: &mut [Page], one: usize, other: usize) {
    if one < pages.len() && other < pages.len() {
        let page = pages[one];
        pages[one] = pages[other];
        pages[other] = page;
    }
}

/// Swaps the pages of two erase blocks.
fn swap_blocks(pages: &mut [Page], one: usize, other: usize) {
    for page in 0..4 {
        let first = one.saturating_mul(4).saturating_add(page);
        let second = other.saturating_mul(4).saturating_add(page);
        swap(pages, first, second);
    }
}

/// Spoils a field of a header: the magic, the format, the kind, the era, the sequence, the count, or a byte that is
/// zero.
fn spoil_header(pages: &mut [Page], number: usize, words: &mut Lcg64Xsh32) {
    let value = small(words);
    match words.next_word() % 7 {
        0 => set_byte(pages, number, below(words, 8), byte(words)),
        1 => set_byte(pages, number, 8, value),
        2 => set_byte(pages, number, 9, value),
        3 => set_byte(pages, number, 10, value),
        4 => set_byte(pages, number, 15, value),
        5 => set_byte(pages, number, 19, value),
        _ => set_byte(pages, number, 20 + below(words, 12), value),
    }
}

/// Spoils a byte of the first three records or of the numbers of a seal, or one behind them.
fn spoil_record(pages: &mut [Page], number: usize, words: &mut Lcg64Xsh32) {
    let value = small(words);
    match words.next_word() % 8 {
        0 => set_byte(pages, number, 32 + below(words, 96), byte(words)),
        1 => set_byte(pages, number, below(words, 4096), value),
        // The kind of a record, and its marks.
        2 => set_byte(
            pages,
            number,
            32 + 32 * below(words, 3) + below(words, 3),
            value,
        ),
        // The last byte of its erase block.
        3 => set_byte(pages, number, 39 + 32 * below(words, 3), 4 + value),
        // The last byte of its address.
        4 => set_byte(pages, number, 47 + 32 * below(words, 3), value),
        // The last bytes of its two sets, or of the entries that a seal counts.
        5 => set_byte(pages, number, 55 + 32 * below(words, 3), value),
        6 => set_byte(pages, number, 63 + 32 * below(words, 3), value),
        _ => set_byte(pages, number, 32 + below(words, 64), value),
    }
}

/// Spoils a whole page, or two regions.
fn spoil_pages(pages: &mut [Page], geometry: &Geometry, others: &[Page], words: &mut Lcg64Xsh32) {
    let number = region_page(geometry, words);
    let all = geometry.blocks().saturating_mul(PAGES);
    match words.next_word() % 8 {
        0 => set_page(pages, number, &Page::Torn),
        1 => set_page(pages, number, &Page::Blank),
        2 => set_page(pages, below(words, all), &Page::Torn),
        3 => set_page(pages, below(words, all), &Page::Blank),
        // A page of another checkpoint or log.
        4 => take_over(pages, number, others, number),
        5 => take_over(pages, number, others, region_page(geometry, words)),
        6 => swap(pages, number, region_page(geometry, words)),
        // Checkpoint regions of one erase block each, and the logs behind them.
        _ => swap_blocks(pages, 0, 1 + below(words, 3)),
    }
}

/// Spoils one thing.
pub(crate) fn spoil(
    pages: &mut [Page],
    geometry: &Geometry,
    others: &[Page],
    words: &mut Lcg64Xsh32,
) {
    let number = region_page(geometry, words);
    let all = geometry.blocks().saturating_mul(PAGES);
    match words.next_word() % 8 {
        0 | 1 | 2 => spoil_header(pages, number, words),
        3 | 4 | 5 => spoil_record(pages, number, words),
        6 => set_spare_byte(pages, below(words, all), below(words, 32), byte(words)),
        _ => spoil_pages(pages, geometry, others, words),
    }
}

/// A block of bytes at random.
fn random_block(words: &mut Lcg64Xsh32) -> Block {
    let mut block = zero_block();
    for value in block.0.iter_mut() {
        *value = byte(words);
    }
    block
}

/// Makes a page blank, torn, or one of random bytes.
fn random_page(words: &mut Lcg64Xsh32) -> Page {
    match words.next_word() % 4 {
        0 => Page::Blank,
        1 => Page::Torn,
        _ => Page::Whole(random_block(words), Spare([byte(words); 32])),
    }
}

/// Makes each page a random one.
pub(crate) fn make_random(pages: &mut [Page], words: &mut Lcg64Xsh32) {
    for page in pages.iter_mut() {
        *page = random_page(words);
    }
}

/// Makes each page blank.
pub(crate) fn make_blank(pages: &mut [Page]) {
    for page in pages.iter_mut() {
        *page = Page::Blank;
    }
}
