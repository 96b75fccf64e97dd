//! Seals, a SHA-256 in the last bytes of a page: how a page is sealed, and what its seal says of it.
ghost use Rattle.std.specs.Prelude.{◌≡◌, ◌↔◌, ◌+◌, ◌≤◌, ◌++◌, Ok, IsTrue, length, take, drop};
ghost use Rattle.ft_media.specs.declared.media.PageRead.TheVariants as read;
ghost use Rattle.ft_base.specs.declared.block.Page.TheVariants as content;
ghost use Rattle.ft_media.specs.Media.{Found, UnlessWhole};
ghost use Rattle.sealed_media.specs.Seal as spec;

use crate::RawPage;
use ft_base::{Block, Spare};
use ft_media::PageRead;
use lanes::all_ff;
use sha2::{Digest, Sha256};

/// How many bytes of a page are sealed: its block and its spare bytes.
const SEALED: usize = 4128;

/// The page of a block and its spare bytes, sealed.
pub fn seal(block: &Block, spare: &Spare) -> RawPage
    ensures page { result ≡ spec.sealed_page block.now spare.now }
    ensures sealed { spec.IsSealed result }
    ensures whole { spec.plain_page result ≡ content.Whole block.now spare.now }
{
    let mut hasher = Sha256::new();
    hasher.update(block.0.as_slice());
    hasher.update(spare.0.as_slice());
    join(block, spare, &cleared(hasher.finalize()))
}

/// The page of a block, its spare bytes and these last bytes.
pub(crate) fn join(block: &Block, spare: &Spare, last: &[u8; 32]) -> RawPage
    ensures { result ≡ spec.joined_page block.now spare.now last.now }
{
    let mut page = [0; 4160];
    put(&mut page, 0, block.0.as_slice());
    put(&mut page, 4096, spare.0.as_slice());
    put(&mut page, SEALED, last.as_slice());
    RawPage(page)
}

/// What a page is. It is whole exactly when it has its own seal, and blank exactly when each byte is 0xFF.
pub fn classify(page: &RawPage) -> PageRead
    ensures found { result ≡ spec.classified page.now }
    ensures whole { (result ≡ read.Whole) ↔ spec.IsSealed page.now }
    ensures blank { (result ≡ read.Blank) ↔ spec.IsErased page.now }
{
    if all_ff(&page.0) {
        return PageRead::Blank;
    }
    if is_sealed(page) {
        return PageRead::Whole;
    }
    PageRead::Torn
}

/// Whether the page has its own seal.
pub(crate) fn is_sealed(page: &RawPage) -> bool
    ensures sealed { IsTrue result ↔ spec.IsSealed page.now }
    ensures test { result ≡ spec.is_sealed page.now }
{
    page.0[SEALED..] == own_seal(&page.0)[..]
}

/// The seal of the sealed bytes of a page.
fn own_seal(page: &[u8; 4160]) -> [u8; 32]
    ensures { result ≡ spec.seal_of (take 4128 page.now) }
{
    seal_of(&page[..SEALED])
}

/// The seal of these bytes.
fn seal_of(bytes: &[u8]) -> [u8; 32]
    ensures { result ≡ spec.seal_of bytes.now }
{
    let mut hasher = Sha256::new();
    hasher.update(bytes);
    cleared(hasher.finalize())
}

/// A digest with its top bit cleared, so that no page of ones is sealed.
#[tactic(auto, using(crate::proofs::SealLemmas::cleared_in_place))]
fn cleared(digest: [u8; 32]) -> [u8; 32]
    ensures { result ≡ spec.top_cleared digest }
{
    let mut seal = digest;
    seal[0] &= 0x7f;
    seal
}

/// Puts these bytes from byte `at` on.
fn put(page: &mut [u8; 4160], at: usize, part: &[u8])
    requires { at + length part.now ≤ 4160 }
    ensures { page.new ≡ take at page.old ++ part.now ++ drop (at + length part.now) page.old }
{
    let place = &mut page[at..at + part.len()];
    place.copy_from_slice(part);
}

/// Says what a page is, and fills the buffers if it is whole.
pub(crate) fn take_out(page: &RawPage, block: &mut Block, spare: &mut Spare) -> PageRead
    ensures found { Found (spec.plain_page page.now) result block.new spare.new }
    ensures buffers { UnlessWhole (Ok result) ((block.new ≡ block.old) × (spare.new ≡ spare.old)) }
{
    match classify(page) {
        PageRead::Whole => {
            copy(page, 0, &mut block.0);
            copy(page, 4096, &mut spare.0);
            PageRead::Whole
        }
        PageRead::Blank => PageRead::Blank,
        PageRead::Torn => PageRead::Torn,
    }
}

/// Copies bytes of a page, from byte `at` on.
pub(crate) fn copy(page: &RawPage, at: usize, to: &mut [u8])
    requires { at + length to.old ≤ 4160 }
    ensures { to.new ≡ take (length to.old) (drop at page.now.0) }
{
    let end = at + to.len();
    to.copy_from_slice(&page.0[at..end]);
}
