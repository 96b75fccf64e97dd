//! Bytes for torn pages, drawn at random from a number and a place, and never sealed.
ghost use Rattle.std.specs.Prelude.{◌≡◌};
ghost use Rattle.sealed_media.specs.Seal as page;
ghost use Rattle.sealed_media.specs.Tearing as spec;

use crate::RawPage;
use crate::sealing::is_sealed;
use ft_base::Place;
use rand_core::SeedableRng;
use rand_core::utils::fill_bytes_via_u32;
use rand_pcg::Lcg64Xsh32;

/// The bytes of the page at this place if it is torn. They are never sealed.
pub(crate) fn tear(number: u64, at: Place) -> RawPage
    ensures { result ≡ spec.torn_page number at }
{
    let drawn = draw(number, at);
    if is_sealed(&drawn) {
        return erased();
    }
    drawn
}

/// The bytes that are drawn for the page at this place.
fn draw(number: u64, at: Place) -> RawPage
    ensures { result ≡ spec.drawn_page number at }
{
    let mut bytes = [0; 4160];
    let mut words = Lcg64Xsh32::seed_from_u64(seed_at(number, at));
    fill_bytes_via_u32(&mut words, &mut bytes);
    RawPage(bytes)
}

/// The number from which the page at this place is drawn.
fn seed_at(number: u64, at: Place) -> u64
    ensures { result ≡ spec.seed_at number at }
{
    let place = u64::from(at.block) * 0x1_0000_0000 + u64::from(at.page);
    number.wrapping_add(place)
}

/// A page as an erase leaves it.
#[tactic(auto, unfolding(crate::specs::Seal::ones_page))]
pub(crate) fn erased() -> RawPage
    ensures { result ≡ page.erased_page }
{
    RawPage([0xff; 4160])
}
