//! The plain choice of a checkpoint: both regions of a list of pages are searched, and the later complete one counts.
ghost use Rattle.std.specs.Prelude.{◌≡◌, ◌<◌, option_map};
ghost use Rattle.cache_model.specs.Loading as loading;
ghost use Rattle.recovery.specs.Plain.{page_listed, complete_of, complete_in, named};

use crate::plain::pages::{Stamp, header_at, page_at, seal_at, stamp_in};
use cache_model::{PageKind, Seal, Totals};
use ft_base::{Geometry, Page};

/// A complete checkpoint.
#[derive(Clone, Copy, Debug, PartialEq, Eq)]
pub(crate) struct Sealed {
    /// Its format and its era.
    pub(crate) stamp: Stamp,
    /// How many map pages it has.
    pub(crate) pages: u32,
    /// The numbers of its seal.
    pub(crate) seal: Seal,
    /// Its totals, if its seal has any.
    pub(crate) totals: Option<Totals>,
}

/// The region that counts, and its checkpoint.
pub(crate) fn newest(pages: &[Page], geometry: &Geometry) -> Option<(u32, Sealed)>
    ensures { option_map complete_in result ≡ loading.newest geometry.now (page_listed geometry.now pages.now) }
{
    let first = checkpoint_in(pages, geometry, 0);
    let second = checkpoint_in(pages, geometry, 1);
    chosen(first, second)
}

/// The later of two checkpoints, or the only one.
fn chosen(first: Option<Sealed>, second: Option<Sealed>) -> Option<(u32, Sealed)>
    ensures { option_map complete_in result ≡ loading.chosen (option_map complete_of first) (option_map complete_of second) }
{
    let Some(zero) = first else {
        return second.map(|one| (1, one));
    };
    let Some(one) = second else {
        return Some((0, zero));
    };
    if u32::from(one.stamp.era) == (u32::from(zero.stamp.era) + 1) % 3 {
        return Some((1, one));
    }
    Some((0, zero))
}

/// The checkpoint of a region, if it is complete.
fn checkpoint_in(pages: &[Page], geometry: &Geometry, region: u32) -> Option<Sealed>
    requires { region < 2 }
    ensures { option_map complete_of result ≡ loading.checkpoint_in
        (loading.checkpoint_region geometry.now (page_listed geometry.now pages.now) region) }
{
    let first = page_at(pages, geometry, geometry.checkpoint_at(region, 0));
    let stamp = stamp_in(&first)?;
    sealed_from(pages, geometry, region, stamp)
}

/// The checkpoint of this stamp in a region: map pages, and then their seal.
fn sealed_from(pages: &[Page], geometry: &Geometry, region: u32, stamp: Stamp) -> Option<Sealed>
    requires { region < 2 }
    ensures { option_map complete_of result ≡ loading.sealed_from (named stamp) 0 0
        (loading.checkpoint_region geometry.now (page_listed geometry.now pages.now) region) }
{
    let mut count = 0;
    for i in 0..geometry.k() * geometry.p {
        let page = page_at(pages, geometry, geometry.checkpoint_at(region, i));
        if let Some((seal, totals)) = seal_at(&page, stamp, i, count) {
            return Some(Sealed {
                stamp,
                pages: i,
                seal,
                totals,
            });
        }
        let header = header_at(&page, PageKind::Map, stamp, i)?;
        count += header.count;
    }
    None
}
