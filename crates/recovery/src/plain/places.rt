//! The plain test of places: among the pages of a list, the page of each entry has to be whole.
ghost use Rattle.std.specs.Prelude.{◌≡◌, Ok, Err, IfOk, MatchOption};
ghost use Rattle.std.specs.FinMap.{entries};
ghost use Rattle.cache_model.specs.Loading as loading;
ghost use Rattle.recovery.specs.Addresses.{HasAddresses};
ghost use Rattle.recovery.specs.Plain.{page_listed};

use crate::plain::pages::{is_whole, page_at};
use ft_base::{Geometry, Page, Place};
use mapping::Map;
use std::alloc::{AllocError, Global};

/// The place of the first entry, in ascending order of address, whose page isn't whole.
pub(crate) fn first_not_whole(
    alloc: Global,
    pages: &[Page],
    geometry: &Geometry,
    map: &Map,
) -> Result<Option<Place>, AllocError>
    ensures { IfOk result (λ damaged. MatchOption damaged
        (loading.all_whole (page_listed geometry.now pages.now) (entries map.now.entries) map.now.entries ≡ Ok map.now.entries)
        (λ at. loading.all_whole (page_listed geometry.now pages.now) (entries map.now.entries) map.now.entries
        ≡ Err (loading.Damaged at))) }
{
    let mut addresses = addresses_in(alloc, map)?;
    addresses.as_mut_slice().sort_unstable();
    for lba in &addresses {
        if let Some((at, _)) = map.place(*lba) {
            if !is_whole(&page_at(pages, geometry, at)) {
                return Ok(Some(at));
            }
        }
    }
    Ok(None)
}

/// The addresses of a map, in the order of their pages.
fn addresses_in(alloc: Global, map: &Map) -> Result<Vec<u64>, AllocError>
    ensures { IfOk result (λ addresses. HasAddresses map.now.entries addresses.items) }
{
    let mut addresses = Vec::new(alloc);
    for i in 0..map.numbers() {
        if let Some((lba, _)) = map.nth(i) {
            addresses.push(lba)?;
        }
    }
    Ok(addresses)
}
