//! A second program for loading, over a list of pages: as plain as the definition, and as slow.
//!
//! It shares only the codecs, the layout of `Geometry` and `Map` with `load`, so that the two can be compared.

ghost use Rattle.std.specs.Prelude.{IfOk};
ghost use Rattle.cache_model.specs.Loading.{load};
ghost use Rattle.recovery.specs.Plain.{page_listed, IsPlainLoad};

mod applying;
mod pages;
mod places;
mod regions;

use crate::plain::applying::replay;
use crate::plain::pages::is_wanted;
use crate::plain::places::first_not_whole;
use crate::plain::regions::newest;
use cache_model::Seal;
use ft_base::{Geometry, Page, Place};
use mapping::Map;
use std::alloc::{AllocError, Global};

/// The result of loading a flash.
#[derive(Drop)]
pub enum PlainLoad {
    /// The map for which the flash stands.
    Loaded(Map),
    /// No checkpoint on the flash is complete.
    NotFormatted,
    /// The newest checkpoint was made for these numbers, and not for the wanted ones.
    OtherGeometry(Seal),
    /// This page is damaged. Its records can't be read or don't fit; or it is a seal, and there are more or fewer
    /// entries than it says. Or it is the page of an entry, and isn't whole.
    Damaged(Place),
}

/// Loads the map from the pages of a flash. The list has the pages of each erase block in turn, and all pages behind
/// the list are blank.
pub fn plain_load(
    alloc: Global,
    geometry: &Geometry,
    pages: &[Page],
) -> Result<PlainLoad, AllocError>
    ensures { IfOk result (λ loaded. IsPlainLoad geometry.now loaded (load geometry.now (page_listed geometry.now pages.now))) }
{
    let Some((region, sealed)) = newest(pages, geometry) else {
        return Ok(PlainLoad::NotFormatted);
    };
    if !is_wanted(geometry, &sealed.seal) {
        return Ok(PlainLoad::OtherGeometry(sealed.seal));
    }
    let mut map = Map::new(alloc, geometry)?;
    if let Some(at) = replay(pages, geometry, region, &sealed, &mut map)? {
        return Ok(PlainLoad::Damaged(at));
    }
    if let Some(at) = first_not_whole(alloc, pages, geometry, &map)? {
        return Ok(PlainLoad::Damaged(at));
    }
    Ok(PlainLoad::Loaded(map))
}
