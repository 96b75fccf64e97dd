//! Loading: a checkpoint and its log are applied to an empty map, and then the page of each entry is looked at.
ghost use Rattle.std.specs.Prelude.{◌≡◌, ◌<◌, ◌≤◌, Ok, IfOk, IfErr, OnOk};
ghost use Rattle.std.specs.FinMap.{entries};
ghost use Rattle.ft_base.specs.Layout.{checkpoint_at, checkpoint_pages};
ghost use Rattle.ft_media.specs.Reads.{ReadsFlash};
ghost use Rattle.cache_model.specs.declared.format.PageKind.TheVariants.{Map as map_page};
ghost use Rattle.cache_model.specs.Records.{no_entries};
ghost use Rattle.cache_model.specs.Loading.{after_pages, are_totals, load, pages_from, replayed};
ghost use Rattle.mapping.specs.Room.{KeepsFewBuckets};
ghost use Rattle.op_log.specs.Log.{FitsOn};
ghost use Rattle.op_log.specs.Stamps.{stamped};
ghost use Rattle.op_log.specs.Refusals.{open_failed, open_lost, IsRefusal};
ghost use Rattle.checkpoint.specs.Found.{found_in};
ghost use Rattle.recovery.specs.Loaded.{IsLoaded};

use crate::finding::find_checkpoint;
use crate::places::look_at_places;
use cache_model::{PageKind, Totals};
use checkpoint::Newest;
use ft_base::Geometry;
use ft_media::Media;
use mapping::Map;
use op_log::{Expected, OpenError, Stamp, apply_page, roll};
use std::alloc::Global;

/// The map for which the flash stands, with the region and the era of its checkpoint.
#[derive(Drop)]
pub struct Loaded {
    /// The map.
    pub map: Map,
    /// The region of the checkpoint that counts, 0 or 1.
    pub region: u32,
    /// The era of that checkpoint, 0 to 2.
    pub era: u8,
}

/// Loads the map from the flash: the newest checkpoint, of either format, its log, and a look at each entry's page. It
/// writes nothing. Its time grows with the pages that it reads, with P for each of their records, and with the pages of
/// the pool. It also sorts the held addresses once.
pub fn load<M: Media>(
    alloc: Global,
    media: &mut M,
    geometry: &Geometry,
) -> Result<Loaded, OpenError>
    requires shape { FitsOn geometry.now (M.state media.old).contents.shape }
    ensures loaded { IfOk result (IsLoaded geometry.now (M.state media.old).contents.flash.page) }
    ensures refused { IfErr result (λ e. IsRefusal geometry.now e (load geometry.now (M.state media.old).contents.flash.page)) }
    ensures reads { ReadsFlash (M.state media.old) (M.state media.new) (open_failed result) (open_lost result) }
{
    let newest = find_checkpoint(media, geometry)?;
    let mut map = Map::new(alloc, geometry)?;
    replay(media, geometry, &newest, &mut map)?;
    look_at_places(alloc, media, geometry, &map)?;
    Ok(Loaded {
        map,
        region: newest.region,
        era: newest.era,
    })
}

/// Applies a checkpoint and then its log to an empty map. Between the two the entries are counted, if the
/// seal says how many there are.
fn replay<M: Media>(
    media: &mut M,
    geometry: &Geometry,
    newest: &Newest,
    map: &mut Map,
) -> Result<(), OpenError>
    requires shape { FitsOn geometry.now (M.state media.old).contents.shape }
    requires region { newest.now.region < 2 }
    requires pages { newest.now.pages < checkpoint_pages geometry.now }
    requires map { map.old.geometry ≡ geometry.now }
    requires nothing { map.old.entries ≡ no_entries }
    ensures geometry { map.new.geometry ≡ map.old.geometry }
    ensures few { OnOk result (KeepsFewBuckets map.old map.new) }
    ensures replayed { OnOk result (replayed geometry.now (M.state media.old).contents.flash.page
        (found_in newest.now) ≡ Ok map.new.entries) }
    ensures refused { IfErr result (λ e. IsRefusal geometry.now e
        (replayed geometry.now (M.state media.old).contents.flash.page (found_in newest.now))) }
    ensures reads { ReadsFlash (M.state media.old) (M.state media.new) (open_failed result) (open_lost result) }
{
    apply_maps(media, geometry, newest, map)?;
    if !has_totals(&newest.totals, map) {
        let seal = geometry.checkpoint_at(newest.region, newest.pages);
        return Err(OpenError::Damaged {
            block: seal.block,
            page: seal.page,
        });
    }
    roll(
        media,
        geometry,
        newest.region,
        newest.era,
        newest.format,
        map,
    )?;
    Ok(())
}

/// Whether the map has as many entries, and as many dirty ones, as the totals say. Format 1 has no totals.
fn has_totals(totals: &Option<Totals>, map: &Map) -> bool
    ensures { result ≡ are_totals totals.now map.now.entries }
{
    match *totals {
        None => true,
        Some(told) => told.entries == map.held() && told.dirty == map.dirty_entries(),
    }
}

/// Applies the map pages of a checkpoint.
fn apply_maps<M: Media>(
    media: &mut M,
    geometry: &Geometry,
    newest: &Newest,
    map: &mut Map,
) -> Result<(), OpenError>
    requires shape { FitsOn geometry.now (M.state media.old).contents.shape }
    requires region { newest.now.region < 2 }
    requires pages { newest.now.pages ≤ checkpoint_pages geometry.now }
    requires map { map.old.geometry ≡ geometry.now }
    ensures geometry { map.new.geometry ≡ map.old.geometry }
    ensures few { OnOk result (KeepsFewBuckets map.old map.new) }
    ensures applied { OnOk result (after_pages geometry.now map_page (stamped newest.now.format newest.now.era) (checkpoint_at geometry.now newest.now.region) 0
        (pages_from (M.state media.old).contents.flash.page (checkpoint_at geometry.now newest.now.region) 0 newest.now.pages)
        map.old.entries ≡ Ok map.new.entries) }
    ensures refused { IfErr result (λ e. IsRefusal geometry.now e
        (after_pages geometry.now map_page (stamped newest.now.format newest.now.era) (checkpoint_at geometry.now newest.now.region) 0
        (pages_from (M.state media.old).contents.flash.page (checkpoint_at geometry.now newest.now.region) 0 newest.now.pages)
        map.old.entries)) }
    ensures reads { ReadsFlash (M.state media.old) (M.state media.new) (open_failed result) (open_lost result) }
{
    let stamp = Stamp {
        format: newest.format,
        era: newest.era,
    };
    for i in 0..newest.pages {
        let at = geometry.checkpoint_at(newest.region, i);
        let expected = Expected {
            kind: PageKind::Map,
            stamp,
            sequence: i,
        };
        if !apply_page(media, geometry, at, expected, map)? {
            return Ok(());
        }
    }
    Ok(())
}
