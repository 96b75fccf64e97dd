//! The last test of loading: the page of each entry has to be whole.
ghost use Rattle.std.specs.Prelude.{◌≡◌, ◌<◌, true, Ok, Err, IfOk, IfErr, OnOk, if◌then◌else◌};
ghost use Rattle.std.specs.FinMap.{entries};
ghost use Rattle.ft_base.specs.Layout.{blocks};
ghost use Rattle.ft_media.specs.Reads.{ReadsFlash};
ghost use Rattle.cache_model.specs.Entries.{IsMap};
ghost use Rattle.cache_model.specs.Loading.{all_whole, is_whole, Damaged as damaged};
ghost use Rattle.op_log.specs.Log.{FitsOn};
ghost use Rattle.op_log.specs.Refusals.{open_failed, open_lost, IsRefusal};
ghost use Rattle.std.specs.Vec.{vec_capacity};
ghost use Rattle.mapping.specs.Counts.{held_count};
ghost use Rattle.recovery.specs.Addresses.{HasAddresses};

use crate::finding::of_media;
use ft_base::{Geometry, Place, Spare, zero_block};
use ft_media::{Media, PageRead};
use mapping::Map;
use op_log::OpenError;
use std::alloc::{AllocError, Global};

/// Reads the page of each entry, in ascending order of address, up to the first page that isn't whole.
pub(crate) fn look_at_places<M: Media>(
    alloc: Global,
    media: &mut M,
    geometry: &Geometry,
    map: &Map,
) -> Result<(), OpenError>
    requires shape { FitsOn geometry.now (M.state media.old).contents.shape }
    requires map { IsMap geometry.now map.now.entries }
    ensures whole { OnOk result (all_whole (M.state media.old).contents.flash.page (entries map.now.entries)
        map.now.entries ≡ Ok map.now.entries) }
    ensures refused { IfErr result (λ e. IsRefusal geometry.now e
        (all_whole (M.state media.old).contents.flash.page (entries map.now.entries) map.now.entries)) }
    ensures reads { ReadsFlash (M.state media.old) (M.state media.new) (open_failed result) (open_lost result) }
{
    let mut addresses = held_addresses(alloc, map)?;
    addresses.as_mut_slice().sort_unstable();
    for lba in &addresses {
        if let Some((at, _)) = map.place(*lba) {
            look_at(media, geometry, at)?;
        }
    }
    Ok(())
}

/// The addresses of the entries, in the order of their pages, in a list that has memory for no more.
fn held_addresses(alloc: Global, map: &Map) -> Result<Vec<u64>, AllocError>
    ensures held { IfOk result (λ addresses. HasAddresses map.now.entries addresses.items) }
    ensures room { IfOk result (λ addresses. vec_capacity addresses ≡ held_count map.now.entries) }
{
    let mut addresses = Vec::with_capacity(alloc, map.held() as usize)?;
    for i in 0..map.numbers() {
        if let Some((lba, _)) = map.nth(i) {
            addresses.push_reserved(lba);
        }
    }
    Ok(addresses)
}

/// Reads a page, which must be whole.
fn look_at<M: Media>(media: &mut M, geometry: &Geometry, at: Place) -> Result<(), OpenError>
    requires shape { FitsOn geometry.now (M.state media.old).contents.shape }
    requires block { at.block < blocks geometry.now }
    requires page { at.page < geometry.now.p }
    ensures whole { OnOk result (is_whole ((M.state media.old).contents.flash.page at) ≡ true) }
    ensures refused { IfErr result (λ e. IsRefusal geometry.now e
        (if is_whole ((M.state media.old).contents.flash.page at) then Ok at else Err (damaged at))) }
    ensures reads { ReadsFlash (M.state media.old) (M.state media.new) (open_failed result) (open_lost result) }
{
    let mut block = zero_block();
    let mut spare = Spare([0; 32]);
    let found = media
        .read_page(at, &mut block, &mut spare)
        .map_err(of_media)?;
    if found != PageRead::Whole {
        return Err(OpenError::Damaged {
            block: at.block,
            page: at.page,
        });
    }
    Ok(())
}
