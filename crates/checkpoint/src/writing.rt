//! The device writes of a checkpoint, in their order: erases, map pages, and the seal last.
ghost use Rattle.std.specs.Prelude.{true, ◌≡◌, ◌⊎◌, ◌<◌, ◌≤◌, ◌+◌, ◌*◌, ◌^◌, length, OnOk};
ghost use Rattle.std.specs.List.{list_all};
ghost use Rattle.ft_base.specs.Layout.{checkpoint_at, checkpoint_pages, k, page_records, rounded_up};
ghost use Rattle.ft_media.specs.Media.{IsNextPage, program_counted};
ghost use Rattle.ft_media.specs.Drives.{OnlyDrives};
ghost use Rattle.cache_model.specs.declared.format.PageKind.TheVariants as PageKind;
ghost use Rattle.cache_model.specs.Entries.{IsMap};
ghost use Rattle.cache_model.specs.Spelling.{is_wide, may_stand_in};
ghost use Rattle.mapping.specs.Checkpoint.{IsCheckpointOf};
ghost use Rattle.op_log.specs.Log.{FitsOn};
ghost use Rattle.checkpoint.specs.Asked.{asked_records};
ghost use Rattle.checkpoint.specs.Counts.{checkpoint_counted, programs_counted};
ghost use Rattle.ft_media.specs.Passes.{ProgramsPages};
ghost use Rattle.checkpoint.specs.Regions.{AreBlank, CanProgram, IsMapPage, IsSealPage, Programmed, LeavesOne, MapsWritten, LeavesMaps, IsUnsealed, IsSealed, IsWritten, map_pages, totals_of};

use crate::asking::{ask, records_of};
use crate::erasing::erase_regions;
use crate::pages::{write_map, write_numbers};
use cache_model::{SpareKind, Totals};
use ft_base::{Block, Geometry, Record};
use ft_media::{Media, MediaError};
use mapping::Map;
use page_oob::write_spare;

/// The region to which a checkpoint of a cache goes, and its era.
#[derive(Clone, Copy, Debug, PartialEq, Eq)]
pub(crate) struct Target {
    /// The numbers of the cache.
    pub(crate) geometry: Geometry,
    /// The region, 0 or 1.
    pub(crate) region: u32,
    /// The era, 0 to 2.
    pub(crate) era: u8,
    ghost one_of_two: { region < 2 },
    ghost one_of_three: { era ≤ 2 },
}

/// Programs a map page of a checkpoint, of these records.
#[tactic(auto, using(op_log::proofs::PageLemmas::records_fit))]
fn program_map<M: Media>(
    media: &mut M,
    page: &mut Block,
    target: &Target,
    sequence: u32,
    records: &[Record],
) -> Result<(), MediaError>
    requires shape { FitsOn target.now.geometry (M.state media.old).contents.shape }
    requires kinds { list_all (may_stand_in (is_wide 2 target.now.geometry.p) PageKind.Map) records.now ≡ true }
    requires some { 1 ≤ length records.now }
    requires few { length records.now ≤ page_records target.now.geometry }
    requires room { sequence < checkpoint_pages target.now.geometry }
    requires ready { IsNextPage (checkpoint_at target.now.geometry target.now.region sequence) (M.state media.old).contents.flash }
    ensures done { OnOk result (Programmed (IsMapPage target.now.geometry target.now.era sequence records.now)
        (checkpoint_at target.now.geometry target.now.region sequence) (M.state media.old).contents.flash (M.state media.new).contents.flash) }
    ensures counts { OnOk result ((M.state media.new).counts ≡ program_counted (M.state media.old).counts) }
    ensures pages { LeavesOne (IsMapPage target.now.geometry target.now.era sequence records.now)
        (checkpoint_at target.now.geometry target.now.region sequence) (M.state media.old).contents.flash (M.state media.new).contents.flash }
    ensures programs { OnOk result (ProgramsPages 1 (M.state media.old) (M.state media.new)) }
    ensures drives { OnlyDrives (M.state media.old) (M.state media.new) result }
{
    write_map(page, target.geometry.p, records, target.era, sequence);
    let at = target.geometry.checkpoint_at(target.region, sequence);
    let spare = write_spare(SpareKind::Map, target.era, sequence as u64);
    media.program(at, page, &spare)?;
    Ok(())
}

/// Programs `pages` map pages of a checkpoint, in order.
fn program_maps<M: Media>(
    media: &mut M,
    page: &mut Block,
    asked: &mut [Record],
    map: &Map,
    target: &Target,
    pages: u32,
) -> Result<(), MediaError>
    requires can { CanProgram target.now.geometry map.now (M.state media.old).contents }
    requires all { pages ≡ map_pages target.now.geometry map.now.records }
    requires room { pages < checkpoint_pages target.now.geometry }
    requires blank { AreBlank (target.now.region * k target.now.geometry) (k target.now.geometry) (M.state media.old).contents.flash }
    requires asked { length asked.old ≡ asked_records target.now.geometry }
    ensures asked { length asked.new ≡ asked_records target.now.geometry }
    ensures done { OnOk result (MapsWritten target.now.geometry target.now.region target.now.era map.now.records pages
        (M.state media.old).contents.flash (M.state media.new).contents.flash) }
    ensures counts { OnOk result ((M.state media.new).counts ≡ programs_counted pages (M.state media.old).counts) }
    ensures pages { LeavesMaps target.now.geometry target.now.region (M.state media.old).contents.flash.page
        (M.state media.new).contents.flash.page }
    ensures drives { OnlyDrives (M.state media.old) (M.state media.new) result }
{
    for sequence in 0..pages {
        ask(&target.geometry, map, asked, sequence);
        let records = records_of(&target.geometry, map, asked, sequence);
        program_map(media, page, target, sequence, records)?;
    }
    Ok(())
}

/// Programs the seal of a checkpoint, over `pages` map pages with `records` records, with the totals of their entries.
pub(crate) fn program_seal<M: Media>(
    media: &mut M,
    page: &mut Block,
    target: &Target,
    pages: u32,
    records: u32,
    totals: &Totals,
) -> Result<(), MediaError>
    requires shape { FitsOn target.now.geometry (M.state media.old).contents.shape }
    requires room { pages < checkpoint_pages target.now.geometry }
    requires ready { IsNextPage (checkpoint_at target.now.geometry target.now.region pages) (M.state media.old).contents.flash }
    ensures done { OnOk result (Programmed (IsSealPage target.now.geometry totals.now target.now.era pages records)
        (checkpoint_at target.now.geometry target.now.region pages) (M.state media.old).contents.flash (M.state media.new).contents.flash) }
    ensures counts { OnOk result ((M.state media.new).counts ≡ program_counted (M.state media.old).counts) }
    ensures pages { LeavesOne (IsSealPage target.now.geometry totals.now target.now.era pages records) (checkpoint_at target.now.geometry target.now.region pages)
        (M.state media.old).contents.flash (M.state media.new).contents.flash }
    ensures programs { OnOk result (ProgramsPages 1 (M.state media.old) (M.state media.new)) }
    ensures drives { OnlyDrives (M.state media.old) (M.state media.new) result }
{
    write_numbers(page, &target.geometry, target.era, pages, records, totals);
    let at = target.geometry.checkpoint_at(target.region, pages);
    let spare = write_spare(SpareKind::Seal, target.era, pages as u64);
    media.program(at, page, &spare)?;
    Ok(())
}

/// How many map pages this many records take.
fn page_count(geometry: &Geometry, records: u32) -> u32
    requires { records < 2 ^ 31 }
    ensures { result ≡ rounded_up records (page_records geometry.now) }
{
    let full = geometry.q();
    (records + full - 1) / full
}

/// How many entries a map has, and how many dirty ones.
fn totals_of(map: &Map) -> Totals
    ensures { result ≡ totals_of map.now.entries }
{
    Totals {
        entries: map.held(),
        dirty: map.dirty_entries(),
    }
}

/// Erases a checkpoint region and its log, programs the map and seals it.
pub(crate) fn write_checkpoint<M: Media>(
    media: &mut M,
    page: &mut Block,
    asked: &mut [Record],
    map: &Map,
    target: &Target,
) -> Result<(), MediaError>
    requires shape { FitsOn target.now.geometry (M.state media.old).contents.shape }
    requires map { map.now.geometry ≡ target.now.geometry }
    requires is_map { IsMap target.now.geometry map.now.entries }
    requires asked { length asked.old ≡ asked_records target.now.geometry }
    ensures asked { length asked.new ≡ asked_records target.now.geometry }
    ensures listing { IsCheckpointOf target.now.geometry map.now.entries map.now.records }
    ensures done { OnOk result (IsWritten target.now.geometry target.now.region target.now.era map.now.records (totals_of map.now.entries)
        (M.state media.old).contents.flash (M.state media.new).contents.flash) }
    ensures counts { OnOk result ((M.state media.new).counts ≡ checkpoint_counted target.now.geometry (map_pages target.now.geometry map.now.records)
        (M.state media.old).counts) }
    ensures pages { IsUnsealed target.now.geometry target.now.region (M.state media.old).contents.flash.page
        (M.state media.new).contents.flash.page
        ⊎ IsSealed target.now.geometry target.now.region target.now.era map.now.records (totals_of map.now.entries)
        (M.state media.old).contents.flash.page (M.state media.new).contents.flash.page }
    ensures programs { OnOk result (ProgramsPages 1 (M.state media.old) (M.state media.new)) }
    ensures drives { OnlyDrives (M.state media.old) (M.state media.new) result }
{
    let records = map.checkpoint_len();
    let pages = page_count(&target.geometry, records);
    let totals = totals_of(map);
    erase_regions(media, &target.geometry, target.region)?;
    program_maps(media, page, asked, map, target, pages)?;
    // The seal comes last: until it is whole, the old checkpoint counts.
    program_seal(media, page, target, pages, records, &totals)?;
    Ok(())
}
