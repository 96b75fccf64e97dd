//! The pages of a group are copied into one erase block.
ghost use Rattle.std.specs.Prelude.{◌≡◌, ◌<◌, ◌+◌, ◌*◌, [], ℕ, true, Some, IfSome, IfNone, OnOk, option_map};
ghost use Rattle.std.specs.FinMap.{get};
ghost use Rattle.ft_base.specs.declared.block.Place.{Place as PlaceValue};
ghost use Rattle.ft_base.specs.declared.block.Page.TheVariants.{Whole};
ghost use Rattle.ft_base.specs.Contents as contents;
ghost use Rattle.ft_media.specs.Media.{after_program, program_counted};
ghost use Rattle.ft_media.specs.Drives.{OnlyDrives};
ghost use Rattle.cache_model.specs.declared.entry.Entry.{Entry};
ghost use Rattle.cache_model.specs.CacheList.{CacheList};
ghost use Rattle.cache_model.specs.Entries.{IsMap};
ghost use Rattle.cache_model.specs.Loading.{is_whole};
ghost use Rattle.mapping.specs.Counts.{Owns};
ghost use Rattle.mapping.specs.Bits.{IsBlockOf};
ghost use Rattle.checkpoint.specs.Counts.{programs_counted};
ghost use Rattle.block_pool.specs.Pool.{IsFree};
ghost use Rattle.merge_engine.specs.Agreement.{PartsAgree, Lists};
ghost use Rattle.merge_engine.specs.Merges.{ReachesTo};
ghost use Rattle.merge_engine.specs.Steps.{IsCopied, IsCopyOf, IsFilledUp, IsNextFreePage, filler_page};

use crate::Parts;
use block_map::BlockAt;
use cache_model::SpareKind;
use ft_base::{Block, Place, Spare, zero_block};
use ft_media::{Media, MediaError, PageRead};
use page_oob::write_spare;

/// Copies each held address of a group to its own page of an erased block, up to the last of them. The
/// pages in between are fillers.
pub(crate) fn copy_group<M: Media>(
    cache: &Parts,
    media: &mut M,
    group: u64,
    block: u32,
) -> Result<(), MediaError>
    requires agree { PartsAgree cache.now (M.state media.old).contents }
    requires nothing { cache.now.log.buffered ≡ [] }
    requires free { IsFree cache.now.pool block }
    requires erased { (M.state media.old).contents.flash.next block ≡ Some 0 }
    ensures agree { OnOk result (PartsAgree cache.now (M.state media.new).contents) }
    // Whatever the call answers, and whenever power goes off, no page that an entry names changed.
    ensures lists { (list durable : CacheList) → Lists cache.now (M.state media.old).contents.flash.page list durable
        → Lists cache.now (M.state media.new).contents.flash.page list durable }
    ensures copied { OnOk result (IsCopied cache.now.geometry cache.now.map.entries group block (M.state media.new).contents.flash.page) }
    ensures filled { OnOk result (IsFilledUp cache.now.geometry cache.now.map.entries group block (M.state media.new).contents.flash.page) }
    ensures counts { OnOk result ((pages : ℕ) → ReachesTo cache.now.geometry cache.now.map.entries group pages
        → (M.state media.new).counts ≡ programs_counted pages (M.state media.old).counts) }
    ensures drives { OnlyDrives (M.state media.old) (M.state media.new) result }
{
    let held = cache.map.held_bits(group);
    let own = cache.map.block_of(group);
    let zeros = zero_block();
    let mut buffer = zero_block();
    for page in 0..u128::BITS - held.leading_zeros() {
        let from = place_beside(cache, &own, group, page);
        copy_page(
            cache,
            media,
            from,
            Place { block, page },
            &mut buffer,
            &zeros,
        )?;
    }
    Ok(())
}

/// The page of an address of a group, whose data block is given. Only an address that the block lacks is looked up.
fn place_beside(cache: &Parts, own: &Option<BlockAt>, group: u64, page: u32) -> Option<Place>
    requires is_map { IsMap cache.now.geometry cache.now.map.entries }
    requires own { IsBlockOf cache.now.geometry cache.now.map.entries group own.now }
    requires page { page < cache.now.geometry.p }
    requires size { group * cache.now.geometry.p + page < cache.now.geometry.size }
    ensures { result ≡ option_map (λ (e : Entry). e.place) (get cache.now.map.entries (group * cache.now.geometry.p + page)) }
{
    let lba = group * cache.geometry.p as u64 + page as u64;
    match own {
        Some(block) if block.has(page) => Some(Place {
            block: block.block(),
            page,
        }),
        _ => match cache.map.logged_place(lba) {
            Some((at, _)) => Some(at),
            None => None,
        },
    }
}

/// Programs one page of a data block: a copy of an address's page, with its spare bytes, or a filler of the zero block
/// if the address isn't held.
fn copy_page<M: Media>(
    cache: &Parts,
    media: &mut M,
    from: Option<Place>,
    to: Place,
    buffer: &mut Block,
    zeros: &Block,
) -> Result<(), MediaError>
    requires zeros { zeros.now ≡ contents.zero_block }
    requires from { IfSome from (λ at. (a : ℕ) × Owns cache.now.map.entries at a) }
    requires agree { PartsAgree cache.now (M.state media.old).contents }
    requires next { IsNextFreePage cache.now (M.state media.old).contents.flash to }
    ensures agree { OnOk result (PartsAgree cache.now (M.state media.new).contents) }
    ensures lists { (list durable : CacheList) → Lists cache.now (M.state media.old).contents.flash.page list durable
        → Lists cache.now (M.state media.new).contents.flash.page list durable }
    ensures copied { OnOk result (IfSome from (λ at. IsCopyOf (M.state media.new).contents.flash.page at to)) }
    ensures filler { OnOk result (IfNone from ((M.state media.new).contents.flash.page to ≡ filler_page)) }
    ensures others { OnOk result ((at : PlaceValue) → (at ≡ to → ⊥)
        → (M.state media.new).contents.flash.page at ≡ (M.state media.old).contents.flash.page at) }
    ensures next { OnOk result ((M.state media.new).contents.flash.next to.block ≡ Some (to.page + 1)) }
    ensures counts { OnOk result ((M.state media.new).counts ≡ program_counted (M.state media.old).counts) }
    ensures drives { OnlyDrives (M.state media.old) (M.state media.new) result }
{
    let Some(at) = from else {
        let spare = write_spare(SpareKind::Filler, 0, 0);
        return program_unheld(cache, media, to, zeros, &spare);
    };
    let mut spare = Spare([0; 32]);
    read_whole(media, at, buffer, &mut spare)?;
    program_unheld(cache, media, to, buffer, &spare)
}

/// Programs the next page of a free erase block. No entry names it, so nothing else changes.
fn program_unheld<M: Media>(
    cache: &Parts,
    media: &mut M,
    at: Place,
    block: &Block,
    spare: &Spare,
) -> Result<(), MediaError>
    requires agree { PartsAgree cache.now (M.state media.old).contents }
    requires next { IsNextFreePage cache.now (M.state media.old).contents.flash at }
    ensures programmed { OnOk result ((M.state media.new).contents.flash ≡ after_program
        (M.state media.old).contents.flash at block.now spare.now) }
    ensures agree { OnOk result (PartsAgree cache.now (M.state media.new).contents) }
    ensures lists { (list durable : CacheList) → Lists cache.now (M.state media.old).contents.flash.page list durable
        → Lists cache.now (M.state media.new).contents.flash.page list durable }
    ensures counts { OnOk result ((M.state media.new).counts ≡ program_counted (M.state media.old).counts) }
    ensures drives { OnlyDrives (M.state media.old) (M.state media.new) result }
{
    media.program(at, block, spare)
}

/// Reads a page that an entry names, which is whole.
fn read_whole<M: Media>(
    media: &mut M,
    at: Place,
    buffer: &mut Block,
    spare: &mut Spare,
) -> Result<(), MediaError>
    requires block { at.block < (M.state media.old).contents.shape.blocks }
    requires page { at.page < (M.state media.old).contents.shape.pages }
    requires whole { is_whole ((M.state media.old).contents.flash.page at) ≡ true }
    ensures found { OnOk result ((M.state media.old).contents.flash.page at ≡ Whole buffer.new spare.new) }
    ensures contents { (M.state media.new).contents ≡ (M.state media.old).contents }
    ensures counts { (M.state media.new).counts ≡ (M.state media.old).counts }
    ensures drives { OnlyDrives (M.state media.old) (M.state media.new) result }
{
    match media.read_page(at, buffer, spare)? {
        PageRead::Whole => Ok(()),
        PageRead::Blank | PageRead::Torn => unreachable!(),
    }
}
