//! Reading every page that is held, and its spare bytes.
ghost use Rattle.std.specs.Prelude.{◌≡◌, None, ◌+◌, ◌<◌, ◌↔◌, ℕ, IfOk, IsErrOf, IsTrue};
ghost use Rattle.ft_media.specs.Reads.{ReadsFlash};
ghost use Rattle.ssc.specs.Errors.{ssc_failed, ssc_lost};
ghost use Rattle.cache_model.specs.Cache.{AreOwn};
ghost use Rattle.cache_model.specs.CacheList.{CacheList};
ghost use Rattle.ssc.specs.CacheState.{Holds, IsUp, entries_of, geometry_of};
ghost use Rattle.ssc.specs.Scrubbed.{IsDataPage, IsScrub, IsScrubBelow, OnlyReads, lowest_with};

use crate::error::of_media;
use crate::{Ssc, SscError};
use cache_model::SpareKind;
use ft_base::{Place, Spare, zero_block};
use ft_media::{Media, PageRead};
use page_oob::write_spare;

/// The findings of a scrub.
#[derive(Clone, Copy, Debug, PartialEq, Eq)]
pub struct Scrub {
    /// The pages that were read: one for each address that is held.
    pub pages: u64,
    /// The lowest of these pages whose spare bytes aren't a data page's of its address.
    pub strange: Option<Place>,
}

impl Ssc {
    /// Reads every page that is held, and looks at its spare bytes. It changes nothing, and allocates nothing.
    pub fn scrub<M: Media>(&mut self, media: &mut M) -> Result<Scrub, SscError>
        requires up { IsUp self.old (M.state media.old).contents }
        ensures same { self.new ≡ self.old }
        ensures found { IfOk result (IsScrub (geometry_of self.old) (M.state media.old).contents.flash.page (entries_of self.old)) }
        // No page is strange exactly when each held block was written for its address.
        ensures own { IfOk result (λ scrub. (s : CacheList) → Holds self.old (M.state media.old).contents s
            → (scrub.strange ≡ None) ↔ AreOwn s) }
        ensures full { (n l : ℕ) → IsErrOf result (SscError.Full n l) → ⊥ }
        ensures memory { IsErrOf result SscError.OutOfMemory → ⊥ }
        ensures reads { ReadsFlash (M.state media.old) (M.state media.new) (ssc_failed result) (ssc_lost result) }
    {
        let mut found = Scrub {
            pages: 0,
            strange: None,
        };
        for i in 0..self.parts.map.numbers() {
            found = self.scrub_number(media, i, found)?;
        }
        Ok(found)
    }

    /// Also looks at the page of number `i`, if it is held, after all lower ones.
    fn scrub_number<M: Media>(
        &self,
        media: &mut M,
        i: u32,
        before: Scrub,
    ) -> Result<Scrub, SscError>
        requires up { IsUp self.now (M.state media.old).contents }
        requires before { IsScrubBelow (geometry_of self.now) (M.state media.old).contents.flash.page (entries_of self.now) i before }
        ensures found { IfOk result (IsScrubBelow (geometry_of self.now) (M.state media.old).contents.flash.page (entries_of self.now)
            (i + 1)) }
        ensures only { OnlyReads (M.state media.old) (M.state media.new) result }
    {
        match self.parts.map.nth(i) {
            Some((lba, place)) => {
                let is_own = is_data_page(media, lba, place)?;
                Ok(Scrub {
                    pages: before.pages + 1,
                    strange: lowest_strange(before.strange, place, is_own),
                })
            }
            None => Ok(before),
        }
    }
}

/// Whether the page at a place has the spare bytes of a data page of the address.
fn is_data_page<M: Media>(media: &mut M, lba: u64, place: Place) -> Result<bool, SscError>
    requires block { place.block < (M.state media.old).contents.shape.blocks }
    requires page { place.page < (M.state media.old).contents.shape.pages }
    ensures found { IfOk result (λ found. IsTrue found ↔ IsDataPage (M.state media.old).contents.flash.page place lba) }
    ensures only { OnlyReads (M.state media.old) (M.state media.new) result }
{
    let own = write_spare(SpareKind::Page, 0, lba);
    let mut block = zero_block();
    let mut spare = Spare([0; 32]);
    match media.read_page(place, &mut block, &mut spare) {
        Ok(PageRead::Whole) => Ok(spare.0 == own.0),
        Ok(PageRead::Blank) => Ok(false),
        Ok(PageRead::Torn) => Ok(false),
        Err(error) => Err(of_media(error)),
    }
}

/// The lowest strange page, once one more page was looked at, which lies above the others.
fn lowest_strange(lowest: Option<Place>, place: Place, is_own: bool) -> Option<Place>
    ensures { result ≡ lowest_with lowest place is_own }
{
    match lowest {
        Some(at) => Some(at),
        None if is_own => None,
        None => Some(place),
    }
}
