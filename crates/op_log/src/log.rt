//! The log: changes are pushed to it one by one, and a flush programs all of them as its next page.
ghost use Rattle.std.specs.Prelude.{◌≡◌, ◌≢◌, ◌<◌, ◌≤◌, ◌-◌, [], length, IfOk, OnOk, OnErr, IsOk, IsTrue};
ghost use Rattle.std.specs.List.{list_all};
ghost use Rattle.ft_base.specs.Layout.{log_pages, page_records};
ghost use Rattle.ft_media.specs.Media.{IsNextPage, if_ok};
ghost use Rattle.ft_media.specs.Passes.{Spends};
ghost use Rattle.ft_media.specs.Drives.{OnlyDrives};
ghost use Rattle.cache_model.specs.declared.format.PageKind.TheVariants.{Log as log_page};
ghost use Rattle.cache_model.specs.Spelling.{is_wide, may_stand_in, most_records_of, IsPage};
ghost use Rattle.op_log.specs.Log.{FitsOn, LeavesLog, AppendedReady, log_header, next_place, log_spare, HasSpare, restarted, pushed, log_flushed, log_flush_counted};

use crate::ring::{MOST, Ring};
use cache_model::{Header, PageKind, SpareKind};
use ft_base::{Block, Geometry, Place, Record, zero_block};
use ft_media::{Media, MediaError};
use page_oob::write_spare;
use record_codec::write_page;
use std::alloc::{AllocError, Global};
use std::marker::Model;

/// The log of one region: its next page, and the changes that no page has yet.
#[derive(Drop)]
pub struct OpLog {
    geometry: Geometry,
    region: u32,
    era: u8,
    next: u32,
    ring: Ring,
    page: Box<Block>,
}

impl Model for OpLog {
    ghost use Rattle.std.specs.Prelude.{◌≤◌, ◌<◌, length, IsTrue};
    ghost use Rattle.std.specs.List.{list_all};
    ghost use Rattle.ft_base.specs.Layout.{log_pages, page_records};
    ghost use Rattle.cache_model.specs.declared.format.PageKind.TheVariants.{Log as log_page};
    ghost use Rattle.cache_model.specs.Spelling.{is_wide, may_stand_in};
    ghost use Rattle.op_log.specs.Log.{LogValue};

    ghost Value = { LogValue };

    ghost view = { λ l. record { geometry = l.geometry; region = l.region; era = l.era; next = l.next; buffered = l.ring } };

    ghost invariant = { λ l. (l.region < 2) × (l.era ≤ 2) × (l.next ≤ log_pages l.geometry)
        × (length l.ring ≤ page_records l.geometry) × IsTrue (list_all (may_stand_in (is_wide 2 l.geometry.p) log_page) l.ring) };
}

impl OpLog {
    /// An empty log at page 0 of a region, with its ring and a page for writing.
    pub fn new(
        alloc: Global,
        geometry: &Geometry,
        region: u32,
        era: u8,
    ) -> Result<OpLog, AllocError>
        requires region { region < 2 }
        requires era { era ≤ 2 }
        ensures { IfOk result (λ log. log ≡ record { geometry = geometry.now; region = region; era = era; next = 0; buffered = [] }) }
    {
        let ring = Ring::new(alloc)?;
        let Ok(page) = Box::new(alloc, zero_block()) else {
            return Err(AllocError);
        };
        Ok(OpLog {
            geometry: *geometry,
            region,
            era,
            next: 0,
            ring,
            page,
        })
    }

    /// Buffers a change. It allocates nothing.
    #[tactic(auto, using(ft_base::proofs::LayoutLemmas::q_most))]
    pub fn push(&mut self, change: Record)
        requires room { length self.old.buffered < page_records self.old.geometry }
        requires sound { IsTrue (may_stand_in (is_wide 2 self.old.geometry.p) log_page change) }
        ensures { self.new ≡ pushed change self.old }
    {
        self.ring.push(change);
    }

    /// How many changes are buffered: at most as many as a page takes.
    pub fn buffered(&self) -> u32
        ensures buffered { result ≡ length self.now.buffered }
        ensures most { result ≤ page_records self.now.geometry }
    {
        self.ring.len()
    }

    /// The pages of the region that are left.
    pub fn room(&self) -> u32
        ensures room { result ≡ log_pages self.now.geometry - self.now.next }
        ensures within { self.now.next ≤ log_pages self.now.geometry }
    {
        self.geometry.j * self.geometry.p - self.next
    }

    /// The region of the log, 0 or 1.
    pub fn region(&self) -> u32
        ensures region { result ≡ self.now.region }
        ensures low { result < 2 }
    {
        self.region
    }

    /// The era of the log, 0 to 2.
    pub fn era(&self) -> u8
        ensures era { result ≡ self.now.era }
        ensures low { result ≤ 2 }
    {
        self.era
    }

    /// Empties the log and moves it to page 0 of a region, with an era.
    pub fn restart(&mut self, region: u32, era: u8)
        requires region { region < 2 }
        requires era { era ≤ 2 }
        ensures { self.new ≡ restarted region era self.old }
    {
        self.region = region;
        self.era = era;
        self.next = 0;
        self.ring.clear();
    }

    /// Programs one page of format 2 with all buffered changes, in order. If nothing is buffered, it does nothing.
    #[tactic(auto, using(crate::proofs::PageLemmas::records_fit))]
    pub fn flush<M: Media>(&mut self, media: &mut M) -> Result<(), MediaError>
        requires shape { FitsOn self.old.geometry (M.state media.old).contents.shape }
        requires room { self.old.buffered ≢ [] → self.old.next < log_pages self.old.geometry }
        requires ready { self.old.buffered ≢ [] → IsNextPage (next_place self.old) (M.state media.old).contents.flash }
        ensures nothing { self.old.buffered ≡ [] → IsOk result × (M.state media.new ≡ M.state media.old) }
        ensures done { OnOk result (self.old.buffered ≢ []
            → AppendedReady self.old (M.state media.old).contents.flash (M.state media.new).contents.flash) }
        ensures spare { OnOk result (self.old.buffered ≢ []
            → HasSpare (log_spare self.old.era self.old.next) ((M.state media.new).contents.flash.page (next_place self.old))) }
        ensures log { OnOk result (self.new ≡ log_flushed self.old) }
        ensures refused { OnErr result (self.new ≡ self.old) }
        // Whatever the call answers, and whenever power goes off, the page is whole or the log ends before it.
        ensures pages { LeavesLog self.old (M.state media.old).contents.flash (M.state media.new).contents.flash }
        ensures counts { (M.state media.new).counts ≡ if_ok result (log_flush_counted self.old (M.state media.old).counts)
            (M.state media.old).counts }
        ensures spends { OnOk result (self.old.buffered ≢ [] → Spends 1 (M.state media.old) (M.state media.new)) }
        ensures drives { OnlyDrives (M.state media.old) (M.state media.new) result }
    {
        if self.ring.len() == 0 {
            return Ok(());
        }
        spell(
            &mut self.page,
            self.geometry.p,
            self.era,
            self.next,
            &self.ring,
        );
        let at = self.geometry.log_at(self.region, self.next);
        let spare = write_spare(SpareKind::Log, self.era, self.next as u64);
        media.program(at, &self.page, &spare)?;
        self.next += 1;
        self.ring.clear();
        Ok(())
    }
}

/// Writes the page of a log with the records of the ring, in order.
fn spell(page: &mut Block, p: u32, era: u8, sequence: u32, ring: &Ring)
    requires era { era ≤ 2 }
    requires some { 0 < length ring.now }
    requires room { length ring.now ≤ most_records_of (is_wide 2 p) }
    requires sound { IsTrue (list_all (may_stand_in (is_wide 2 p) log_page) ring.now) }
    ensures { IsPage p page.new.0 (log_header era sequence ring.now) ring.now }
{
    let mut changes = [Record::Remove { lba: 0 }; MOST];
    let count = ring.copy_into(&mut changes);
    let header = Header {
        format: 2,
        kind: PageKind::Log,
        era,
        sequence,
        count,
    };
    write_page(page, &header, p, &changes[..count as usize]);
}
