//! The rig with parity, its laws, and the trait `Rig` for it. Beneath, each erase block has one page more.
ghost use Rattle.parity_media.specs.Since.{CountedBeneath};
ghost use Rattle.parity_media.specs.Tied.{Tied};

use crate::parities::Parities;
use crate::start::Start;
use crate::steps::fit_all;
use crate::tally::Tally;
use ft_base::Outcome;
use ft_media::{Counts, Media, Rig};
use std::alloc::{AllocError, Global};
use std::marker::{Brand, PhantomData};

/// A rig over another one with one page more in each block, which holds the parity of the others. Up to a `fit` of its
/// own that answered Ok it has no block.
///
/// `K` says from where it counts, for proofs alone: a fault that it counted since is one that the rig beneath counted.
#[derive(Drop)]
pub struct ParityRig<'a, R: Rig, K: Start = Brand> {
    pub(crate) rig: &'a mut R,
    pub(crate) parities: Parities,
    pub(crate) tally: Tally,
    of: PhantomData<K>,
    ghost tied: { Tied (R.state rig.now).contents parities },
    ghost beneath: { CountedBeneath K.flash K.cuts tally (R.state rig.now).faults },
}

impl<'a, R: Rig> ParityRig<'a, R> {
    ghost use Rattle.std.specs.Prelude.{◌≡◌};
    ghost use Rattle.parity_media.specs.Kept.{parity_blocks, parity_pages, programs_of, failed_of, cuts_of};
    ghost use Rattle.parity_media.specs.Shown.{parity_state};

    /// A rig over this one, without a block.
    pub fn new(alloc: Global, rig: &'a mut R) -> ParityRig<'a, R>
        ensures state { ⟦<ParityRig<'a, R> as Media>⟧.state result ≡ parity_state (R.state rig.old) result.rig.ghost_name result.parities result.tally }
        ensures unfitted { (parity_blocks result.parities ≡ 0) × (parity_pages result.parities ≡ 0) }
        ensures programs { programs_of result.tally ≡ 0 }
        ensures failed { failed_of result.tally ≡ 0 }
        ensures cuts { cuts_of result.tally ≡ 0 }
        ensures rig { result.rig.now ≡ rig.old }
        ensures same_rig { result.rig.ghost_name ≡ rig.entry.ghost_name }
    {
        ParityRig {
            rig,
            parities: Parities::none(alloc),
            tally: Tally::new(),
            of: PhantomData,
        }
    }
}

impl<'a, R: Rig, K: Start> ParityRig<'a, R, K> {
    ghost use Rattle.std.specs.Prelude.{◌≡◌, ◌≢◌, ◌<◌, ◌≤◌, ◌+◌, ℕ, true, None};
    ghost use Rattle.ft_base.specs.declared.block.Page.TheVariants as content;
    ghost use Rattle.parity_media.specs.Kept.{parity_blocks, parity_pages, parity_of, programs_of, failed_of, cuts_of};
    ghost use Rattle.parity_media.specs.Shown.{parity_state};
    ghost use Rattle.parity_media.specs.Tied.{HasParity};
    ghost use Rattle.parity_media.specs.Xor.{pages_of};

    /// A rig over this one, without a block, that counts from here.
    pub fn since(alloc: Global, rig: &'a mut R) -> ParityRig<'a, R, K>
        requires flash { K.flash ≤ (R.state rig.old).faults.flash }
        requires cuts { K.cuts ≤ (R.state rig.old).faults.cuts }
        ensures state { ⟦<ParityRig<'a, R, K> as Media>⟧.state result ≡ parity_state (R.state rig.old) result.rig.ghost_name result.parities result.tally }
        ensures unfitted { (parity_blocks result.parities ≡ 0) × (parity_pages result.parities ≡ 0) }
        ensures programs { programs_of result.tally ≡ 0 }
        ensures failed { failed_of result.tally ≡ 0 }
        ensures cuts { cuts_of result.tally ≡ 0 }
        ensures rig { result.rig.now ≡ rig.old }
        ensures same_rig { result.rig.ghost_name ≡ rig.entry.ghost_name }
    {
        ParityRig {
            rig,
            parities: Parities::none(alloc),
            tally: Tally::new(),
            of: PhantomData,
        }
    }

    /// The rig beneath, as the last call left it.
    pub fn into_rig(self) -> &'a mut R
        ensures rig { result.now ≡ self.entry.rig.now }
        ensures same_rig { result.ghost_name ≡ self.entry.rig.ghost_name }
    {
        let ParityRig { rig, .. } = self;
        rig
    }

    /// Whether this block is complete: its parity page was programmed, and no erase was begun since.
    pub fn is_complete(&self, block: u32) -> bool
        requires { block < (⟦<ParityRig<'a, R, K> as Media>⟧.state self.now).contents.shape.blocks }
        ensures { result ≡ (parity_of self.now.parities block).complete }
    {
        self.parities.get(block).complete
    }

    /// What holds of each block at any time: if it is complete, or if it is ready and its last page isn't blank, its
    /// pages are whole and the parity page beneath is their exclusive or.
    pub fn parity_laws(&self)
        ensures complete { let shown = (⟦<ParityRig<'a, R, K> as Media>⟧.state self.now).contents in (b : ℕ) → b < shown.shape.blocks
            → (parity_of self.now.parities b).complete ≡ true
            → HasParity (pages_of (R.state self.now.rig.now).contents.flash.page b) shown.shape.pages }
        ensures full { let shown = (⟦<ParityRig<'a, R, K> as Media>⟧.state self.now).contents in (b last : ℕ) → shown.shape.pages ≡ last + 1
            → shown.flash.next b ≢ None → shown.flash.page (record { block = b; page = last }) ≢ content.Blank
            → HasParity (pages_of (R.state self.now.rig.now).contents.flash.page b) shown.shape.pages }
    {}
}

impl<'a, R: Rig, K: Start> Rig for ParityRig<'a, R, K> {
    ghost use Rattle.std.specs.Prelude.{◌≡◌, ◌+◌, ◌<◌, ◌≤◌, ℕ, false, length, OnOk, OnErr};
    ghost use Rattle.ft_media.specs.Fitted.{fitted};
    ghost use Rattle.ft_media.specs.Rig.{Armed, Cut, powered};
    ghost use Rattle.parity_media.specs.Kept.{parity_of};

    /// Fits the rig with one page more in each block. No block is complete then.
    fn fit(&mut self, alloc: Global, blocks: u32, pages: u32, size: u64) -> Result<(), AllocError>
        ensures ok { OnOk result (⟦<ParityRig<'a, R, K> as Media>⟧.state self.new ≡ fitted (⟦<ParityRig<'a, R, K> as Media>⟧.state self.old) blocks pages size) }
        ensures err { OnErr result (⟦<ParityRig<'a, R, K> as Media>⟧.state self.new ≡ ⟦<ParityRig<'a, R, K> as Media>⟧.state self.old) }
        ensures beneath { OnOk result (R.state self.new.rig.now ≡ fitted (R.state self.old.rig.now) blocks (pages + 1) size) }
        ensures marks { OnOk result ((b : ℕ) → (parity_of self.new.parities b).complete ≡ false) }
        ensures stays { OnErr result ((R.state self.new.rig.now ≡ R.state self.old.rig.now) × (self.new.parities ≡ self.old.parities)) }
    {
        fit_all(self.rig, &mut self.parities, alloc, blocks, pages, size)
    }

    fn arm(&mut self, after: u64, outcome: Outcome)
        requires room { length (⟦<ParityRig<'a, R, K> as Media>⟧.state self.old).power.stops < 16 }
        requires after { 1 ≤ after }
        ensures armed { Armed (⟦<ParityRig<'a, R, K> as Media>⟧.state self.old) (⟦<ParityRig<'a, R, K> as Media>⟧.state self.new) after outcome }
        ensures marks { (b : ℕ) → (parity_of self.new.parities b).complete ≡ (parity_of self.old.parities b).complete }
    {
        self.rig.arm(after, outcome);
    }

    fn armed(&self) -> u32 {
        self.rig.armed()
    }

    /// Turns power off, between two device writes. Each block that is complete stays so.
    fn cut(&mut self, outcome: Outcome)
        ensures cut { Cut (⟦<ParityRig<'a, R, K> as Media>⟧.state self.old) (⟦<ParityRig<'a, R, K> as Media>⟧.state self.new) outcome }
        ensures marks { (b : ℕ) → (parity_of self.new.parities b).complete ≡ (parity_of self.old.parities b).complete }
    {
        self.rig.cut(outcome);
        self.tally.count_cut();
    }

    fn power_on(&mut self)
        ensures on { ⟦<ParityRig<'a, R, K> as Media>⟧.state self.new ≡ powered (⟦<ParityRig<'a, R, K> as Media>⟧.state self.old) }
        ensures marks { (b : ℕ) → (parity_of self.new.parities b).complete ≡ (parity_of self.old.parities b).complete }
    {
        self.rig.power_on();
    }

    fn is_on(&self) -> bool {
        self.rig.is_on()
    }

    fn counts(&self) -> Counts {
        let counts = self.rig.counts();
        Counts {
            programs: self.tally.programs(),
            erases: counts.erases,
            disk_reads: counts.disk_reads,
            disk_writes: counts.disk_writes,
            disk_flushes: counts.disk_flushes,
        }
    }
}
