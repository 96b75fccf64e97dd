//! The values of all disk blocks, kept so that a flush forgets the older ones and a cut can bring them back.
ghost use Rattle.std.specs.Prelude.{◌≡◌, ◌==◌, ℕ, None, [], IsSome, if◌then◌else◌};
ghost use Rattle.std.specs.Ordering.{nat_cmp};
ghost use Rattle.std.specs.BTreeMap.{get};
ghost use Rattle.ft_base.specs.Contents.{Values};
ghost use Rattle.ft_base.specs.Plain.{block_in};
ghost use Rattle.disk_model.specs.Store.{replaced_at};
ghost use Rattle.ft_media.specs.Rig.{cut_value, flushed_value};

use crate::replaced::Replaced;
use ft_base::{Block, Outcome, zero_block};
use std::alloc::{AllocError, Global};
use std::collections::BTreeMap;

/// The newest block of each address that was written, and the blocks that writes since the last flush replaced, the
/// oldest first.
#[derive(Drop)]
pub(crate) struct Store {
    alloc: Global,
    newest: BTreeMap<u64, Box<Block>>,
    replaced: Vec<Replaced>,
    ghost written: { (lba : ℕ) → get nat_cmp newest lba ≡ None → replaced_at replaced.items lba ≡ [] },
}

impl Store {
    ghost use Rattle.std.specs.Prelude.{OnOk, OnErr};
    ghost use Rattle.ft_base.specs.Contents.{flushed, zero_block};
    ghost use Rattle.ft_media.specs.Media.{after_write};
    ghost use Rattle.disk_model.specs.StoreValues.{store_values};
    ghost use Rattle.ft_media.specs.Rig.{after_cut};

    /// No block was written.
    pub(crate) fn new(alloc: Global) -> Store
        ensures { (a : ℕ) → store_values result a ≡ record { newest = zero_block; earlier = [] } }
    {
        Store {
            alloc,
            newest: BTreeMap::new(alloc),
            replaced: Vec::new(alloc),
        }
    }

    /// The newest value of an address.
    pub(crate) fn read(&self, lba: u64, block: &mut Block)
        ensures { block.new ≡ (store_values self.now lba).newest }
    {
        match self.newest.get(&lba) {
            Some(newest) => *block = **newest,
            None => *block = zero_block(),
        }
    }

    /// Writes a block. On `Err` each value is unchanged.
    #[tactic(auto, using(crate::proofs::StoreLemmas::write_values, crate::proofs::StoreLemmas::write_present))]
    pub(crate) fn write(&mut self, lba: u64, block: &Block) -> Result<(), AllocError>
        ensures ok { OnOk result ((a : ℕ) → store_values self.new a ≡ after_write (store_values self.old) lba block.now a) }
        ensures err { OnErr result ((a : ℕ) → store_values self.new a ≡ store_values self.old a) }
    {
        let Ok(fresh) = Box::new(self.alloc, *block) else {
            return Err(AllocError);
        };
        self.replaced.reserve(1)?;
        match self.newest.insert(lba, fresh) {
            Ok(old) => {
                self.replaced.push_reserved(Replaced { lba, block: old });
                Ok(())
            }
            Err(_) => Err(AllocError),
        }
    }

    /// Makes every newest value the flushed one.
    pub(crate) fn flush(&mut self)
        ensures { (a : ℕ) → store_values self.new a ≡ flushed (store_values self.old a) }
    {
        self.replaced.clear();
    }

    /// Changes the values of each block to the value that a cut leaves.
    #[tactic(auto, using(crate::proofs::StoreLemmas::cut_flushed))]
    pub(crate) fn settle(&mut self, outcome: Outcome)
        ensures { (a : ℕ) → store_values self.new a ≡ after_cut outcome (store_values self.old) a }
    {
        while let Some(last) = self.replaced.pop() {
            if !keeps_newest(outcome, last.lba) {
                put_back(&mut self.newest, last);
            }
        }
    }
}

/// Whether a cut leaves the newest value of this address, and not the flushed one.
fn keeps_newest(outcome: Outcome, lba: u64) -> bool
    ensures { (values : Values) → cut_value outcome lba values ≡ (if result then values.newest else flushed_value values) }
{
    match outcome {
        Outcome::Blank => false,
        Outcome::Whole => true,
        Outcome::Torn => lba % 2 == 1,
        Outcome::Mixed => lba % 2 == 1,
    }
}

/// Makes the block that was replaced the newest of its address again.
fn put_back(newest: &mut BTreeMap<u64, Box<Block>>, last: Replaced)
    requires { IsSome (get nat_cmp newest.old last.lba) }
    ensures blocks { (a : ℕ) → block_in (get nat_cmp newest.new a)
        ≡ (if last.lba == a then block_in last.block else block_in (get nat_cmp newest.old a)) }
    ensures keys { (a : ℕ) → get nat_cmp newest.new a ≡ None → get nat_cmp newest.old a ≡ None }
{
    let Replaced { lba, block } = last;
    match newest.get_mut(&lba) {
        Some(place) => match block {
            Some(block) => *place = block,
            None => **place = zero_block(),
        },
        None => unreachable!(),
    }
}
