//! The search for dirty addresses, over the entries in the order of their pages, and then sorted.
ghost use Rattle.std.specs.Prelude.{◌≡◌, ◌≤◌, ◌+◌, ◌++◌, Option, OnOk, OnErr, length, take};
ghost use Rattle.std.specs.FinMap.{entries};
ghost use Rattle.ssc.specs.CacheState.{entries_of, geometry_of};
ghost use Rattle.ssc.specs.Listed.{AddsListed, AddsNumber, IsListedAt, listed};

use crate::Ssc;
use std::alloc::AllocError;

// The steps of `exists`.
impl Ssc {
    /// Adds the dirty addresses among the `count` addresses from `from` on, ascending. On `Err` the items of `out` are
    /// unchanged.
    pub(crate) fn list_between(
        &self,
        from: u64,
        count: u64,
        out: &mut Vec<u64>,
    ) -> Result<(), AllocError>
        requires { from + count ≤ (geometry_of self.now).size }
        ensures done { OnOk result (out.new.items ≡ out.old.items ++ listed from (from + count) (entries (entries_of self.now))) }
        ensures refused { OnErr result (out.new.items ≡ out.old.items) }
    {
        let before = out.len();
        if self.list_dirty(from, from + count, out).is_err() {
            out.truncate(before);
            return Err(AllocError);
        }
        let listed = &mut out[before..];
        listed.sort_unstable();
        Ok(())
    }

    /// Adds each dirty address that is at least `from` and below `end`, once. Whatever it answers, the old items of
    /// `out` are still its front.
    fn list_dirty(&self, from: u64, end: u64, out: &mut Vec<u64>) -> Result<(), AllocError>
        ensures done { OnOk result (AddsListed from end (entries_of self.now) out.old.items out.new.items) }
        ensures front { take (length out.old.items) out.new.items ≡ out.old.items }
    {
        for i in 0..self.parts.map.numbers() {
            self.list_number(i, from, end, out)?;
        }
        Ok(())
    }

    /// Adds the address of the entry of number `i`, if it is dirty, at least `from` and below `end`. On `Err` the items
    /// of `out` are unchanged.
    fn list_number(&self, i: u32, from: u64, end: u64, out: &mut Vec<u64>) -> Result<(), AllocError>
        ensures done { OnOk result (AddsNumber self.now.parts.map.geometry (entries_of self.now) from end i out.old.items out.new.items) }
        ensures refused { OnErr result (out.new.items ≡ out.old.items) }
    {
        match self.dirty_nth(i, from, end) {
            Some(lba) => {
                if out.push(lba).is_err() {
                    return Err(AllocError);
                }
                Ok(())
            }
            None => Ok(()),
        }
    }

    /// The address of the entry of number `i`, if it is dirty, at least `from` and below `end`.
    fn dirty_nth(&self, i: u32, from: u64, end: u64) -> Option<u64>
        ensures { IsListedAt self.now.parts.map.geometry (entries_of self.now) from end i result }
    {
        let (lba, _) = self.parts.map.nth(i)?;
        if lba < from {
            return None;
        }
        if lba >= end {
            return None;
        }
        if !self.is_dirty(lba) {
            return None;
        }
        Some(lba)
    }
}
