//! The dirty groups in the order of their last write, so that the one written longest ago is found at once.
//!
//! The layer above relies on this: the table is a list of distinct groups with a limit. `touch` brings a group to the
//! front; it fails only if there is no memory for a new group, and then the table is unchanged. `remove` takes a group
//! out, and `oldest` is the last group of the list.
#![tactic(auto)]

ghost use Rattle.std.specs.Prelude.{◌≡◌, ◌<◌, ◌≤◌, ◌⊎◌, [], length, IfOk, OnOk, OnErr, IsOk, IsTrue, nat_eq};
ghost use Rattle.std.specs.List.{IsDistinct};
ghost use Rattle.dirty_table.specs.Groups.{groups_in_order, has, without_first, touched, oldest_of};

pub mod plain;

use lru::LruCache;
use std::alloc::{AllocError, Global};
use std::marker::Model;
use std::num::NonZeroUsize;

/// Groups, the one touched last in front, and the most groups that there may be.
#[derive(Drop)]
pub struct DirtyTable {
    cache: LruCache<u64, ()>,
}

impl Model for DirtyTable {
    ghost use Rattle.std.specs.Prelude.{◌<◌, ◌^◌};
    ghost use Rattle.std.specs.Map.{keys_of};
    ghost use Rattle.dirty_table.specs.Groups.{Groups, groups_in_order};

    ghost Value = { Groups };

    ghost view = { λ t. groups_in_order (keys_of t.cache.entries) t.cache.cap };

    ghost invariant = { λ t. t.cache.cap < 2 ^ 32 };
}

impl DirtyTable {
    /// An empty table for at most `c` groups, with `c` at least 1.
    pub fn new(alloc: Global, c: u32) -> Result<DirtyTable, AllocError>
        requires { 0 < c }
        ensures { IfOk result (λ t. t ≡ groups_in_order [] c) }
    {
        let Some(limit) = NonZeroUsize::new(c as usize) else {
            unreachable!()
        };
        Ok(DirtyTable {
            cache: LruCache::new(alloc, limit)?,
        })
    }

    /// Brings the group to the front. It never fails for a group that is there. On `Err` nothing has changed.
    #[tactic(auto, using(crate::proofs::GroupsLemmas::keys_put, crate::proofs::GroupsLemmas::has_lookup))]
    pub fn touch(&mut self, group: u64) -> Result<(), AllocError>
        requires { IsTrue (has group self.old.order) ⊎ (length self.old.order < self.old.limit) }
        ensures ok { OnOk result (self.new ≡ groups_in_order (touched group self.old.order) self.old.limit) }
        ensures err { OnErr result (self.new ≡ self.old) }
        ensures stays { IsTrue (has group self.old.order) → IsOk result }
    {
        match self.cache.put(group, ()) {
            Ok(_) => Ok(()),
            Err(_) => Err(AllocError),
        }
    }

    /// Takes the group out, and answers whether it was there.
    #[tactic(auto, using(crate::proofs::GroupsLemmas::keys_remove, crate::proofs::GroupsLemmas::has_lookup))]
    pub fn remove(&mut self, group: u64) -> bool
        ensures found { result ≡ has group self.old.order }
        ensures order { self.new ≡ groups_in_order (without_first group self.old.order) self.old.limit }
    {
        self.cache.pop(&group).is_some()
    }

    /// Whether the group is there. The order is unchanged.
    #[tactic(auto, using(crate::proofs::GroupsLemmas::has_lookup))]
    pub fn has(&self, group: u64) -> bool
        ensures { result ≡ has group self.now.order }
    {
        self.cache.contains(&group)
    }

    /// The group touched longest ago, and `None` if there is no group, and only then.
    pub fn oldest(&self) -> Option<u64>
        ensures { result ≡ oldest_of self.now.order }
    {
        match self.cache.peek_lru() {
            Some((group, _)) => Some(*group),
            None => None,
        }
    }

    /// How many groups there are. They are distinct, and at most as many as the limit.
    pub fn len(&self) -> u32
        ensures len { result ≡ length self.now.order }
        ensures within { result ≤ self.now.limit }
        ensures distinct { IsDistinct nat_eq self.now.order }
    {
        self.cache.len() as u32
    }
}

#[cfg(test)]
mod tests {
    use super::*;
    use std::test::Fail;

    #[test]
    fn the_group_written_longest_ago_is_the_oldest(rt: HostRuntime) -> Result<(), Fail> {
        let mut table = DirtyTable::new(rt.alloc(), 3)?;
        assert_eq!(rt; table.oldest(), None);
        assert_eq!(rt; table.len(), 0);
        table.touch(7)?;
        table.touch(9)?;
        table.touch(u64::MAX)?;
        assert_eq!(rt; table.oldest(), Some(7));
        table.touch(7)?;
        assert_eq!(rt; table.oldest(), Some(9));
        assert_eq!(rt; table.len(), 3);
        assert!(rt; table.has(9));
        assert!(rt; table.remove(9));
        assert!(rt; !table.remove(9));
        assert!(rt; !table.has(9));
        assert_eq!(rt; table.oldest(), Some(u64::MAX));
        assert_eq!(rt; table.len(), 2);
        Ok(())
    }

    #[test]
    fn plain_programs_on_worked_lists(rt: HostRuntime) -> Result<(), Fail> {
        let order = [9, 7, 5];
        assert!(rt; plain::contains(&order, 7));
        assert!(rt; !plain::contains(&order, 6));
        assert_eq!(rt; plain::oldest(&order), Some(5));
        let left = plain::removed(rt.alloc(), &order, 7)?;
        assert_eq!(rt; left.as_slice(), [9, 5].as_slice());
        let after = plain::brought_to_front(rt.alloc(), &order, 5)?;
        assert_eq!(rt; after.as_slice(), [5, 9, 7].as_slice());
        let new = plain::brought_to_front(rt.alloc(), &order, 6)?;
        assert_eq!(rt; new.as_slice(), [6, 9, 7, 5].as_slice());
        Ok(())
    }
}
