//! Facts that hold of a cache after any commands, errors, crashes and openings.

ghost use Rattle.std.specs.Prelude.{◌≡◌, ◌≤◌, ◌<◌, ◌+◌, ◌++◌, ◌∷◌, ℕ, None, Some, true, List, Contains};
ghost use Rattle.std.specs.FinMap.{get};
ghost use Rattle.ft_base.specs.declared.block.Block.{Block};
ghost use Rattle.ft_base.specs.declared.geometry.Geometry.{Geometry};
ghost use Rattle.ft_base.specs.Contents.{Contents, Image, Now};
ghost use Rattle.cache_model.specs.Cache.{AreOwn, dirty_between, written_block};
ghost use Rattle.cache_model.specs.CacheList.{CacheList, Held};
ghost use Rattle.cache_model.specs.Stands.{FlashStandsFor};
ghost use Rattle.ssc.specs.declared.cache.Ssc.{Ssc};
ghost use Rattle.ssc.specs.CacheState.{geometry_of};
ghost use Rattle.ssc.specs.Commands.{IsDirtyIn};
ghost use Rattle.cache_history.specs.declared.kind.Kind.TheVariants.{Evict, WriteDirty};
ghost use Rattle.cache_history.specs.History.{CacheEvent, Answered, TwoLists, Lived, LivedFrom, NoneIs, IsNewest, both_alike, given, is_write, is_change, may_undirty};
ghost use Rattle.cache_history.specs.Moment.{IsMoment};

/// The laws hold over the whole history of a cache that begins empty. Its events are commands that answered `Ok`,
/// commands that failed because of a device or of power, crashes between two commands, and openings.
pub fn history_laws()
    // An address whose evict answered `Ok` is absent until a write of it is given again.
    ensures evicted_stays_absent { (g : Geometry) (later before : List CacheEvent) (l : TwoLists) (a : ℕ) (b : Block)
        → Lived g (later ++ Answered (given Evict a b) ∷ before) l → NoneIs is_write a later → get l.now a ≡ None }
    // An absent address stays absent until a write of it is given, whatever else happens to the cache.
    ensures absent_stays { (g : Geometry) (before later : List CacheEvent) (l m : TwoLists) (a : ℕ) → Lived g before l → get l.now a ≡ None
        → LivedFrom g l later m → NoneIs is_write a later → get m.now a ≡ None }
    // A block whose dirty write answered `Ok` is held, dirty, until a write, an evict or a clean of its address is
    // given, whatever that answers.
    ensures dirty_stays { (g : Geometry) (later before : List CacheEvent) (l : TwoLists) (a : ℕ) (b : Block)
        → Lived g (later ++ Answered (given WriteDirty a b) ∷ before) l → NoneIs is_change a later
        → get l.now a ≡ Some (written_block a b true) }
    // Beginning with one list that is also the durable one, the held block of an address comes from the newest write
    // of it that answered `Ok` and can't be taken back, or from a later one that failed or may be only buffered. It
    // never comes from an older one.
    ensures newest_is_held { (g : Geometry) (start : CacheList) (events : List CacheEvent) (l : TwoLists) (a : ℕ) (h : Held)
        → LivedFrom g (both_alike start) events l → get l.now a ≡ Some h → IsNewest start a h.block events }
    // A block that both lists hold dirty at an address stays in both until a write, an evict or a clean of the address
    // is given, whatever that answers. After a later write this is so once it is committed.
    ensures committed_stays { (g : Geometry) (start l : TwoLists) (events : List CacheEvent) (a : ℕ) (h : Held)
        → LivedFrom g start events l → get start.now a ≡ Some h → get start.durable a ≡ Some h → h.dirty ≡ true
        → NoneIs is_change a events → (get l.now a ≡ Some h) × (get l.durable a ≡ Some h) }
    // If both lists hold a dirty block at an address, the address is listed as dirty, with whatever block. This ends
    // when a clean write, an evict or a clean of it is given, whatever that answers.
    ensures committed_is_listed { (g : Geometry) (start l : TwoLists) (events : List CacheEvent) (a from count : ℕ)
        → LivedFrom g start events l → IsDirtyIn start.now a → IsDirtyIn start.durable a → NoneIs may_undirty a events → from ≤ a
        → a < from + count → Contains (dirty_between from count l.now) a }
    // After a dirty write of an address answered `Ok`, the address is listed as dirty, with whatever block. This ends
    // when a clean write, an evict or a clean of it is given, whatever that answers.
    ensures dirty_is_listed { (g : Geometry) (later before : List CacheEvent) (l : TwoLists) (a : ℕ) (b : Block) (from count : ℕ)
        → Lived g (later ++ Answered (given WriteDirty a b) ∷ before) l → NoneIs may_undirty a later → from ≤ a → a < from + count
        → Contains (dirty_between from count l.now) a }
    // Suppose that each held block, and each block that a crash would leave, has the spare bytes of a data page of its
    // address. Then this stays true, whatever happens to the cache.
    ensures own_stays { (g : Geometry) (start l : TwoLists) (events : List CacheEvent) → LivedFrom g start events l → AreOwn start.now
        → AreOwn start.durable → AreOwn l.now × AreOwn l.durable }
    // Between two commands a crash leaves the second list.
    ensures crash_leaves_durable { (c : Ssc) (contents : Contents) (l : TwoLists) (x : Image) → IsMoment c contents l → Now contents x
        → FlashStandsFor (geometry_of c) x.page l.durable }
{}
