//! Laws of the lists on which the layer above rests.
ghost use Rattle.std.specs.Prelude.{ℕ};
ghost use Rattle.ft_base.specs.declared.geometry.Geometry.{Geometry};
ghost use Rattle.cache_model.specs.Cache.{Vanish};
ghost use Rattle.cache_model.specs.CacheList.{CacheList};
ghost use Rattle.merge_engine.specs.Room.{GivesRoom};

/// A list that gave room lost only wholly clean groups. It lost them only if there were more than C groups, counting
/// the group of any address, and at least C are left. A list that gave room twice gave room.
pub fn laws_of_room()
    ensures vanish { (g : Geometry) (s v : CacheList) (a : ℕ) → GivesRoom g s v → Vanish g s a v }
    ensures again { (g : Geometry) (s v w : CacheList) → GivesRoom g s v → GivesRoom g v w → GivesRoom g s w }
{}
