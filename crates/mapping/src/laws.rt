//! Laws of a map on which the layers above rest.
ghost use Rattle.std.specs.Prelude.{◌≡◌, Some, List};
ghost use Rattle.ft_base.specs.declared.geometry.Geometry.{Geometry};
ghost use Rattle.ft_base.specs.declared.record.Record.{Record};
ghost use Rattle.cache_model.specs.Records.{Entries, no_entries};
ghost use Rattle.cache_model.specs.Entries.{IsMap};
ghost use Rattle.cache_model.specs.Loading.{after_all};
ghost use Rattle.mapping.specs.Checkpoint.{IsCheckpointOf};

/// The records of a checkpoint, applied to no entries in their order, each fit, and give the map.
pub fn a_checkpoint_gives_the_map()
    ensures { (g : Geometry) (m : Entries) (records : List Record) → IsMap g m → IsCheckpointOf g m records
        → after_all g records no_entries ≡ Some m }
{}
