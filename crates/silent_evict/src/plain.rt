//! The plain programs: one entry after another.
ghost use Rattle.std.specs.Prelude.{◌≡◌, ◌↔◌, IsTrue};
ghost use Rattle.silent_evict.specs.Candidates.{IsCandidate, IsVictim, HoldsCleanAlone, IsDirtyAt, GivesWayBefore, pages_held};

use ft_base::Geometry;
use mapping::Map;

/// Whether an address of the group is held, and none that is held is dirty.
pub fn is_wholly_clean(geometry: &Geometry, map: &Map, group: u64) -> bool
    requires { geometry.now ≡ map.now.geometry }
    ensures { IsTrue result ↔ HoldsCleanAlone map.now.geometry map.now.entries group }
{
    let mut held = false;
    for i in 0..map.numbers() {
        let Some((lba, _)) = map.nth(i) else {
            continue;
        };
        if lba / geometry.p as u64 == group {
            if is_dirty(map, lba) {
                return false;
            }
            held = true;
        }
    }
    held
}

/// Whether the address is held and dirty.
fn is_dirty(map: &Map, lba: u64) -> bool
    ensures { IsTrue result ↔ IsDirtyAt map.now.entries lba }
{
    match map.place(lba) {
        Some((_, dirty)) => dirty,
        None => false,
    }
}

/// How many pages of the group's data block are held.
pub fn pages_held(map: &Map, group: u64) -> u32
    ensures { result ≡ pages_held map.now.geometry map.now.entries group }
{
    match map.block_of(group) {
        Some(block) => block_map::plain::count(block.present()),
        None => 0,
    }
}

/// Whether some address of the group is held in a data block, and no address of the group is dirty.
pub fn is_candidate(geometry: &Geometry, map: &Map, group: u64) -> bool
    requires { geometry.now ≡ map.now.geometry }
    ensures { IsTrue result ↔ IsCandidate map.now.geometry map.now.entries group }
{
    pages_held(map, group) > 0 && is_wholly_clean(geometry, map, group)
}

/// Whether a group may give way, and has fewer held pages in its data block than another.
fn gives_way_before(geometry: &Geometry, map: &Map, group: u64, other: u64) -> bool
    requires { geometry.now ≡ map.now.geometry }
    ensures { IsTrue result ↔ GivesWayBefore map.now.geometry map.now.entries group other }
{
    pages_held(map, group) < pages_held(map, other) && is_candidate(geometry, map, group)
}

/// Whether the group may give way, and no other group that may give way has fewer held pages in its data block.
pub fn is_victim(geometry: &Geometry, map: &Map, group: u64) -> bool
    requires { geometry.now ≡ map.now.geometry }
    ensures { IsTrue result ↔ IsVictim map.now.geometry map.now.entries group }
{
    for i in 0..map.numbers() {
        let Some((lba, _)) = map.nth(i) else {
            continue;
        };
        if gives_way_before(geometry, map, lba / geometry.p as u64, group) {
            return false;
        }
    }
    is_candidate(geometry, map, group)
}
