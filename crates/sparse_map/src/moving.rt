//! The groups of a wider table, and how the items of the old groups move there.
ghost use Rattle.std.specs.Prelude.{◌≡◌, ℕ, ◌+◌, ◌*◌, ◌/◌, ◌++◌, ◌^◌, ◌<◌, ◌≤◌, ◌⊎◌, ◌↔◌, [], ◌∷◌, length, vec_len, replicate, Some, None, IfOk, IfSome, IsTrue, slice_index_or, slice_set};
ghost use Rattle.std.specs.List.{All};
ghost use Rattle.std.specs.Vec.{vec_capacity};
ghost use Rattle.sparse_map.specs.Home.{IsTableSize};
ghost use Rattle.sparse_map.specs.Slots.{slot_at};
ghost use Rattle.sparse_map.specs.Groups.{all_slots, lists_for};
ghost use Rattle.sparse_map.specs.Ranks.{IsRankOf};
ghost use Rattle.sparse_map.specs.declared.table.Touched.TheVariants.{Nowhere};
ghost use Rattle.sparse_map.specs.Places.{sizes_of, places_of, loose_of, past_of};
ghost use Rattle.sparse_map.specs.Moved.{items_in, CanTake, HasTaken};
ghost use Rattle.sparse_map.specs.Plan.{plan_of, with_items, lens_of, rooms_of, RoomsFit};
ghost use Rattle.sparse_map.specs.Heirs.{IsFit, HeirsAreBare, FitsItems, AreRooms, ListsFit};

use crate::group::Group;
use crate::home::home_of;
use crate::plan::{Ahead, count_ahead};
use crate::table::first_free;
use std::alloc::{AllocError, Global};

/// What a doubling needs, taken before the first item moves.
#[derive(Drop)]
pub struct Widening<V> {
    /// The new groups, with no item. A group that takes over an old list has no places before that.
    pub groups: Vec<Group<V>>,
    /// For each old group the new group that takes over its list, if there is one.
    pub heirs: Vec<Option<u32>>,
    /// An empty list with room for the items of any old group. It holds them once their own list is handed on.
    pub held: Vec<(u64, V)>,
    ghost groups_fit: { vec_capacity groups ≡ vec_len groups },
    ghost heirs_fit: { vec_capacity heirs ≡ vec_len heirs },
    ghost held_room: { vec_capacity held ≡ 64 },
}

/// Whether a new group takes over the list of its old one.
fn is_heir(heirs: &[Option<u32>], group: usize) -> bool
    ensures { IsTrue result ↔ (slice_index_or heirs.now (group / 2) None ≡ Some group) }
{
    if group / 2 >= heirs.len() {
        return false;
    }
    match heirs[group / 2] {
        Some(heir) => heir as usize == group,
        None => false,
    }
}

/// How many places the list of a new group gets: one more than the items that are counted, but none if an old list is
/// handed on.
fn places_for(heirs: &[Option<u32>], group: usize, count: u32) -> usize
    ensures fit { IsFit result count ⊎ (slice_index_or heirs.now (group / 2) None ≡ Some group) }
    ensures few { result ≤ count + 1 }
    ensures none { slice_index_or heirs.now (group / 2) None ≡ Some group → result ≡ 0 }
{
    if is_heir(heirs, group) {
        return 0;
    }
    count as usize + 1
}

/// Groups with no item, whose lists fit the counted items. A group that takes over a list has no places yet.
fn groups_for<V: Drop>(
    alloc: Global,
    counts: &[u32],
    heirs: &[Option<u32>],
) -> Result<Vec<Group<V>>, AllocError>
    ensures count { IfOk result (λ us. vec_len us ≡ length counts.now) }
    ensures free { IfOk result (λ us. (b : ℕ) → slot_at (all_slots us.items) b ≡ None) }
    ensures lens { IfOk result (λ us. lens_of us.items ≡ replicate (length counts.now) 0) }
    ensures rooms { IfOk result (λ us. AreRooms (rooms_of us.items) counts.now heirs.now 0) }
    ensures bare { IfOk result (λ us. HeirsAreBare (rooms_of us.items) heirs.now) }
    ensures few { IfOk result (λ us. (q : ℕ) → slice_index_or (rooms_of us.items) q 0 ≤ slice_index_or counts.now q 0 + 1) }
    ensures room { IfOk result (λ us. vec_capacity us ≡ length counts.now) }
{
    let mut groups = Vec::with_capacity(alloc, counts.len())?;
    for (q, count) in counts.iter().enumerate() {
        let group = Group::with_places(alloc, places_for(heirs, q, *count))?;
        groups.push_reserved(group);
    }
    Ok(groups)
}

/// New groups for `2^bits` buckets, with lists that fit the items that these groups will put there. A new group that
/// takes over one of their lists gets none.
pub fn groups_ahead<V: Drop>(
    alloc: Global,
    groups: &[Group<V>],
    bits: u32,
) -> Result<Widening<V>, AllocError>
    requires size { IsTableSize bits }
    requires small { length (items_in groups.now) < 2 ^ 32 }
    ensures count { IfOk result (λ w. vec_len w.groups ≡ lists_for (2 ^ bits)) }
    ensures free { IfOk result (λ w. (b : ℕ) → slot_at (all_slots w.groups.items) b ≡ None) }
    ensures lists { IfOk result (λ w. ListsFit (2 ^ bits) w.groups.items groups.now w.heirs.items) }
    ensures bare { IfOk result (λ w. HeirsAreBare (rooms_of w.groups.items) w.heirs.items) }
    ensures held { IfOk result (λ w. vec_len w.held ≡ 0) }
    ensures room { IfOk result (λ w. vec_capacity w.held ≡ 64) }
{
    let ahead = count_ahead(alloc, groups, bits)?;
    let Ahead { counts, heirs } = ahead;
    let groups = groups_for(alloc, counts.as_slice(), heirs.as_slice())?;
    let held = Vec::with_capacity(alloc, 64)?;
    Ok(Widening {
        groups,
        heirs,
        held,
    })
}

/// Sets the item of a free bucket, in a list that has a free place.
fn put_ready<V: Drop>(groups: &mut [Group<V>], bucket: u64, rank: u32, item: (u64, V))
    requires within { bucket < 64 * length groups.old }
    requires free { slot_at (all_slots groups.old) bucket ≡ None }
    requires rank { IsRankOf groups.old bucket rank }
    requires room { slice_index_or (lens_of groups.old) (bucket / 64) 0 < slice_index_or (rooms_of groups.old) (bucket / 64) 0 }
    ensures slots { all_slots groups.new ≡ slice_set (all_slots groups.old) bucket (Some item) }
    ensures lens { lens_of groups.new ≡ slice_set (lens_of groups.old) (bucket / 64)
        (slice_index_or (lens_of groups.old) (bucket / 64) 0 + 1) }
    ensures rooms { rooms_of groups.new ≡ rooms_of groups.old }
{
    groups[(bucket / 64) as usize].insert_late((bucket % 64) as u32, rank, item);
}

/// Puts an item with a new key into the first free bucket from its home on. No key comes twice, so none is compared.
fn place<V: Drop>(groups: &mut [Group<V>], bits: u32, item: (u64, V))
    requires size { IsTableSize bits }
    requires ready { CanTake (2 ^ bits) groups.old (item ∷ []) }
    requires fits { RoomsFit (rooms_of groups.old) (with_items (2 ^ bits) (plan_of (2 ^ bits) groups.old) (item ∷ [])).counts }
    ensures taken { HasTaken (2 ^ bits) groups.old groups.new (item ∷ []) }
    ensures rooms { rooms_of groups.new ≡ rooms_of groups.old }
{
    let seat = first_free(groups, bits, home_of(bits, item.0));
    put_ready(groups, seat.bucket, seat.rank, item);
}

/// Puts in the items of a list that isn't handed on, one after another.
fn place_list<V: Drop>(groups: &mut [Group<V>], bits: u32, items: Vec<(u64, V)>)
    requires size { IsTableSize bits }
    requires ready { CanTake (2 ^ bits) groups.old items.items }
    requires fits { RoomsFit (rooms_of groups.old) (with_items (2 ^ bits) (plan_of (2 ^ bits) groups.old) items.items).counts }
    ensures taken { HasTaken (2 ^ bits) groups.old groups.new items.items }
    ensures rooms { rooms_of groups.new ≡ rooms_of groups.old }
{
    for item in items {
        place(groups, bits, item);
    }
}

/// Puts in the items of a list, one after another. Their order is reversed first, because they leave the list at its
/// end.
fn place_items<V: Drop>(groups: &mut [Group<V>], bits: u32, items: &mut Vec<(u64, V)>)
    requires size { IsTableSize bits }
    requires ready { CanTake (2 ^ bits) groups.old items.old.items }
    requires fits { RoomsFit (rooms_of groups.old) (with_items (2 ^ bits) (plan_of (2 ^ bits) groups.old) items.old.items).counts }
    ensures taken { HasTaken (2 ^ bits) groups.old groups.new items.old.items }
    ensures rooms { rooms_of groups.new ≡ rooms_of groups.old }
    ensures none { vec_len items.new ≡ 0 }
    ensures capacity { vec_capacity items.new ≡ vec_capacity items.old }
{
    items.reverse();
    while let Some(item) = items.pop() {
        place(groups, bits, item);
    }
}

/// Moves the items of a list to the end of another that has room for them, and gives the list back without them.
fn emptied<V: Drop>(mut list: Vec<(u64, V)>, held: &mut Vec<(u64, V)>) -> Vec<(u64, V)>
    requires room { vec_len held.old + vec_len list ≤ vec_capacity held.old }
    ensures items { held.new.items ≡ held.old.items ++ list.items }
    ensures held_capacity { vec_capacity held.old ≤ vec_capacity held.new }
    ensures none { vec_len result ≡ 0 }
    ensures capacity { vec_capacity result ≡ vec_capacity list }
{
    match held.append(&mut list) {
        Ok(()) => {}
        Err(_) => unreachable!(),
    }
    list
}

/// Hands a list without items on to the group that takes it over.
fn hand_on<V: Drop>(groups: &mut [Group<V>], heir: u32, list: Vec<(u64, V)>)
    requires none { vec_len list ≡ 0 }
    requires inside { heir < length groups.old }
    requires clear { slice_index_or (lens_of groups.old) heir 0 ≡ 0 }
    ensures slots { all_slots groups.new ≡ all_slots groups.old }
    ensures lens { lens_of groups.new ≡ lens_of groups.old }
    ensures rooms { rooms_of groups.new ≡ slice_set (rooms_of groups.old) heir (vec_capacity list) }
{
    groups[heir as usize].take_list(list);
}

/// Puts in the items of all old groups, one after another. A list that goes to an heir is handed on before its items go
/// in, so that they find it there.
pub fn place_groups<V: Drop>(
    groups: &mut [Group<V>],
    bits: u32,
    heirs: &[Option<u32>],
    mut held: Vec<(u64, V)>,
    old: Vec<Group<V>>,
)
    requires size { IsTableSize bits }
    requires ready { CanTake (2 ^ bits) groups.old (items_in old.items) }
    requires lists { ListsFit (2 ^ bits) groups.old old.items heirs.now }
    requires held { vec_len held ≡ 0 }
    requires room { 64 ≤ vec_capacity held }
    ensures taken { HasTaken (2 ^ bits) groups.old groups.new (items_in old.items) }
    ensures fit { All FitsItems groups.new }
    ensures few { loose_of Nowhere (sizes_of groups.new) ≤ 8 * (length groups.old / 2) }
    ensures more { places_of (sizes_of groups.old) ≤ places_of (sizes_of groups.new) }
    ensures short { past_of (sizes_of groups.new) ≤ past_of (sizes_of old.items) }
    ensures handed { places_of (sizes_of groups.new) ≤ places_of (sizes_of groups.old) + places_of (sizes_of old.items) }
{
    let mut source = 0;
    for group in old {
        let Group { occupied: _, items } = group;
        match heirs[source] {
            Some(heir) => {
                let list = emptied(items, &mut held);
                hand_on(groups, heir, list);
                place_items(groups, bits, &mut held);
            }
            None => place_list(groups, bits, items),
        }
        source += 1;
    }
}
