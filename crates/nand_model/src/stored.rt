//! The one copy by which a page's bytes enter memory that has room for them.
ghost use Rattle.std.specs.Prelude.{◌≡◌, ◌<◌, ◌≤◌, ◌+◌, ◌==◌, ℕ, if◌then◌else◌, max, slice_index_or, vec_len};
ghost use Rattle.std.specs.Mem.{FitsInMemory};
ghost use Rattle.std.specs.Vec.{vec_capacity};

use std::slice::from_ref;

/// Puts a copy of `item` at a place of `items`, or right behind them, if there is room for it. It is copied once, from
/// its own place: a value that is pushed would be copied to the stack first.
pub(crate) fn put_copy<T: Copy>(items: &mut Vec<T>, at: usize, item: &T)
    requires fits { FitsInMemory T.row }
    requires near { at ≤ vec_len items.old }
    requires room { at < vec_capacity items.old }
    ensures item { (k : ℕ) (d : T) → slice_index_or items.new.items k d
        ≡ (if k == at then item.now else slice_index_or items.old.items k d) }
    ensures len { vec_len items.new ≡ max (vec_len items.old) (at + 1) }
    ensures capacity { vec_capacity items.old ≤ vec_capacity items.new }
{
    if at < items.len() {
        items[at] = *item;
    } else {
        // Room is reserved, so this can't fail.
        let _ = items.extend_from_slice(from_ref(item));
    }
}
