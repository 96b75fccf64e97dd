//! Laws of the list on which the layers above rest.
ghost use Rattle.std.specs.Prelude.{◌≡◌, ◌≢◌, ◌≤◌, ◌+◌, ◌==◌, ◌&&◌, ◌||◌, not, ℕ, true, List, ◌∷◌, ◌++◌, [], nat_eq, length, slice_get, Some};
ghost use Rattle.std.specs.List.{IsDistinct};
ghost use Rattle.log_blocks.specs.Logs.{LogBlocksValue, AreSoundLogs, is_in, without_block, last_of};

/// After a block was put at the end, the list has the earlier blocks and that block, which is the last.
pub fn laws_of_a_block_put_at_the_end()
    ensures is_in { (other block : ℕ) (list : List ℕ) → is_in other (list ++ block ∷ []) ≡ (is_in other list || (other == block)) }
    ensures last { (block : ℕ) (list : List ℕ) → last_of (list ++ block ∷ []) ≡ Some block }
{}

/// After a block was taken out, the list has the earlier blocks except that one. If another block was the last, it
/// still is. If the blocks are distinct, there is one fewer; and if the oldest is taken out, all blocks after it are
/// left.
pub fn laws_of_a_block_taken_out()
    ensures is_in { (other block : ℕ) (list : List ℕ) → is_in other (without_block block list)
        ≡ (not (block == other) && is_in other list) }
    ensures last { (block last : ℕ) (list : List ℕ) → block ≢ last → last_of list ≡ Some last
        → last_of (without_block block list) ≡ Some last }
    ensures length { (block : ℕ) (list : List ℕ) → IsDistinct nat_eq list → is_in block list ≡ true
        → length (without_block block list) + 1 ≡ length list }
    ensures oldest { (block : ℕ) (list : List ℕ) → IsDistinct nat_eq (block ∷ list) → without_block block (block ∷ list) ≡ list }
{}

/// A block that stands at a place of the list is in it. If pages are left, the open block is the last.
pub fn laws_of_places()
    ensures is_in { (list : List ℕ) (i block : ℕ) → slice_get list i ≡ Some block → is_in block list ≡ true }
    ensures open_block { (logs : LogBlocksValue) → AreSoundLogs logs → 1 ≤ logs.room → logs.open_block ≡ last_of logs.used }
{}
