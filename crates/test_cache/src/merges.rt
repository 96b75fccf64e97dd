//! Merges under the commands of the cache: log blocks become free, and clean groups give way.

use crate::bench::{Line, first_wrong};

const TWO_GROUPS: [u64; 8] = [0, 1, 2, 3, 4, 5, 6, 7];

/// Two groups, five times with new blocks each time.
const FIVE_ROUNDS: [Line; 6] = [
    Line::WriteAll(&TWO_GROUPS, 1),
    Line::WriteAll(&TWO_GROUPS, 2),
    Line::WriteAll(&TWO_GROUPS, 3),
    Line::WriteAll(&TWO_GROUPS, 4),
    Line::WriteAll(&TWO_GROUPS, 5),
    Line::HoldsAll,
];

#[test]
fn no_group_gives_way_where_all_have_a_data_block(rt: HostRuntime) {
    assert_eq!(rt; first_wrong(rt.alloc(), &[], &FIVE_ROUNDS), None);
}

/// A third clean group needs the room, and then an address gets a newer block.
const THIRD_GROUP: [Line; 3] = [
    Line::WriteAll(&[0, 1, 4, 5, 8, 9, 10, 11, 2, 3, 6, 7], 1),
    Line::WriteAll(&[1], 2),
    Line::HoldsLess(1),
];

#[test]
fn a_clean_group_gives_way_to_a_third(rt: HostRuntime) {
    assert_eq!(rt; first_wrong(rt.alloc(), &[], &THIRD_GROUP), None);
}
