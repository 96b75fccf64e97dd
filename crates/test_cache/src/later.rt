//! Later writes: what a cut leaves of them, and what commits them.

use crate::bench::{Fact, Line, first_wrong};
use crate::lists::Step;

/// The first write is committed, and the next two are later writes of its address.
const TWICE: [Line; 10] = [
    Line::Do(Step::WriteDirty(0, 1)),
    Line::Makes(Step::WriteLater(0, 2), 3, 3, 1, 0),
    Line::Makes(Step::WriteLater(0, 3), 2, 3, 1, 0),
    Line::Makes(Step::WriteLater(1, 3), 1, 3, 1, 0),
    Line::HoldsAll,
    Line::See(Fact::Later(3)),
    Line::See(Fact::Buffered(3)),
    Line::Cut,
    Line::HoldsAll,
    Line::See(Fact::Later(0)),
];

#[test]
fn a_cut_takes_two_later_writes_of_an_address_back(rt: HostRuntime) {
    assert_eq!(rt; first_wrong(rt.alloc(), &[], &TWICE), None);
}

const COMMITTED: [Line; 11] = [
    Line::Do(Step::WriteLater(0, 1)),
    Line::Do(Step::WriteClean(4, 1)),
    Line::Do(Step::WriteLater(4, 2)),
    Line::Do(Step::Clean(0)),
    Line::See(Fact::Later(2)),
    Line::See(Fact::Buffered(4)),
    Line::Do(Step::Commit),
    Line::See(Fact::Later(0)),
    Line::Do(Step::WriteLater(0, 2)),
    Line::Cut,
    Line::HoldsAll,
];

#[test]
fn a_commit_keeps_later_writes(rt: HostRuntime) {
    assert_eq!(rt; first_wrong(rt.alloc(), &[], &COMMITTED), None);
}

const FULL: [Line; 5] = [
    Line::Do(Step::WriteLater(0, 1)),
    Line::Do(Step::WriteLater(4, 1)),
    Line::Full(Step::WriteLater(8, 1), 3, 2),
    Line::See(Fact::Later(2)),
    Line::HoldsAll,
];

#[test]
fn a_later_write_is_refused_as_full(rt: HostRuntime) {
    assert_eq!(rt; first_wrong(rt.alloc(), &[], &FULL), None);
}
