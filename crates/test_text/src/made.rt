//! The lines of two made traces, one over a small volume and one over a great one.

use ft_base::Geometry;
use std::test::Fail;
use trace_gen::TraceGen;
use trace_model::Line;

// Another program drew the lines. Its generator gives the words that PCG's authors publish.
#[test]
fn the_lines_are_those_of_the_number(rt: HostRuntime) -> Result<(), Fail> {
    let small = Geometry::new(4, 2, 2, 1, 64)?;
    let mut made = TraceGen::new(1, 4, &small);
    assert_eq!(rt; made.next(), Some(Line::Read { lba: 1, count: 8 }));
    assert_eq!(rt; made.next(), Some(Line::Read { lba: 0, count: 2 }));
    assert_eq!(rt; made.next(), Some(Line::Read { lba: 0, count: 7 }));
    let (lba, count, tag) = (0, 2, 4);
    assert_eq!(rt; made.next(), Some(Line::Write { lba, count, tag }));
    assert_eq!(rt; made.next(), None);
    assert_eq!(rt; made.next(), None);
    let great = Geometry::new(64, 512, 64, 16, 1 << 40)?;
    let mut made = TraceGen::new(7, 2, &great);
    let (lba, count, tag) = (1181, 6, 1);
    assert_eq!(rt; made.next(), Some(Line::Write { lba, count, tag }));
    let (lba, count, tag) = (1_368_306_093, 6, 2);
    assert_eq!(rt; made.next(), Some(Line::Write { lba, count, tag }));
    assert_eq!(rt; made.next(), None);
    Ok(())
}
