//! A small page of docs, and the examples that are found in it: words, lines, status, and the text that is shown.

use crate::example::is_text;
use crate::page::examples_in;
use std::test::Fail;

#[test]
fn a_table_belongs_to_the_command_before_it(rt: HostRuntime) -> Result<(), Fail> {
    let alloc = rt.alloc();
    let page =
        "    ./flashtier gen --count 5 < examples/some.trace # ends with 2\n\n`./flashtier replay --pages 4`:\n\n\
        | Trace | Text | What happens |\n|---|---|---|\n| `w 0 1 1`, `i` | `wrote 0 1` | |\n| | `idle` | |\n\nEnd.\n";
    let examples = examples_in(alloc, page)?;
    assert_eq!(rt; examples.len(), 2);
    assert_eq!(rt; (examples[0].status, examples[1].status), (2, 0));
    assert!(rt; matches!(&examples[0].name, Some(name) if name.as_str() == "some"));
    assert!(rt; examples[1].name.is_none() && examples[1].has_text() && !examples[0].has_text());
    assert_eq!(rt; (examples[0].words.len(), examples[0].lines.len()), (3, 0));
    assert_eq!(rt;
        (
            examples[1].words.len(),
            examples[1].lines.len(),
            examples[1].shown.len()
        ),
        (3, 2, 2)
    );
    assert!(rt; is_text(examples[1].shown.as_slice(), b"wrote 0 1\nidle\n"));
    assert!(rt; !is_text(examples[1].shown.as_slice(), b"wrote 0 1\nidle\nidle\n"));
    assert!(rt; !is_text(examples[1].shown.as_slice(), b"wrote 0 1\n"));
    Ok(())
}
