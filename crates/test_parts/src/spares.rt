//! The spare bytes of a data page, byte by byte, and bytes that the reader refuses.

use page_oob::{SpareKind, read_spare, write_spare};

const DATA_PAGE: [u8; 32] = *b"FTSP\x01\0\0\0\0\0\0\0\0\0\0\x05\0\0\0\0\0\0\0\0\0\0\0\0\0\0\0\0";

#[test]
fn spare_bytes_as_written_down(rt: HostRuntime) {
    let spare = write_spare(SpareKind::Page, 0, 5);
    assert!(rt; spare.0 == DATA_PAGE);
    let found = read_spare(&spare);
    assert!(rt; found == Some((SpareKind::Page, 0, 5)));
    let mut marked = spare;
    marked.0[5] = 1;
    assert!(rt; read_spare(&marked).is_none(), "a data page of an era");
}
