// Trailers as bytes, worked out by hand, proper and not.
use crate::bytes::{Fields, body, page, trailer};
use format::page::{is_like, read_trailer, write_page};
use std::process::Abort;

// What is written, its sixteen bytes, and whether that is proper on a disk of 65,535 pages.
static WRITTEN: [(Fields, [u8; 16], bool); 8] = [
    // the first save of page 3
    (
        (1, 0, 1, 3, true),
        [1, 0, 0, 0, 0, 0, 0, 0, 1, 0, 0, 0, 3, 0, 1, 1],
        true,
    ),
    // all bytes distinct
    (
        (0x14131211, 0x08070605, 0x24232221, 0x3231, false),
        [
            0x11, 0x12, 0x13, 0x14, 0x05, 0x06, 0x07, 0x08, 0x21, 0x22, 0x23, 0x24, 0x31, 0x32, 0,
            1,
        ],
        true,
    ),
    // clean
    (
        (5, 2, 3, 0, false),
        [5, 0, 0, 0, 2, 0, 0, 0, 3, 0, 0, 0, 0, 0, 0, 1],
        true,
    ),
    // the highest of each
    (
        (4_000_000_000, 3_999_999_999, 4_000_000_000, 65534, true),
        [
            0, 40, 107, 238, 255, 39, 107, 238, 0, 40, 107, 238, 254, 255, 1, 1,
        ],
        true,
    ),
    // each byte turning over into the next
    (
        (0x01000000, 0x00010000, 0x00000100, 0x0100, true),
        [0, 0, 0, 1, 0, 0, 1, 0, 0, 1, 0, 0, 0, 1, 1, 1],
        true,
    ),
    // not proper, and written as it is
    (
        (0, 0, 0, 0, false),
        [0, 0, 0, 0, 0, 0, 0, 0, 0, 0, 0, 0, 0, 0, 0, 1],
        false,
    ),
    (
        (0xFFFFFFFF, 0xFFFFFFFF, 0xFFFFFFFF, 0xFFFF, true),
        [
            255, 255, 255, 255, 255, 255, 255, 255, 255, 255, 255, 255, 255, 255, 1, 1,
        ],
        false,
    ),
    (
        (7, 8, 9, 10, true),
        [7, 0, 0, 0, 8, 0, 0, 0, 9, 0, 0, 0, 10, 0, 1, 1],
        false,
    ),
];

// A page is written over whatever stood there, and read back if it is proper.
fn writes(rt: &impl Abort, row: usize, fields: Fields, last: [u8; 16], proper: bool) {
    let written = trailer(fields);
    let mut into = [5u8; 256];
    assert_eq!(rt;
        write_page(&mut into, &body(), &written),
        Ok(()),
        "row {row}"
    );
    assert!(rt; into == page(last), "row {row}");
    assert!(rt; is_like(&into, &written), "row {row}");
    assert_eq!(rt;
        read_trailer(&into, 65535),
        proper.then_some(written),
        "row {row}"
    );
}

#[test]
fn written_trailers(rt: HostRuntime) {
    for (i, &(fields, last, proper)) in WRITTEN.iter().enumerate() {
        writes(&rt, i, fields, last, proper);
    }
}
