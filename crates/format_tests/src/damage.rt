// One byte of a page changed.
use crate::bytes::{Fields, page, trailer, with};
use format::page::{is_like, read_trailer};
use std::process::Abort;

const Q: u32 = 0x14131211;

const BACK: u32 = 0x08070605;

const VERSION: u32 = 0x24232221;

const PAGE: u16 = 0x3231;

const FIELDS: Fields = (Q, BACK, VERSION, PAGE, false);

// Its bytes, all distinct.
const LAST: [u8; 16] = [
    0x11, 0x12, 0x13, 0x14, 0x05, 0x06, 0x07, 0x08, 0x21, 0x22, 0x23, 0x24, 0x31, 0x32, 0, 1,
];

// The place of the changed byte, its value, and what is read on a disk of 0x3232 pages.
static CHANGED: [(usize, u8, Option<Fields>); 26] = [
    // as it was
    (240, 0x11, Some(FIELDS)),
    // changed
    (240, 0x12, Some((0x14131212, BACK, VERSION, PAGE, false))),
    (241, 0x00, Some((0x14130011, BACK, VERSION, PAGE, false))),
    (242, 0xFF, Some((0x14FF1211, BACK, VERSION, PAGE, false))),
    (243, 0x08, Some((0x08131211, BACK, VERSION, PAGE, false))),
    (243, 0x07, None),
    (243, 0xEF, None),
    (244, 0x06, Some((Q, 0x08070606, VERSION, PAGE, false))),
    (245, 0x00, Some((Q, 0x08070005, VERSION, PAGE, false))),
    (246, 0xFF, Some((Q, 0x08FF0605, VERSION, PAGE, false))),
    (247, 0x14, Some((Q, 0x14070605, VERSION, PAGE, false))),
    (247, 0x15, None),
    (248, 0x00, Some((Q, BACK, 0x24232200, PAGE, false))),
    (249, 0xFF, Some((Q, BACK, 0x2423FF21, PAGE, false))),
    (250, 0x00, Some((Q, BACK, 0x24002221, PAGE, false))),
    (251, 0xEE, Some((Q, BACK, 0xEE232221, PAGE, false))),
    (251, 0xEF, None),
    (252, 0x30, Some((Q, BACK, VERSION, 0x3230, false))),
    (252, 0x32, None),
    (253, 0x00, Some((Q, BACK, VERSION, 0x0031, false))),
    (253, 0x33, None),
    (254, 1, Some((Q, BACK, VERSION, PAGE, true))),
    (254, 2, None),
    (254, 0xFF, None),
    (255, 0, None),
    (255, 2, None),
];

fn all_changed(rt: &impl Abort, rows: &[(usize, u8, Option<Fields>)]) {
    let whole = page(LAST);
    for &(place, value, fields) in rows {
        let read = read_trailer(&with(&whole, place, value), 0x3232);
        assert_eq!(rt; read, fields.map(trailer), "{value} at {place}");
    }
}

#[test]
fn changed_fields(rt: HostRuntime) {
    all_changed(&rt, &CHANGED);
}

// Every value at a place of the last sixteen bytes but the entry's own is seen, and none in the body.
fn compares(rt: &impl Abort, place: usize) {
    let entry = trailer(FIELDS);
    let whole = page(LAST);
    for value in 0..=255u8 {
        let changed = with(&whole, place, value);
        let like = place < 240 || changed == whole;
        assert!(rt; is_like(&changed, &entry) == like, "{value}");
    }
}

#[test]
fn every_byte_compared(rt: HostRuntime) {
    for place in 0..256 {
        compares(&rt, place);
    }
}
