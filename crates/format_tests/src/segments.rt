// A segment page to the byte, and one byte of it changed.
use crate::bytes::{Fields, trailer, with};
use format::segment::{Summary, read_segment, write_segment};
use std::process::Abort;

// The first fifteen numbers, on a disk of 8 pages.
static FIFTEEN: [Fields; 15] = [
    (1, 0, 1, 3, true),
    (2, 0, 1, 0, true),
    (3, 1, 2, 3, true),
    (4, 0, 1, 7, false),
    (5, 2, 2, 0, true),
    (6, 4, 1, 7, false),
    (7, 0, 0x04030201, 5, true),
    (8, 3, 3, 3, true),
    (9, 8, 4, 3, true),
    (10, 9, 4, 3, false),
    (11, 0, 200, 1, true),
    (12, 11, 201, 1, true),
    (13, 5, 4_000_000_000, 0, true),
    (14, 12, 202, 1, false),
    (15, 14, 203, 1, true),
];

// Segment 0 with front 1 that describes them: a row for each, and last, front, first, 15, 0 and 2.
static ROWS: [[u8; 16]; 16] = [
    [1, 0, 0, 0, 0, 0, 0, 0, 1, 0, 0, 0, 3, 0, 1, 1],
    [2, 0, 0, 0, 0, 0, 0, 0, 1, 0, 0, 0, 0, 0, 1, 1],
    [3, 0, 0, 0, 1, 0, 0, 0, 2, 0, 0, 0, 3, 0, 1, 1],
    [4, 0, 0, 0, 0, 0, 0, 0, 1, 0, 0, 0, 7, 0, 0, 1],
    [5, 0, 0, 0, 2, 0, 0, 0, 2, 0, 0, 0, 0, 0, 1, 1],
    [6, 0, 0, 0, 4, 0, 0, 0, 1, 0, 0, 0, 7, 0, 0, 1],
    [7, 0, 0, 0, 0, 0, 0, 0, 1, 2, 3, 4, 5, 0, 1, 1],
    [8, 0, 0, 0, 3, 0, 0, 0, 3, 0, 0, 0, 3, 0, 1, 1],
    [9, 0, 0, 0, 8, 0, 0, 0, 4, 0, 0, 0, 3, 0, 1, 1],
    [10, 0, 0, 0, 9, 0, 0, 0, 4, 0, 0, 0, 3, 0, 0, 1],
    [11, 0, 0, 0, 0, 0, 0, 0, 200, 0, 0, 0, 1, 0, 1, 1],
    [12, 0, 0, 0, 11, 0, 0, 0, 201, 0, 0, 0, 1, 0, 1, 1],
    [13, 0, 0, 0, 5, 0, 0, 0, 0, 40, 107, 238, 0, 0, 1, 1],
    [14, 0, 0, 0, 12, 0, 0, 0, 202, 0, 0, 0, 1, 0, 0, 1],
    [15, 0, 0, 0, 14, 0, 0, 0, 203, 0, 0, 0, 1, 0, 1, 1],
    [15, 0, 0, 0, 1, 0, 0, 0, 1, 0, 0, 0, 15, 0, 0, 2],
];

pub(crate) fn fifteen() -> Summary {
    Summary {
        last: 15,
        front: 1,
        entries: FIFTEEN.map(trailer),
    }
}

// A page of these rows.
fn flat(rows: [[u8; 16]; 16]) -> [u8; 256] {
    let mut page = [0u8; 256];
    page.copy_from_slice(rows.as_flattened());
    page
}

pub(crate) fn segment_page() -> [u8; 256] {
    flat(ROWS)
}

#[test]
fn to_the_byte(rt: HostRuntime) {
    let mut into = [5u8; 256];
    assert_eq!(rt; write_segment(&mut into, &fifteen()), Ok(()));
    assert!(rt; into == segment_page());
    assert_eq!(rt; read_segment(&into, 2, 0, 8), Some(fifteen()));
}

// A changed byte at a place of the last sixteen: only the front may be another, from 1 to 15.
fn ending_changed(rt: &impl Abort, place: usize) {
    let whole = segment_page();
    for value in 0..=255u8 {
        let changed = with(&whole, place, value);
        let fits = changed == whole || place == 244 && (1..=15).contains(&value);
        let read = Summary {
            front: u32::from(changed[244]),
            ..fifteen()
        };
        assert_eq!(rt;
            read_segment(&changed, 2, 0, 8),
            fits.then_some(read),
            "{value}"
        );
    }
}

#[test]
fn every_ending_byte(rt: HostRuntime) {
    for place in 240..256 {
        ending_changed(&rt, place);
    }
}

// A byte of an entry, its new value, and whether the segment is still one.
static CHANGED: [(usize, u8, bool); 20] = [
    (0, 0, false),
    (0, 16, false),
    (1, 1, false),
    (2, 1, false),
    (3, 1, false),
    (4, 0, true),
    (4, 15, false),
    (5, 1, false),
    (8, 0, false),
    (8, 99, true),
    (11, 238, true),
    (11, 239, false),
    (12, 7, true),
    (12, 8, false),
    (13, 1, false),
    (14, 0, true),
    (14, 1, true),
    (14, 2, false),
    (15, 0, false),
    (15, 2, false),
];

// A segment that is read is written again as it was.
fn reads(rt: &impl Abort, page: &[u8; 256], fits: bool) {
    let Some(read) = read_segment(page, 2, 0, 8) else {
        assert!(rt; !fits);
        return;
    };
    assert!(rt; fits);
    let mut again = [5u8; 256];
    assert_eq!(rt; write_segment(&mut again, &read), Ok(()));
    assert!(rt; again == *page);
}

fn entry_changed(rt: &impl Abort, entry: usize) {
    assert!(rt; entry < 15);
    let whole = segment_page();
    for &(offset, value, fits) in &CHANGED {
        let changed = with(&whole, (16 * entry).saturating_add(offset), value);
        reads(rt, &changed, fits);
    }
}

#[test]
fn changed_entries(rt: HostRuntime) {
    for entry in [0, 1, 10, 14] {
        entry_changed(&rt, entry);
    }
}

// Two entries in each other's place, or one in two places.
const MOVED: [(usize, usize); 4] = [(0, 1), (0, 14), (6, 7), (13, 14)];

fn moved(rt: &impl Abort, i: usize, k: usize) {
    assert!(rt; i < 15 && k < 15);
    let mut twice = ROWS;
    twice[i] = ROWS[k];
    let mut swapped = ROWS;
    swapped.swap(i, k);
    reads(rt, &flat(twice), false);
    reads(rt, &flat(swapped), false);
}

#[test]
fn moved_entries(rt: HostRuntime) {
    for (i, k) in MOVED {
        moved(&rt, i, k);
    }
}
