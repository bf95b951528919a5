// Segments of other numbers: last number, place and front at their edges, for a flash of 1, 2 and 14 groups.
use crate::bytes::trailer;
use format::segment::{Summary, read_segment, write_segment};
use rules::trailer::Trailer;
use std::process::Abort;

// Fifteen trailers up to a last number, of pages 225 to 239.
fn entries_to(last: u32) -> [Trailer; 15] {
    let first = last.saturating_sub(14);
    std::array::from_fn(|i| trailer((first.saturating_add(i as u32), 0, 1, 225 + i as u16, true)))
}

// The segment with this last number and front, written and then read in this place on a disk of so many pages, is read
// back, or says nothing.
fn reads(rt: &impl Abort, last: u32, front: u32, groups: u16, place: u16, pages: u16, fits: bool) {
    let mut page = [5u8; 256];
    let segment = Summary {
        last,
        front,
        entries: entries_to(last),
    };
    assert_eq!(rt; write_segment(&mut page, &segment), Ok(()));
    assert_eq!(rt;
        read_segment(&page, groups, place, pages),
        fits.then_some(segment)
    );
}

// The last number, the groups, and the segment's own place.
static SEATS: [(u32, u16, u16); 12] = [
    (15, 1, 0),
    (30, 1, 1),
    (45, 1, 0),
    (15, 2, 0),
    (30, 2, 1),
    (45, 2, 2),
    (60, 2, 0),
    (15, 14, 0),
    (225, 14, 14),
    (240, 14, 0),
    (3_999_999_990, 2, 1),
    (3_999_999_990, 14, 10),
];

fn seated(rt: &impl Abort, last: u32, groups: u16, own: u16) {
    for place in 0..=16 {
        reads(rt, last, last, groups, place, 240, place == own);
    }
    reads(rt, last, last, groups, own, 239, false);
}

// It is read in no other place.
#[test]
fn places(rt: HostRuntime) {
    for (last, groups, own) in SEATS {
        seated(&rt, last, groups, own);
    }
}

// The last number, the groups, the place, and the lowest front: the larger of 1 and last + 2 - 15 groups.
static FRONTS: [(u32, u16, u16, u32); 9] = [
    (15, 1, 0, 2),
    (15, 2, 0, 1),
    (30, 2, 1, 2),
    (45, 2, 2, 17),
    (195, 14, 12, 1),
    (210, 14, 13, 2),
    (225, 14, 14, 17),
    (3_999_999_990, 2, 1, 3_999_999_962),
    (3_999_999_990, 14, 10, 3_999_999_782),
];

fn fronted(rt: &impl Abort, last: u32, groups: u16, place: u16, least: u32) {
    let below = least.saturating_sub(1);
    let above = last.saturating_add(1);
    for (front, fits) in [
        (0, false),
        (below, false),
        (least, true),
        (last, true),
        (above, false),
    ] {
        reads(rt, last, front, groups, place, 240, fits);
    }
}

#[test]
fn fronts(rt: HostRuntime) {
    for (last, groups, place, least) in FRONTS {
        fronted(&rt, last, groups, place, least);
    }
}

// Last numbers of no segment, and the groups, in whatever place: none, no multiple of 15, above the highest, no groups.
static NEVER: [(u32, u16); 10] = [
    (0, 2),
    (1, 2),
    (14, 2),
    (16, 2),
    (29, 2),
    (31, 14),
    (3_999_999_989, 2),
    (4_000_000_005, 2),
    (4_000_000_005, 14),
    (15, 0),
];

#[test]
fn no_segments(rt: HostRuntime) {
    for (last, groups) in NEVER {
        for place in 0..=16 {
            reads(&rt, last, last, groups, place, 240, false);
        }
    }
}
