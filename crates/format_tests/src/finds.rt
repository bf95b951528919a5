// What is found: the highest rank for a page, the first among equals.
use ranked::{frame_of, highest, valid_entry};
use rules::table::Card;
use rules::trailer::Trailer;
use std::process::Abort;

// A record's page and rank.
type Record = (Option<u16>, u32);

// Three records, how many of them are looked at, the page, and the place that is found.
type Row = (Record, Record, Record, usize, u16, Option<usize>);

const TOP: u32 = 4_294_967_295;

static ROWS: [Row; 24] = [
    // none is looked at
    ((Some(3), 5), (Some(3), 5), (Some(3), 5), 0, 3, None),
    // none has the page
    ((Some(2), 5), (Some(4), 6), (None, 7), 3, 3, None),
    ((None, 0), (None, 0), (None, 0), 3, 0, None),
    // one has it
    ((Some(3), 5), (Some(2), 1), (Some(4), 1), 3, 3, Some(0)),
    ((Some(2), 1), (Some(3), 5), (Some(4), 1), 3, 3, Some(1)),
    ((Some(3), 5), (Some(2), 1), (Some(4), 1), 1, 3, Some(0)),
    // the last record has it, and is looked at or not
    ((Some(2), 1), (Some(4), 1), (Some(3), 5), 3, 3, Some(2)),
    ((Some(2), 1), (Some(4), 1), (Some(3), 5), 2, 3, None),
    // ranks that rise, fall, or do both
    ((Some(3), 1), (Some(3), 2), (Some(3), 3), 3, 3, Some(2)),
    ((Some(3), 1), (Some(3), 2), (Some(3), 3), 2, 3, Some(1)),
    ((Some(3), 3), (Some(3), 2), (Some(3), 1), 3, 3, Some(0)),
    ((Some(3), 1), (Some(3), 9), (Some(3), 8), 3, 3, Some(1)),
    ((Some(3), 8), (Some(3), 1), (Some(3), 9), 3, 3, Some(2)),
    ((Some(3), TOP), (Some(3), 1), (Some(3), 0), 3, 3, Some(0)),
    (
        (Some(3), 0),
        (Some(3), 4294967294),
        (Some(3), TOP),
        3,
        3,
        Some(2),
    ),
    // the first among equals
    ((Some(3), 5), (Some(3), 5), (Some(3), 5), 3, 3, Some(0)),
    ((Some(3), 4), (Some(3), 5), (Some(3), 5), 3, 3, Some(1)),
    (
        (Some(3), TOP),
        (Some(2), TOP),
        (Some(3), TOP),
        3,
        3,
        Some(0),
    ),
    // rank 0
    ((Some(2), 0), (Some(3), 0), (Some(3), 0), 3, 3, Some(1)),
    ((Some(3), 0), (Some(3), 0), (Some(3), 1), 3, 3, Some(2)),
    // a higher rank for another page, or for none
    ((Some(2), 9), (Some(3), 5), (Some(4), 9), 3, 3, Some(1)),
    ((None, 9), (Some(259), 9), (Some(3), 0), 3, 3, Some(2)),
    // the lowest and the highest page
    ((None, 9), (Some(0), 1), (None, 9), 3, 0, Some(1)),
    (
        (Some(65534), 9),
        (Some(65535), 1),
        (Some(255), 9),
        3,
        65535,
        Some(1),
    ),
];

// A directory with these records: each entry has its place as its back pointer.
fn directory(records: [Record; 3]) -> [Option<Trailer>; 3] {
    std::array::from_fn(|i| {
        let (page, q) = records[i];
        page.map(|page| Trailer {
            q,
            back: i as u32,
            version: 100 - i as u32,
            page,
            dirty: true,
        })
    })
}

// A RAM table with these records; holds rise along it.
fn table(records: [Record; 3]) -> [Card; 3] {
    std::array::from_fn(|i| {
        let (page, version) = records[i];
        Card {
            page,
            version,
            dirty: false,
            fdirty: false,
            hold: i as u32,
        }
    })
}

// The first so many records have it there.
fn finds(rt: &impl Abort, i: usize, row: &Row) {
    let (first, second, third, count, page, found) = *row;
    let records = [first, second, third];
    assert!(rt; count <= 3);
    let entries = directory(records);
    assert_eq!(rt; highest(&entries[..count], page), found, "row {i}");
    let valid = found.and_then(|place| *entries.get(place)?);
    assert_eq!(rt; valid_entry(&entries[..count], page), valid, "row {i}");
    let cards = table(records);
    assert_eq!(rt; highest(&cards[..count], page), found, "row {i}");
    assert_eq!(rt; frame_of(&cards[..count], page), found, "row {i}");
}

#[test]
fn found(rt: HostRuntime) {
    for (i, row) in ROWS.iter().enumerate() {
        finds(&rt, i, row);
    }
}
