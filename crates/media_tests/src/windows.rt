// Which pages of the medium below a window shows.
use crate::bytes::tray_page;
use crate::script::Step::*;
use crate::script::{Answer, BLACK, DARK, NOWHERE, OUTSIDE, Shown, Step, play};
use layers::window::Window;
use media::strike::Strike;
use media::tray::Tray;
use medium::Cause;

// A window over four pages with contents from 10, 20, 30 and 40 on: its size, what its pages 0 to 3 show, if it has
// them, and the pages below once 80 is written to page 0 and 90 to page 1, where it has them.
#[derive(Clone, Copy)]
struct Row {
    first: u16,
    count: u16,
    size: u16,
    pages: [Option<u8>; 4],
    after: [u8; 4],
}

const WINDOWS: [Row; 16] = [
    Row {
        first: 0,
        count: 4,
        size: 4,
        pages: [Some(10), Some(20), Some(30), Some(40)],
        after: [80, 90, 30, 40],
    },
    Row {
        first: 0,
        count: 3,
        size: 3,
        pages: [Some(10), Some(20), Some(30), None],
        after: [80, 90, 30, 40],
    },
    Row {
        first: 0,
        count: 1,
        size: 1,
        pages: [Some(10), None, None, None],
        after: [80, 20, 30, 40],
    },
    Row {
        first: 0,
        count: 65535,
        size: 4,
        pages: [Some(10), Some(20), Some(30), Some(40)],
        after: [80, 90, 30, 40],
    },
    Row {
        first: 1,
        count: 2,
        size: 2,
        pages: [Some(20), Some(30), None, None],
        after: [10, 80, 90, 40],
    },
    Row {
        first: 1,
        count: 3,
        size: 3,
        pages: [Some(20), Some(30), Some(40), None],
        after: [10, 80, 90, 40],
    },
    Row {
        first: 1,
        count: 4,
        size: 3,
        pages: [Some(20), Some(30), Some(40), None],
        after: [10, 80, 90, 40],
    },
    Row {
        first: 1,
        count: 65535,
        size: 3,
        pages: [Some(20), Some(30), Some(40), None],
        after: [10, 80, 90, 40],
    },
    Row {
        first: 2,
        count: 65535,
        size: 2,
        pages: [Some(30), Some(40), None, None],
        after: [10, 20, 80, 90],
    },
    Row {
        first: 3,
        count: 1,
        size: 1,
        pages: [Some(40), None, None, None],
        after: [10, 20, 30, 80],
    },
    Row {
        first: 3,
        count: 65535,
        size: 1,
        pages: [Some(40), None, None, None],
        after: [10, 20, 30, 80],
    },
    Row {
        first: 0,
        count: 0,
        size: 0,
        pages: [None; 4],
        after: [10, 20, 30, 40],
    },
    Row {
        first: 1,
        count: 0,
        size: 0,
        pages: [None; 4],
        after: [10, 20, 30, 40],
    },
    Row {
        first: 4,
        count: 1,
        size: 0,
        pages: [None; 4],
        after: [10, 20, 30, 40],
    },
    Row {
        first: 65535,
        count: 1,
        size: 0,
        pages: [None; 4],
        after: [10, 20, 30, 40],
    },
    Row {
        first: 65535,
        count: 65535,
        size: 0,
        pages: [None; 4],
        after: [10, 20, 30, 40],
    },
];

// A tray's bytes with these pages, and some spare bytes.
fn four_pages(firsts: [u8; 4]) -> [u8; 1100] {
    let mut bytes = [9u8; 1100];
    for (page, first) in bytes.chunks_exact_mut(257).zip(firsts) {
        page.copy_from_slice(&tray_page(first, 1));
    }
    bytes
}

fn shown(page: Option<u8>) -> Shown {
    page.ok_or(Cause::Outside)
}

fn written(page: Option<u8>) -> Answer {
    page.map(|_| ()).ok_or(Cause::Outside)
}

fn in_the_light(row: &Row) -> [Step; 13] {
    let [a, b, c, d] = row.pages;
    [
        Size(row.size),
        Read(0, shown(a)),
        Read(1, shown(b)),
        Read(2, shown(c)),
        Read(3, shown(d)),
        Read(row.count, NOWHERE),
        Read(65534, NOWHERE),
        ReadInto(255, 65535, NOWHERE),
        Write(row.count, 200, OUTSIDE),
        Write(65534, 200, OUTSIDE),
        WriteFrom(255, 65535, 200, OUTSIDE),
        Write(0, 80, written(a)),
        Write(1, 90, written(b)),
    ]
}

// Dark comes before all else, and the size stays.
fn in_the_dark(row: &Row) -> [Step; 7] {
    [
        Size(row.size),
        Read(0, BLACK),
        Read(65535, BLACK),
        ReadInto(255, row.count, BLACK),
        Write(0, 200, DARK),
        Write(65535, 200, DARK),
        WriteFrom(255, row.count, 200, DARK),
    ]
}

#[test]
fn windows(rt: HostRuntime) {
    for row in &WINDOWS {
        let mut bytes = four_pages([10, 20, 30, 40]);
        let tray = Tray::new(&mut bytes, Strike::Torn as u8, 2);
        play(
            &rt,
            &mut Window::new(row.first, row.count, tray),
            &in_the_light(row),
        );
        assert!(rt; bytes == four_pages(row.after), "{}", row.first);
    }
}

#[test]
fn dark_windows(rt: HostRuntime) {
    for row in &WINDOWS {
        let mut bytes = four_pages([10, 20, 30, 40]);
        let mut tray = Tray::new(&mut bytes, Strike::Old as u8, 0);
        play(&rt, &mut tray, &[Write(0, 50, DARK)]);
        play(
            &rt,
            &mut Window::new(row.first, row.count, tray),
            &in_the_dark(row),
        );
        assert!(rt; bytes == four_pages([10, 20, 30, 40]), "{}", row.first);
    }
}
