// A read buffer shows what the medium below has: scripts that go the same way with and without one.
use crate::script::Step::*;
use crate::script::{BLACK, DARK, DONE, NOWHERE, OUTSIDE, SHORT, Shown, Step, TORN, play};
use layers::read_buffer::ReadBuffer;
use layers::window::Window;
use media::card::Card;
use media::tray::Tray;
use medium::Medium;
use std::process::Abort;

// Six pages and four copies: pages are read and written while their copies are the newest, older, or gone.
const SIX_PAGES: [Step; 32] = [
    Read(0, TORN),
    Write(0, 10, DONE),
    Write(1, 20, DONE),
    Write(2, 30, DONE),
    Write(3, 40, DONE),
    Write(4, 50, DONE),
    Write(5, 60, DONE),
    Read(0, Ok(10)),
    Read(1, Ok(20)),
    Read(2, Ok(30)),
    Read(3, Ok(40)),
    Read(4, Ok(50)),
    Read(5, Ok(60)),
    Read(5, Ok(60)),
    Read(2, Ok(30)),
    Write(2, 31, DONE),
    Read(2, Ok(31)),
    Write(0, 11, DONE),
    Read(0, Ok(11)),
    Read(2, Ok(31)),
    Write(0, 12, DONE),
    Read(4, Ok(50)),
    Read(3, Ok(40)),
    Read(1, Ok(20)),
    Read(5, Ok(60)),
    Read(0, Ok(12)),
    Read(2, Ok(31)),
    ReadInto(255, 2, SHORT),
    ReadInto(257, 2, SHORT),
    Read(6, NOWHERE),
    Write(6, 70, OUTSIDE),
    Read(2, Ok(31)),
];

// What a strike leaves, in a tray and in a card, and what pages 0 and 1 then show.
#[derive(Clone, Copy)]
struct Row {
    strike: u8,
    stop: u8,
    zero: Shown,
    one: Shown,
}

const CUTS: [Row; 3] = [
    Row {
        strike: 0,
        stop: 0,
        zero: Ok(10),
        one: Ok(20),
    },
    Row {
        strike: 1,
        stop: 16,
        zero: Ok(90),
        one: Ok(92),
    },
    Row {
        strike: 2,
        stop: 8,
        zero: TORN,
        one: TORN,
    },
];

// Two pages that were written and read, with a charge of 2, and a strike on each: what is read after a strike is not the
// copy from before it.
pub fn two_cuts(zero: Shown, one: Shown) -> [Step; 17] {
    [
        Write(0, 10, DONE),
        Write(1, 20, DONE),
        Read(0, Ok(10)),
        Read(1, Ok(20)),
        Write(0, 90, DARK),
        Read(0, BLACK),
        Read(1, BLACK),
        Relight(1),
        Read(0, zero),
        Read(1, Ok(20)),
        Write(0, 91, DONE),
        Read(0, Ok(91)),
        Write(1, 92, DARK),
        Read(0, BLACK),
        Relight(0),
        Read(1, one),
        Read(0, Ok(91)),
    ]
}

// Media that are the same: one alone, one under a read buffer, and one under a window that shows all its pages.
fn three_ways<M: Medium + Drop>(
    rt: &impl Abort,
    script: &[Step],
    mut alone: M,
    under: M,
    behind: M,
) {
    play(rt, &mut alone, script);
    play(rt, &mut ReadBuffer::new(under), script);
    play(rt, &mut Window::new(0, 65535, behind), script);
}

// On zero bytes.
fn on_both(rt: &impl Abort, row: Row, charge: u32, script: &[Step]) {
    three_ways(
        rt,
        script,
        Tray::new(&mut [0; 1542], row.strike, charge),
        Tray::new(&mut [0; 1542], row.strike, charge),
        Tray::new(&mut [0; 1542], row.strike, charge),
    );
    three_ways(
        rt,
        script,
        Card::new(&mut [0; 1632], row.stop, charge),
        Card::new(&mut [0; 1632], row.stop, charge),
        Card::new(&mut [0; 1632], row.stop, charge),
    );
}

#[test]
fn six_pages(rt: HostRuntime) {
    for row in CUTS {
        on_both(&rt, row, 9, &SIX_PAGES);
    }
}

#[test]
fn cuts(rt: HostRuntime) {
    for row in CUTS {
        on_both(&rt, row, 2, &two_cuts(row.zero, row.one));
    }
}
