// A window over a read buffer over a window, over six pages: page 0 of the pile is page 2 below.
use crate::buffers::two_cuts;
use crate::bytes::{card_page, card_torn, lay, tray_page};
use crate::script::{Shown, TORN, play};
use layers::read_buffer::ReadBuffer;
use layers::window::Window;
use media::card::Card;
use media::tray::Tray;
use medium::Medium;
use std::process::Abort;

// What a strike leaves in a tray; what pages 0 and 1 of the pile then show, and content and mark of page 3 at the end.
#[derive(Clone, Copy)]
struct TrayRow {
    strike: u8,
    zero: Shown,
    one: Shown,
    first: u8,
    mark: u8,
}

const TRAYS: [TrayRow; 3] = [
    TrayRow {
        strike: 0,
        zero: Ok(10),
        one: Ok(20),
        first: 20,
        mark: 1,
    },
    TrayRow {
        strike: 1,
        zero: Ok(90),
        one: Ok(92),
        first: 92,
        mark: 1,
    },
    TrayRow {
        strike: 2,
        zero: TORN,
        one: TORN,
        first: 20,
        mark: 2,
    },
];

// The same of a card, and the tick of page 2 and the number of new sectors of page 3 at the end.
#[derive(Clone, Copy)]
struct CardRow {
    stop: u8,
    zero: Shown,
    one: Shown,
    tick: u8,
    sectors: usize,
}

const CARDS: [CardRow; 3] = [
    CardRow {
        stop: 0,
        zero: Ok(10),
        one: Ok(20),
        tick: 2,
        sectors: 0,
    },
    CardRow {
        stop: 16,
        zero: Ok(90),
        one: Ok(92),
        tick: 1,
        sectors: 16,
    },
    CardRow {
        stop: 8,
        zero: TORN,
        one: TORN,
        tick: 3,
        sectors: 8,
    },
];

// Plays two cuts on a pile over a medium.
fn cut_twice<M: Medium + Drop>(rt: &impl Abort, below: M, zero: Shown, one: Shown) {
    let buffer = ReadBuffer::new(Window::new(1, 9, below));
    play(rt, &mut Window::new(1, 3, buffer), &two_cuts(zero, one));
}

#[test]
fn piles_over_trays(rt: HostRuntime) {
    for row in &TRAYS {
        let mut bytes = [0u8; 1542];
        cut_twice(&rt, Tray::new(&mut bytes, row.strike, 2), row.zero, row.one);
        let mut left = [0u8; 1542];
        lay(&mut left, 514, &tray_page(91, 1));
        lay(&mut left, 771, &tray_page(row.first, row.mark));
        assert!(rt; bytes == left, "{}", row.strike);
    }
}

#[test]
fn piles_over_cards(rt: HostRuntime) {
    let old = card_page(20, [1; 16]);
    let new = card_page(92, [2; 16]);
    for row in &CARDS {
        let mut bytes = [0u8; 1632];
        cut_twice(&rt, Card::new(&mut bytes, row.stop, 2), row.zero, row.one);
        let mut left = [0u8; 1632];
        lay(&mut left, 544, &card_page(91, [row.tick; 16]));
        lay(&mut left, 816, &card_torn(old, new, row.sectors));
        assert!(rt; bytes == left, "{}", row.stop);
    }
}
