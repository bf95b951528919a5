// What a power cut in a write leaves: in the bytes, and to be read once the power is back.
use crate::bytes::{card_page, card_torn, laid, tray_page};
use crate::script::Step::*;
use crate::script::{BLACK, DARK, Shown, Step, TORN, play};
use media::card::Card;
use media::tray::Tray;

// A strike on a page with content from 30 on, in a write of that from 70 on: a tray's number; what a read shows then,
// and the content and the mark that stand in the bytes.
#[derive(Clone, Copy)]
struct TrayRow {
    strike: u8,
    shown: Shown,
    first: u8,
    mark: u8,
}

const TRAYS: [TrayRow; 5] = [
    TrayRow {
        strike: 0,
        shown: Ok(30),
        first: 30,
        mark: 1,
    },
    TrayRow {
        strike: 1,
        shown: Ok(70),
        first: 70,
        mark: 1,
    },
    TrayRow {
        strike: 2,
        shown: TORN,
        first: 30,
        mark: 2,
    },
    TrayRow {
        strike: 3,
        shown: TORN,
        first: 30,
        mark: 2,
    },
    TrayRow {
        strike: 255,
        shown: TORN,
        first: 30,
        mark: 2,
    },
];

// The same on a card: its stop; what a read shows then, and how many sectors are new.
#[derive(Clone, Copy)]
struct CardRow {
    stop: u8,
    shown: Shown,
    sectors: usize,
}

const CARDS: [CardRow; 7] = [
    CardRow {
        stop: 0,
        shown: Ok(30),
        sectors: 0,
    },
    CardRow {
        stop: 1,
        shown: TORN,
        sectors: 1,
    },
    CardRow {
        stop: 8,
        shown: TORN,
        sectors: 8,
    },
    CardRow {
        stop: 15,
        shown: TORN,
        sectors: 15,
    },
    CardRow {
        stop: 16,
        shown: Ok(70),
        sectors: 16,
    },
    CardRow {
        stop: 17,
        shown: Ok(70),
        sectors: 16,
    },
    CardRow {
        stop: 255,
        shown: Ok(70),
        sectors: 16,
    },
];

// Half a write on half a write never makes a whole page. The ticks were 4; those of the new half are 1, 2, 1, 2 and 1.
const HALVES: [Step; 15] = [
    Write(1, 70, DARK),
    Relight(0),
    Read(1, TORN),
    Write(1, 80, DARK),
    Relight(0),
    Read(1, TORN),
    Write(1, 70, DARK),
    Relight(0),
    Read(1, TORN),
    Write(1, 30, DARK),
    Relight(0),
    Read(1, TORN),
    Write(1, 70, DARK),
    Relight(0),
    Read(1, TORN),
];

// One page of zeros over several lives of a card, each with a strike: its stop, what it writes, and what a read shows.
#[derive(Clone, Copy)]
struct Life {
    stop: u8,
    first: u8,
    shown: Shown,
}

const LIVES: [Life; 9] = [
    Life {
        stop: 0,
        first: 10,
        shown: TORN,
    },
    Life {
        stop: 15,
        first: 20,
        shown: TORN,
    },
    Life {
        stop: 1,
        first: 30,
        shown: TORN,
    },
    Life {
        stop: 16,
        first: 40,
        shown: Ok(40),
    },
    Life {
        stop: 0,
        first: 50,
        shown: Ok(40),
    },
    Life {
        stop: 3,
        first: 60,
        shown: TORN,
    },
    Life {
        stop: 8,
        first: 70,
        shown: TORN,
    },
    Life {
        stop: 3,
        first: 80,
        shown: TORN,
    },
    Life {
        stop: 16,
        first: 90,
        shown: Ok(90),
    },
];

// A write to page 1 is struck, all is dark until the power is back, and then the page shows this.
fn struck(first: u8, shown: Shown) -> [Step; 5] {
    [
        Write(1, first, DARK),
        Read(1, BLACK),
        Write(1, 200, DARK),
        Relight(0),
        Read(1, shown),
    ]
}

#[test]
fn tray_strikes(rt: HostRuntime) {
    for row in &TRAYS {
        let mut bytes = laid(257, &tray_page(30, 1));
        play(
            &rt,
            &mut Tray::new(&mut bytes, row.strike, 0),
            &struck(70, row.shown),
        );
        let left = laid(257, &tray_page(row.first, row.mark));
        assert!(rt; bytes == left, "{}", row.strike);
    }
}

#[test]
fn card_stops(rt: HostRuntime) {
    let old = card_page(30, [4; 16]);
    let new = card_page(70, [1; 16]);
    for row in &CARDS {
        let mut bytes = laid(272, &old);
        play(
            &rt,
            &mut Card::new(&mut bytes, row.stop, 0),
            &struck(70, row.shown),
        );
        let left = laid(272, &card_torn(old, new, row.sectors));
        assert!(rt; bytes == left, "{}", row.stop);
    }
}

#[test]
fn half_on_half(rt: HostRuntime) {
    let old = card_page(30, [4; 16]);
    let new = card_page(70, [1; 16]);
    let mut bytes = laid(272, &old);
    play(&rt, &mut Card::new(&mut bytes, 8, 0), &HALVES);
    assert!(rt; bytes == laid(272, &card_torn(old, new, 8)));
}

#[test]
fn lives_of_one_page(rt: HostRuntime) {
    let mut bytes = [0; 544];
    for life in &LIVES {
        let mut card = Card::new(&mut bytes, life.stop, 0);
        play(&rt, &mut card, &struck(life.first, life.shown));
    }
}
