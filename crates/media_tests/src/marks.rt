// Which marks and ticks make a page whole, and where its content lies.
use crate::bytes::{card_page, lay, tray_page};
use crate::script::Step::Read;
use crate::script::{Shown, TORN, play};
use media::card::Card;
use media::strike::Strike;
use media::tray::Tray;
use medium::Medium;
use std::process::Abort;

// Two pages, one after the other.
fn two<const N: usize>(zero: [u8; N], one: [u8; N]) -> [u8; 600] {
    let mut bytes = [0u8; 600];
    lay(&mut bytes, 0, &zero);
    lay(&mut bytes, N, &one);
    bytes
}

fn both_show<M: Medium>(rt: &impl Abort, medium: &mut M, [zero, one]: [Shown; 2]) {
    play(rt, medium, &[Read(0, zero), Read(1, one)]);
}

// Both pages of a tray laid out with this mark show the same.
fn marked(rt: &impl Abort, mark: u8, shown: [Shown; 2]) {
    let mut bytes = two(tray_page(30, mark), tray_page(70, mark));
    both_show(rt, &mut Tray::new(&mut bytes, Strike::Torn as u8, 0), shown);
}

// And of a card with these ticks.
fn ticked(rt: &impl Abort, ticks: [u8; 16], shown: [Shown; 2]) {
    let mut bytes = two(card_page(30, ticks), card_page(70, ticks));
    both_show(rt, &mut Card::new(&mut bytes, 8, 0), shown);
}

// Of all marks, only 1 is that of a whole page.
#[test]
fn every_mark(rt: HostRuntime) {
    marked(&rt, 0, [TORN; 2]);
    marked(&rt, 1, [Ok(30), Ok(70)]);
    for mark in 2..=255u8 {
        marked(&rt, mark, [TORN; 2]);
    }
}

// Sixteen times the same tick is a whole page, but for 0.
#[test]
fn every_tick(rt: HostRuntime) {
    ticked(&rt, [0; 16], [TORN; 2]);
    for tick in 1..=255u8 {
        ticked(&rt, [tick; 16], [Ok(30), Ok(70)]);
    }
}

// The tick of fifteen sectors, and of one other.
const TWO_TICKS: [(u8, u8); 6] = [(4, 5), (5, 4), (4, 0), (0, 4), (1, 255), (255, 1)];

// One sector with another tick, whichever it is, and the page is unreadable.
#[test]
fn every_odd_sector(rt: HostRuntime) {
    for (tick, other) in TWO_TICKS {
        for sector in 0..16usize {
            let mut ticks = [tick; 16];
            ticks[sector] = other;
            ticked(&rt, ticks, [TORN; 2]);
        }
    }
}
