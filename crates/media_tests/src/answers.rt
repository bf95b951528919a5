// What size, read and write answer at the edges of all that they are given, over bytes that are 0.
use crate::script::Step::*;
use crate::script::{BLACK, DARK, DONE, LENGTH, NOWHERE, OUTSIDE, SHORT, Step, TORN, play};
use layers::read_buffer::ReadBuffer;
use media::card::Card;
use media::strike::Strike;
use media::tray::Tray;
use std::process::Abort;

const NO_PAGE: [Step; 11] = [
    Size(0),
    Read(0, NOWHERE),
    Read(1, NOWHERE),
    Read(65535, NOWHERE),
    ReadInto(0, 0, NOWHERE),
    ReadInto(257, 65535, NOWHERE),
    Write(0, 70, OUTSIDE),
    Write(65535, 70, OUTSIDE),
    WriteFrom(0, 0, 70, OUTSIDE),
    WriteFrom(257, 65535, 70, OUTSIDE),
    Size(0),
];

// One page, with charge for one write. A number outside is seen before a wrong length, and both before the charge.
const ONE_PAGE: [Step; 28] = [
    Size(1),
    Read(0, TORN),
    Read(1, NOWHERE),
    Read(65535, NOWHERE),
    ReadInto(0, 0, SHORT),
    ReadInto(255, 0, SHORT),
    ReadInto(257, 0, SHORT),
    ReadInto(255, 1, NOWHERE),
    ReadInto(0, 65535, NOWHERE),
    Write(1, 70, OUTSIDE),
    Write(65535, 70, OUTSIDE),
    WriteFrom(0, 0, 70, LENGTH),
    WriteFrom(255, 0, 70, LENGTH),
    WriteFrom(257, 0, 70, LENGTH),
    WriteFrom(255, 1, 70, OUTSIDE),
    WriteFrom(0, 65535, 70, OUTSIDE),
    Read(0, TORN),
    Write(0, 70, DONE),
    Read(0, Ok(70)),
    ReadInto(255, 0, SHORT),
    ReadInto(257, 0, SHORT),
    Write(1, 80, OUTSIDE),
    WriteFrom(255, 0, 80, LENGTH),
    Read(0, Ok(70)),
    Write(0, 80, DARK),
    Read(0, BLACK),
    Write(0, 80, DARK),
    Size(1),
];

// Two pages, with charge for two writes.
const TWO_PAGES: [Step; 18] = [
    Size(2),
    Read(0, TORN),
    Read(1, TORN),
    Read(2, NOWHERE),
    Read(65535, NOWHERE),
    ReadInto(255, 1, SHORT),
    ReadInto(257, 2, NOWHERE),
    Write(2, 70, OUTSIDE),
    WriteFrom(255, 1, 70, LENGTH),
    WriteFrom(257, 2, 70, OUTSIDE),
    Write(1, 70, DONE),
    Read(0, TORN),
    Read(1, Ok(70)),
    Write(0, 80, DONE),
    Read(0, Ok(80)),
    Read(1, Ok(70)),
    Write(1, 90, DARK),
    Size(2),
];

// Two pages and no charge: the first write that nothing else forbids is struck, and then all is dark, right or wrong.
const NO_CHARGE: [Step; 21] = [
    Read(1, TORN),
    Write(2, 70, OUTSIDE),
    WriteFrom(255, 1, 70, LENGTH),
    Write(1, 70, DARK),
    Read(0, BLACK),
    Read(1, BLACK),
    Read(2, BLACK),
    Read(65535, BLACK),
    ReadInto(0, 0, BLACK),
    ReadInto(255, 1, BLACK),
    ReadInto(257, 2, BLACK),
    ReadInto(0, 65535, BLACK),
    Write(0, 70, DARK),
    Write(1, 70, DARK),
    Write(2, 70, DARK),
    Write(65535, 70, DARK),
    WriteFrom(0, 0, 70, DARK),
    WriteFrom(255, 1, 70, DARK),
    WriteFrom(257, 2, 70, DARK),
    WriteFrom(0, 65535, 70, DARK),
    Size(2),
];

const TEAR: u8 = Strike::Torn as u8;

// A script on so many zero bytes of a tray, with a read buffer over it too, and of a card.
fn on_all(rt: &impl Abort, tray: usize, card: usize, charge: u32, script: &[Step]) {
    assert!(rt; tray <= 544 && card <= 544);
    let mut bytes = [0u8; 544];
    play(rt, &mut Tray::new(&mut bytes[..tray], TEAR, charge), script);
    let mut bytes = [0u8; 544];
    let below = Tray::new(&mut bytes[..tray], TEAR, charge);
    play(rt, &mut ReadBuffer::new(below), script);
    let mut bytes = [0u8; 544];
    play(rt, &mut Card::new(&mut bytes[..card], 8, charge), script);
}

#[test]
fn no_page(rt: HostRuntime) {
    on_all(&rt, 0, 0, 1, &NO_PAGE);
    on_all(&rt, 256, 271, 0, &NO_PAGE);
}

#[test]
fn one_page(rt: HostRuntime) {
    on_all(&rt, 257, 272, 1, &ONE_PAGE);
    on_all(&rt, 513, 543, 1, &ONE_PAGE);
}

#[test]
fn two_pages(rt: HostRuntime) {
    on_all(&rt, 514, 544, 2, &TWO_PAGES);
}

#[test]
fn no_charge(rt: HostRuntime) {
    on_all(&rt, 514, 544, 0, &NO_CHARGE);
}
