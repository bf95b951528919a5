// The media that a queue is tried on.
use crate::cuts::{Cut, through};
use layers::read_buffer::ReadBuffer;
use layers::window::Window;
use media::card::Card;
use media::strike::Strike;
use media::tray::Tray;
use queue::queue::Queue;
use std::process::Abort;
use std::test::Fail;

// After how many sectors of a card such a strike stops.
fn sectors(strike: Strike) -> u8 {
    match strike {
        Strike::Old => 0,
        Strike::New => 16,
        Strike::Torn => 8,
    }
}

fn tray(bytes: &mut [u8], strike: Strike, charge: u32) -> Tray<'_> {
    Tray::new(bytes, strike as u8, charge)
}

fn card(bytes: &mut [u8], strike: Strike, charge: u32) -> Card<'_> {
    Card::new(bytes, sectors(strike), charge)
}

// A window over a read buffer over a tray that has a page more before it and one after it.
fn pile(bytes: &mut [u8], pages: u16, strike: Strike, charge: u32) -> Window<ReadBuffer<Tray<'_>>> {
    Window::new(1, pages, ReadBuffer::new(tray(bytes, strike, charge)))
}

// A tray on which a strike tears.
pub(crate) fn torn(bytes: &mut [u8], charge: u32) -> Tray<'_> {
    tray(bytes, Strike::Torn, charge)
}

// The run with this cut, on media of three kinds.
pub(crate) fn on_all(rt: &impl Abort, cut: &Cut) -> Result<(), Fail> {
    let strike = cut.strike;
    through(
        rt,
        &mut Queue::new(
            tray(&mut [0; 8481], strike, cut.flash),
            card(&mut [0; 2176], strike, cut.disk),
        ),
        cut,
    )?;
    through(
        rt,
        &mut Queue::new(
            card(&mut [0; 8976], strike, cut.flash),
            tray(&mut [0; 2056], strike, cut.disk),
        ),
        cut,
    )?;
    through(
        rt,
        &mut Queue::new(
            pile(&mut [0; 8995], 33, strike, cut.flash),
            pile(&mut [0; 2570], 8, strike, cut.disk),
        ),
        cut,
    )
}
