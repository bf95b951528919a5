#![tactic(auto)]

use media::card::Card;
use media::strike::Strike;
use media::tray::Tray;
use session::play::play;
use std::io;
use store::store::Store;

// A store over a tray of 33 pages and a card of 8, both blank, whose strikes tear a page.
fn main(rt: HostRuntime) -> io::Result<()> {
    let mut flash = [0u8; 33 * 257];
    let mut disk = [0u8; 8 * 272];
    let mut store = Store::new(
        Tray::new(&mut flash, Strike::Torn as u8, 1000),
        Card::new(&mut disk, 8, 1000),
    );
    play(&rt, &mut store)
}
