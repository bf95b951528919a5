#![tactic(auto)]

use layers::read_buffer::ReadBuffer;
use layers::window::Window;
use media::card::Card;
use media::strike::Strike;
use media::tray::Tray;
use session::play::play;
use std::io;
use store::store::Store;

// The bench over piles: the flash is a window over a read buffer over a tray, the disk a read buffer over a window over
// a card. Both windows leave pages out in front and behind.
fn main(rt: HostRuntime) -> io::Result<()> {
    let mut flash = [0u8; 40 * 257];
    let mut disk = [0u8; 11 * 272];
    let tray = Tray::new(&mut flash, Strike::Torn as u8, 1000);
    let card = Card::new(&mut disk, 8, 1000);
    let mut store = Store::new(
        Window::new(5, 33, ReadBuffer::new(tray)),
        ReadBuffer::new(Window::new(2, 8, card)),
    );
    play(&rt, &mut store)
}
