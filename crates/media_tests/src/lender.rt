// What whoever lends bytes to a tray or a card knows of them when it is gone: every byte, after any one write.
ghost use Rattle.std.specs.Prelude.{◌≡◌};
ghost use Rattle.medium.specs.Outcome.{Gives};
ghost use Rattle.media.specs.Card.{card_coding};
ghost use Rattle.media.specs.Lent.{Parts, fresh, store};
ghost use Rattle.media.specs.Tray.{tray_coding};

use media::card::Card;
use media::tray::Tray;
use medium::{Cause, Medium};

pub fn write_on_tray(
    bytes: &mut [u8],
    strike: u8,
    charge: u32,
    page: u16,
    from: &[u8],
) -> Result<(), Cause>
    ensures { (l : Parts)
        × Gives (store tray_coding (fresh bytes.old strike charge) page from.now) result l
        × (bytes.new ≡ l.bytes) }
{
    let mut tray = Tray::new(bytes, strike, charge);
    tray.write(page, from)
}

pub fn write_on_card(
    bytes: &mut [u8],
    stop: u8,
    charge: u32,
    page: u16,
    from: &[u8],
) -> Result<(), Cause>
    ensures { (l : Parts)
        × Gives (store card_coding (fresh bytes.old stop charge) page from.now) result l
        × (bytes.new ≡ l.bytes) }
{
    let mut card = Card::new(bytes, stop, charge);
    card.write(page, from)
}
