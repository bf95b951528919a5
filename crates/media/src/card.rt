ghost use Rattle.media.specs.Card.{card_coding};
ghost use Rattle.media.specs.Laws.Cards.{card_shows};

use crate::bytes::pages_in;
use crate::lay::Lay;
use crate::lent::Lent;
use crate::sectors::{SECTORS, STRIDE, Sectors, put};
use medium::Cause;

// 272 bytes a page: 16 sectors of 16 content bytes and a tick.
#[derive(Drop)]
pub struct Sectored;

// A medium over lent bytes, whose pages have sectors. A strike stops after so many sectors as was given at the making.
pub type Card<'a> = Lent<'a, Sectored>;

impl Lay for Sectored {
    ghost coding = { card_coding };

    ghost shows = { card_shows };

    fn count(bytes: &[u8]) -> u16 {
        pages_in(bytes.len(), STRIDE)
    }

    fn copy_out(bytes: &[u8], page: u16, into: &mut [u8]) -> Result<(), Cause> {
        Sectors::of(bytes, page).copy_out(into)
    }

    fn put(bytes: &mut [u8], page: u16, from: &[u8]) {
        put(bytes, page, from, SECTORS);
    }

    fn cut(strike: u8, bytes: &mut [u8], page: u16, from: &[u8]) {
        put(bytes, page, from, usize::from(strike).min(SECTORS));
    }
}
