ghost use Rattle.std.specs.Prelude.{◌≡◌, ◌<◌, length};
ghost use Rattle.medium.specs.Rules.{readable, plainly, filled};
ghost use Rattle.media.specs.Tray.{tray_count, tray_page, tray_put, tray_torn, tray_cut, tray_coding};
ghost use Rattle.media.specs.Laws.Trays.{tray_shows};

use crate::bytes::{overwrite, pages_in};
use crate::lay::Lay;
use crate::lent::Lent;
use crate::strike::Strike;
use medium::{Cause, PAGE};

const STRIDE: usize = 257;

const WHOLE: u8 = 1;

const TORN: u8 = 2;

// 257 bytes a page: the content, then a mark.
#[derive(Drop)]
pub struct Marked;

// A medium over lent bytes, whose pages have a mark. What a strike leaves: 0 the old page, 1 the new one, 2 and more a
// torn one.
pub type Tray<'a> = Lent<'a, Marked>;

fn tear(bytes: &mut [u8], page: u16)
    requires { page < tray_count bytes.old }
    ensures { bytes.new ≡ tray_torn bytes.old page }
{
    bytes[usize::from(page) * STRIDE + PAGE] = TORN;
}

impl Lay for Marked {
    ghost coding = { tray_coding };

    ghost shows = { tray_shows };

    fn count(bytes: &[u8]) -> u16 {
        pages_in(bytes.len(), STRIDE)
    }

    fn copy_out(bytes: &[u8], page: u16, into: &mut [u8]) -> Result<(), Cause> {
        let start = usize::from(page) * STRIDE;
        if bytes[start + PAGE] != WHOLE {
            return Err(Cause::Unreadable);
        }
        into.copy_from_slice(&bytes[start..start + PAGE]);
        Ok(())
    }

    fn put(bytes: &mut [u8], page: u16, from: &[u8]) {
        let start = usize::from(page) * STRIDE;
        overwrite(bytes, start, from);
        bytes[start + PAGE] = WHOLE;
    }

    fn cut(strike: u8, bytes: &mut [u8], page: u16, from: &[u8]) {
        match Strike::from(strike) {
            Strike::Old => {}
            Strike::New => Marked::put(bytes, page, from),
            Strike::Torn => tear(bytes, page),
        }
    }
}
