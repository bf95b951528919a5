ghost use Rattle.std.specs.Prelude.{◌≡◌, ◌+◌, ◌*◌, ◌<◌, ◌≤◌, length, Decides};
ghost use Rattle.medium.specs.Meaning.{Bytes};
ghost use Rattle.medium.specs.Rules.{readable, plainly, filled};
ghost use Rattle.media.specs.Card.{card_count, card_page, tick as tick_at, content as content_at, Whole, Carried, sectors_of};
ghost use Rattle.media.specs.Card.{next_tick, NextTick, FirstFree, put_at, put_sectors};

use crate::bytes::overwrite;
use medium::Cause;

pub(crate) const STRIDE: usize = 272;

pub(crate) const SECTORS: usize = 16;

const SECTOR: usize = 17;

const CONTENT: usize = 16;

// The sectors of one page, by its bytes alone: in these it is page 0.
#[derive(Clone, Copy)]
pub(crate) struct Sectors<'b> {
    bytes: &'b [u8; STRIDE],
}

impl<'b> Sectors<'b> {
    pub(crate) fn of(bytes: &'b [u8], page: u16) -> Sectors<'b>
        requires { page < card_count bytes.now }
        ensures { result.bytes.now ≡ sectors_of bytes.now page }
    {
        let start = usize::from(page) * STRIDE;
        Sectors {
            bytes: bytes[start..].first_chunk().unwrap(),
        }
    }

    fn tick(&self, sector: usize) -> u8
        requires { sector < 16 }
        ensures { result ≡ tick_at self.now.bytes.now 0 sector }
    {
        self.bytes[sector * SECTOR + CONTENT]
    }

    // A byte of the content, by its number from 0 to 255.
    fn content(&self, at: usize) -> u8
        requires { at < 256 }
        ensures { result ≡ content_at self.now.bytes.now 0 at }
    {
        self.bytes[at / CONTENT * SECTOR + at % CONTENT]
    }

    // All sectors carry one tick, and it is not 0.
    fn is_whole(&self) -> bool
        ensures { Decides result (Whole self.now.bytes.now 0) }
    {
        let first = self.tick(0);
        first != 0 && (0..SECTORS).all(|sector| self.tick(sector) == first)
    }

    pub(crate) fn copy_out(&self, into: &mut [u8]) -> Result<(), Cause>
        requires { length into.old ≡ 256 }
        ensures answer { result ≡ plainly (readable (card_page self.now.bytes.now 0)) }
        ensures buffer { into.new
            ≡ filled into.old (readable (card_page self.now.bytes.now 0)) }
    {
        if !self.is_whole() {
            return Err(Cause::Unreadable);
        }
        for (at, byte) in into.iter_mut().enumerate() {
            *byte = self.content(at);
        }
        Ok(())
    }

    // Some sector carries this tick.
    fn carries(&self, mark: u8) -> bool
        ensures { Decides result (Carried self.now.bytes.now 0 mark) }
    {
        (0..SECTORS).any(|sector| self.tick(sector) == mark)
    }

    // The first tick from a tick on, below the highest, that no sector carries.
    fn free_from(&self, from: u8) -> Option<u8>
        ensures { FirstFree self.now.bytes.now 0 from result }
    {
        (from..u8::MAX).find(|mark| !self.carries(*mark))
    }

    // The smallest tick that no sector carries: sixteen sectors leave one free.
    #[tactic(auto, using(crate::specs::Laws::Ticks::some_free, crate::specs::Laws::Ticks::first_is_next))]
    fn free_tick(&self) -> u8
        ensures { NextTick self.now.bytes.now 0 result }
    {
        self.free_from(1).unwrap()
    }
}

fn put_at(bytes: &mut [u8], at: usize, part: &[u8], mark: u8)
    requires within { at + 17 ≤ length bytes.old }
    requires len { length part.now ≡ 16 }
    ensures { bytes.new ≡ put_at bytes.old at part.now mark }
{
    overwrite(bytes, at, part);
    bytes[at + CONTENT] = mark;
}

// Writes the next sector of a page whose first sectors were written so.
fn put_next(bytes: &mut [u8], page: u16, sector: usize, from: &[u8], mark: u8)
    requires within { page * 272 + 272 ≤ length bytes.old }
    requires len { length from.now ≡ 256 }
    requires sector { sector < 16 }
    ensures { (before : Bytes) → bytes.old ≡ put_sectors before page mark from.now sector
        → bytes.new ≡ put_sectors before page mark from.now (sector + 1) }
{
    let part = &from[sector * CONTENT..sector * CONTENT + CONTENT];
    put_at(
        bytes,
        usize::from(page) * STRIDE + sector * SECTOR,
        part,
        mark,
    );
}

// Writes the first sectors of a page, with a tick that none of its sectors carried.
pub(crate) fn put(bytes: &mut [u8], page: u16, from: &[u8], sectors: usize)
    requires within { page < card_count bytes.old }
    requires len { length from.now ≡ 256 }
    requires sectors { sectors ≤ 16 }
    ensures { bytes.new ≡ put_sectors bytes.old page (next_tick bytes.old page)
        from.now sectors }
{
    let mark = Sectors::of(bytes, page).free_tick();
    for sector in 0..sectors {
        put_next(bytes, page, sector, from, mark);
    }
}
