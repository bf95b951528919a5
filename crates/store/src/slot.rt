ghost use Rattle.std.specs.Prelude.{◌≡◌, ◌+◌, ◌<◌, ◌≤◌, length, take};
ghost use Rattle.rules.specs.Ram.{fetched as fetched_card, changed, put as with_bytes};

use format::page::BODY;
use medium::PAGE;
use ranked::Ranked;
use rules::table::Card;

// What a frame has: the card of its page, and the body.
#[derive(Clone, Copy)]
pub(crate) struct Slot {
    pub(crate) card: Card,
    pub(crate) body: [u8; BODY],
}

pub(crate) const EMPTY: Card = Card {
    page: None,
    version: 0,
    dirty: false,
    fdirty: false,
    hold: 0,
};

pub(crate) const UNUSED: Slot = Slot {
    card: EMPTY,
    body: [0; BODY],
};

// The search is by the card.
impl Ranked for Slot {
    ghost page = { λ s. s.card.page };

    ghost rank = { λ s. s.card.version };

    fn get_page(&self) -> Option<u16> {
        self.card.get_page()
    }

    fn get_rank(&self) -> u32 {
        self.card.get_rank()
    }
}

impl Slot {
    // A page just fetched: its body is the front of what the medium has.
    pub(crate) fn fetched(page: u16, version: u32, dirty: bool, from: &[u8; PAGE]) -> Slot
        ensures card { result.card ≡ fetched_card page version dirty }
        ensures body { result.body ≡ take 240 from.now }
    {
        let mut body = [0; BODY];
        body.copy_from_slice(&from[..BODY]);
        Slot {
            card: Card {
                page: Some(page),
                version,
                dirty,
                ..EMPTY
            },
            body,
        }
    }

    // Puts bytes into the body from an offset on. The page is then one version on, and newer than its copies.
    pub(crate) fn change(&mut self, offset: usize, bytes: &[u8])
        requires fits { offset + length bytes.now ≤ 240 }
        requires version { self.old.card.version < 4000000000 }
        ensures card { self.new.card ≡ changed self.old.card }
        ensures body { self.new.body ≡ with_bytes self.old.body offset bytes.now }
    {
        self.card.version += 1;
        self.card.dirty = true;
        self.card.fdirty = true;
        self.body[offset..offset + bytes.len()].copy_from_slice(bytes);
    }
}
