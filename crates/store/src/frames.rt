ghost use Rattle.std.specs.Prelude.{◌≡◌, ◌+◌, ◌<◌, ◌≤◌, true, false, Ok, Err, Some, None, if◌then◌else◌, length, take, find, reverse};
ghost use Rattle.rules.specs.declared.fault.Refusal.TheVariants as refusal;
ghost use Rattle.rules.specs.Refusals.{plain};
ghost use Rattle.rules.specs.Ram.{empty as empty_card, fetched as fetched_card, held_card, cleaned, changed};
ghost use Rattle.rules.specs.Ram.{fresh as fresh_ram, put as with_bytes, with_card, with_frame, to_head};
ghost use Rattle.rules.specs.Ram.{card_at, body_at, in_ram, is_free, last_free, is_held};
ghost use Rattle.store.specs.View.{ram_of, Goes};

use crate::frame::{FRAMES, Frame};
use crate::recency::Recency;
use crate::slot::{EMPTY, Slot, UNUSED};
use format::page::BODY;
use medium::PAGE;
use ranked::highest;
use rules::fault::{Fault, Refusal};
use rules::table::{Card, Grant};

// The RAM frames: sixteen, of which `count` are in use.
#[derive(Drop)]
pub struct Frames {
    pub(crate) count: u8,
    pub(crate) slots: [Slot; FRAMES],
    pub(crate) recency: Recency,
}

impl Frames {
    // So many frames, all empty.
    pub(crate) fn fresh(count: u8) -> Frames
        ensures { ram_of result ≡ fresh_ram count }
    {
        Frames {
            count,
            slots: [UNUSED; FRAMES],
            recency: Recency::new(),
        }
    }

    pub(crate) fn card(&self, frame: Frame) -> Card
        ensures { result ≡ card_at (ram_of self.now) frame }
    {
        self.slots[frame.place()].card
    }

    pub(crate) fn body(&self, frame: Frame) -> &[u8; BODY]
        ensures { result.now ≡ body_at (ram_of self.now) frame }
    {
        &self.slots[frame.place()].body
    }

    // How many are in use.
    pub(crate) fn count(&self) -> u8
        ensures { result ≡ (ram_of self.now).count }
    {
        self.count
    }

    // The frame that has a page.
    pub(crate) fn frame_of(&self, page: u16) -> Option<Frame>
        ensures { result ≡ in_ram (ram_of self.now) page }
    {
        highest(&self.slots, page).and_then(Frame::new)
    }

    // Whether a frame is in use and nobody holds it.
    fn is_free(&self, frame: Frame) -> bool
        ensures { result ≡ is_free (ram_of self.now) frame }
    {
        frame.number() < self.count && self.card(frame).hold == 0
    }

    // The last free frame of a list.
    fn last_free_of(&self, order: &[Frame]) -> Option<Frame>
        ensures { result ≡ find (is_free (ram_of self.now)) (reverse order.now) }
    {
        order
            .iter()
            .rev()
            .copied()
            .find(|frame| self.is_free(*frame))
    }

    // Of the free frames, the one that was taken longest ago.
    pub(crate) fn last_free(&self) -> Option<Frame>
        ensures { result ≡ last_free (ram_of self.now) (ram_of self.now).recency }
    {
        self.last_free_of(&self.recency.order)
    }

    // Whether a frame is held under a number.
    fn is_held(&self, frame: Frame, number: u32) -> bool
        ensures { result ≡ is_held (ram_of self.now) frame number }
    {
        frame.number() < self.count && number > 0 && self.card(frame).hold == number
    }

    // The frame of a hold, which may be stale.
    pub(crate) fn held(&self, grant: Grant) -> Result<Frame, Fault>
        ensures { result ≡ (if is_held (ram_of self.now) grant.frame grant.number then Ok grant.frame else Err (plain refusal.Stale)) }
    {
        Frame::new(usize::from(grant.frame))
            .filter(|frame| self.is_held(*frame, grant.number))
            .ok_or(Fault::plain(Refusal::Stale))
    }

    // The frame of a number, if it is newer than its flash copy.
    pub(crate) fn newer(&self, number: u8) -> Option<Frame>
        ensures { result ≡ (if (card_at (ram_of self.now) number).fdirty then Some number else None) }
    {
        Frame::new(usize::from(number)).filter(|frame| self.card(*frame).fdirty)
    }

    // Writes a frame's card anew.
    fn put_card(&mut self, frame: Frame, card: Card)
        ensures { Goes self.old self.new (λ m. with_card m frame card) }
    {
        self.slots[frame.place()].card = card;
    }

    // Lets a frame go.
    pub(crate) fn release(&mut self, frame: Frame)
        ensures { Goes self.old self.new (λ m. with_card m frame (held_card (card_at m frame) 0)) }
    {
        let card = self.card(frame);
        self.put_card(frame, Card { hold: 0, ..card });
    }

    // The flash copy is as new as the frame.
    pub(crate) fn clean(&mut self, frame: Frame)
        ensures { Goes self.old self.new (λ m. with_card m frame (cleaned (card_at m frame))) }
    {
        let card = self.card(frame);
        self.put_card(
            frame,
            Card {
                fdirty: false,
                ..card
            },
        );
    }

    // Takes the page out of a frame.
    pub(crate) fn empty(&mut self, frame: Frame)
        ensures { Goes self.old self.new (λ m. with_card m frame empty_card) }
    {
        self.put_card(frame, EMPTY);
    }

    // Holds a frame under a number.
    pub(crate) fn hold(&mut self, frame: Frame, number: u32)
        ensures { Goes self.old self.new (λ m. to_head (with_card m frame (held_card (card_at m frame) number)) frame) }
    {
        let card = self.card(frame);
        self.put_card(
            frame,
            Card {
                hold: number,
                ..card
            },
        );
        self.recency.to_head(frame);
    }

    // Puts a page just fetched into a frame: its body is the front of what the medium has.
    pub(crate) fn fill(
        &mut self,
        frame: Frame,
        page: u16,
        version: u32,
        dirty: bool,
        from: &[u8; PAGE],
    )
        ensures { Goes self.old self.new (λ m. with_frame m frame (fetched_card page version dirty) (take 240 from.now)) }
    {
        self.slots[frame.place()] = Slot::fetched(page, version, dirty, from);
    }

    // Writes bytes into a body from an offset on.
    pub(crate) fn change(&mut self, frame: Frame, offset: usize, bytes: &[u8])
        requires fits { offset + length bytes.now ≤ 240 }
        requires version { (card_at (ram_of self.old) frame).version < 4000000000 }
        ensures { Goes self.old self.new (λ m. with_frame m frame (changed (card_at m frame)) (with_bytes (body_at m frame) offset bytes.now)) }
    {
        self.slots[frame.place()].change(offset, bytes);
    }
}
