ghost use Rattle.std.specs.Prelude.{◌≡◌};
ghost use Rattle.rules.specs.Queue.{enqueue};
ghost use Rattle.rules.specs.Ram.{card_at, body_at};
ghost use Rattle.rules.specs.Store.{empty_frame, enqueue_frame, must_go};
ghost use Rattle.queue.specs.View as queue;
ghost use Rattle.store.specs.Parts.{state_after};
ghost use Rattle.store.specs.View.{Works, Beside, view, ram_of};

use crate::frame::Frame;
use crate::store::Store;
use medium::Medium;
use rules::fault::{Fault, Refusal};
use rules::state::State;
use rules::table::Card;

// A store is dark once a medium answered dark.
pub(crate) fn heard<T>(on: &mut State, answer: Result<T, Fault>) -> Result<T, Fault>
    ensures value { result ≡ answer }
    ensures after { on.new ≡ state_after answer on.old }
{
    if let Err(fault) = &answer
        && let Refusal::Dark = fault.cause
    {
        *on = State::Dark;
    }
    answer
}

impl<F: Medium, D: Medium> Store<F, D> {
    // Gives the page of a frame to the queue; the frame stays as it is.
    fn hand_over(&mut self, frame: Frame, page: u16) -> Result<(), Fault>
        ensures queued { queue.Does F.Medium D.Medium self.old.queue self.new.queue result
            (λ y. enqueue y page (card_at (ram_of self.old.frames) frame).version
            (card_at (ram_of self.old.frames) frame).dirty
            (body_at (ram_of self.old.frames) frame)) }
        ensures rest { Beside self.old self.new }
    {
        let card = self.frames.card(frame);
        let body = self.frames.body(frame);
        self.queue.enqueue(page, card.version, card.dirty, body)
    }

    // Enqueues the page of a frame.
    pub(crate) fn enqueue_frame(&mut self, frame: Frame, page: u16) -> Result<(), Fault>
        ensures works { Works F.Medium D.Medium self.old self.new result
            (λ x. enqueue_frame x frame page) }
        ensures holds { self.new.holds ≡ self.old.holds }
    {
        let answer = self.hand_over(frame, page);
        heard(&mut self.state, answer)
    }

    // Whether a page that leaves RAM has to be enqueued: its flash copy is older or, being written at all, it has none.
    fn must_go(&self, page: u16, card: &Card) -> bool
        ensures { result ≡ must_go (view F.Medium D.Medium self.now).queue page card.now }
    {
        card.fdirty || card.version > 0 && self.queue.valid(page).is_none()
    }

    // Takes the page out of a frame, by way of the flash if it must.
    pub(crate) fn empty_frame(&mut self, frame: Frame) -> Result<(), Fault>
        ensures works { Works F.Medium D.Medium self.old self.new result
            (λ x. empty_frame x frame) }
        ensures holds { self.new.holds ≡ self.old.holds }
    {
        let card = self.frames.card(frame);
        if let Some(page) = card.page {
            if self.must_go(page, &card) {
                self.enqueue_frame(frame, page)?;
            }
        }
        self.frames.empty(frame);
        Ok(())
    }
}
