ghost use Rattle.std.specs.Prelude.{◌≡◌, ◌+◌, ◌≤◌, ◌==◌, Some, None, Ok, Err, IfOk, if◌then◌else◌};
ghost use Rattle.rules.specs.declared.fault.Refusal.TheVariants as refusal;
ghost use Rattle.rules.specs.Format.{most};
ghost use Rattle.rules.specs.Refusals.{plain};
ghost use Rattle.rules.specs.Store.{bring, hold_frame, take_of, take_page};
ghost use Rattle.rules.specs.Ram.{last_free};
ghost use Rattle.store.specs.View.{Does, Works, answered, granted};

use crate::admit::may_serve;
use crate::frame::Frame;
use crate::hold::Hold;
use crate::store::Store;
use medium::Medium;
use rules::fault::{Fault, Refusal};
use rules::table::Grant;
use rules::trailer::MOST;

impl<F: Medium, D: Medium> Store<F, D> {
    // The number of the next hold.
    fn next_number(&self) -> Result<u32, Fault>
        ensures value { result ≡ (if self.now.holds == most then Err (plain refusal.Spent) else Ok (self.now.holds + 1)) }
        ensures within { IfOk result (λ n. n ≤ most) }
    {
        if self.holds == MOST {
            return Err(Fault::plain(Refusal::Spent));
        }
        Ok(self.holds + 1)
    }

    // Holds a frame under the next number.
    fn hold_frame(&mut self, frame: Frame, number: u32, evicted: Option<u16>) -> Hold
        requires { number ≤ most }
        ensures { number ≡ self.old.holds + 1
            → Works F.Medium D.Medium self.old self.new (Ok (granted result))
            (λ x. hold_frame x frame evicted) }
    {
        let version = self.frames.card(frame).version;
        self.frames.hold(frame, number);
        self.holds = number;
        Hold {
            grant: Grant {
                frame: frame.number(),
                number,
                version,
                evicted,
            },
        }
    }

    // Takes a page that is in a frame.
    fn take_in_ram(&mut self, page: u16, frame: Frame) -> Result<Hold, Fault>
        ensures { Works F.Medium D.Medium self.old self.new (answered granted result)
            (λ x. take_of x page (Some frame)) }
    {
        if self.frames.card(frame).hold != 0 {
            return Err(Fault::plain(Refusal::Held));
        }
        let number = self.next_number()?;
        Ok(self.hold_frame(frame, number, None))
    }

    // Takes a page that is in no frame: the last unheld one is emptied for it.
    fn bring(&mut self, page: u16) -> Result<Hold, Fault>
        ensures { Works F.Medium D.Medium self.old self.new (answered granted result)
            (λ x. take_of x page None) }
    {
        let all_held = Fault::plain(Refusal::AllHeld);
        let frame = self.frames.last_free().ok_or(all_held)?;
        let number = self.next_number()?;
        let evicted = self.frames.card(frame).page;
        self.empty_frame(frame)?;
        self.fetch(frame, page)?;
        Ok(self.hold_frame(frame, number, evicted))
    }

    pub(crate) fn serve_take(&mut self, page: u32) -> Result<Hold, Fault>
        ensures { Does F.Medium D.Medium self.old self.new (answered granted result)
            (take_page page) }
    {
        may_serve(self.state)?;
        if page >= u32::from(self.queue.disk_pages()) {
            return Err(Fault::plain(Refusal::NoPage));
        }
        let page = page as u16;
        match self.frames.frame_of(page) {
            Some(frame) => self.take_in_ram(page, frame),
            None => self.bring(page),
        }
    }
}
