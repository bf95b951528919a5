ghost use Rattle.std.specs.Prelude.{◌≡◌, ◌≤◌};
ghost use Rattle.rules.specs.Queue.{checked, dequeue, must_save};
ghost use Rattle.queue.specs.View.{Does, Finds, view};

use crate::queue::Queue;
use format::page::is_like;
use medium::{Medium, PAGE};
use ranked::Ranked;
use rules::fault::{Fault, Refusal, Side};
use rules::trailer::Trailer;

impl<F: Medium, D: Medium> Queue<F, D> {
    // The page in the frame of an entry, which has to end as the entry says.
    pub fn read_checked(&mut self, entry: &Trailer) -> Result<[u8; PAGE], Fault>
        ensures { Finds F.Medium D.Medium self.old self.new result
            (λ x. checked x entry.now) }
    {
        let frame = self.slot(entry.q);
        let bytes = self.get_flash(frame)?;
        if !is_like(&bytes, entry) {
            return Err(Fault::touched(Refusal::Foreign, Side::Flash, frame));
        }
        Ok(bytes)
    }

    // Whether an entry's page has to go to the disk before the entry leaves: it is dirty, and valid.
    fn must_save(&self, entry: &Trailer) -> bool
        ensures { result ≡ must_save (view F.Medium D.Medium self.now) entry.now }
    {
        entry.dirty && self.valid(entry.page).get_rank() == entry.q
    }

    // The front entry leaves; if it is valid and dirty, its page is first written to the disk.
    pub(crate) fn dequeue(&mut self) -> Result<(), Fault>
        requires { self.old.front ≤ 4000000000 }
        ensures { Does F.Medium D.Medium self.old self.new result dequeue }
    {
        let front = self.front;
        if let Some(entry) = self.entry(front)
            && self.must_save(&entry)
        {
            let bytes = self.read_checked(&entry)?;
            self.put_disk(entry.page, &bytes)?;
        }
        self.clear(front);
        self.front = front + 1;
        Ok(())
    }
}
