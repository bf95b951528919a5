ghost use Rattle.std.specs.Prelude.{◌≡◌, ◌<◌, ◌≤◌, IfOk};
ghost use Rattle.medium.specs.Rules.{plainly};
ghost use Rattle.rules.specs.Queue.{append, describe_due, enqueue, make_room, number, valid, write_segment};
ghost use Rattle.queue.specs.Parts.{put_frame};
ghost use Rattle.queue.specs.View.{Does, view};

use crate::queue::Queue;
use crate::segment::segment_bytes;
use format::page::{BODY, write_page};
use medium::{Medium, PAGE};
use ranked::Ranked;
use recovery::places::{GROUP, frames_of, segment_page};
use rules::fault::{Fault, Refusal};
use rules::trailer::{MOST, Trailer};

impl<F: Medium, D: Medium> Queue<F, D> {
    // One frame fewer than there are may be live, so that the frame of the next number is free.
    fn make_room(&mut self) -> Result<(), Fault>
        requires { self.old.last < 4000000000 }
        ensures { Does F.Medium D.Medium self.old self.new result make_room }
    {
        let live = (self.last + 1).saturating_sub(self.front);
        if live + 1 == u32::from(frames_of(self.flash.size())) {
            self.dequeue()?;
        }
        Ok(())
    }

    // Makes room for a version of a page; then the number that it supersedes, or 0.
    fn superseded(&mut self, page: u16) -> Result<u32, Fault>
        requires { self.old.last < 4000000000 }
        ensures room { Does F.Medium D.Medium self.old self.new (plainly result) make_room }
        ensures back { IfOk result (λ n. n ≡ number (valid (view F.Medium D.Medium self.new) page)) }
    {
        self.make_room()?;
        Ok(self.valid(page).get_rank())
    }

    // Writes the segment that ends at the last number.
    fn write_segment(&mut self) -> Result<(), Fault>
        ensures { Does F.Medium D.Medium self.old self.new result write_segment }
    {
        let size = self.flash.size();
        let bytes = segment_bytes(&self.entries, frames_of(size), self.front, self.last);
        self.put_flash(segment_page(size, self.last), &bytes)
    }

    // It is due after every fifteenth number.
    fn describe_due(&mut self) -> Result<(), Fault>
        ensures { Does F.Medium D.Medium self.old self.new result describe_due }
    {
        if self.last % u32::from(GROUP) == 0 {
            self.write_segment()?;
        }
        Ok(())
    }

    // A page goes into the frame of its trailer's number.
    fn put_frame(&mut self, trailer: &Trailer, body: &[u8; BODY]) -> Result<(), Fault>
        ensures { Does F.Medium D.Medium self.old self.new result
            (λ x. put_frame x trailer.now body.now) }
    {
        let mut bytes = [0u8; PAGE];
        let _ = write_page(&mut bytes, body, trailer);
        self.put_flash(self.slot(trailer.q), &bytes)
    }

    // The same, and the number is then the last.
    fn append(&mut self, trailer: &Trailer, body: &[u8; BODY]) -> Result<(), Fault>
        requires { trailer.now.q ≤ 4000000000 }
        ensures { Does F.Medium D.Medium self.old self.new result
            (λ x. append x trailer.now body.now) }
    {
        self.put_frame(trailer, body)?;
        self.enter(trailer);
        self.describe_due()
    }

    // Puts a version of a page at the rear; it points back to the page's valid entry.
    pub fn enqueue(
        &mut self,
        page: u16,
        version: u32,
        dirty: bool,
        body: &[u8; BODY],
    ) -> Result<(), Fault>
        ensures { Does F.Medium D.Medium self.old self.new result
            (λ x. enqueue x page version dirty body.now) }
    {
        if self.last >= MOST {
            return Err(Fault::plain(Refusal::Spent));
        }
        let q = self.last + 1;
        let back = self.superseded(page)?;
        let trailer = Trailer {
            q,
            back,
            version,
            page,
            dirty,
        };
        self.append(&trailer, body)
    }
}
