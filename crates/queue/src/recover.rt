ghost use Rattle.std.specs.Prelude.{◌≤◌, IfOk};
ghost use Rattle.medium.specs.Meaning.{size};
ghost use Rattle.rules.specs.Recovery.{recover};
ghost use Rattle.recovery.specs.Reread.{reread};
ghost use Rattle.queue.specs.Back.{describes, adopted};
ghost use Rattle.queue.specs.View.{Does, Finds, Changes};

use crate::queue::Queue;
use crate::segment::segment_bytes;
use medium::Medium;
use recovery::places::{GROUP, frames_of, segment_page};
use recovery::recovered::{Recovered, read_back};
use rules::fault::Fault;
use rules::state::Mounted;

impl<F: Medium, D: Medium> Queue<F, D> {
    // Where the tail that was read has fifteen frames, their segment is missing, and is written.
    fn describe_tail(&mut self, back: &Recovered) -> Result<(), Fault>
        ensures { Does F.Medium D.Medium self.old self.new result
            (λ x. describes x back.now) }
    {
        if back.tail != GROUP {
            return Ok(());
        }
        let size = self.flash.size();
        let last = back.found.last;
        let bytes = segment_bytes(&back.entries, frames_of(size), back.front, last);
        self.put_flash(segment_page(size, last), &bytes)
    }

    // What was read back is the queue's memory now.
    fn adopt(&mut self, back: &Recovered)
        requires { back.now.found.last ≤ 4000000000 }
        ensures { Changes F.Medium D.Medium self.old self.new
            (λ x. adopted x back.now) }
    {
        self.front = back.front;
        self.last = back.found.last;
        self.entries = back.entries;
    }

    // What the flash has of a queue's memory.
    fn read_flash(&mut self) -> Result<Recovered, Fault>
        ensures most { IfOk result (λ b. b.found.last ≤ 4000000000) }
        ensures found { Finds F.Medium D.Medium self.old self.new result
            (λ x. reread x.flash (size x.disk)) }
    {
        let pages = self.disk.size();
        read_back(&mut self.flash, pages)
    }

    // Makes the queue's memory again from what the flash has.
    pub fn recover(&mut self) -> Result<Mounted, Fault>
        ensures { Does F.Medium D.Medium self.old self.new result recover }
    {
        let back = self.read_flash()?;
        self.describe_tail(&back)?;
        self.adopt(&back);
        Ok(back.found)
    }
}
