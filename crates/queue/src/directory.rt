ghost use Rattle.std.specs.Prelude.{◌≡◌, ◌≤◌, None, slice_index_or, slice_set};
ghost use Rattle.rules.specs.Queue.{slot as slot_of, entry as entry_of, valid, entered};
ghost use Rattle.queue.specs.View.{InOrder, view, Changes, cleared};

use crate::queue::Queue;
use medium::Medium;
use ranked::valid_entry;
use recovery::places::{SLOTS, frames_of, slot};
use rules::trailer::Trailer;

pub(crate) fn at_slot(entries: &[Option<Trailer>; SLOTS], slot: u16) -> Option<Trailer>
    ensures { result ≡ slice_index_or entries.now slot None }
{
    entries.get(usize::from(slot)).copied().flatten()
}

fn put_slot(entries: &mut [Option<Trailer>; SLOTS], slot: u16, entry: Option<Trailer>)
    ensures { entries.new ≡ slice_set entries.old slot entry }
{
    let i = usize::from(slot);
    if i < SLOTS {
        entries[i] = entry;
    }
}

impl<F: Medium, D: Medium> Queue<F, D> {
    // The frame of a number.
    pub(crate) fn slot(&self, q: u32) -> u16
        ensures { InOrder F.Medium D.Medium self.now
            → result ≡ slot_of (view F.Medium D.Medium self.now) q }
    {
        slot(q, frames_of(self.flash.size()))
    }

    // The entry of a number.
    pub(crate) fn entry(&self, q: u32) -> Option<Trailer>
        ensures { InOrder F.Medium D.Medium self.now
            → result ≡ entry_of (view F.Medium D.Medium self.now) q }
    {
        at_slot(&self.entries, self.slot(q))
    }

    // The valid entry of a page: that of its highest live number.
    pub fn valid(&self, page: u16) -> Option<Trailer>
        ensures { result ≡ valid (view F.Medium D.Medium self.now) page }
    {
        valid_entry(&self.entries, page)
    }

    // The slot of a number is empty now.
    pub(crate) fn clear(&mut self, q: u32)
        ensures { Changes F.Medium D.Medium self.old self.new (λ x. cleared x q) }
    {
        let at = self.slot(q);
        put_slot(&mut self.entries, at, None);
    }

    // The number of a trailer stands in its frame now.
    pub(crate) fn enter(&mut self, trailer: &Trailer)
        requires { trailer.now.q ≤ 4000000000 }
        ensures { Changes F.Medium D.Medium self.old self.new
            (λ x. entered x trailer.now) }
    {
        let at = self.slot(trailer.q);
        put_slot(&mut self.entries, at, Some(*trailer));
        self.last = trailer.q;
    }
}
