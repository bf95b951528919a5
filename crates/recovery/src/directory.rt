ghost use Rattle.std.specs.Prelude.{◌≡◌, ◌+◌, ◌-◌, ◌/◌, ◌%◌, ◌≤◌, None, length, map, option_map, slice_index_or};
ghost use Rattle.format.specs.Segments.{all_said};
ghost use Rattle.rules.specs.Recovery.{last_of, of_group, no_entries};
ghost use Rattle.recovery.specs.Directory.{described_in, gathered};
ghost use Rattle.recovery.specs.Scans.{pages, newest, tail, last, front};

use crate::places::SLOTS;
use crate::scan::{Scan, Segments};
use crate::shape::Shape;
use format::segment::Summary;
use rules::fault::{Fault, Refusal, Side};
use rules::trailer::Trailer;

// No entry in any slot.
#[tactic(auto, unfolding(rules::specs::Recovery::no_entries))]
pub fn no_entries() -> [Option<Trailer>; SLOTS]
    ensures { result ≡ no_entries }
{
    [None; SLOTS]
}

impl Segments {
    // What the page in a place says.
    fn at(&self, place: usize) -> Option<&Summary>
        ensures { option_map (λ s. s.now) result ≡ slice_index_or self.now.places.items place None }
    {
        self.places.get(place)?.as_ref()
    }

    // The trailer of a number, if the segment of its group was found.
    fn trailer_of(&self, shape: Shape, q: u32) -> Option<Trailer>
        requires { q ≤ 4000000015 }
        ensures { result ≡ of_group q (slice_index_or (map all_said self.now.places.items)
            ((q - 1) / 15 % (shape.groups + 1)) None) }
    {
        let before = q.saturating_sub(1);
        let place = before / 15 % u32::from(shape.segment_pages());
        let segment = self.at(place as usize)?;
        if segment.last != 15 * (before / 15) + 15 {
            return None;
        }
        Some(segment.entries[(before % 15) as usize])
    }
}

impl Scan {
    // What the tail says of a number after the newest segment's, and the segments of one before.
    fn described(&self, q: u32) -> Option<Trailer>
        requires { q ≤ 4000000015 }
        ensures { result ≡ described_in self.now.shape.groups (pages self.now) (last_of (newest self.now))
            (tail self.now).trailers q }
    {
        let base = self.segments.last();
        if q > base {
            self.tail.get((q - base - 1) as usize).copied()
        } else {
            self.segments.trailer_of(self.shape, q)
        }
    }

    // The entries of the live numbers; the lowest that is described nowhere is foreign.
    pub(crate) fn entries(&self) -> Result<[Option<Trailer>; SLOTS], Fault>
        ensures { result ≡ gathered self.now.shape.groups (pages self.now) (last_of (newest self.now))
            (tail self.now).trailers (last self.now + 1 - front self.now) (front self.now) }
    {
        let mut entries = no_entries();
        for q in self.front()..self.last() + 1 {
            let frame = self.shape.frame_of(q);
            let foreign = Fault::touched(Refusal::Foreign, Side::Flash, frame);
            let trailer = self.described(q).ok_or(foreign)?;
            entries[usize::from(frame)] = Some(trailer);
        }
        Ok(entries)
    }
}
