ghost use Rattle.std.specs.Prelude.{◌≡◌, ◌+◌, ◌-◌, ◌≤◌, length, IfOk};
ghost use Rattle.format.specs.Segments.{all_said};
ghost use Rattle.rules.specs.Recovery.{last_of, front_of};

use crate::places::GROUP;
use crate::recovered::Recovered;
use crate::shape::Shape;
use crate::tail::Tail;
use arrayvec::ArrayVec;
use format::segment::Summary;
use rules::fault::Fault;
use rules::state::Mounted;

// What each segment page says, None if it is unreadable: one more than there are groups.
pub(crate) type Pages = ArrayVec<Option<Summary>, 15>;

// The segment pages, each in its place, and the newest of them.
#[derive(Drop)]
pub(crate) struct Segments {
    pub(crate) places: Pages,
    pub(crate) newest: Option<Summary>,
    ghost last_in_range: { last_of (all_said newest) ≤ 4000000000 },
}

// What was read of a flash.
#[derive(Drop)]
pub(crate) struct Scan {
    pub(crate) shape: Shape,
    pub(crate) segments: Segments,
    pub(crate) tail: Tail,
    ghost last_in_range: { last_of (all_said segments.newest) + length tail.items ≤ 4000000000 },
}

impl Segments {
    // The last number that the newest one describes, 0 if there is none.
    pub(crate) fn last(&self) -> u32
        ensures exact { result ≡ last_of (all_said self.now.newest) }
        ensures most { result ≤ 4000000000 }
    {
        self.newest.map_or(0, |segment| segment.last)
    }

    // The front when it was written.
    fn front(&self) -> u32
        ensures { result ≡ front_of (all_said self.now.newest) }
    {
        self.newest.map_or(0, |segment| segment.front)
    }
}

impl Scan {
    ghost use Rattle.recovery.specs.Assembled.{assembled};
    ghost use Rattle.recovery.specs.Scans.{pages, newest, tail, last, front};

    // How many frames of the tail were accepted.
    fn accepted(&self) -> u16
        ensures exact { result ≡ length self.now.tail.items }
        ensures most { result ≤ 15 }
    {
        self.tail.len() as u16
    }

    // The last number.
    pub(crate) fn last(&self) -> u32
        ensures exact { result ≡ last self.now }
        ensures most { result ≤ 4000000000 }
    {
        self.segments.last() + u32::from(self.accepted())
    }

    // The front: not below the newest segment's, and one frame stays free.
    pub(crate) fn front(&self) -> u32
        ensures { result ≡ front self.now }
    {
        let least = (self.last() + 2).saturating_sub(u32::from(self.shape.frames()));
        least.max(self.segments.front()).max(1)
    }

    // How many numbers are live.
    fn live(&self) -> u16
        ensures { result ≡ last self.now + 1 - front self.now }
    {
        (self.last() + 1).saturating_sub(self.front()) as u16
    }

    // How many pages were read. The frame that ends a tail early is one of them.
    fn reads(&self) -> u16
        ensures { result ≡ self.now.shape.groups + 1 + (tail self.now).reads }
    {
        self.shape.segment_pages() + (self.accepted() + 1).min(GROUP)
    }

    // What was read back.
    pub(crate) fn recovered(&self) -> Result<Recovered, Fault>
        ensures exact { result ≡ assembled self.now.shape.groups (newest self.now) (pages self.now) (tail self.now) }
        ensures most { IfOk result (λ r. r.found.last ≤ 4000000000) }
    {
        let entries = self.entries()?;
        Ok(Recovered {
            found: Mounted {
                last: self.last(),
                live: self.live(),
                reads: self.reads(),
            },
            front: self.front(),
            entries,
            tail: self.accepted(),
        })
    }
}
