ghost use Rattle.std.specs.Prelude.{◌≡◌, ◌≤◌, IfOk};
ghost use Rattle.rules.specs.Queue.{groups};
ghost use Rattle.recovery.specs.Reread.{reread};

use crate::places::SLOTS;
use crate::scan::Scan;
use crate::segments::read_segments;
use crate::shape::Shape;
use crate::tail::read_tail;
use medium::Medium;
use rules::fault::{Fault, Refusal};
use rules::state::Mounted;
use rules::trailer::Trailer;

// What was read back: what a mount answers, the front, the directory, and how many frames of the tail were accepted.
#[derive(Clone, Copy)]
pub struct Recovered {
    pub found: Mounted,
    pub front: u32,
    pub entries: [Option<Trailer>; SLOTS],
    pub tail: u16,
}

// Reads the flash of a queue back, for a disk of so many pages; a flash of another size than a queue's is refused.
pub fn read_back<F: Medium>(flash: &mut F, pages: u16) -> Result<Recovered, Fault>
    ensures keeps { F.Medium.inorder flash.old → F.Medium.inorder flash.new }
    ensures same { F.Medium.inorder flash.old
        → F.Medium.means flash.new ≡ F.Medium.means flash.old }
    ensures found { F.Medium.inorder flash.old
        → 1 ≤ groups (F.Medium.means flash.old)
        → groups (F.Medium.means flash.old) ≤ 14
        → result ≡ reread (F.Medium.means flash.old) pages }
    ensures most { IfOk result (λ r. r.found.last ≤ 4000000000) }
{
    let shape = Shape::of(flash.size(), pages).ok_or(Fault::plain(Refusal::Size))?;
    let segments = read_segments(flash, shape)?;
    let tail = read_tail(flash, shape, segments.last())?;
    let scan = Scan {
        shape,
        segments,
        tail,
    };
    scan.recovered()
}
