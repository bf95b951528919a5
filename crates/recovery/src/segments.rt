ghost use Rattle.std.specs.Prelude.{◌≡◌, ◌+◌, ◌≤◌, map, IfOk};
ghost use Rattle.format.specs.Segments.{all_said};
ghost use Rattle.rules.specs.Queue.{groups as groups_of};
ghost use Rattle.rules.specs.Recovery.{read_segments, later, newest as newest_of};
ghost use Rattle.recovery.specs.Segments.{Within, one_said, one_segment, said_in};

use crate::page::look;
use crate::scan::{Pages, Segments};
use crate::shape::Shape;
use format::segment::{Summary, read_segment};
use medium::Medium;
use rules::fault::{Fault, Refusal, Side};

// What one segment page says: None if it is unreadable.
fn read_one<F: Medium>(flash: &mut F, shape: Shape, place: u16) -> Result<Option<Summary>, Fault>
    requires { place ≤ shape.groups }
    ensures keeps { F.Medium.inorder flash.old → F.Medium.inorder flash.new }
    ensures same { F.Medium.inorder flash.old
        → F.Medium.means flash.new ≡ F.Medium.means flash.old }
    ensures found { F.Medium.inorder flash.old
        → groups_of (F.Medium.means flash.old) ≡ shape.groups
        → one_said result ≡ one_segment (F.Medium.means flash.old) shape.pages place }
    ensures most { IfOk result Within }
{
    let at = shape.frames() + place;
    let Some(bytes) = look(flash, Side::Flash, at)? else {
        return Ok(None);
    };
    let foreign = Fault::touched(Refusal::Foreign, Side::Flash, at);
    read_segment(&bytes, shape.groups, place, shape.pages)
        .map(Some)
        .ok_or(foreign)
}

// The one with the higher last number.
fn newer(a: Option<Summary>, b: Option<Summary>) -> Option<Summary>
    ensures exact { all_said result ≡ later (all_said a) (all_said b) }
    ensures most { Within a → Within b → Within result }
{
    match (a, b) {
        (Some(x), Some(y)) if x.last < y.last => b,
        _ => a.or(b),
    }
}

// All segment pages, from the lowest.
pub(crate) fn read_segments<F: Medium>(flash: &mut F, shape: Shape) -> Result<Segments, Fault>
    ensures keeps { F.Medium.inorder flash.old → F.Medium.inorder flash.new }
    ensures same { F.Medium.inorder flash.old
        → F.Medium.means flash.new ≡ F.Medium.means flash.old }
    ensures found { F.Medium.inorder flash.old
        → groups_of (F.Medium.means flash.old) ≡ shape.groups
        → said_in result
        ≡ read_segments (F.Medium.means flash.old) shape.pages (shape.groups + 1) 0 }
    ensures newest { IfOk result (λ s. all_said s.newest ≡ newest_of (map all_said s.places.items)) }
{
    let mut places = Pages::new();
    let mut newest = None;
    for place in 0..shape.segment_pages() {
        let segment = read_one(flash, shape, place)?;
        places.push(segment);
        newest = newer(newest, segment);
    }
    Ok(Segments { places, newest })
}
