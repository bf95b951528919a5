ghost use Rattle.std.specs.Prelude.{◌≡◌, ◌+◌, ◌*◌, ◌≤◌, length, IfOk, IfSome};
ghost use Rattle.format.specs.Pages.{trailer_of};
ghost use Rattle.rules.specs.Queue.{frames as frames_of};
ghost use Rattle.recovery.specs.Tails.{was_in, sorted, one_frame, tail_said, tail_left};

use crate::page::look;
use crate::shape::Shape;
use arrayvec::ArrayVec;
use format::page::read_trailer;
use format::segment::DESCRIBED;
use medium::Medium;
use rules::fault::{Fault, Refusal, Side};
use rules::trailer::Trailer;

// The trailers of the frames after the newest segment that hold the numbers sought.
pub(crate) type Tail = ArrayVec<Trailer, DESCRIBED>;

// Whether a number is lower than q and lies in the same frame.
fn was_in(shape: Shape, q: u32, number: u32) -> bool
    ensures { result ≡ was_in (15 * shape.groups) q number }
{
    number < q && shape.frame_of(number) == shape.frame_of(q)
}

// The trailer of a page, if it is proper: its number is in range.
fn trailer_on(page: &[u8], pages: u16) -> Option<Trailer>
    ensures exact { result ≡ trailer_of pages page.now }
    ensures most { IfSome result (λ t. t.q ≤ 4000000000) }
{
    read_trailer(page, pages)
}

// What the trailer in the frame of q says of the tail: it goes on with q, or it ends at an older number.
fn sort(shape: Shape, q: u32, trailer: Option<Trailer>) -> Result<Option<Trailer>, Fault>
    ensures exact { result ≡ sorted (15 * shape.groups) q trailer }
    ensures most { IfSome trailer (λ t. t.q ≤ 4000000000) → IfOk result (λ o. IfSome o (λ _. q ≤ 4000000000)) }
{
    match trailer {
        Some(t) if t.q == q => Ok(trailer),
        Some(t) if was_in(shape, q, t.q) => Ok(None),
        _ => Err(Fault::touched(Refusal::Foreign, Side::Flash, shape.frame_of(q))),
    }
}

// The trailer of q in its frame, or None if the tail ends there.
fn read_one<F: Medium>(flash: &mut F, shape: Shape, q: u32) -> Result<Option<Trailer>, Fault>
    ensures keeps { F.Medium.inorder flash.old → F.Medium.inorder flash.new }
    ensures same { F.Medium.inorder flash.old
        → F.Medium.means flash.new ≡ F.Medium.means flash.old }
    ensures found { F.Medium.inorder flash.old
        → frames_of (F.Medium.means flash.old) ≡ 15 * shape.groups
        → result ≡ one_frame (F.Medium.means flash.old) shape.pages q }
    ensures most { IfOk result (λ o. IfSome o (λ _. q ≤ 4000000000)) }
{
    match look(flash, Side::Flash, shape.frame_of(q))? {
        None => Ok(None),
        Some(bytes) => sort(shape, q, trailer_on(&bytes, shape.pages)),
    }
}

// The tail after a number: at most fifteen frames.
pub(crate) fn read_tail<F: Medium>(flash: &mut F, shape: Shape, after: u32) -> Result<Tail, Fault>
    requires { after ≤ 4000000000 }
    ensures keeps { F.Medium.inorder flash.old → F.Medium.inorder flash.new }
    ensures same { F.Medium.inorder flash.old
        → F.Medium.means flash.new ≡ F.Medium.means flash.old }
    ensures found { F.Medium.inorder flash.old
        → frames_of (F.Medium.means flash.old) ≡ 15 * shape.groups
        → tail_said result ≡ tail_left (F.Medium.means flash.old) shape.pages (after + 1) 0 }
    ensures last { IfOk result (λ t. after + length t.items ≤ 4000000000) }
{
    let mut tail = Tail::new();
    for q in after + 1..after + 16 {
        let Some(trailer) = read_one(flash, shape, q)? else {
            return Ok(tail);
        };
        tail.push(trailer);
    }
    Ok(tail)
}
