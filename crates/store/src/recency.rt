ghost use Rattle.std.specs.Prelude.{◌≡◌, ◌==◌, ◌∷◌, position};
ghost use Rattle.rules.specs.Ram.{all_frames, without};
ghost use Rattle.store.specs.Order.{Once};

use crate::frame::{FRAMES, Frame};

// The frames, the one last taken first. Each is named once.
#[derive(Drop)]
pub struct Recency {
    pub(crate) order: [Frame; FRAMES],
    ghost once: { Once order },
}

// Where a list has the frame of a number.
fn place_of(number: u8, order: &[Frame]) -> Option<usize>
    ensures { result ≡ position (λ x. x == number) order.now }
{
    order.iter().position(|x| x.number() == number)
}

impl Recency {
    pub(crate) fn new() -> Recency
        ensures { result.order ≡ all_frames }
    {
        Recency {
            order: Frame::all(),
        }
    }

    // Moves a frame to the head.
    pub(crate) fn to_head(&mut self, frame: Frame)
        ensures { self.new.order ≡ frame ∷ without frame self.old.order }
    {
        if let Some(place) = place_of(frame.number(), &self.order) {
            self.order[..=place].rotate_right(1);
        }
    }
}
