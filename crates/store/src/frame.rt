ghost use Rattle.std.specs.Prelude.{◌≡◌, ◌<◌, Some, None, if◌then◌else◌, nat_lt};
ghost use Rattle.rules.specs.Ram.{all_frames};

use std::array;
use std::marker::Model;

// How many frames there is memory for.
pub(crate) const FRAMES: usize = 16;

// The number of one of the frames, in use or not.
#[derive(Clone, Copy)]
pub(crate) struct Frame {
    number: u8,
}

impl Model for Frame {
    ghost use Rattle.std.specs.Prelude.{ℕ, ◌<◌};

    ghost Value = { ℕ };

    ghost view = { λ f. f.number };

    ghost invariant = { λ f. f.number < 16 };

    ghost inverse = { λ n. record { number = n } };
}

impl Frame {
    // The frame of a number, if there is one.
    pub(crate) fn new(number: usize) -> Option<Frame>
        ensures { result ≡ (if nat_lt number 16 then Some number else None) }
    {
        if number >= FRAMES {
            return None;
        }
        Some(Frame {
            number: number as u8,
        })
    }

    // All frames, by their numbers.
    pub(crate) fn all() -> [Frame; FRAMES]
        ensures { result ≡ all_frames }
    {
        array::from_fn(
            |number: usize| -> Frame
                requires { number < 16 }
                ensures { result ≡ number }
            {
                Frame {
                    number: number as u8,
                }
            },
        )
    }

    pub(crate) fn number(self) -> u8
        ensures value { result ≡ self }
        ensures within { result < 16 }
    {
        self.number
    }

    // Where a table of all frames has it.
    pub(crate) fn place(self) -> usize
        ensures value { result ≡ self }
        ensures within { result < 16 }
    {
        usize::from(self.number)
    }
}
