ghost use Rattle.std.specs.Prelude.{◌≡◌, Some};
ghost use Rattle.rules.specs.Refusals.{number_of, word_of, has_place, plain, touched, of_cause};

use medium::Cause;
use std::fmt;

// The two media of a store.
#[derive(Clone, Copy, PartialEq, Eq, Debug)]
pub enum Side {
    Flash,
    Disk,
}

// A page of a medium.
#[derive(Clone, Copy, PartialEq, Eq, Debug)]
pub struct Place {
    pub side: Side,
    pub page: u16,
}

// Why a call is refused, each with its number.
#[derive(Clone, Copy, PartialEq, Eq, Debug)]
pub enum Refusal {
    // the store is dark, or a medium answered dark
    Dark = 1,
    // the store is not mounted
    Shut = 2,
    // the store is mounted already
    Up = 3,
    // the frames or the media have not the sizes of a store
    Size = 4,
    // there is no page of that number
    NoPage = 5,
    // the page is held
    Held = 6,
    // the page is not in RAM, and every frame is held
    AllHeld = 7,
    // hold number, sequence number or version is used up
    Spent = 8,
    // a page is not as this store leaves pages
    Foreign = 9,
    // the frame has not that hold
    Stale = 10,
    // the bytes do not fit a body
    Length = 11,
}

// A refusal, and the page at which it was met, if one was touched.
#[derive(Clone, Copy, PartialEq, Eq, Debug)]
pub struct Fault {
    pub cause: Refusal,
    pub place: Option<Place>,
}

impl Refusal {
    pub fn number(self) -> u8
        ensures { result ≡ number_of self }
    {
        self as u8
    }

    pub fn word(self) -> &'static str
        ensures { result.now ≡ word_of self }
    {
        match self {
            Refusal::Dark => "dark",
            Refusal::Shut => "shut",
            Refusal::Up => "up",
            Refusal::Size => "size",
            Refusal::NoPage => "no page",
            Refusal::Held => "held",
            Refusal::AllHeld => "all held",
            Refusal::Spent => "spent",
            Refusal::Foreign => "foreign",
            Refusal::Stale => "stale",
            Refusal::Length => "length",
        }
    }

    // Whether it may say at which page it was met.
    pub fn has_place(self) -> bool
        ensures { result ≡ has_place self }
    {
        matches!(self, Refusal::Dark | Refusal::Foreign)
    }
}

impl fmt::Display for Refusal {
    ghost output = { λ r. Some (word_of r) };

    fn fmt<W: fmt::Write>(&self, f: &mut fmt::Formatter<W>) -> fmt::Result {
        f.write_str(self.word())
    }
}

impl Fault {
    // A refusal that touched no page.
    pub fn plain(cause: Refusal) -> Fault
        ensures { result ≡ plain cause }
    {
        Fault { cause, place: None }
    }

    // A refusal met at a page of a medium.
    pub fn touched(cause: Refusal, side: Side, page: u16) -> Fault
        ensures { result ≡ touched cause side page }
    {
        Fault {
            cause,
            place: Some(Place { side, page }),
        }
    }

    // What a medium's refusal of a page is to the store: dark, or foreign.
    pub fn of_cause(side: Side, page: u16, cause: Cause) -> Fault
        ensures { result ≡ of_cause side page cause }
    {
        match cause {
            Cause::Dark => Fault::touched(Refusal::Dark, side, page),
            Cause::Outside | Cause::Length | Cause::Unreadable => {
                Fault::touched(Refusal::Foreign, side, page)
            }
        }
    }
}
