ghost use Rattle.std.specs.Prelude.{◌≡◌, ℕ, ◌∷◌, Some, None, MatchOption, option_map};
ghost use Rattle.board.specs.Lines.{fields_of, all_numbers, numbers_of, command_by, command_with, command_of};
ghost use Rattle.board.specs.Parts.{fields_left};
ghost use Rattle.board.specs.Texts.{letter_of, letter_text};

use crate::lines::place_of;
use crate::number::number;
use arrayvec::ArrayVec;
use std::fmt;

// What a line asks for.
#[derive(Clone, Copy, PartialEq, Eq, Debug)]
pub enum Command {
    // so many RAM frames
    Mount { frames: u32 },
    Save { page: u32, offset: u32, byte: u8 },
    Get { page: u32, offset: u32 },
    Checkpoint,
    // the charges of the two media
    Cycle { flash: u32, disk: u32 },
}

// The letters of the five commands.
#[derive(Clone, Copy, PartialEq, Eq, Debug)]
pub enum Letter {
    Mount,
    Save,
    Get,
    Checkpoint,
    Cycle,
}

impl Letter {
    pub fn text(self) -> &'static str
        ensures { result.now ≡ letter_text self }
    {
        match self {
            Letter::Mount => "m",
            Letter::Save => "s",
            Letter::Get => "g",
            Letter::Checkpoint => "k",
            Letter::Cycle => "c",
        }
    }
}

// As a reply prints it.
impl fmt::Display for Letter {
    ghost output = { λ l. Some (letter_text l) };

    fn fmt<W: fmt::Write>(&self, f: &mut fmt::Formatter<W>) -> fmt::Result {
        f.write_str(self.text())
    }
}

impl Command {
    pub fn letter(self) -> Letter
        ensures { result ≡ letter_of self }
    {
        match self {
            Command::Mount { .. } => Letter::Mount,
            Command::Save { .. } => Letter::Save,
            Command::Get { .. } => Letter::Get,
            Command::Checkpoint => Letter::Checkpoint,
            Command::Cycle { .. } => Letter::Cycle,
        }
    }
}

// The numbers of a line: no command has more than three.
type Numbers = ArrayVec<u32, 3>;

// The numbers behind a letter: none, or each after one space.
fn numbers_of(rest: &[u8]) -> Option<Numbers>
    ensures { MatchOption result ((letter : ℕ) → command_with letter (numbers_of rest.now) ≡ None)
        (λ n. numbers_of rest.now ≡ Some n.items) }
{
    match rest {
        [] => Some(ArrayVec::new()),
        [b' ', fields @ ..] => all_numbers(fields),
        _ => None,
    }
}

// The first field, and those behind its space, if it has one.
fn cut(fields: &[u8]) -> (&[u8], Option<&[u8]>)
    ensures { fields_of fields.now ≡ result.0.now ∷ fields_left (option_map (λ more. more.now) result.1) }
{
    match place_of(b' ', fields) {
        Some(space) => (&fields[..space], Some(&fields[space + 1..])),
        None => (fields, None),
    }
}

// The numbers between the spaces, if they are well-formed and no more than three. What stands behind a third space is
// not looked at.
fn all_numbers(fields: &[u8]) -> Option<Numbers>
    ensures { MatchOption result ((letter : ℕ) → command_with letter (all_numbers (fields_of fields.now)) ≡ None)
        (λ n. all_numbers (fields_of fields.now) ≡ Some n.items) }
{
    let mut numbers = ArrayVec::new();
    let mut left = Some(fields);
    while let Some(rest) = left {
        if numbers.is_full() {
            return None;
        }
        let (field, more) = cut(rest);
        numbers.push(number(field)?);
        left = more;
    }
    Some(numbers)
}

// The command of a letter with these numbers.
fn command_by(letter: u8, numbers: &[u32]) -> Option<Command>
    ensures { result ≡ command_by letter numbers.now }
{
    match (letter, numbers) {
        (b'm', &[frames]) => Some(Command::Mount { frames }),
        (b's', &[page, offset, byte]) => {
            let byte = u8::try_from(byte).ok()?;
            Some(Command::Save { page, offset, byte })
        }
        (b'g', &[page, offset]) => Some(Command::Get { page, offset }),
        (b'k', []) => Some(Command::Checkpoint),
        (b'c', &[flash, disk]) => Some(Command::Cycle { flash, disk }),
        _ => None,
    }
}

// The command of a line, without its line feed; None if the line is ill-formed.
pub fn parse(line: &[u8]) -> Option<Command>
    ensures { result ≡ command_of line.now }
{
    let (letter, rest) = line.split_first()?;
    command_by(*letter, numbers_of(rest)?.as_slice())
}
