ghost use Rattle.std.specs.Prelude.{◌≡◌, [], ◌∷◌, ◌++◌, IfOk, Some, string_bytes};
ghost use Rattle.board.specs.Texts.{said};

use crate::command::Letter;
use rules::fault::Refusal;
use rules::state::Mounted;
use std::alloc::{AllocError, Global};
use std::fmt;

// What a line is answered.
#[derive(Clone, Copy, PartialEq, Eq, Debug)]
pub enum Reply {
    Mounted(Mounted),
    // the version that the write made
    Saved(u32),
    Got { byte: u8, version: u32 },
    // how many pages a checkpoint kept
    Kept(u32),
    Cycled,
    Refused { letter: Letter, cause: Refusal },
    // the line is ill-formed
    Unclear,
}

// The reply as a line prints it, without the line feed.
impl fmt::Display for Reply {
    ghost output = { λ r. Some (said r) };

    fn fmt<W: fmt::Write>(&self, f: &mut fmt::Formatter<W>) -> fmt::Result {
        match *self {
            Reply::Mounted(Mounted { last, live, reads }) => write!(f, "m {last} {live} {reads}"),
            Reply::Saved(version) => write!(f, "s {version}"),
            Reply::Got { byte, version } => write!(f, "g {byte} {version}"),
            Reply::Kept(count) => write!(f, "k {count}"),
            Reply::Cycled => write!(f, "c"),
            Reply::Refused { letter, cause } => write!(f, "{letter} -{}", cause.number()),
            Reply::Unclear => write!(f, "?"),
        }
    }
}

// The reply with its line feed.
pub fn line_of(heap: Global, reply: Reply) -> Result<String, AllocError>
    ensures { IfOk result (λ t. string_bytes t ≡ said reply ++ (10 ∷ [])) }
{
    format!(in heap; "{reply}\n")
}
