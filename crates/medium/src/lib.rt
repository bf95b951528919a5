#![tactic(auto)]

ghost use Rattle.std.specs.Prelude.{◌≡◌, ◌<◌, length, Some, Ok};
ghost use Rattle.medium.specs.Meaning.{Meaning, size};
ghost use Rattle.medium.specs.Outcome.{Gives};
ghost use Rattle.medium.specs.Rules.{refusal, allowed, reads, filled, plainly, write, relit};
ghost use Rattle.medium.specs.Words.{word_of};

use std::fmt;

// The bytes of a page.
pub const PAGE: usize = 256;

// Why a medium refuses.
#[derive(Clone, Copy, PartialEq, Eq, Debug)]
pub enum Cause {
    // the power is off, or failed in this write
    Dark,
    // there is no page of that number
    Outside,
    // the buffer has not the length of a page
    Length,
    // the page was never written, or is torn
    Unreadable,
}

// In a word.
impl fmt::Display for Cause {
    ghost output = { λ c. Some (word_of c) };

    fn fmt<W: fmt::Write>(&self, f: &mut fmt::Formatter<W>) -> fmt::Result {
        f.write_str(match self {
            Cause::Dark => "dark",
            Cause::Outside => "outside",
            Cause::Length => "length",
            Cause::Unreadable => "unreadable",
        })
    }
}

// Numbered pages of 256 bytes under a power supply that may fail in a write.
// `means` is what a medium holds; `inorder` says that it may be relied on. Every function keeps a medium in order, and
// does to the meaning of one in order what its rule says.
pub trait Medium {
    ghost means: { Self → Meaning };

    ghost inorder: { Self → Type 0 };

    // How many pages there are.
    fn size(&self) -> u16
        ensures { inorder self.now → result ≡ size (means self.now) };

    // Copies a page into a buffer of 256 bytes; refused, the buffer is untouched.
    fn read(&mut self, page: u16, into: &mut [u8]) -> Result<(), Cause>
        ensures keeps { inorder self.old → inorder self.new }
        ensures answer { inorder self.old
            → result ≡ plainly (reads (means self.old) page (length into.old)) }
        ensures buffer { inorder self.old
            → into.new
            ≡ filled into.old (reads (means self.old) page (length into.old)) }
        ensures same { inorder self.old
            → means self.new ≡ means self.old };

    // Writes a page, or is struck where no charge is left.
    fn write(&mut self, page: u16, from: &[u8]) -> Result<(), Cause>
        ensures keeps { inorder self.old → inorder self.new }
        ensures gives { inorder self.old
            → Gives (write (means self.old) page from.now) result (means self.new) };

    // Power on, for as many writes as the charge says.
    fn relight(&mut self, charge: u32)
        ensures keeps { inorder self.old → inorder self.new }
        ensures after { inorder self.old
            → means self.new ≡ relit (means self.old) charge };
}

// The checks that every read and write makes first, in their order.
pub fn check_access(lit: bool, pages: u16, page: u16, len: usize) -> Result<(), Cause>
    ensures answer { result ≡ allowed (refusal lit pages page len) }
    ensures passes { result ≡ Ok tt → (page < pages) × (len ≡ 256) }
{
    if !lit {
        return Err(Cause::Dark);
    }
    if page >= pages {
        return Err(Cause::Outside);
    }
    if len != PAGE {
        return Err(Cause::Length);
    }
    Ok(())
}
