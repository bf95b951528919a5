ghost use Rattle.std.specs.Prelude.{◌≡◌, length};
ghost use Rattle.medium.specs.Outcome.{Gives};
ghost use Rattle.medium.specs.Rules.{reads, filled, plainly, write, relit};
ghost use Rattle.layers.specs.Buffer.{InOrder, Spares, finds};
ghost use Rattle.layers.specs.Copies.{none, settled};

use crate::copies::Copies;
use medium::{Cause, Medium, PAGE};

// A medium with copies of the four pages last read or written, from which it reads these.
#[derive(Drop)]
pub struct ReadBuffer<M> {
    copies: Copies,
    below: M,
}

impl<M: Medium> ReadBuffer<M> {
    pub fn new(below: M) -> ReadBuffer<M>
        ensures copies { result.copies ≡ none }
        ensures below { result.below ≡ below }
        ensures means { M.Medium.means result.below ≡ M.Medium.means below }
        ensures order { M.Medium.inorder below → InOrder M.Medium result }
    {
        ReadBuffer {
            copies: Copies::none(),
            below,
        }
    }

    // Reads a page from its copy, or below if there is none.
    fn look(&mut self, page: u16, into: &mut [u8]) -> Result<(), Cause>
        ensures keeps { M.Medium.inorder self.old.below
            → M.Medium.inorder self.new.below }
        ensures answer { M.Medium.inorder self.old.below
            → result ≡ plainly (finds M.Medium self.old page (length into.old)) }
        ensures buffer { M.Medium.inorder self.old.below
            → into.new ≡ filled into.old
            (finds M.Medium self.old page (length into.old)) }
        ensures same { M.Medium.inorder self.old.below
            → M.Medium.means self.new.below ≡ M.Medium.means self.old.below }
        ensures spares { Spares self.old self.new page (length into.old) }
        ensures copies { self.new.copies ≡ self.old.copies }
    {
        match self.copies.find(page) {
            Some(sheet) if into.len() == PAGE => {
                into.copy_from_slice(&sheet.bytes);
                Ok(())
            }
            _ => self.below.read(page, into),
        }
    }
}

// A read buffer means what the medium below means, and is in order if that is and each copy agrees with it.
// Besides what a medium owes, each function says which copies there are then (`copies`), and read that a page with a
// copy is not read below (`spares`).
impl<M: Medium> Medium for ReadBuffer<M> {
    ghost means = { λ b. M.Medium.means b.below };

    ghost inorder = { λ b. InOrder M.Medium b };

    fn size(&self) -> u16 {
        self.below.size()
    }

    #[tactic(auto, using(crate::proofs::Agreement::finds_reads, crate::proofs::Agreement::agreed_read))]
    fn read(&mut self, page: u16, into: &mut [u8]) -> Result<(), Cause>
        ensures keeps { InOrder M.Medium self.old → InOrder M.Medium self.new }
        ensures answer { InOrder M.Medium self.old
            → result ≡ plainly (reads (M.Medium.means self.old.below) page (length into.old)) }
        ensures buffer { InOrder M.Medium self.old
            → into.new ≡ filled into.old
            (reads (M.Medium.means self.old.below) page (length into.old)) }
        ensures same { InOrder M.Medium self.old
            → M.Medium.means self.new.below ≡ M.Medium.means self.old.below }
        ensures spares { Spares self.old self.new page (length into.old) }
        ensures copies { self.new.copies
            ≡ settled result page into.new self.old.copies }
    {
        let answer = self.look(page, into);
        self.copies.settle(answer, page, into);
        answer
    }

    #[tactic(auto, using(crate::proofs::Agreement::agreed_written))]
    fn write(&mut self, page: u16, from: &[u8]) -> Result<(), Cause>
        ensures keeps { InOrder M.Medium self.old → InOrder M.Medium self.new }
        ensures gives { InOrder M.Medium self.old
            → Gives (write (M.Medium.means self.old.below) page from.now) result
            (M.Medium.means self.new.below) }
        ensures copies { self.new.copies
            ≡ settled result page from.now self.old.copies }
    {
        let answer = self.below.write(page, from);
        self.copies.settle(answer, page, from);
        answer
    }

    fn relight(&mut self, charge: u32)
        ensures keeps { InOrder M.Medium self.old → InOrder M.Medium self.new }
        ensures after { InOrder M.Medium self.old
            → M.Medium.means self.new.below ≡ relit (M.Medium.means self.old.below) charge }
        ensures copies { self.new.copies ≡ self.old.copies }
    {
        self.below.relight(charge);
    }
}
