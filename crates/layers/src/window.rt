ghost use Rattle.std.specs.Prelude.{◌≡◌, ◌-◌, min, length};
ghost use Rattle.medium.specs.Meaning.{size};
ghost use Rattle.medium.specs.Outcome.{Gives};
ghost use Rattle.medium.specs.Rules.{reads, filled, plainly, write, relit};
ghost use Rattle.layers.specs.Window.{view, spot, write_below, Fixed};

use medium::{Cause, Medium};

// The pages of a medium from a first number on, as many as a count says and the medium has.
#[derive(Drop)]
pub struct Window<M> {
    first: u16,
    count: u16,
    below: M,
}

impl<M: Medium> Window<M> {
    // Any numbers will do: where the medium below has no page, the window has none.
    pub fn new(first: u16, count: u16, below: M) -> Window<M>
        ensures first { result.first ≡ first }
        ensures count { result.count ≡ count }
        ensures below { result.below ≡ below }
        ensures means { M.Medium.means result.below ≡ M.Medium.means below }
        ensures order { M.Medium.inorder below → M.Medium.inorder result.below }
    {
        Window {
            first,
            count,
            below,
        }
    }

    // The page below that a page of the window is; for one outside, a page outside below.
    fn placed(&self, page: u16) -> u16
        ensures { M.Medium.inorder self.now.below → result ≡ spot M.Medium self.now page }
    {
        let pages = self.below.size();
        if page < self.count {
            self.first.saturating_add(page).min(pages)
        } else {
            pages
        }
    }
}

// A window is in order if the medium below is. Besides what a medium owes, each function says what it does to the
// medium below, so also to the pages that the window does not show (`below`), and that the window stays (`fixed`).
impl<M: Medium> Medium for Window<M> {
    ghost means = { λ w. view M.Medium w };

    ghost inorder = { λ w. M.Medium.inorder w.below };

    #[tactic(auto, using(crate::proofs::Through::length_part))]
    fn size(&self) -> u16 {
        self.below.size().saturating_sub(self.first).min(self.count)
    }

    #[tactic(auto, using(crate::proofs::Through::reads_through))]
    fn read(&mut self, page: u16, into: &mut [u8]) -> Result<(), Cause>
        ensures keeps { M.Medium.inorder self.old.below
            → M.Medium.inorder self.new.below }
        ensures answer { M.Medium.inorder self.old.below
            → result ≡ plainly (reads (view M.Medium self.old) page (length into.old)) }
        ensures buffer { M.Medium.inorder self.old.below
            → into.new ≡ filled into.old
            (reads (view M.Medium self.old) page (length into.old)) }
        ensures same { M.Medium.inorder self.old.below
            → view M.Medium self.new ≡ view M.Medium self.old }
        ensures below { M.Medium.inorder self.old.below
            → M.Medium.means self.new.below ≡ M.Medium.means self.old.below }
        ensures fixed { Fixed self.old self.new }
    {
        let place = self.placed(page);
        self.below.read(place, into)
    }

    #[tactic(auto, using(crate::proofs::Through::write_through))]
    fn write(&mut self, page: u16, from: &[u8]) -> Result<(), Cause>
        ensures keeps { M.Medium.inorder self.old.below
            → M.Medium.inorder self.new.below }
        ensures gives { M.Medium.inorder self.old.below
            → Gives (write (view M.Medium self.old) page from.now) result
            (view M.Medium self.new) }
        ensures below { M.Medium.inorder self.old.below
            → Gives (write_below M.Medium self.old page from.now) result
            (M.Medium.means self.new.below) }
        ensures fixed { Fixed self.old self.new }
    {
        let place = self.placed(page);
        self.below.write(place, from)
    }

    fn relight(&mut self, charge: u32)
        ensures keeps { M.Medium.inorder self.old.below
            → M.Medium.inorder self.new.below }
        ensures after { M.Medium.inorder self.old.below
            → view M.Medium self.new ≡ relit (view M.Medium self.old) charge }
        ensures below { M.Medium.inorder self.old.below
            → M.Medium.means self.new.below ≡ relit (M.Medium.means self.old.below) charge }
        ensures fixed { Fixed self.old self.new }
    {
        self.below.relight(charge);
    }
}
