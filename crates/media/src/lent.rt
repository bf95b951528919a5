ghost use Rattle.std.specs.Prelude.{◌≡◌, ◌<◌, length, Ok};
ghost use Rattle.medium.specs.Meaning.{size};
ghost use Rattle.medium.specs.Outcome.{Gives};
ghost use Rattle.medium.specs.Rules.{allowed, reads, filled, plainly, write, relit};
ghost use Rattle.media.specs.Lent.{fresh, relit_lent, refuses_lent, reads_lent, store};
ghost use Rattle.media.specs.Ends.{of_lent, means_of, inorder_of};

use crate::lay::Lay;
use medium::{Cause, Medium, check_access};
use std::marker::PhantomData;

// A medium over lent bytes, in which pages lie as the lay says.
#[derive(Drop)]
pub struct Lent<'a, L> {
    bytes: &'a mut [u8],
    // what a strike leaves, as a number that the lay understands
    strike: u8,
    charge: u32,
    lit: bool,
    lay: PhantomData<L>,
}

impl<'a, L: Lay> Lent<'a, L> {
    // A medium over these bytes, as they are: lit, with a charge and with what a strike is to leave.
    pub fn new(bytes: &'a mut [u8], strike: u8, charge: u32) -> Lent<'a, L>
        ensures parts { of_lent result ≡ fresh bytes.old strike charge }
        ensures lender { result.bytes.ghost_name ≡ bytes.entry.ghost_name }
    {
        Lent {
            bytes,
            strike,
            charge,
            lit: true,
            lay: PhantomData,
        }
    }

    fn pages(&self) -> u16
        ensures { result ≡ L.coding.count self.now.bytes.now }
    {
        L::count(self.bytes)
    }

    // The checks of a read or a write.
    fn check(&self, page: u16, len: usize) -> Result<(), Cause>
        ensures answer { result ≡ allowed (refuses_lent L.coding (of_lent self.now) page len) }
        ensures passes { result ≡ Ok tt → (page < L.coding.count self.now.bytes.now) × (len ≡ 256) }
    {
        check_access(self.lit, self.pages(), page, len)
    }

    fn fetch(&self, page: u16, into: &mut [u8]) -> Result<(), Cause>
        ensures answer { result
            ≡ plainly (reads_lent L.coding (of_lent self.now) page (length into.old)) }
        ensures buffer { into.new
            ≡ filled into.old (reads_lent L.coding (of_lent self.now) page (length into.old)) }
    {
        self.check(page, into.len())?;
        L::copy_out(self.bytes, page, into)
    }

    fn store(&mut self, page: u16, from: &[u8]) -> Result<(), Cause>
        ensures exact { Gives (store L.coding (of_lent self.old) page from.now) result
            (of_lent self.new) }
        ensures lender { self.new.bytes.ghost_name ≡ self.old.bytes.ghost_name }
    {
        self.check(page, from.len())?;
        if self.charge > 0 {
            L::put(self.bytes, page, from);
            self.charge -= 1;
            return Ok(());
        }
        L::cut(self.strike, self.bytes, page, from);
        self.lit = false;
        Err(Cause::Dark)
    }
}

// Besides what a medium owes, each function says what stands in the lent slice then, to the byte (`exact`), and that it
// is the same slice (`lender`), so that whoever lent it knows what it holds when the medium is gone.
impl<'a, L: Lay> Medium for Lent<'a, L> {
    ghost means = { means_of L.coding };

    ghost inorder = { inorder_of };

    fn size(&self) -> u16
        ensures value { inorder_of self.now → result ≡ size (means_of L.coding self.now) }
    {
        self.pages()
    }

    fn read(&mut self, page: u16, into: &mut [u8]) -> Result<(), Cause>
        ensures keeps { inorder_of self.old → inorder_of self.new }
        ensures answer { inorder_of self.old
            → result ≡ plainly (reads (means_of L.coding self.old) page (length into.old)) }
        ensures buffer { inorder_of self.old
            → into.new
            ≡ filled into.old (reads (means_of L.coding self.old) page (length into.old)) }
        ensures same { inorder_of self.old
            → means_of L.coding self.new ≡ means_of L.coding self.old }
        ensures exact { of_lent self.new ≡ of_lent self.old }
        ensures lender { self.new.bytes.ghost_name ≡ self.old.bytes.ghost_name }
    {
        self.fetch(page, into)
    }

    fn write(&mut self, page: u16, from: &[u8]) -> Result<(), Cause>
        ensures keeps { inorder_of self.old → inorder_of self.new }
        ensures gives { inorder_of self.old
            → Gives (write (means_of L.coding self.old) page from.now) result
            (means_of L.coding self.new) }
        ensures exact { Gives (store L.coding (of_lent self.old) page from.now) result
            (of_lent self.new) }
        ensures lender { self.new.bytes.ghost_name ≡ self.old.bytes.ghost_name }
    {
        self.store(page, from)
    }

    fn relight(&mut self, charge: u32)
        ensures keeps { inorder_of self.old → inorder_of self.new }
        ensures after { inorder_of self.old
            → means_of L.coding self.new ≡ relit (means_of L.coding self.old) charge }
        ensures exact { of_lent self.new ≡ relit_lent (of_lent self.old) charge }
        ensures lender { self.new.bytes.ghost_name ≡ self.old.bytes.ghost_name }
    {
        self.charge = charge;
        self.lit = true;
    }
}
