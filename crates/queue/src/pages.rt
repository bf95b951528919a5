ghost use Rattle.rules.specs.declared.fault.Side.TheVariants as side;
ghost use Rattle.std.specs.Prelude.{◌≡◌};
ghost use Rattle.medium.specs.Meaning.{Meaning, size};
ghost use Rattle.medium.specs.Outcome.{Gives};
ghost use Rattle.medium.specs.Rules.{write};
ghost use Rattle.rules.specs.Queue.{Queue as RulesQueue, write_flash, write_disk, read_whole};
ghost use Rattle.rules.specs.Refusals.{of_cause};
ghost use Rattle.rules.specs.Steps.{within};
ghost use Rattle.recovery.specs.Looks.{looks};
ghost use Rattle.queue.specs.View.{Does, Finds};

use crate::queue::Queue;
use medium::{Medium, PAGE};
use recovery::page::look;
use rules::fault::{Fault, Refusal, Side};

// Writes a page of a medium, with the page in a refusal.
fn put<M: Medium>(medium: &mut M, on: Side, page: u16, bytes: &[u8]) -> Result<(), Fault>
    ensures keeps { M.Medium.inorder medium.old → M.Medium.inorder medium.new }
    ensures sized { M.Medium.inorder medium.old
        → size (M.Medium.means medium.new) ≡ size (M.Medium.means medium.old) }
    ensures gives { M.Medium.inorder medium.old
        → (part : Meaning → RulesQueue)
        → Gives (within (of_cause on page) part (write (M.Medium.means medium.old) page bytes.now))
        result (part (M.Medium.means medium.new)) }
{
    medium
        .write(page, bytes)
        .map_err(|cause| Fault::of_cause(on, page, cause))
}

// Page writes and reads, with the page in their refusals.
impl<F: Medium, D: Medium> Queue<F, D> {
    pub(crate) fn put_flash(&mut self, page: u16, bytes: &[u8]) -> Result<(), Fault>
        ensures { Does F.Medium D.Medium self.old self.new result
            (λ x. write_flash x page bytes.now) }
    {
        put(&mut self.flash, Side::Flash, page, bytes)
    }

    pub(crate) fn put_disk(&mut self, page: u16, bytes: &[u8]) -> Result<(), Fault>
        ensures { Does F.Medium D.Medium self.old self.new result
            (λ x. write_disk x page bytes.now) }
    {
        put(&mut self.disk, Side::Disk, page, bytes)
    }

    // The bytes of a flash page that has to be whole.
    pub(crate) fn get_flash(&mut self, page: u16) -> Result<[u8; PAGE], Fault>
        ensures { Finds F.Medium D.Medium self.old self.new result
            (λ x. read_whole side.Flash x.flash page) }
    {
        let foreign = Fault::touched(Refusal::Foreign, Side::Flash, page);
        look(&mut self.flash, Side::Flash, page)?.ok_or(foreign)
    }

    // What stands on a disk page, if it is whole.
    pub fn look_at_disk(&mut self, page: u16) -> Result<Option<[u8; PAGE]>, Fault>
        ensures { Finds F.Medium D.Medium self.old self.new result
            (λ x. looks side.Disk x.disk page) }
    {
        look(&mut self.disk, Side::Disk, page)
    }
}
