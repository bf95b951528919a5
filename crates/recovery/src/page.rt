ghost use Rattle.std.specs.Prelude.{◌≡◌};
ghost use Rattle.recovery.specs.Looks.{looks};

use medium::{Cause, Medium, PAGE};
use rules::fault::{Fault, Refusal, Side};

// What stands on a page of a medium, if it is whole.
pub fn look<M: Medium>(medium: &mut M, on: Side, page: u16) -> Result<Option<[u8; PAGE]>, Fault>
    ensures keeps { M.Medium.inorder medium.old → M.Medium.inorder medium.new }
    ensures same { M.Medium.inorder medium.old
        → M.Medium.means medium.new ≡ M.Medium.means medium.old }
    ensures found { M.Medium.inorder medium.old
        → result ≡ looks on (M.Medium.means medium.old) page }
{
    let mut bytes = [0u8; PAGE];
    match medium.read(page, &mut bytes) {
        Ok(()) => Ok(Some(bytes)),
        Err(Cause::Dark) => Err(Fault::touched(Refusal::Dark, on, page)),
        Err(Cause::Outside | Cause::Length | Cause::Unreadable) => Ok(None),
    }
}
