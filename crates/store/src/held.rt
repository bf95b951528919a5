ghost use Rattle.std.specs.Prelude.{◌≡◌, length, Err};
ghost use Rattle.rules.specs.Store.{read as read_call, write as write_call, give_back, gave, wrote, given};
ghost use Rattle.store.specs.View.{Does, InOrder, InRange, answered};

use crate::admit::may_serve;
use crate::hold::Hold;
use crate::store::Store;
use format::page::BODY;
use medium::Medium;
use rules::fault::{Fault, Refusal};
use rules::trailer::MOST;

// Read, write and give back want the frame's hold.
impl<F: Medium, D: Medium> Store<F, D> {
    pub(crate) fn serve_read(&mut self, hold: &Hold, into: &mut [u8]) -> Result<u32, Fault>
        ensures does { Does F.Medium D.Medium self.old self.new
            (answered (λ v. gave into.new v) result)
            (read_call hold.now.grant.frame hold.now.grant.number (length into.old)) }
        ensures untouched { (e : Fault) → result ≡ Err e → into.new ≡ into.old }
    {
        may_serve(self.state)?;
        let frame = self.frames.held(hold.grant)?;
        if into.len() != BODY {
            return Err(Fault::plain(Refusal::Length));
        }
        into.copy_from_slice(self.frames.body(frame));
        Ok(self.frames.card(frame).version)
    }

    pub(crate) fn serve_write(
        &mut self,
        hold: &Hold,
        offset: usize,
        bytes: &[u8],
    ) -> Result<u32, Fault>
        ensures keeps { InOrder F.Medium D.Medium self.old → InOrder F.Medium D.Medium self.new }
        ensures does { InRange self.old → Does F.Medium D.Medium self.old self.new (answered wrote result)
            (write_call hold.now.grant.frame hold.now.grant.number offset bytes.now) }
    {
        may_serve(self.state)?;
        let frame = self.frames.held(hold.grant)?;
        if offset > BODY || bytes.len() > BODY - offset {
            return Err(Fault::plain(Refusal::Length));
        }
        let version = self.frames.card(frame).version;
        if version >= MOST {
            return Err(Fault::plain(Refusal::Spent));
        }
        self.frames.change(frame, offset, bytes);
        Ok(version + 1)
    }

    pub(crate) fn serve_give_back(&mut self, hold: Hold) -> Result<(), Fault>
        ensures { Does F.Medium D.Medium self.old self.new (answered (λ _. given) result)
            (give_back hold.grant.frame hold.grant.number) }
    {
        let grant = hold.spend();
        may_serve(self.state)?;
        let frame = self.frames.held(grant)?;
        self.frames.release(frame);
        Ok(())
    }
}
