ghost use Rattle.std.specs.Prelude.{◌≡◌, Ok};
ghost use Rattle.rules.specs.declared.state.State.TheVariants as state;
ghost use Rattle.rules.specs.Store.{mount as mount_call, mounted, cycle as cycle_rule, cycled};
ghost use Rattle.medium.specs.Outcome.{Gives};
ghost use Rattle.queue.specs.View.{Reliable};
ghost use Rattle.store.specs.Parts.{fit};
ghost use Rattle.store.specs.View.{view, answered, Does, Mounts};

use crate::admit::may_mount;
use crate::frames::Frames;
use crate::leave::heard;
use crate::store::Store;
use medium::Medium;
use recovery::places::groups_of;
use rules::fault::{Fault, Refusal};
use rules::state::{Mounted, State};

// Whether frames and media have the sizes of a store.
fn are_fitting(frames: u32, flash: u16, disk: u16) -> bool
    ensures { result ≡ fit frames flash disk }
{
    let groups = groups_of(flash);
    (1..=16).contains(&frames)
        && u32::from(flash) == 16 * u32::from(groups) + 1
        && (2..=14).contains(&groups)
        && (1..=240).contains(&disk)
}

impl<F: Medium, D: Medium> Store<F, D> {
    // Mounts a store that is shut.
    fn mount_shut(&mut self, frames: u32) -> Result<Mounted, Fault>
        ensures { Mounts F.Medium D.Medium self.old self.new (answered mounted result) frames }
    {
        if !are_fitting(frames, self.queue.flash_pages(), self.queue.disk_pages()) {
            return Err(Fault::plain(Refusal::Size));
        }
        let found = heard(&mut self.state, self.queue.recover())?;
        self.frames = Frames::fresh(frames as u8);
        self.state = State::Up;
        Ok(found)
    }

    pub(crate) fn serve_mount(&mut self, frames: u32) -> Result<Mounted, Fault>
        ensures { Does F.Medium D.Medium self.old self.new (answered mounted result)
            (mount_call frames) }
    {
        may_mount(self.state)?;
        self.mount_shut(frames)
    }

    // The power is off and on again.
    pub(crate) fn cycle(&mut self, flash_charge: u32, disk_charge: u32)
        ensures { Reliable F.Medium D.Medium self.old.queue
            → Reliable F.Medium D.Medium self.new.queue
            × (self.new.state ≡ state.Shut)
            × Gives (cycle_rule (view F.Medium D.Medium self.old) flash_charge disk_charge) (Ok cycled)
            (view F.Medium D.Medium self.new) }
    {
        self.queue.forget(flash_charge, disk_charge);
        self.frames = Frames::fresh(0);
        self.state = State::Shut;
    }
}
