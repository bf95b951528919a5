ghost use Rattle.std.specs.Prelude.{◌≡◌};
ghost use Rattle.store.specs.Admitted.{mounts, serves};

use rules::fault::{Fault, Refusal};
use rules::state::State;

// State and call decide first. A power cycle is done in any state.

// A mount wants a store that is shut.
pub(crate) fn may_mount(state: State) -> Result<(), Fault>
    ensures { result ≡ mounts state }
{
    match state {
        State::Dark => Err(Fault::plain(Refusal::Dark)),
        State::Shut => Ok(()),
        State::Up => Err(Fault::plain(Refusal::Up)),
    }
}

// The other calls want a store in service.
pub(crate) fn may_serve(state: State) -> Result<(), Fault>
    ensures { result ≡ serves state }
{
    match state {
        State::Dark => Err(Fault::plain(Refusal::Dark)),
        State::Shut => Err(Fault::plain(Refusal::Shut)),
        State::Up => Ok(()),
    }
}
