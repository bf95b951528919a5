ghost use Rattle.std.specs.Prelude.{◌≤◌};

use crate::frames::Frames;
use queue::queue::Queue;
use rules::state::State;

// A store of show pages: RAM frames over a flash queue over a disk.
#[derive(Drop)]
pub struct Store<F, D> {
    pub(crate) state: State,
    pub(crate) frames: Frames,
    pub(crate) queue: Queue<F, D>,
    // the last hold number given
    pub(crate) holds: u32,
    // It is not above the highest.
    ghost holds_in_range: { holds ≤ 4000000000 },
}
