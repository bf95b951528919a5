ghost use Rattle.std.specs.Prelude.{◌≡◌, true, length, Ok, Err};
ghost use Rattle.rules.specs.Book.{opened};
ghost use Rattle.rules.specs.Promise.{Blank, Run};
ghost use Rattle.rules.specs.Store.{mount as mount_call, take_page, read as read_call, write as write_call};
ghost use Rattle.rules.specs.Store.{give_back, checkpoint as checkpoint_call, power_cycle};
ghost use Rattle.rules.specs.Store.{mounted, gave, wrote, given, saved, cycled, fits};
ghost use Rattle.queue.specs.View as queue;
ghost use Rattle.store.specs.View.{view, first, InOrder, InRange, Does, Stands, answered, granted};

use crate::frames::Frames;
use crate::hold::Hold;
use crate::store::Store;
use medium::Medium;
use queue::queue::Queue;
use rules::fault::Fault;
use rules::state::{Mounted, State};

// The calls. Each does what the rules give, and whatever run lies behind the store, the run goes on and its promise
// holds.
impl<F: Medium, D: Medium> Store<F, D> {
    // A store that was never mounted and has given no hold.
    fn unused(over: Queue<F, D>) -> Store<F, D>
        ensures made { view F.Medium D.Medium result ≡ first (queue.view F.Medium D.Medium over) }
        ensures same { result.queue ≡ over }
    {
        Store {
            state: State::Shut,
            frames: Frames::fresh(0),
            queue: over,
            holds: 0,
        }
    }

    // A store over two media, shut. Over lit blank media of fitting sizes a run begins.
    pub fn new(flash: F, disk: D) -> Store<F, D>
        ensures made { view F.Medium D.Medium result ≡ first (queue.unused (F.Medium.means flash) (D.Medium.means disk)) }
        ensures order { F.Medium.inorder flash → D.Medium.inorder disk → InOrder F.Medium D.Medium result }
        ensures begins { Blank (F.Medium.means flash) → Blank (D.Medium.means disk)
            → fits 1 (F.Medium.means flash) (D.Medium.means disk) ≡ true
            → Run (view F.Medium D.Medium result) opened }
    {
        Store::unused(Queue::new(flash, disk))
    }

    // The media, had back.
    pub fn into_media(self) -> (F, D)
        ensures { (result.0 ≡ self.queue.flash) × (result.1 ≡ self.queue.disk) }
    {
        let Store {
            state: _,
            frames: _,
            queue,
            holds: _,
        } = self;
        queue.into_media()
    }

    // Puts a shut store into service with so many RAM frames.
    pub fn mount(&mut self, frames: u32) -> Result<Mounted, Fault>
        ensures does { Does F.Medium D.Medium self.old self.new (answered mounted result)
            (mount_call frames) }
        ensures stands { Stands F.Medium D.Medium self.old self.new (answered mounted result)
            (mount_call frames) }
    {
        self.serve_mount(frames)
    }

    // Holds a page in a frame.
    pub fn take(&mut self, page: u32) -> Result<Hold, Fault>
        ensures does { Does F.Medium D.Medium self.old self.new (answered granted result)
            (take_page page) }
        ensures stands { Stands F.Medium D.Medium self.old self.new (answered granted result)
            (take_page page) }
    {
        self.serve_take(page)
    }

    // Copies the held body into a buffer of 240 bytes and answers its version; refused, the buffer is untouched.
    pub fn read(&mut self, hold: &Hold, into: &mut [u8]) -> Result<u32, Fault>
        ensures does { Does F.Medium D.Medium self.old self.new
            (answered (λ v. gave into.new v) result)
            (read_call hold.now.grant.frame hold.now.grant.number
            (length into.old)) }
        ensures stands { Stands F.Medium D.Medium self.old self.new
            (answered (λ v. gave into.new v) result)
            (read_call hold.now.grant.frame hold.now.grant.number
            (length into.old)) }
        ensures untouched { (e : Fault) → result ≡ Err e → into.new ≡ into.old }
    {
        self.serve_read(hold, into)
    }

    // Puts bytes at an offset of the held body, and answers the new version.
    pub fn write(&mut self, hold: &Hold, offset: usize, bytes: &[u8]) -> Result<u32, Fault>
        ensures keeps { InOrder F.Medium D.Medium self.old → InOrder F.Medium D.Medium self.new }
        ensures does { InRange self.old → Does F.Medium D.Medium self.old self.new (answered wrote result)
            (write_call hold.now.grant.frame hold.now.grant.number offset
            bytes.now) }
        ensures stands { Stands F.Medium D.Medium self.old self.new (answered wrote result)
            (write_call hold.now.grant.frame hold.now.grant.number offset
            bytes.now) }
    {
        self.serve_write(hold, offset, bytes)
    }

    // Spends a hold, refused or not.
    pub fn give_back(&mut self, hold: Hold) -> Result<(), Fault>
        ensures does { Does F.Medium D.Medium self.old self.new
            (answered (λ _. given) result) (give_back hold.grant.frame hold.grant.number) }
        ensures stands { Stands F.Medium D.Medium self.old self.new
            (answered (λ _. given) result) (give_back hold.grant.frame hold.grant.number) }
    {
        self.serve_give_back(hold)
    }

    // Enqueues the page of each frame that is newer than its flash copy, and answers how many.
    pub fn checkpoint(&mut self) -> Result<u32, Fault>
        ensures does { Does F.Medium D.Medium self.old self.new (answered saved result)
            checkpoint_call }
        ensures stands { Stands F.Medium D.Medium self.old self.new (answered saved result)
            checkpoint_call }
    {
        self.serve_checkpoint()
    }

    // Power off and on again: RAM is forgotten, both media are lit with these charges, and the store is shut.
    pub fn power_cycle(&mut self, flash_charge: u32, disk_charge: u32)
        ensures does { Does F.Medium D.Medium self.old self.new (Ok cycled)
            (power_cycle flash_charge disk_charge) }
        ensures stands { Stands F.Medium D.Medium self.old self.new (Ok cycled)
            (power_cycle flash_charge disk_charge) }
    {
        self.cycle(flash_charge, disk_charge);
    }
}
