ghost use Rattle.std.specs.Prelude.{◌≤◌};

use medium::Medium;
use recovery::directory::no_entries;
use recovery::places::SLOTS;
use rules::trailer::Trailer;

// A flash queue over a disk: the two media, the first live number and the last, and the directory, which has the
// trailer of each live number in the slot of its frame.
#[derive(Drop)]
pub struct Queue<F, D> {
    pub(crate) flash: F,
    pub(crate) disk: D,
    pub(crate) front: u32,
    pub(crate) last: u32,
    pub(crate) entries: [Option<Trailer>; SLOTS],
    // No number is above the highest.
    ghost last_in_range: { last ≤ 4000000000 },
}

impl<F: Medium, D: Medium> Queue<F, D> {
    ghost use Rattle.std.specs.Prelude.{◌≡◌};
    ghost use Rattle.medium.specs.Meaning.{size};
    ghost use Rattle.rules.specs.Store.{forgotten};
    ghost use Rattle.queue.specs.View.{view, unused, Reliable};

    // A queue over two media, without memory of them.
    pub fn new(flash: F, disk: D) -> Queue<F, D>
        ensures made { view F.Medium D.Medium result ≡ unused (F.Medium.means flash) (D.Medium.means disk) }
        ensures keeps { F.Medium.inorder flash → D.Medium.inorder disk → Reliable F.Medium D.Medium result }
    {
        Queue {
            flash,
            disk,
            front: 1,
            last: 0,
            entries: no_entries(),
        }
    }

    // The media, had back.
    pub fn into_media(self) -> (F, D)
        ensures { (result.0 ≡ self.flash) × (result.1 ≡ self.disk) }
    {
        let Queue {
            flash,
            disk,
            front: _,
            last: _,
            entries: _,
        } = self;
        (flash, disk)
    }

    // How many pages the flash has.
    pub fn flash_pages(&self) -> u16
        ensures { Reliable F.Medium D.Medium self.now
            → result ≡ size (view F.Medium D.Medium self.now).flash }
    {
        self.flash.size()
    }

    // How many pages the disk has.
    pub fn disk_pages(&self) -> u16
        ensures { Reliable F.Medium D.Medium self.now
            → result ≡ size (view F.Medium D.Medium self.now).disk }
    {
        self.disk.size()
    }

    // The power was off: memory is lost, and both media are lit again with these charges.
    pub fn forget(&mut self, flash_charge: u32, disk_charge: u32)
        ensures { Reliable F.Medium D.Medium self.old
            → Reliable F.Medium D.Medium self.new
            × (view F.Medium D.Medium self.new
            ≡ forgotten (view F.Medium D.Medium self.old) flash_charge disk_charge) }
    {
        self.flash.relight(flash_charge);
        self.disk.relight(disk_charge);
        self.front = 1;
        self.last = 0;
        self.entries = no_entries();
    }
}
