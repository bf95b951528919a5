ghost use Rattle.std.specs.Prelude.{◌≡◌};
ghost use Rattle.rules.specs.Store.{fetch};
ghost use Rattle.store.specs.View.{Works};
ghost use Rattle.store.specs.Parts.{from_media, disk_page};

use crate::frame::Frame;
use crate::leave::heard;
use crate::store::Store;
use format::page::read_trailer;
use medium::{Medium, PAGE};
use rules::fault::{Fault, Refusal, Side};

impl<F: Medium, D: Medium> Store<F, D> {
    // A page that has no flash entry comes into a frame from the disk.
    fn load_from_disk(&mut self, frame: Frame, page: u16) -> Result<(), Fault>
        ensures works { Works F.Medium D.Medium self.old self.new result
            (λ x. disk_page x frame page) }
        ensures holds { self.new.holds ≡ self.old.holds }
    {
        let pages = self.queue.disk_pages();
        let Some(bytes) = self.queue.look_at_disk(page)? else {
            self.frames.fill(frame, page, 0, false, &[0; PAGE]);
            return Ok(());
        };
        let Some(trailer) = read_trailer(&bytes, pages) else {
            return Err(Fault::touched(Refusal::Foreign, Side::Disk, page));
        };
        if trailer.page != page {
            return Err(Fault::touched(Refusal::Foreign, Side::Disk, page));
        }
        self.frames
            .fill(frame, page, trailer.version, false, &bytes);
        Ok(())
    }

    // A page comes into a frame from the flash, if it has a valid entry there, or else from the disk.
    fn load(&mut self, frame: Frame, page: u16) -> Result<(), Fault>
        ensures works { Works F.Medium D.Medium self.old self.new result
            (λ x. from_media x frame page) }
        ensures holds { self.new.holds ≡ self.old.holds }
    {
        match self.queue.valid(page) {
            Some(entry) => {
                let bytes = self.queue.read_checked(&entry)?;
                self.frames
                    .fill(frame, page, entry.version, entry.dirty, &bytes);
                Ok(())
            }
            None => self.load_from_disk(frame, page),
        }
    }

    // The same; a medium that is dark makes the store dark.
    pub(crate) fn fetch(&mut self, frame: Frame, page: u16) -> Result<(), Fault>
        ensures works { Works F.Medium D.Medium self.old self.new result
            (λ x. fetch x frame page) }
        ensures holds { self.new.holds ≡ self.old.holds }
    {
        let answer = self.load(frame, page);
        heard(&mut self.state, answer)
    }
}
