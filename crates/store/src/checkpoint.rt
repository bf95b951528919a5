ghost use Rattle.rules.specs.Store.{checkpoint as checkpoint_call, save_all, saved};
ghost use Rattle.store.specs.View.{Does, Works, answered};
ghost use Rattle.store.specs.Parts.{save_frame};

use crate::admit::may_serve;
use crate::frame::Frame;
use crate::store::Store;
use medium::Medium;
use rules::fault::Fault;

impl<F: Medium, D: Medium> Store<F, D> {
    // Enqueues the page of a frame, whose flash copy is then as new.
    fn save(&mut self, frame: Frame) -> Result<(), Fault>
        ensures { Works F.Medium D.Medium self.old self.new result
            (λ x. save_frame x frame) }
    {
        let Some(page) = self.frames.card(frame).page else {
            return Ok(());
        };
        self.enqueue_frame(frame, page)?;
        self.frames.clean(frame);
        Ok(())
    }

    // Saves each frame that is newer than its flash copy, from frame 0 up.
    fn save_all(&mut self) -> Result<u32, Fault>
        ensures { Works F.Medium D.Medium self.old self.new (answered saved result)
            (λ x. save_all x.ram.count x 0 0) }
    {
        let count = self.frames.count();
        let mut saved = 0;
        for number in 0..count {
            if let Some(frame) = self.frames.newer(number) {
                self.save(frame)?;
                saved += 1;
            }
        }
        Ok(saved)
    }

    pub(crate) fn serve_checkpoint(&mut self) -> Result<u32, Fault>
        ensures { Does F.Medium D.Medium self.old self.new (answered saved result)
            checkpoint_call }
    {
        may_serve(self.state)?;
        self.save_all()
    }
}
