ghost use Rattle.std.specs.Prelude.{◌≡◌, option_map};
ghost use Rattle.layers.specs.Copies.{listed, none, found, others, kept, settled};

use arrayvec::ArrayVec;
use medium::{Cause, PAGE};

// A copy of a page.
#[derive(Clone, Copy, Default)]
pub struct Sheet {
    page: u16,
    pub bytes: [u8; PAGE],
}

// How many copies are kept.
const MOST: usize = 4;

// Copies of as many pages as are kept, the newest first.
#[derive(Drop)]
pub struct Copies {
    sheets: ArrayVec<Sheet, MOST>,
}

impl Copies {
    pub fn none() -> Copies
        ensures { result ≡ none }
    {
        Copies {
            sheets: ArrayVec::new(),
        }
    }

    // The copy of a page.
    pub fn find(&self, page: u16) -> Option<&Sheet>
        ensures { option_map (λ s. s.now) result ≡ found page self.now }
    {
        self.sheets.iter().find(|sheet| sheet.page == page)
    }

    // The copy of a page goes.
    fn forget(&mut self, page: u16)
        ensures { self.new ≡ listed (others page self.old) }
    {
        self.sheets.retain(|sheet| sheet.page != page);
    }

    // A new copy comes first, and an older one of its page goes; if that makes one too many, the oldest goes.
    fn keep(&mut self, new: Sheet)
        ensures { self.new ≡ kept new self.old }
    {
        self.forget(new.page);
        self.sheets.truncate(MOST - 1);
        self.sheets.insert(0, new);
    }

    // After a read or a write of a page with these bytes and this answer: where it was done, the page's copy is the
    // newest; of a dark medium no copy is kept.
    pub fn settle(&mut self, answer: Result<(), Cause>, page: u16, bytes: &[u8])
        ensures { self.new ≡ settled answer page bytes.now self.old }
    {
        match answer {
            Ok(()) => if let Ok(bytes) = bytes.try_into() {
                self.keep(Sheet { page, bytes });
            },
            Err(Cause::Dark) => self.sheets.clear(),
            Err(_) => {}
        }
    }
}
