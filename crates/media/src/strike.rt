ghost use Rattle.std.specs.Prelude.{◌≡◌};
ghost use Rattle.media.specs.Strike.{kind};

// What a strike leaves of a page of a tray.
#[derive(Clone, Copy, PartialEq, Eq, Debug)]
pub enum Strike {
    // the page as it was
    Old = 0,
    // the page that was being written
    New = 1,
    // an unreadable page
    Torn = 2,
}

// Every number from 2 on tears.
impl From<u8> for Strike {
    fn from(number: u8) -> Strike
        ensures { result ≡ kind number }
    {
        match number {
            0 => Strike::Old,
            1 => Strike::New,
            _ => Strike::Torn,
        }
    }
}
