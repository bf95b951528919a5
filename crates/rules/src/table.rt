// What a RAM frame holds.
#[derive(Clone, Copy, PartialEq, Eq, Debug, Default)]
pub struct Card {
    pub page: Option<u16>,
    pub version: u32,
    // newer than its disk copy
    pub dirty: bool,
    // newer than its flash copy
    pub fdirty: bool,
    // the number of the hold on it, or 0
    pub hold: u32,
}

// What a take grants: the frame, the hold's number, the version then, and the page that had to leave, if any.
#[derive(Clone, Copy, PartialEq, Eq, Debug)]
pub struct Grant {
    pub frame: u8,
    pub number: u32,
    pub version: u32,
    pub evicted: Option<u16>,
}
