// The highest sequence number, version and hold number.
pub const MOST: u32 = 4_000_000_000;

// What the last sixteen bytes of a frame or a disk page say.
#[derive(Clone, Copy, PartialEq, Eq, Debug, Default)]
pub struct Trailer {
    // the sequence number under which the page was enqueued
    pub q: u32,
    // the number of the version that it supersedes, or 0
    pub back: u32,
    pub version: u32,
    pub page: u16,
    // the disk has an older version, or none
    pub dirty: bool,
}

// What stands where no trailer was read.
pub const BLANK: Trailer = Trailer {
    q: 0,
    back: 0,
    version: 0,
    page: 0,
    dirty: false,
};
