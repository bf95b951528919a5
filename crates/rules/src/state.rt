// A store is shut until it is mounted, up in service, and dark after a medium answered dark.
#[derive(Clone, Copy, PartialEq, Eq, Debug)]
pub enum State {
    Shut,
    Up,
    Dark,
}

// What a mount found: the last sequence number, how many are live, and how many flash pages it asked for.
#[derive(Clone, Copy, PartialEq, Eq, Debug)]
pub struct Mounted {
    pub last: u32,
    pub live: u16,
    pub reads: u16,
}
