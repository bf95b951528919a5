ghost use Rattle.std.specs.Prelude.{◌≡◌, ◌+◌, ◌-◌, ◌*◌, ◌/◌, ◌%◌, ◌<◌, ◌≤◌};
ghost use Rattle.rules.specs.Queue.{place};

// The numbers that a group of frames holds, and that a segment describes.
pub const GROUP: u16 = 15;

// The slots of the directory: one for each frame of the largest flash.
pub const SLOTS: usize = 210;

// How many groups of fifteen frames a flash of so many pages has.
pub fn groups_of(size: u16) -> u16
    ensures exact { result ≡ (size - 1) / 16 }
    ensures most { result ≤ 4095 }
{
    size.saturating_sub(1) / 16
}

// How many frames.
pub fn frames_of(size: u16) -> u16
    ensures exact { result ≡ 15 * ((size - 1) / 16) }
    ensures most { result ≤ 61425 }
{
    GROUP * groups_of(size)
}

// Where a number lies among the frames; 0 if there are none.
pub fn slot(q: u32, frames: u16) -> u16
    ensures exact { 1 ≤ frames → result ≡ place frames q }
    ensures within { 1 ≤ frames → result < frames }
{
    if frames == 0 {
        return 0;
    }
    (q.saturating_sub(1) % u32::from(frames)) as u16
}

// The page of the segment that ends at a number.
pub fn segment_page(size: u16, last: u32) -> u16
    ensures { result ≡ 15 * ((size - 1) / 16) + (last / 15 - 1) % ((size - 1) / 16 + 1) }
{
    let groups = groups_of(size);
    let segment = (last / 15).saturating_sub(1);
    frames_of(size) + (segment % (u32::from(groups) + 1)) as u16
}
