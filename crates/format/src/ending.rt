ghost use Rattle.std.specs.Prelude.{◌≡◌, ◌-◌};
ghost use Rattle.format.specs.Segments.{ending, ending_in, agrees, front_fits, is_last, seated, ending_fits};

use crate::bytes::chunk;
use crate::segment::DESCRIBED;
use crate::trailer::TRAILER;
use rules::trailer::MOST;

// How many numbers a segment describes, as its bytes say it.
const NUMBERS: u16 = DESCRIBED as u16;

// The first of them, by the last.
pub(crate) fn first_of(last: u32) -> u32
    ensures { result ≡ last - 14 }
{
    last.saturating_sub(u32::from(NUMBERS) - 1)
}

// The bytes behind the entries of a segment: last, front, first, 15, 0 and 2.
pub(crate) fn ending_of(last: u32, front: u32) -> [u8; TRAILER]
    ensures { result ≡ ending last front }
{
    let mut bytes = [0; TRAILER];
    bytes[0..4].copy_from_slice(&last.to_le_bytes());
    bytes[4..8].copy_from_slice(&front.to_le_bytes());
    bytes[8..12].copy_from_slice(&first_of(last).to_le_bytes());
    bytes[12..14].copy_from_slice(&NUMBERS.to_le_bytes());
    bytes[15] = 2;
    bytes
}

// What stands behind the entries: the numbers of the segment, and what else is always there.
#[derive(Clone, Copy)]
pub(crate) struct Ending {
    pub(crate) last: u32,
    pub(crate) front: u32,
    first: u32,
    count: u16,
    zero: u8,
    mark: u8,
}

// Whether a number is the last of a segment.
fn is_last(n: u32) -> bool
    ensures { result ≡ is_last n }
{
    let numbers = u32::from(NUMBERS);
    (numbers..=MOST).contains(&n) && n % numbers == 0
}

// Whether the segment with this last number has this place among the segment pages.
fn is_seated(groups: u16, place: u16, last: u32) -> bool
    ensures { result ≡ seated groups place last }
{
    (last / u32::from(NUMBERS)).saturating_sub(1) % (u32::from(groups) + 1) == u32::from(place)
}

// Whether the front was live when the segment was written.
fn front_fits(groups: u16, last: u32, front: u32) -> bool
    ensures { result ≡ front_fits groups last front }
{
    let frames = u32::from(NUMBERS) * u32::from(groups);
    (1..=last).contains(&front) && last - front + 1 < frames
}

impl Ending {
    pub(crate) fn read(bytes: &[u8; TRAILER]) -> Ending
        ensures { result ≡ ending_in bytes.now }
    {
        Ending {
            last: u32::from_le_bytes(chunk(bytes, 0)),
            front: u32::from_le_bytes(chunk(bytes, 4)),
            first: u32::from_le_bytes(chunk(bytes, 8)),
            count: u16::from_le_bytes(chunk(bytes, 12)),
            zero: bytes[14],
            mark: bytes[15],
        }
    }

    // Whether what stands behind last and front agrees with them.
    fn agrees(&self) -> bool
        ensures { result ≡ agrees self.now }
    {
        self.first == first_of(self.last)
            && self.count == NUMBERS
            && self.zero == 0
            && self.mark == 2
    }

    // Whether it is that of a segment in this place.
    pub(crate) fn fits(&self, groups: u16, place: u16) -> bool
        ensures { result ≡ ending_fits groups place self.now }
    {
        is_last(self.last)
            && is_seated(groups, place, self.last)
            && self.agrees()
            && front_fits(groups, self.last, self.front)
    }
}
