ghost use Rattle.std.specs.Prelude.{◌≡◌, ◌≤◌, None, slice_index_or};
ghost use Rattle.format.specs.Segments.{said};
ghost use Rattle.rules.specs.Queue.{place, or_zero};
ghost use Rattle.rules.specs.Format.{encode_segment};
ghost use Rattle.queue.specs.Runs.{segment_in};

use crate::directory::at_slot;
use format::segment::{Summary, write_segment};
use medium::PAGE;
use recovery::places::{SLOTS, slot};
use rules::trailer::{BLANK, Trailer};
use std::array;

// The trailer of a number in a directory of so many frames.
fn trailer_of(entries: &[Option<Trailer>; SLOTS], frames: u16, q: u32) -> Trailer
    ensures { 1 ≤ frames → result ≡ or_zero (slice_index_or entries.now (place frames q) None) }
{
    at_slot(entries, slot(q, frames)).unwrap_or(BLANK)
}

// The segment that ends at the last number of a directory.
fn segment_of(entries: &[Option<Trailer>; SLOTS], frames: u16, front: u32, last: u32) -> Summary
    ensures { 1 ≤ frames → said result ≡ segment_in frames entries.now front last }
{
    let first = last.saturating_sub(14);
    Summary {
        last,
        front,
        entries: array::from_fn(|i| trailer_of(entries, frames, first + i as u32)),
    }
}

// The page of that segment.
pub(crate) fn segment_bytes(
    entries: &[Option<Trailer>; SLOTS],
    frames: u16,
    front: u32,
    last: u32,
) -> [u8; PAGE]
    ensures { 1 ≤ frames
        → result ≡ encode_segment (segment_in frames entries.now front last) }
{
    let mut bytes = [0u8; PAGE];
    let _ = write_segment(&mut bytes, &segment_of(entries, frames, front, last));
    bytes
}
