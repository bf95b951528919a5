ghost use Rattle.std.specs.Prelude.{◌≡◌, ◌+◌, ◌*◌, ◌<◌, ◌≤◌, ◌++◌, take};
ghost use Rattle.rules.specs.Format.{encode, encode_all};
ghost use Rattle.format.specs.Segments.{entry_at, entries_left};

use crate::bytes::chunk;
use crate::page::BODY;
use crate::segment::DESCRIBED;
use crate::trailer::{TRAILER, bytes_of, trailer_in};
use rules::trailer::{BLANK, Trailer};

// Writes an entry behind those before it.
fn put_entry(into: &mut [u8; BODY], i: usize, entry: &Trailer)
    requires { i < 15 }
    ensures { take (16 * (i + 1)) into.new ≡ take (16 * i) into.old ++ encode entry.now }
{
    into[TRAILER * i..TRAILER * (i + 1)].copy_from_slice(&bytes_of(*entry));
}

// Writes the fifteen entries.
pub(crate) fn put_entries(into: &mut [u8; BODY], entries: &[Trailer; DESCRIBED])
    ensures { into.new ≡ encode_all entries.now }
{
    for (i, entry) in entries.iter().enumerate() {
        put_entry(into, i, entry);
    }
}

// The entry at a place, if it is proper and has the number of that place.
fn entry_at(entries: &[u8; BODY], first: u32, i: usize, pages: u16) -> Option<Trailer>
    requires first { first ≤ 4000000000 }
    requires place { i < 15 }
    ensures { result ≡ entry_at pages entries.now first i }
{
    let bytes = chunk(entries, TRAILER * i);
    trailer_in(&bytes, pages).filter(|entry| entry.q == first + i as u32)
}

// The fifteen entries, if all are so.
pub(crate) fn entries_in(bytes: &[u8; BODY], first: u32, pages: u16) -> Option<[Trailer; DESCRIBED]>
    requires { first ≤ 4000000000 }
    ensures { result ≡ entries_left pages bytes.now first 0 }
{
    let mut entries = [BLANK; DESCRIBED];
    for (i, entry) in entries.iter_mut().enumerate() {
        *entry = entry_at(bytes, first, i, pages)?;
    }
    Some(entries)
}
