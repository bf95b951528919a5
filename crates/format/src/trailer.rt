ghost use Rattle.std.specs.Prelude.{◌≡◌};
ghost use Rattle.rules.specs.Format.{encode, fields, in_range, is_proper, proper};

use crate::bytes::chunk;
use crate::page::BODY;
use medium::PAGE;
use rules::trailer::{MOST, Trailer};

// How many bytes a trailer has.
pub(crate) const TRAILER: usize = PAGE - BODY;

// The bytes of a trailer: number, back pointer, version, page, 1 if dirty, and 1.
#[tactic(auto, unfolding(rules::specs::Format::encode))]
pub(crate) fn bytes_of(trailer: Trailer) -> [u8; TRAILER]
    ensures { result ≡ encode trailer }
{
    let mut bytes = [0; TRAILER];
    bytes[0..4].copy_from_slice(&trailer.q.to_le_bytes());
    bytes[4..8].copy_from_slice(&trailer.back.to_le_bytes());
    bytes[8..12].copy_from_slice(&trailer.version.to_le_bytes());
    bytes[12..14].copy_from_slice(&trailer.page.to_le_bytes());
    bytes[14] = u8::from(trailer.dirty);
    bytes[15] = 1;
    bytes
}

// The fields of sixteen bytes, proper or not.
fn fields(bytes: &[u8; TRAILER]) -> Trailer
    ensures { result ≡ fields bytes.now 0 }
{
    Trailer {
        q: u32::from_le_bytes(chunk(bytes, 0)),
        back: u32::from_le_bytes(chunk(bytes, 4)),
        version: u32::from_le_bytes(chunk(bytes, 8)),
        page: u16::from_le_bytes(chunk(bytes, 12)),
        dirty: bytes[14] == 1,
    }
}

// From 1 to the highest.
fn is_number(n: u32) -> bool
    ensures { result ≡ in_range n }
{
    (1..=MOST).contains(&n)
}

// Whether they are a proper trailer on a disk of so many pages.
fn is_proper(bytes: &[u8; TRAILER], pages: u16) -> bool
    ensures { result ≡ is_proper pages bytes.now 0 }
{
    let t = fields(bytes);
    is_number(t.q)
        && is_number(t.version)
        && t.back < t.q
        && t.page < pages
        && bytes[14] <= 1
        && bytes[15] == 1
}

// The trailer that they are, if it is proper on a disk of so many pages.
pub(crate) fn trailer_in(bytes: &[u8; TRAILER], pages: u16) -> Option<Trailer>
    ensures { result ≡ proper pages bytes.now 0 }
{
    is_proper(bytes, pages).then(|| fields(bytes))
}
