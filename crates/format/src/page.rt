ghost use Rattle.std.specs.Prelude.{◌≡◌, ◌≢◌, ◌++◌, true, false, length, take, drop, MatchOption, Ok, Err};
ghost use Rattle.rules.specs.declared.fault.Refusal.TheVariants as refusal;
ghost use Rattle.rules.specs.Format.{encode};
ghost use Rattle.format.specs.Pages.{is_page, trailer_of, is_like};

use crate::trailer::{TRAILER, bytes_of, trailer_in};
use medium::PAGE;
use rules::fault::Refusal;
use rules::trailer::Trailer;

// A page is a body and a trailer.
pub const BODY: usize = 240;

// The body and the trailer's bytes of a page, if it has 256 bytes.
pub(crate) fn parts(page: &[u8]) -> Option<(&[u8; BODY], &[u8; TRAILER])>
    ensures { MatchOption result (is_page page.now ≡ false) (λ p. (is_page page.now ≡ true)
        × (p.0.now ≡ take 240 page.now) × (p.1.now ≡ drop 240 page.now)) }
{
    let (body, last) = page.split_first_chunk()?;
    Some((body, last.try_into().ok()?))
}

// Writes a page of 256 bytes from a body of 240 and a trailer; other lengths are refused, and nothing is written.
pub fn write_page(into: &mut [u8], body: &[u8], trailer: &Trailer) -> Result<(), Refusal>
    ensures done { length into.old ≡ 256 → length body.now ≡ 240
        → (result ≡ Ok tt) × (into.new ≡ body.now ++ encode trailer.now) }
    ensures refused { (length into.old ≡ 256 → length body.now ≢ 240)
        → (result ≡ Err refusal.Length) × (into.new ≡ into.old) }
{
    if into.len() != PAGE || body.len() != BODY {
        return Err(Refusal::Length);
    }
    let (front, last) = into.split_at_mut(BODY);
    front.copy_from_slice(body);
    last.copy_from_slice(&bytes_of(*trailer));
    Ok(())
}

// The trailer of a page, if it has 256 bytes and the last sixteen are a proper trailer on a disk of so many pages.
pub fn read_trailer(page: &[u8], pages: u16) -> Option<Trailer>
    ensures { result ≡ trailer_of pages page.now }
{
    let (_, last) = parts(page)?;
    trailer_in(last, pages)
}

// Whether a page has 256 bytes, and the last sixteen are the entry's.
#[tactic(auto, using(crate::proofs::Places::compared))]
pub fn is_like(page: &[u8], entry: &Trailer) -> bool
    ensures { result ≡ is_like page.now entry.now }
{
    parts(page).is_some_and(|(_, last)| last[..] == bytes_of(*entry)[..])
}
