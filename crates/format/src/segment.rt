ghost use Rattle.std.specs.Prelude.{◌≡◌, ◌≤◌, length, IfSome, None, Ok, Err, ◌≢◌};
ghost use Rattle.medium.specs.Meaning.{Meaning};
ghost use Rattle.rules.specs.declared.fault.Refusal.TheVariants as refusal;
ghost use Rattle.rules.specs.Format.{encode_segment};
ghost use Rattle.rules.specs.Queue.{groups as groups_of};
ghost use Rattle.rules.specs.Recovery.{segment_in};
ghost use Rattle.format.specs.Segments.{said, all_said, segment_at};

use crate::ending::{Ending, ending_of, first_of};
use crate::entries::{entries_in, put_entries};
use crate::page::{BODY, parts};
use medium::PAGE;
use rules::fault::Refusal;
use rules::trailer::Trailer;

// How many numbers a segment describes.
pub const DESCRIBED: usize = 15;

// What a segment page says: the last of the fifteen numbers that it describes, the front when it was written, and their
// trailers.
#[derive(Clone, Copy, PartialEq, Eq, Debug)]
pub struct Summary {
    pub last: u32,
    pub front: u32,
    pub entries: [Trailer; DESCRIBED],
}

// Writes a segment page of 256 bytes; another length is refused, and nothing is written.
pub fn write_segment(into: &mut [u8], segment: &Summary) -> Result<(), Refusal>
    ensures done { length into.old ≡ 256
        → (result ≡ Ok tt) × (into.new ≡ encode_segment (said segment.now)) }
    ensures refused { (length into.old ≢ 256)
        → (result ≡ Err refusal.Length) × (into.new ≡ into.old) }
{
    if into.len() != PAGE {
        return Err(Refusal::Length);
    }
    let (entries, ending) = into.split_first_chunk_mut().unwrap();
    put_entries(entries, &segment.entries);
    ending.copy_from_slice(&ending_of(segment.last, segment.front));
    Ok(())
}

// What entries and an ending say for a flash of so many groups, the place of their page, and a disk of so many pages.
fn segment_at(
    bytes: &[u8; BODY],
    ending: &Ending,
    groups: u16,
    place: u16,
    pages: u16,
) -> Option<Summary>
    ensures found { all_said result ≡ segment_at groups pages place bytes.now ending.now }
    ensures most { IfSome result (λ s. s.last ≤ 4000000000) }
{
    if !ending.fits(groups, place) {
        return None;
    }
    Some(Summary {
        last: ending.last,
        front: ending.front,
        entries: entries_in(bytes, first_of(ending.last), pages)?,
    })
}

// What a segment page says, for a flash of so many groups, the page's place among its segment pages, and a disk of so
// many pages; None if it says nothing proper, or has not 256 bytes.
pub fn read_segment(page: &[u8], groups: u16, place: u16, pages: u16) -> Option<Summary>
    ensures found { (m : Meaning) → groups_of m ≡ groups → length page.now ≡ 256
        → all_said result ≡ segment_in m pages place page.now }
    ensures none { (length page.now ≢ 256) → result ≡ None }
    ensures most { IfSome result (λ s. s.last ≤ 4000000000) }
{
    let (entries, ending) = parts(page)?;
    segment_at(entries, &Ending::read(ending), groups, place, pages)
}
