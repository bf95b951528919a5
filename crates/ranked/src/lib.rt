#![tactic(auto)]

ghost use Rattle.std.specs.Prelude.{◌≡◌, ℕ, ◌<◌, length, IfSome, Option, nat_lt};
ghost use Rattle.rules.specs.Queue.{page_of, number, found_entry};
ghost use Rattle.rules.specs.Ranks.{highest as highest_record};
ghost use Rattle.ranked.specs.Best.{highest_place, Best};

use rules::table::Card;
use rules::trailer::Trailer;

// A record that has a page, or none, and a rank.
pub trait Ranked {
    ghost page: { Self → Option ℕ };

    ghost rank: { Self → ℕ };

    fn get_page(&self) -> Option<u16>
        ensures { result ≡ page self.now };

    fn get_rank(&self) -> u32
        ensures { result ≡ rank self.now };
}

// A directory entry by its number.
impl Ranked for Option<Trailer> {
    ghost page = { page_of };

    ghost rank = { number };

    fn get_page(&self) -> Option<u16> {
        self.map(|trailer| trailer.page)
    }

    fn get_rank(&self) -> u32 {
        self.map_or(0, |trailer| trailer.q)
    }
}

// A RAM card by its version.
impl Ranked for Card {
    ghost page = { λ c. c.page };

    ghost rank = { λ c. c.version };

    fn get_page(&self) -> Option<u16> {
        self.page
    }

    fn get_rank(&self) -> u32 {
        self.version
    }
}

// Whether a record has a higher rank than another.
fn outranks<R: Ranked>(x: &R, other: &R) -> bool
    ensures { result ≡ nat_lt (R.Ranked.rank other.now) (R.Ranked.rank x.now) }
{
    other.get_rank() < x.get_rank()
}

// The place of the record of highest rank for a page, the first among equals.
pub fn highest<R: Ranked>(records: &[R], page: u16) -> Option<usize>
    ensures value { result ≡ highest_place R.Ranked.page R.Ranked.rank page records.now }
    ensures best { Best R.Ranked.page R.Ranked.rank page records.now result }
    ensures within { IfSome result (λ i. i < length records.now) }
{
    records
        .iter()
        .enumerate()
        .filter(|(_, x)| x.get_page() == Some(page))
        .reduce(|best, next| if outranks(next.1, best.1) { next } else { best })
        .map(|(i, _)| i)
}

// The frame that has a page, by the cards.
pub fn frame_of(cards: &[Card], page: u16) -> Option<usize>
    ensures value { result ≡ highest_place (λ c. c.page) (λ c. c.version) page cards.now }
    ensures within { IfSome result (λ i. i < length cards.now) }
{
    highest(cards, page)
}

// The valid entry of a page in a directory: that of its highest number.
#[tactic(auto, using(crate::proofs::Entry::entry_found))]
pub fn valid_entry(entries: &[Option<Trailer>], page: u16) -> Option<Trailer>
    ensures { result ≡ found_entry (highest_record page_of number page entries.now) }
{
    entries[highest(entries, page)?]
}
