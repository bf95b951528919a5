ghost use Rattle.std.specs.Prelude.{◌≡◌, replicate, MatchOption, slice_index};
ghost use Rattle.power_cycle.specs.Look.{AllAt};

use medium::PAGE;

// A show page of the program: one level for all its channels.
pub fn look(level: u8) -> [u8; PAGE]
    ensures { result ≡ replicate 256 level }
{
    [level; PAGE]
}

// The level of all channels of a page, if they have one level.
pub fn level_of(page: &[u8; PAGE]) -> Option<u8>
    ensures { MatchOption result (AllAt (slice_index page.now 0) page.now → ⊥)
        (λ v. AllAt v page.now) }
{
    let level = page[0];
    page.iter()
        .all(|channel| *channel == level)
        .then_some(level)
}
