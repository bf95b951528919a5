ghost use Rattle.std.specs.Prelude.{◌≡◌, ◌==◌, ◌+◌, ◌<◌, ◌≤◌, ◌∷◌, length, drop, position};
ghost use Rattle.std.specs.List.{between};
ghost use Rattle.board.specs.Lines.{lines_of};

// Where the first byte of a kind stands.
pub(crate) fn place_of(byte: u8, bytes: &[u8]) -> Option<usize>
    ensures { result ≡ position (λ c. c == byte) bytes.now }
{
    bytes.iter().position(|x| *x == byte)
}

// The end of the line that begins at a place of the input: the place of its line feed, or the input's end. Past the
// input nothing begins, and the answer is that place.
pub fn line_end(input: &[u8], from: usize) -> usize
    ensures line { from < length input.now
        → lines_of (drop from input.now)
        ≡ between from result input.now ∷ lines_of (drop (result + 1) input.now) }
    ensures low { from ≤ result }
    ensures high { from ≤ length input.now → result ≤ length input.now }
    ensures past { length input.now ≤ from → result ≡ from }
{
    let Some(rest) = input.get(from..) else {
        return from;
    };
    let feed = place_of(b'\n', rest);
    from + feed.unwrap_or(rest.len())
}
