ghost use Rattle.std.specs.Prelude.{◌≡◌, ◌≤◌, IfSome};
ghost use Rattle.board.specs.Lines.{number_of};
ghost use Rattle.board.specs.Parts.{digits_number, one_more};

// The largest number of a line.
const LARGEST: u64 = 4_294_967_295;

// A number with one more digit behind it, if the byte is a digit and the number is not too large then.
fn one_more(number: u64, byte: u8) -> Option<u64>
    requires { number ≤ 4294967295 }
    ensures value { result ≡ one_more number byte }
    ensures bound { IfSome result (λ n. n ≤ 4294967295) }
{
    if !byte.is_ascii_digit() {
        return None;
    }
    let more = 10 * number + u64::from(byte - b'0');
    if more <= LARGEST { Some(more) } else { None }
}

// The number that digits write, if they are digits and it is not too large; no digits write 0.
fn digits_number(digits: &[u8]) -> Option<u32>
    ensures { result ≡ digits_number 0 digits.now }
{
    let mut number = 0;
    for digit in digits {
        number = one_more(number, *digit)?;
    }
    Some(number as u32)
}

// The number of a field.
pub(crate) fn number(field: &[u8]) -> Option<u32>
    ensures { result ≡ number_of field.now }
{
    if field.is_empty() {
        return None;
    }
    digits_number(field)
}
