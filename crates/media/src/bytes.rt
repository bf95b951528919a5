ghost use Rattle.std.specs.Prelude.{◌≡◌, ◌+◌, ◌/◌, ◌<◌, ◌≤◌, min, length};
ghost use Rattle.media.specs.Lent.{over};

// How many pages of a stride lie in so many bytes: as many as fit, and at most 65,535.
pub(crate) fn pages_in(len: usize, stride: usize) -> u16
    requires { 0 < stride }
    ensures { result ≡ min (len / stride) 65535 }
{
    u16::try_from(len / stride).unwrap_or(u16::MAX)
}

// Puts a part over the bytes from a place on.
pub(crate) fn overwrite(bytes: &mut [u8], at: usize, part: &[u8])
    requires { at + length part.now ≤ length bytes.old }
    ensures { bytes.new ≡ over bytes.old at part.now }
{
    bytes[at..at + part.len()].copy_from_slice(part);
}
