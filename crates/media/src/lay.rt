ghost use Rattle.std.specs.Prelude.{◌≡◌, ◌<◌, length};
ghost use Rattle.medium.specs.Rules.{readable, plainly, filled};
ghost use Rattle.media.specs.Lent.{Coding, Shows};

use medium::Cause;

// A way in which pages lie in bytes. `coding` says it to the byte; a lay shows what it writes.
pub trait Lay {
    ghost coding: { Coding };

    fn count(bytes: &[u8]) -> u16
        ensures { result ≡ coding.count bytes.now };

    fn copy_out(bytes: &[u8], page: u16, into: &mut [u8]) -> Result<(), Cause>
        requires within { page < coding.count bytes.now }
        requires len { length into.old ≡ 256 }
        ensures answer { result ≡ plainly (readable (coding.decode bytes.now page)) }
        ensures buffer { into.new
            ≡ filled into.old (readable (coding.decode bytes.now page)) };

    fn put(bytes: &mut [u8], page: u16, from: &[u8])
        requires within { page < coding.count bytes.old }
        requires len { length from.now ≡ 256 }
        ensures { bytes.new ≡ coding.put bytes.old page from.now };

    // What a strike leaves of a write, by the number given at the making.
    fn cut(strike: u8, bytes: &mut [u8], page: u16, from: &[u8])
        requires within { page < coding.count bytes.old }
        requires len { length from.now ≡ 256 }
        ensures { bytes.new ≡ coding.cut strike bytes.old page from.now };

    ghost shows: { Shows coding };
}
