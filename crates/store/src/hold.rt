ghost use Rattle.std.specs.Prelude.{◌≡◌};

use rules::table::Grant;

// A page taken. Nobody may let a hold go: it is spent by giving it back.
pub struct Hold {
    pub(crate) grant: Grant,
}

// Number 0 is never given.
impl Drop for Hold {
    fn drop(self)
        requires { self.grant.number ≡ 0 }
    {
        let Hold { grant: _ } = self;
    }
}

impl Hold {
    pub(crate) fn spend(self) -> Grant
        ensures { result ≡ self.grant }
    {
        let Hold { grant } = self;
        grant
    }

    // The frame, the number, the version at the take, and the page that had to leave.
    pub fn grant(&self) -> Grant
        ensures { result ≡ self.now.grant }
    {
        self.grant
    }
}
