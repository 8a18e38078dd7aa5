//! How many claims are on one key.
ghost use Rattle.std.specs.Prelude.{◌≡◌, ◌+◌, ◌<◌, ◌^◌, ◌↔◌, IsTrue};
ghost use Rattle.claims.specs.TallyWords.{no_tally, one_tally, plus, less, tally_conflict};

/// How many claims are on one key.
#[derive(Clone, Copy, Debug, PartialEq, Eq)]
pub struct Tally {
    /// All claims, shared and exclusive; a call that names the key twice has two of them.
    pub claims: u64,
    /// The exclusive ones among them.
    pub exclusive: u64,
}

impl Tally {
    /// No claims.
    pub const NONE: Tally = Tally {
        claims: 0,
        exclusive: 0,
    };

    /// With one claim more.
    pub fn with(self, exclusive: bool) -> Tally
        requires claims { self.claims < 2 ^ 63 }
        requires exclusive { self.exclusive < 2 ^ 63 }
        ensures { result ≡ plus self (one_tally exclusive) }
    {
        Tally {
            claims: self.claims + 1,
            exclusive: self.exclusive + if exclusive { 1 } else { 0 },
        }
    }

    /// With one claim less.
    pub fn without(self, exclusive: bool) -> Tally
        ensures { result ≡ less self (one_tally exclusive) }
    {
        Tally {
            claims: self.claims.saturating_sub(1),
            exclusive: self.exclusive.saturating_sub(if exclusive { 1 } else { 0 }),
        }
    }

    /// Whether there are no claims.
    pub fn is_none(self) -> bool
        ensures { IsTrue result ↔ (self ≡ no_tally) }
    {
        self == Tally::NONE
    }

    /// Whether one more claim would conflict with these.
    pub fn conflicts(self, exclusive: bool) -> bool
        ensures { result ≡ tally_conflict self exclusive }
    {
        if exclusive {
            self.claims > 0
        } else {
            self.exclusive > 0
        }
    }
}
