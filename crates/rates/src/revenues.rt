//! The allowed revenues of a year.
ghost use Rattle.std.specs.Prelude.{◌≡◌, ℕ, ◌≤◌, ◌<◌, length, get_or};
ghost use Rattle.methodology.specs.Limits.{revenue_limit};
ghost use Rattle.rates.specs.Limits.{yearly_limit};

/// Most allowed revenues that a market has.
pub const REVENUES: usize = 3;

/// Most that a year may allow a company, cents.
pub const YEARLY_LIMIT: u64 = 10_000_000_000_000;

/// What each company may collect in the year, in cents; 0 for those that the market has not.
#[derive(Clone, Copy)]
pub struct Revenues {
    pub yearly: [u64; REVENUES],
    ghost full: { length yearly ≡ revenue_limit },
    ghost modest: { (j : ℕ) → j < revenue_limit → get_or yearly j 0 ≤ yearly_limit },
}

impl Revenues {
    /// A year that none has filed.
    pub fn none() -> Revenues
        ensures { (j : ℕ) → get_or result.yearly j 0 ≡ 0 }
    {
        Revenues {
            yearly: [0; REVENUES],
        }
    }
}
