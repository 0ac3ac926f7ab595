//! The rates of a head.
ghost use Rattle.std.specs.Prelude.{◌≡◌, ◌≤◌};
ghost use Rattle.arith.specs.Money.{demand_rate_limit};
ghost use Rattle.methodology.specs.Limits.{factor_limit};

/// What a head is billed, and what that comes from; grains per kW or per kWh, and ppm.
#[derive(Clone, Copy)]
pub struct HeadRates {
    /// What licensees are billed.
    pub published: u64,
    /// The same before the adjustment for an earlier period.
    pub base: u64,
    /// The filed loss factor of its interval; 0 for a demand head.
    pub factor: u32,
    ghost priced: { published ≤ demand_rate_limit },
    ghost based: { base ≤ demand_rate_limit },
    ghost filed: { factor ≤ factor_limit },
}

impl HeadRates {
    ghost use Rattle.rates.specs.Heads.{unset};

    /// A head's rates that no tariff has set.
    pub fn unset() -> HeadRates
        ensures { result ≡ unset }
    {
        HeadRates {
            published: 0,
            base: 0,
            factor: 0,
        }
    }
}
