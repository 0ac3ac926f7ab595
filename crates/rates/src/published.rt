//! The rates that a tariff publishes.
ghost use Rattle.std.specs.Prelude.{◌≡◌, ℕ, length};
ghost use Rattle.methodology.specs.Limits.{head_limit};

use crate::head_rates::HeadRates;
use methodology::Shape;

/// Most heads that a market has: a table by head has this many rows, head 1 first.
pub const HEADS: usize = 6;

/// A tariff's rates, head by head, with the heads that they are for. What no tariff has set is 0.
#[derive(Clone, Copy)]
pub struct Rates {
    pub shape: Shape,
    pub heads: [HeadRates; HEADS],
    ghost full: { length heads ≡ head_limit },
}

impl Rates {
    ghost use Rattle.rates.specs.Heads.{unset, rates_at};

    /// Rates that no tariff has set.
    pub fn unset(shape: Shape) -> Rates
        ensures heads { result.shape ≡ shape }
        ensures none { (k : ℕ) → rates_at result k ≡ unset }
    {
        Rates {
            shape,
            heads: [HeadRates::unset(); HEADS],
        }
    }
}
