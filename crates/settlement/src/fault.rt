//! Why a closing is refused.
ghost use Rattle.std.specs.Prelude.{◌≡◌};
ghost use Rattle.settlement.specs.Faults.{number_of};

/// The head of a fault, counted from 1, is the first at which its test fails.
#[derive(Clone, Copy, PartialEq, Eq, Debug)]
pub enum CloseFault {
    /// A stated count is not the month's own.
    Counts,
    /// The head has no quantity.
    NoQuantity(usize),
    /// The energy sent in is under what was delivered, or over twice that.
    Supply(usize),
    /// The actual rate passes its limit.
    RateOverLimit(usize),
    /// The balance would pass its limit in size.
    BalancePast(usize),
}

impl CloseFault {
    /// The refusal's number.
    pub fn number(self) -> u8
        ensures { result ≡ number_of self }
    {
        match self {
            CloseFault::Counts => 16,
            CloseFault::NoQuantity(_) => 17,
            CloseFault::Supply(_) => 18,
            CloseFault::RateOverLimit(_) => 19,
            CloseFault::BalancePast(_) => 20,
        }
    }
}
