//! Why a year or a tariff is refused.
ghost use Rattle.std.specs.Prelude.{◌≡◌};
ghost use Rattle.tariffs.specs.Refusals.{year_number, fault_number};

/// The count is not that of the market's revenues, or a revenue is over its limit.
#[derive(Clone, Copy, PartialEq, Eq, Debug)]
pub struct YearRefused;

impl YearRefused {
    /// The refusal's number.
    pub fn number(self) -> u8
        ensures { result ≡ year_number }
    {
        13
    }
}

/// Why a tariff is not published.
#[derive(Clone, Copy, PartialEq, Eq, Debug)]
pub enum TariffFault {
    /// A count does not fit the heads, or a figure is outside its limits.
    Misfiled,
    /// A rate is outside its limits, or the differences per unit are: the lowest such head, counted from 1.
    OutOfRange(usize),
}

impl TariffFault {
    /// The fault's number.
    pub fn number(self) -> u8
        ensures { result ≡ fault_number self }
    {
        match self {
            TariffFault::Misfiled => 14,
            TariffFault::OutOfRange(_) => 15,
        }
    }
}
