//! How far a house has come in its year. A year has two halves. Each begins with its own tariff, by which six months are then
//! read and closed; after the twelfth the next year's revenues are filed.
ghost use Rattle.std.specs.Prelude.{◌≡◌};
ghost use Rattle.ledger.specs.Stages.{first_month, after_month};

use arith::months::MONTHS;

/// The last month of the first half-year.
pub const HALF_YEAR: u8 = 6;

/// A half of the year, for which one tariff is in force.
#[derive(Clone, Copy, PartialEq, Eq, Debug)]
pub enum Half {
    /// Months 1 to 6.
    First,
    /// Months 7 to 12.
    Second,
}

impl Half {
    /// The month that its tariff opens.
    pub fn first_month(self) -> Stage
        ensures { result ≡ first_month self }
    {
        match self {
            Half::First => Stage::InMonth(1),
            Half::Second => Stage::InMonth(HALF_YEAR + 1),
        }
    }
}

/// What a house waits for.
#[derive(Clone, Copy, PartialEq, Eq, Debug)]
pub enum Stage {
    /// A year is to be filed.
    BeforeYear,
    /// The tariff of a half-year is to be filed.
    BeforeTariff(Half),
    /// A month is open, by its number in the year.
    InMonth(u8),
}

impl Stage {
    /// Where a house stands once the month with a number is closed.
    pub fn after_month(number: u8) -> Stage
        ensures { result ≡ after_month number }
    {
        if number == HALF_YEAR {
            Stage::BeforeTariff(Half::Second)
        } else if u64::from(number) >= MONTHS {
            Stage::BeforeYear
        } else {
            Stage::InMonth(number + 1)
        }
    }
}
