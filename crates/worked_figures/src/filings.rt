//! What is filed in the worked month.
ghost use Rattle.std.specs.Prelude.{◌≡◌};
ghost use Rattle.agreements.specs.TwoParts.{two_part, meaning_of_two_part};
ghost use Rattle.worked_figures.specs.FirstCalls.{FirstYear, FirstTariff};

use agreements::TwoPart;
use tariffs::{Filing, Row};

/// The station's agreement: 100 kW at 20,000 grains each, and energy at 50,000.
pub fn agreement() -> TwoPart
    ensures { meaning_of_two_part result ≡ two_part 100 20000 50000 }
{
    TwoPart::new(100, 20_000, 50_000).unwrap()
}

/// The revenues, in cents.
pub fn year() -> Row
    ensures { FirstYear result }
{
    Row::of(&[1_000, 100])
}

/// The tariff as it is filed.
pub fn tariff() -> Filing
    ensures { FirstTariff result }
{
    Filing {
        costs: Row::of(&[1_080, 486, 49]),
        peaks: 540,
        energy_cost: 2_100,
        sent: 420,
        delivered: Row::of(&[168, 114, 108]),
        factors: Row::of(&[40_000, 0, 0]),
        coefficients: Row::of(&[1_000, 1_200, 1_000]),
        interest: 0,
    }
}
