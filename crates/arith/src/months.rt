//! A yearly amount in twelve monthly shares.
ghost use Rattle.std.specs.Prelude.{◌≡◌, ◌*◌, ◌/◌, ◌<◌, ◌≤◌};
ghost use Rattle.arith.specs.Months.{months_of_year, share, shares_to, Even};

use crate::division::split;

/// Months in a year.
pub const MONTHS: u64 = 12;

/// The share that a month, counted from 1, has of a yearly amount: what the year has earned by its end, less what the year
/// had earned a month before. Month 0 has none, and the months of a second year go on as those of the first.
pub fn month_share(yearly: u64, month: u8) -> u64
    ensures value { result ≡ share yearly month }
    ensures whole { shares_to yearly months_of_year ≡ yearly }
    ensures even { 1 ≤ month → Even yearly result }
{
    if month == 0 {
        return 0;
    }
    let (each, odd) = split(yearly, MONTHS).unwrap();
    each + odd_cents(odd, month) - odd_cents(odd, month - 1)
}

/// Of a year's odd cents, those that the months up to this one have.
fn odd_cents(odd: u64, month: u8) -> u64
    requires { odd < months_of_year }
    ensures value { result ≡ month * odd / months_of_year }
    ensures few { result ≤ month }
{
    u64::from(month) * odd / MONTHS
}
