//! Division with its rest, and division of signed numbers downwards.
ghost use Rattle.std.specs.Prelude.{◌≡◌, ℕ, ℤ, Ok};
ghost use Rattle.arith.specs.Division.{IsSplit, SplitOrNone, split_by, Floor, FloorOrNone, floor_of, AroundZero, AtTheLimits};

use crate::amount::Amount;
use crate::quantity::NoQuantity;

/// An amount over a quantity: the rate, in whole numbers, and the carry, what is left because it is too little for a rate of
/// one more.
/// It refuses a quantity of 0 (17).
pub fn split<A: Amount>(amount: A, quantity: u64) -> Result<(A, u64), NoQuantity>
    ensures value { result ≡ split_by A.parts amount quantity }
    ensures cases { SplitOrNone A.number amount quantity result }
    ensures only { (rate : A) (carry : ℕ) →
        IsSplit A.number amount quantity (rate, carry) → result ≡ Ok (rate, carry) }
{
    if quantity == 0 {
        return Err(NoQuantity);
    }
    Ok(amount.div_rem(quantity))
}

/// n / d, rounded towards minus infinity. It refuses a divisor of 0 (17).
#[tactic(auto, using(crate::proofs::Floors::around_zero))]
pub fn floor_div(n: i64, d: u64) -> Result<i64, NoQuantity>
    ensures value { result ≡ floor_of n d }
    ensures cases { FloorOrNone n d result }
    ensures only { (q : ℤ) → Floor n d q → result ≡ Ok q }
    ensures laws { (AroundZero) × (AtTheLimits) }
{
    if d == 0 {
        return Err(NoQuantity);
    }
    // A quotient is no larger in size than n.
    Ok(i128::from(n).div_euclid(i128::from(d)) as i64)
}
