//! What a sum of differences comes to per unit, with interest.
ghost use Rattle.std.specs.Prelude.{◌≡◌, IfOk};
ghost use Rattle.arith.specs.Interest.{adjustment_of, AtMostDoubled, WorkedAdjustment};

use crate::division::floor_div;
use crate::quantity::NoQuantity;
use crate::scaling::scale_ppm_signed;

/// A total per unit of a quantity, and the same with interest on top, in ppm. Both are rounded downwards.
/// It refuses a quantity of 0 (17).
pub fn adjustment(total: i64, quantity: u64, interest_ppm: u32) -> Result<(i64, i128), NoQuantity>
    ensures value { result ≡ adjustment_of total quantity interest_ppm }
    ensures size { IfOk result (AtMostDoubled interest_ppm) }
    ensures worked { WorkedAdjustment }
{
    let per_unit = floor_div(total, quantity)?;
    Ok((per_unit, scale_ppm_signed(per_unit, interest_ppm)))
}
