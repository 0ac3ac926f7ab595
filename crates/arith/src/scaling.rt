//! Scaling by millionths and thousandths, to numbers wide enough for any result.
ghost use Rattle.std.specs.Prelude.{◌≡◌, ℕ, ◌+◌, ◌*◌, ◌≤◌, pos, ◌*ℤ◌, unsigned_abs};
ghost use Rattle.arith.specs.Division.{Floor};
ghost use Rattle.arith.specs.Scaling.{whole_ppm, whole_thousandths, millionths, more_by, more_by_signed, thousandths, Rounded};

/// A whole in ppm, millionths.
pub const WHOLE_PPM: u64 = 1_000_000;

/// A whole in thousandths.
pub const WHOLE_THOUSANDTHS: u64 = 1_000;

/// So many ppm of x, rounded down.
#[tactic(auto, using(crate::specs::lemmas::Growth::at_most_times))]
pub fn scale_millionths(x: u64, ppm: u64) -> u128
    ensures value { result ≡ millionths ppm x }
    ensures rounded { Rounded (x * ppm) whole_ppm result }
    ensures most { (times : ℕ) → ppm ≤ times * whole_ppm → result ≤ times * x }
{
    u128::from(x) * u128::from(ppm) / u128::from(WHOLE_PPM)
}

/// x with that many ppm of itself on top, rounded down.
pub fn scale_ppm(x: u64, ppm: u32) -> u128
    ensures value { result ≡ more_by ppm x }
    ensures rounded { Rounded (x * (whole_ppm + ppm)) whole_ppm result }
    ensures no_less { x ≤ result }
    ensures at_most_double { ppm ≤ whole_ppm → result ≤ 2 * x }
{
    scale_millionths(x, WHOLE_PPM + u64::from(ppm))
}

/// The same of a signed number, rounded downwards.
pub fn scale_ppm_signed(x: i64, ppm: u32) -> i128
    ensures value { result ≡ more_by_signed ppm x }
    ensures floored { Floor (x *ℤ pos (whole_ppm + ppm)) whole_ppm result }
    ensures no_less { unsigned_abs x ≤ unsigned_abs result }
    ensures at_most_double { ppm ≤ whole_ppm → unsigned_abs result ≤ 2 * unsigned_abs x }
{
    (i128::from(x) * (i128::from(WHOLE_PPM) + i128::from(ppm))).div_euclid(i128::from(WHOLE_PPM))
}

/// c thousandths of x, rounded down.
#[tactic(auto, using(crate::specs::lemmas::Growth::at_most_times))]
pub fn scale_thousandths(x: u64, c: u32) -> u128
    ensures value { result ≡ thousandths c x }
    ensures rounded { Rounded (x * c) whole_thousandths result }
    ensures most { (times : ℕ) → c ≤ times * whole_thousandths → result ≤ times * x }
{
    u128::from(x) * u128::from(c) / u128::from(WHOLE_THOUSANDTHS)
}
