//! A market with two intervals, in which delivered energy is billed with its filed losses.
ghost use Rattle.std.specs.Prelude.{◌≡◌, ◌<◌, refl};
ghost use Rattle.metering.specs.Limits.{block_count};
ghost use Rattle.methodology.specs.Markets.{begins, two_shape, two_meaning, two_by_the_clock};
ghost use Rattle.arith.specs.lemmas.Growth.{no_less, at_most_double};
ghost use Rattle.std.proofs.Common.{rules};

use crate::rules::Methodology;
use arith::scale_ppm;

const PEAK: usize = 1;

const OFF_PEAK: usize = 2;

/// Peak and off-peak. Its revenues are those for transmission, for the single buyer, and for the system and market
/// operator.
#[derive(Clone, Copy)]
pub struct TwoIntervals;

impl Methodology for TwoIntervals {
    const REVENUES: usize = 3;

    const INTERVALS: usize = 2;

    ghost REVENUES = { 3 };

    ghost INTERVALS = { 2 };

    ghost shape = { two_shape };

    ghost meaning = { λ _. two_meaning };

    ghost counted = { (refl, refl) };

    ghost placed = { Prim.search rules };

    ghost supplied = { λ m sent delivered factor few filed ratio.
        (no_less delivered factor, at_most_double delivered factor filed) };

    /// Block 34 begins at 17:00, block 42 at 21:00.
    fn interval_of(&self, block: usize) -> usize
        ensures value { block < block_count → result ≡ two_meaning.interval block }
        ensures clock { block < block_count → result ≡ two_by_the_clock (begins block) }
    {
        match block {
            34..=41 => PEAK,
            _ => OFF_PEAK,
        }
    }

    /// What was delivered, and the filed losses on top.
    fn allowed_supply(&self, _sent: u64, delivered: u64, factor: u32) -> u64 {
        u64::try_from(scale_ppm(delivered, factor)).unwrap_or(u64::MAX)
    }
}
