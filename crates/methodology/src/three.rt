//! A market with three intervals, in which all the energy that was sent in is billed.
ghost use Rattle.std.specs.Prelude.{◌≡◌, ◌<◌, refl};
ghost use Rattle.metering.specs.Limits.{block_count};
ghost use Rattle.methodology.specs.Markets.{begins, three_shape, three_meaning, three_by_the_clock};
ghost use Rattle.std.proofs.Common.{rules};

use crate::rules::Methodology;

const DAY: usize = 1;

const PEAK: usize = 2;

const OFF_PEAK: usize = 3;

/// Day, peak and off-peak. Its revenues are those for transmission, and for bulk supply and operations.
#[derive(Clone, Copy)]
pub struct ThreeIntervals;

impl Methodology for ThreeIntervals {
    const REVENUES: usize = 2;

    const INTERVALS: usize = 3;

    ghost REVENUES = { 2 };

    ghost INTERVALS = { 3 };

    ghost shape = { three_shape };

    ghost meaning = { λ _. three_meaning };

    ghost counted = { (refl, refl) };

    ghost placed = { Prim.search rules };

    ghost supplied = { Prim.search rules };

    /// Block 11 begins at 05:30, block 37 at 18:30, block 45 at 22:30.
    fn interval_of(&self, block: usize) -> usize
        ensures value { block < block_count → result ≡ three_meaning.interval block }
        ensures clock { block < block_count → result ≡ three_by_the_clock (begins block) }
    {
        match block {
            11..=36 => DAY,
            37..=44 => PEAK,
            _ => OFF_PEAK,
        }
    }

    /// All that was sent in.
    fn allowed_supply(&self, sent: u64, _delivered: u64, _factor: u32) -> u64 {
        sent
    }
}
