//! The trait of methodologies.
ghost use Rattle.std.specs.Prelude.{◌≡◌, ℕ, ◌<◌};
ghost use Rattle.metering.specs.Limits.{block_count};
ghost use Rattle.methodology.specs.declared.shape.Shape.{Shape};
ghost use Rattle.methodology.specs.Meaning.{Meaning, Placed, Supplied, IsAllowed};

use crate::shape::Shape;
use arith::WHOLE_PPM;

/// Most that a filed loss factor may be, ppm: as much lost as delivered.
pub const FACTOR_LIMIT: u64 = WHOLE_PPM;

/// A market's own rules: which interval a block of the day is in, and how much energy an interval's price may cover.
/// Intervals are counted from 1. Its answers depend on nothing but what it is asked, and there is always one; nothing is
/// said of a block that the day does not have.
pub trait Methodology {
    /// How many allowed revenues it has.
    const REVENUES: usize;

    /// How many intervals its day has.
    const INTERVALS: usize;

    ghost REVENUES: { ℕ };

    ghost INTERVALS: { ℕ };

    /// The two counts, within the limits of a shape.
    ghost shape: { Shape };

    ghost meaning: { Self → Meaning };

    /// The two counts.
    fn shape() -> Shape
        ensures revenues { result.revenues ≡ shape.revenues }
        ensures intervals { result.intervals ≡ shape.intervals }
        ensures whole { result ≡ shape }
    {
        Shape {
            revenues: Self::REVENUES,
            intervals: Self::INTERVALS,
        }
    }

    /// The interval of a block, counted from 1.
    fn interval_of(&self, block: usize) -> usize
        ensures { block < block_count → result ≡ (meaning self.now).interval block };

    /// The allowed supply of an interval, the kWh that its price may cover: by the kWh sent in and delivered, and the filed
    /// loss factor, ppm.
    fn allowed_supply(&self, sent: u64, delivered: u64, factor: u32) -> u64
        ensures { IsAllowed (meaning self.now) sent delivered factor result };

    /// The two constants are those of the shape.
    ghost counted: { (REVENUES ≡ shape.revenues) × (INTERVALS ≡ shape.intervals) };

    /// Each block of the day is in an interval that it has.
    ghost placed: { (m : Self) → Placed shape (meaning m) };

    /// Allowed supply stays between what was delivered and twice as much, as long as what was sent in does.
    ghost supplied: { (m : Self) → Supplied (meaning m) };
}
