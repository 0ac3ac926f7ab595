//! A market with no allowed revenue and five intervals, in which half of the losses are billed.
ghost use Rattle.std.specs.Prelude.{◌≡◌, ◌+◌, ◌*◌, ◌/◌, ◌<◌, refl};
ghost use Rattle.std.proofs.Common.{rules};
ghost use Rattle.metering.specs.Limits.{block_count};
ghost use Rattle.strangers.specs.Fifths.{fifths_shape, fifths_meaning};

use metering::BLOCKS;
use methodology::{Methodology, head_of_block};

/// The day in five parts, as even as whole blocks allow.
#[derive(Clone, Copy)]
pub struct Fifths;

impl Methodology for Fifths {
    const REVENUES: usize = 0;

    const INTERVALS: usize = 5;

    ghost REVENUES = { 0 };

    ghost INTERVALS = { 5 };

    ghost shape = { fifths_shape };

    ghost meaning = { λ _. fifths_meaning };

    ghost counted = { (refl, refl) };

    ghost placed = { Prim.search rules };

    ghost supplied = { Prim.search rules };

    /// The day in five parts.
    fn interval_of(&self, block: usize) -> usize {
        1 + block % BLOCKS * Self::INTERVALS / BLOCKS
    }

    /// What was delivered, and half of what was lost.
    fn allowed_supply(&self, sent: u64, delivered: u64, _factor: u32) -> u64 {
        delivered + sent.saturating_sub(delivered) / 2
    }
}

/// The number of the head that a block's energy goes to, by the code that serves any methodology: 2 in the first fifth of
/// the day, 6 in the last.
pub fn head_of_fifth(block: usize) -> usize
    ensures { block < block_count → result ≡ 2 + block * 5 / block_count }
{
    head_of_block(&Fifths, block)
}

#[cfg(test)]
mod tests {
    use super::*;
    use methodology::{ThreeIntervals, TwoIntervals};
    use std::alloc::Global;
    use std::fmt::Write;
    use std::test::Fail;

    /// The names of a methodology's heads, each with a space before it.
    fn names<M: Methodology>(heap: Global) -> Result<String, Fail> {
        let shape = M::shape();
        let mut all = String::new(heap);
        for number in 1..=shape.heads() {
            let head = shape.head(number);
            write!(all, " {head}")?;
        }
        Ok(all)
    }

    #[test]
    fn heads_are_named_in_their_order(rt: HostRuntime) -> Result<(), Fail> {
        assert_eq!(rt;
            names::<ThreeIntervals>(rt.alloc())?.as_str(),
            " G T B E1 E2 E3"
        );
        assert_eq!(rt;
            names::<TwoIntervals>(rt.alloc())?.as_str(),
            " G T B S E1 E2"
        );
        assert_eq!(rt; names::<Fifths>(rt.alloc())?.as_str(), " G E1 E2 E3 E4 E5");
        Ok(())
    }

    #[test]
    fn allowed_supply_of_30_sent_in_and_28_delivered(rt: HostRuntime) {
        assert_eq!(rt; ThreeIntervals.allowed_supply(30, 28, 50_000), 30);
        assert_eq!(rt; TwoIntervals.allowed_supply(30, 28, 50_000), 29);
        assert_eq!(rt; Fifths.allowed_supply(30, 28, 50_000), 29);
    }

    #[test]
    fn evening_blocks_change_interval(rt: HostRuntime) {
        assert_eq!(rt; ThreeIntervals.interval_of(36), 1);
        assert_eq!(rt; ThreeIntervals.interval_of(37), 2);
        assert_eq!(rt; ThreeIntervals.interval_of(45), 3);
        assert_eq!(rt; TwoIntervals.interval_of(33), 2);
        assert_eq!(rt; TwoIntervals.interval_of(34), 1);
        assert_eq!(rt; TwoIntervals.interval_of(42), 2);
    }
}
