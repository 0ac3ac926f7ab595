//! Which head a block of the day is billed by.
ghost use Rattle.std.specs.Prelude.{◌≡◌, ◌<◌};
ghost use Rattle.metering.specs.Limits.{block_count};
ghost use Rattle.methodology.specs.Heads.{block_head, IsIntervalHead};

use crate::rules::Methodology;

/// The number of the head that a block's energy goes to.
pub fn head_of_block<M: Methodology>(m: &M, block: usize) -> usize
    ensures value { block < block_count → result ≡ block_head M.shape (M.meaning m.now) block }
    ensures range { block < block_count → IsIntervalHead M.shape result }
{
    (1 + M::shape().revenues).saturating_add(m.interval_of(block))
}
