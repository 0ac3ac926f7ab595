//! Tables by head: blocks go to the head of their interval.
ghost use Rattle.std.specs.Prelude.{◌≡◌, ◌+◌, ◌^◌, ◌<◌, slice_index};
ghost use Rattle.accounts.specs.Limits.{balance_limit};
ghost use Rattle.accounts.specs.Rules.{rules_by};
ghost use Rattle.accounts.specs.Tables.{ByHead, TableWithin, under_by, under_demand, total};

use metering::BLOCKS;
use methodology::{Methodology, head_of_block};
use rates::HEADS;
use std::array;

/// At generation stands `first`, at the revenues `others`, at an interval the sum of its blocks.
pub fn by_head<M: Methodology>(
    m: &M,
    first: u64,
    others: u64,
    blocks: &[u64; BLOCKS],
) -> [u64; HEADS]
    requires { total blocks.now < 2 ^ 64 }
    ensures { ByHead result (under_by (rules_by M.Methodology m.now) first others blocks.now) }
{
    let mut all = under_demand(M::shape().revenues, first, others);
    for (block, energy) in blocks.iter().enumerate() {
        all[head_of_block(m, block) - 1] += *energy;
    }
    all
}

/// The same before any block.
fn under_demand(revenues: usize, first: u64, others: u64) -> [u64; HEADS]
    ensures { ByHead result (under_demand revenues first others) }
{
    array::from_fn(|k| {
        if k == 0 {
            first
        } else if k <= revenues {
            others
        } else {
            0
        }
    })
}

/// Two tables added, head by head.
pub fn added(a: &[u64; HEADS], b: &[u64; HEADS]) -> [u64; HEADS]
    requires { (TableWithin balance_limit a.now) × (TableWithin balance_limit b.now) }
    ensures { ByHead result (λ k. slice_index a.now k + slice_index b.now k) }
{
    array::from_fn(|k| a[k] + b[k])
}

/// The same energies as wider numbers.
pub fn widened(blocks: &[u32; BLOCKS]) -> [u64; BLOCKS]
    ensures { result ≡ blocks.now }
{
    blocks.map(u64::from)
}
