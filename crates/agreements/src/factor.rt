//! The factor of an index layer.
ghost use Rattle.std.specs.Prelude.{◌≡◌, ◌≤◌};
ghost use Rattle.agreements.specs.Limits.{index_limit};
ghost use Rattle.agreements.specs.Indexes.{counted, scaled, capped};

use crate::limits::INDEX_LIMIT;
use arith::{WHOLE_PPM, scale_millionths};

/// A factor in millionths, from 1 to 4,000,000.
#[derive(Clone, Copy)]
pub struct Factor {
    ppm: u64,
    ghost limits: { (1 ≤ ppm) × (ppm ≤ index_limit) },
}

impl Factor {
    /// The factor that a number counts as: itself, or 1,000,000 where it is no factor. That leaves dues as they are.
    pub fn new(ppm: u64) -> Factor
        ensures { result.ppm ≡ counted ppm }
    {
        if (1..=INDEX_LIMIT).contains(&ppm) {
            Factor { ppm }
        } else {
            Factor { ppm: WHOLE_PPM }
        }
    }

    /// A due under the factor, rounded down, or the greatest number where it would be more, which passes the ceiling too.
    pub(crate) fn scale(self, due: u64) -> u64
        ensures { result ≡ capped (scaled self.ppm due) }
    {
        u64::try_from(scale_millionths(due, self.ppm)).unwrap_or(u64::MAX)
    }
}
