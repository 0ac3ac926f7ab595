//! What a licensee took in a month.
ghost use Rattle.std.specs.Prelude.{◌≡◌, length};
ghost use Rattle.metering.specs.Limits.{reading_limit};
ghost use Rattle.methodology.specs.Limits.{head_limit};
ghost use Rattle.accounts.specs.Tables.{TableWithin};

use rates::HEADS;

/// What a licensee took under each head, head 1 first: its demand, kW, at the demand heads, and energy, kWh, at the intervals.
#[derive(Clone, Copy)]
pub struct Delivery {
    pub taken: [u64; HEADS],
    ghost full: { length taken ≡ head_limit },
    ghost fair: { TableWithin reading_limit taken },
}
