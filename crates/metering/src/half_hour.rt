//! The half-hours of a day, as people write them.
ghost use Rattle.std.specs.Prelude.{◌≡◌, ◌<◌, is_some, IfSome, Some, nat_lt};
ghost use Rattle.metering.specs.Limits.{block_count};
ghost use Rattle.metering.specs.Text.{clock_text, half_hour_text};

use crate::limits::BLOCKS;
use std::fmt;

/// A time of day, counted in half-hours after midnight: 11 is 05:30.
#[derive(Clone, Copy)]
struct ClockTime(u8);

impl fmt::Display for ClockTime {
    ghost output = { λ t. Some (clock_text t.0) };

    fn fmt<W: fmt::Write>(&self, f: &mut fmt::Formatter<W>) -> fmt::Result {
        let hour = self.0 / 2;
        let minutes = self.0 % 2 * 30;
        write!(f, "{hour:02}:{minutes:02}")
    }
}

/// The half-hour of a block: block 11 is 05:30-06:00.
#[derive(Clone, Copy)]
pub struct HalfHour {
    block: u8,
    ghost within: { block < block_count },
}

impl HalfHour {
    /// The half-hour of a block, if the day has that block.
    pub fn of(block: usize) -> Option<HalfHour>
        ensures test { is_some result ≡ nat_lt block block_count }
        ensures found { IfSome result (λ h. h.block ≡ block) }
    {
        let block = u8::try_from(block)
            .ok()
            .filter(|block| usize::from(*block) < BLOCKS)?;
        Some(HalfHour { block })
    }
}

impl fmt::Display for HalfHour {
    ghost output = { λ h. Some (half_hour_text h.block) };

    fn fmt<W: fmt::Write>(&self, f: &mut fmt::Formatter<W>) -> fmt::Result {
        let start = ClockTime(self.block);
        let end = ClockTime(self.block + 1);
        write!(f, "{start}-{end}")
    }
}
