//! The limits of agreements. Those of prices are the rate limits of `arith`.
use arith::WHOLE_PPM;
use metering::DEMAND_LIMIT;

/// Most that may be contracted, kW: as much as a meter may show.
pub const CONTRACTED_LIMIT: u64 = DEMAND_LIMIT as u64;

/// Most a quota may be, kWh.
pub const QUOTA_LIMIT: u64 = 1_000_000_000_000_000;

/// The ceiling of a reading's capacity due and of its block sum, in grains. A month of 32 places stays in 64 bits.
pub const DUE_LIMIT: u64 = 100_000_000_000_000_000;

/// The greatest factor of an index layer, in millionths: four times.
pub const INDEX_LIMIT: u64 = 4 * WHOLE_PPM;

/// The highest number of a layer.
pub const LAYER_LIMIT: u8 = u8::MAX;
