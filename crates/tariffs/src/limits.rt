//! The limits of what a tariff files. Money is filed in cents; rates are in grains.
use arith::{MONTHS, WHOLE_PPM};
use metering::{DEMAND_LIMIT, LICENSEES};

/// Most that a cost may be, cents: in grains it is still within 64 bits.
pub const COST_LIMIT: u64 = 100_000_000_000_000;

/// Most that six monthly peaks may add up to, kW: the greatest demand of every licensee in each month of a half-year.
pub const PEAKS_LIMIT: u64 = MONTHS / 2 * LICENSEES as u64 * DEMAND_LIMIT as u64;

/// Most energy that may be sent in, kWh.
pub const SENT_LIMIT: u64 = 100_000_000_000;

/// Most energy that an interval may be delivered, kWh.
pub const DELIVERED_LIMIT: u64 = 48_000_000_000;

/// Most that a coefficient may be, thousandths.
pub const COEFFICIENT_LIMIT: u64 = 4_000;

/// Most that the interest may be, ppm: as much again.
pub const INTEREST_LIMIT: u64 = WHOLE_PPM;
