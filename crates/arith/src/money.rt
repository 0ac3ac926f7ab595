//! The grain, in which all money is counted, and the most that a unit may cost.

/// The grains of a cent. Prices per kWh go in steps finer than a cent, so the grain is its ten-thousandth part.
pub const CENT: u64 = 10_000;

/// Most that a rate or a price by energy may be, grains per kWh: 10,000 cents.
/// A licensee's whole month at this rate comes to some 10^17 grains, far within 64 bits.
pub const ENERGY_RATE_LIMIT: u64 = 100_000_000;

/// Most that a rate or a price by demand may be, grains per kW: 5,000,000 cents.
/// The greatest demand at this rate comes to 10^17 grains too.
pub const DEMAND_RATE_LIMIT: u64 = 50_000_000_000;
