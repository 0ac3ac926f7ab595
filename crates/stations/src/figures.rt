//! The figures that a station's bottom is made from, as an operator files them.

/// The figures of an agreement that stands on no other, before they are known to keep their limits.
#[derive(Clone, Copy, PartialEq, Eq, Debug)]
pub enum BaseFigures {
    /// Contracted kW, grains per kW, grains per kWh.
    TwoPart {
        contracted: u64,
        capacity: u64,
        energy: u64,
    },
    /// The quota in kWh, and two prices in grains per kWh.
    Quota {
        quota: u64,
        first: u64,
        second: u64,
    },
}
