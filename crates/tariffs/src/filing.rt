//! A tariff as it is filed, in any numbers.
ghost use Rattle.std.specs.Prelude.{◌≡◌};
ghost use Rattle.tariffs.specs.Filing.{rows_fit, singles_fit};

use crate::limits::{
    COEFFICIENT_LIMIT, COST_LIMIT, DELIVERED_LIMIT, INTEREST_LIMIT, PEAKS_LIMIT, SENT_LIMIT,
};
use crate::row::{Row, lies_between};
use methodology::{FACTOR_LIMIT, Shape};

/// Costs in cents, quantities of the half-year that the tariff is for. Rows of demand heads have generation first.
#[derive(Clone, Copy)]
pub struct Filing {
    /// The cost of each demand head, cents.
    pub costs: Row,
    /// The forecast peaks of the half-year's months, added up, kW.
    pub peaks: u64,
    /// The cost of all energy, cents.
    pub energy_cost: u64,
    /// The energy to be sent in, kWh.
    pub sent: u64,
    /// The energy to be delivered in each interval, kWh.
    pub delivered: Row,
    /// The loss factor of each interval, ppm.
    pub factors: Row,
    /// The coefficient of each interval, thousandths.
    pub coefficients: Row,
    /// The interest on what an earlier period left over, ppm.
    pub interest: u64,
}

impl Filing {
    /// Whether the rows fit the heads, and their figures keep their limits.
    #[tactic(auto, using(std::proofs::lemmas::Bool::Decides::nat_tests), unfolding(crate::specs::Filing::rows_fit))]
    pub(crate) fn rows_fit(&self, shape: Shape) -> bool
        ensures { result ≡ rows_fit shape self.now }
    {
        self.costs.fits(0, COST_LIMIT, 1 + shape.revenues)
            && self.delivered.fits(1, DELIVERED_LIMIT, shape.intervals)
            && self.factors.fits(0, FACTOR_LIMIT, shape.intervals)
            && self
                .coefficients
                .fits(0, COEFFICIENT_LIMIT, shape.intervals)
    }

    /// Whether the figures that are filed once keep their limits.
    #[tactic(auto, using(std::proofs::lemmas::Bool::Decides::nat_tests), unfolding(crate::specs::Filing::singles_fit))]
    pub(crate) fn singles_fit(&self) -> bool
        ensures { result ≡ singles_fit self.now }
    {
        lies_between(1, PEAKS_LIMIT, self.peaks)
            && self.energy_cost <= COST_LIMIT
            && lies_between(1, SENT_LIMIT, self.sent)
            && self.interest <= INTEREST_LIMIT
    }
}
