//! A head of a tariff that is filed well, and its rates.
ghost use Rattle.std.specs.Prelude.{◌≡◌, ◌+◌, ◌-◌, ◌^◌, ◌<◌, ◌≤◌, nat_le, pos, unsigned_abs};
ghost use Rattle.methodology.specs.Heads.{heads_of};
ghost use Rattle.methodology.specs.Limits.{factor_limit};
ghost use Rattle.methodology.specs.Meaning.{UpTo};
ghost use Rattle.tariffs.specs.Limits.{coefficient_limit};
ghost use Rattle.tariffs.specs.Publishing.{first_interval, demand_head, filed_factor};
ghost use Rattle.tariffs.specs.Publishing.{coefficient_of, base_rate, forecast, per_unit};
ghost use Rattle.tariffs.specs.Publishing.{adjustment_at, energy_fits, keeps, RatesHead};

use crate::filed::{Filed, per_cost};
use crate::refusal::TariffFault;
use arith::{ENERGY_RATE_LIMIT, adjustment, scale_ppm, scale_thousandths};
use rates::HeadRates;

/// A head goes by its number, which counts from 1.
#[derive(Clone, Copy)]
pub(crate) struct FiledHead<'a> {
    pub(crate) filed: &'a Filed,
    pub(crate) number: usize,
    ghost counted: { UpTo (heads_of filed.now.shape) number },
}

impl FiledHead<'_> {
    ghost use Rattle.tariffs.specs.Filed.{of_head, with_differences, passes_tests};

    /// Whether the head is billed by demand.
    fn is_demand(&self) -> bool
        ensures value { result ≡ demand_head self.now.filed.now.shape self.now.number }
        ensures order { result ≡ nat_le self.now.number (1 + self.now.filed.now.shape.revenues) }
    {
        self.filed.shape.head(self.number).is_demand()
    }

    /// The index of its interval in the rows by interval; 0 for a demand head.
    fn interval_place(&self) -> usize
        ensures value { result ≡ self.now.number - first_interval self.now.filed.now.shape }
        ensures inside { result < self.now.filed.now.shape.intervals }
    {
        self.number.saturating_sub(self.filed.first_interval())
    }

    /// The filed loss factor of its interval, ppm; 0 for a demand head.
    fn factor(&self) -> u32
        ensures value { result ≡ of_head filed_factor self.now }
        ensures most { result ≤ factor_limit }
    {
        if self.is_demand() {
            0
        } else {
            // Fits: a factor that is filed well keeps its limit.
            self.filed.filing.factors.figure(self.interval_place()) as u32
        }
    }

    /// The coefficient of its interval, thousandths.
    fn coefficient(&self) -> u32
        ensures value { result ≡ of_head coefficient_of self.now }
        ensures most { result ≤ coefficient_limit }
    {
        // Fits: it keeps its limit.
        self.filed.filing.coefficients.figure(self.interval_place()) as u32
    }

    /// The rate before the adjustment, grains.
    fn base_rate(&self) -> u64
        ensures { result ≡ of_head base_rate self.now }
    {
        let filing = &self.filed.filing;
        if self.is_demand() {
            return per_cost(filing.costs.figure(self.number - 1), filing.peaks);
        }
        let with_losses = scale_ppm(self.filed.generation_energy(), self.factor()) as u64;
        scale_thousandths(with_losses, self.coefficient()) as u64
    }

    /// The quantity that the head is forecast to bill, kW or kWh.
    fn forecast(&self) -> u64
        ensures value { result ≡ of_head forecast self.now }
        ensures some { 0 < result }
    {
        if self.is_demand() {
            self.filed.filing.peaks
        } else {
            self.filed.filing.delivered.figure(self.interval_place())
        }
    }

    /// The differences of an earlier period, per unit of the forecast, and the same with interest.
    fn adjusted(&self, differences: i64) -> (i64, i128)
        ensures each { result.0 ≡ with_differences per_unit differences self.now }
        ensures whole { result.1 ≡ with_differences adjustment_at differences self.now }
        ensures size { unsigned_abs result.1 ≤ 2 ^ 64 }
    {
        let interest = self.filed.filing.interest as u32;
        adjustment(differences, self.forecast(), interest).unwrap()
    }

    /// Whether generation energy keeps its limit, which is tested with the first interval.
    #[tactic(auto, using(std::proofs::lemmas::Bool::Decides::nat_tests), unfolding(crate::specs::Publishing::energy_fits))]
    fn energy_fits(&self) -> bool
        ensures { result ≡ of_head energy_fits self.now }
    {
        self.number != self.filed.first_interval()
            || self.filed.generation_energy() <= ENERGY_RATE_LIMIT
    }

    /// Whether its figures pass all its tests.
    fn passes(&self, base: u64, each: i64, published: u64) -> bool
        ensures { result ≡ passes_tests self.now base each (pos published) }
    {
        let limit = self.filed.shape.head(self.number).rate_limit();
        self.energy_fits() && keeps_limit(limit, base, each, published)
    }

    /// Its rates, or its fault where one of its tests fails.
    pub(crate) fn rates(&self, differences: i64) -> Result<HeadRates, TariffFault>
        ensures { with_differences RatesHead differences self.now result }
    {
        let base = self.base_rate();
        let (each, adjustment) = self.adjusted(differences);
        match u64::try_from(i128::from(base) + adjustment) {
            Ok(published) if self.passes(base, each, published) => Ok(HeadRates {
                published,
                base,
                factor: self.factor(),
            }),
            _ => Err(TariffFault::OutOfRange(self.number)),
        }
    }
}

/// Whether a base rate, the differences per unit and a published rate keep a limit.
fn keeps_limit(limit: u64, base: u64, each: i64, published: u64) -> bool
    ensures { result ≡ keeps limit base each (pos published) }
{
    base <= limit && each.unsigned_abs() <= limit && published <= limit
}
