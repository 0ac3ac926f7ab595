//! Filing: a year's allowed revenues, and the tariffs that set the rates.
#![tactic(auto)]

mod filed;
mod filed_head;
pub mod filing;
pub mod limits;
pub mod publishing;
pub mod refusal;
pub mod row;
pub mod year;

pub use filing::Filing;
pub use publishing::publish;
pub use refusal::{TariffFault, YearRefused};
pub use row::Row;
pub use year::file_year;

#[cfg(test)]
mod tests {
    use super::*;
    use methodology::{Methodology, ThreeIntervals};
    use rates::HEADS;

    fn worked(interest: u64) -> Filing {
        Filing {
            costs: Row::of(&[1_080, 486, 49]),
            peaks: 540,
            energy_cost: 2_100,
            sent: 420,
            delivered: Row::of(&[168, 114, 108]),
            factors: Row::of(&[40_000, 0, 0]),
            coefficients: Row::of(&[1_000, 1_200, 1_000]),
            interest,
        }
    }

    fn published(filing: &Filing, earlier: &[i64; HEADS]) -> Option<[u64; HEADS]> {
        let rates = publish(ThreeIntervals::shape(), filing, earlier).ok()?;
        Some(rates.heads.map(|head| head.published))
    }

    #[test]
    fn a_tariff_publishes_base_rates_and_adjustments(rt: HostRuntime) {
        let base = [20_000, 9_000, 907, 52_000, 60_000, 50_000];
        assert_eq!(rt; published(&worked(0), &[0; HEADS]), Some(base));
        let adjusted = [20_000, 9_000, 907, 52_000, 60_000 - 1_352, 50_000];
        assert_eq!(rt;
            published(&worked(100_000), &[0, 0, 0, 0, -140_011, 0]),
            Some(adjusted)
        );
    }

    #[test]
    fn a_rate_below_zero_names_its_head(rt: HostRuntime) {
        let shape = ThreeIntervals::shape();
        let refused = publish(shape, &worked(0), &[0, 0, -540 * 908, 0, 0, 0]).err();
        assert_eq!(rt; refused, Some(TariffFault::OutOfRange(3)));
        assert_eq!(rt; file_year(shape, &Row::of(&[100])).err(), Some(YearRefused));
    }
}
