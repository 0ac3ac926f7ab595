//! Arithmetic of money: every division of the settlement house, with what becomes of the rest.
#![tactic(auto)]

mod amount;
pub mod division;
pub mod interest;
pub mod money;
pub mod months;
pub mod quantity;
pub mod scaling;

pub use division::{floor_div, split};
pub use interest::adjustment;
pub use money::{CENT, DEMAND_RATE_LIMIT, ENERGY_RATE_LIMIT};
pub use months::{MONTHS, month_share};
pub use quantity::NoQuantity;
pub use scaling::{
    WHOLE_PPM, WHOLE_THOUSANDTHS, scale_millionths, scale_ppm, scale_ppm_signed, scale_thousandths,
};

#[cfg(test)]
mod tests {
    use super::*;

    #[test]
    fn a_split_keeps_the_whole_amount(rt: HostRuntime) {
        assert_eq!(rt; split(2_000_000_u64, 90), Ok((22_222, 20)));
        assert_eq!(rt; split(89_u64, 90), Ok((0, 89)));
        assert_eq!(rt; split(5_u64, 0), Err(NoQuantity));
        assert_eq!(rt; split(2_000_000_u128, 90), Ok((22_222, 20)));
    }

    #[test]
    fn floors_go_down(rt: HostRuntime) {
        assert_eq!(rt; floor_div(7, 2), Ok(3));
        assert_eq!(rt; floor_div(-7, 2), Ok(-4));
        assert_eq!(rt; floor_div(i64::MIN, u64::MAX), Ok(-1));
        assert_eq!(rt; adjustment(-140_011, 114, 100_000), Ok((-1_229, -1_352)));
    }

    #[test]
    fn a_hundred_cents_a_year_are_eight_or_nine_a_month(rt: HostRuntime) {
        assert_eq!(rt; month_share(100, 1), 8);
        assert_eq!(rt; month_share(100, 3), 9);
        assert_eq!(rt; month_share(100, 12), 9);
    }
}
