//! What a house keeps: its books, the open month, and the sheet of a closing.
#![tactic(auto)]

pub mod account;
pub mod books;
pub mod delivery;
pub mod month;
pub mod sheet;
mod tables;

pub use account::{Account, BALANCE_LIMIT};
pub use books::Books;
pub use delivery::Delivery;
pub use month::{Month, Unadded, Undelivered};
pub use sheet::{Billed, HeadLine, Sheet};

#[cfg(test)]
mod tests {
    use super::*;
    use agreements::Dues;
    use metering::Reading;
    use methodology::ThreeIntervals;

    #[test]
    fn a_place_is_read_once_in_a_month(rt: HostRuntime) {
        let market = ThreeIntervals;
        let reading = Reading::empty();
        let mut dues = Dues::empty();
        dues.capacity = 2_000_000;
        dues.blocks[12] = 1_500_000;
        let mut month = Month::open();
        assert_eq!(rt; month.add_reading(&market, &reading, &dues), Ok(()));
        assert_eq!(rt; month.income, [2_000_000, 0, 0, 1_500_000, 0, 0]);
        assert_eq!(rt;
            month.add_reading(&market, &reading, &dues),
            Err(Unadded::Again)
        );
        assert_eq!(rt; month.readings(), 1);
    }
}
