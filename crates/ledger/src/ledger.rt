//! The ledger of a house.
use crate::stage::Stage;
use accounts::{Books, Month};
use orders::Till;
use rates::{Rates, Revenues};

/// All that a house keeps in plain numbers. Its bank keeps the standings of the agreements, and its methodology keeps nothing.
#[derive(Drop)]
pub struct Ledger {
    /// Where the house stands in the year.
    pub stage: Stage,
    /// The year's allowed revenues.
    pub revenues: Revenues,
    /// The tariff in force.
    pub rates: Rates,
    /// What lasts from month to month.
    pub books: Books,
    /// The open month; without readings while none is open.
    pub month: Month,
    /// The stations' money.
    pub till: Till,
}
