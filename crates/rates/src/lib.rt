//! What a tariff and a year put in force: rates by head, and yearly allowed revenues.
#![tactic(auto)]

pub mod head_rates;
pub mod published;
pub mod revenues;

pub use head_rates::HeadRates;
pub use published::{HEADS, Rates};
pub use revenues::{REVENUES, Revenues, YEARLY_LIMIT};
