//! The figures of the worked month: a year, a tariff, an agreement, and what two meters measured.
#![tactic(auto)]

pub mod filings;
pub mod readings;

pub use filings::{agreement, tariff, year};
pub use readings::{measured, sent, taken};
