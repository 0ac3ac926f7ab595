//! The ledger of a house: what it keeps in plain numbers, what its calls mean, and the law over every list of them.
#![tactic(auto)]

pub mod ledger;
pub mod refusal;
pub mod stage;

pub use ledger::Ledger;
pub use refusal::Refusal;
pub use stage::{HALF_YEAR, Half, Stage};
