//! Banks: the agreements of a market, each at its place.
#![tactic(auto)]

pub mod bank;
pub mod beside;
pub mod listed;
pub mod one;
pub mod refusal;

pub use bank::Bank;
pub use beside::Beside;
pub use listed::{Listed, Unplaced};
pub use one::One;
pub use refusal::BankRefusal;
