//! The settlement house: a bank, a methodology and a ledger under eight calls.
#![tactic(auto)]

pub mod house;

pub use house::House;
