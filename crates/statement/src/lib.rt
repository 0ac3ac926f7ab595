//! The statement at the end of a list of calls: every term of the account and both its sums, and the money of each place.
#![tactic(auto)]

pub mod account;
pub mod money;
mod sources;
pub mod statement;
pub mod tally;
mod total;

pub use account::AccountTotals;
pub use money::PlaceMoney;
pub use statement::Statement;
