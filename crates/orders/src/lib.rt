//! Money at the places of a market: what stands there, and the pay orders drawn on it.
#![tactic(auto)]

pub mod money;
pub mod order;
mod place;
pub mod till;

pub use money::{MONEY_LIMIT, Money};
pub use order::{Paid, PayOrder, RETURNED, Returned};
pub use till::{CreditRefusal, DrawRefusal, Till};
