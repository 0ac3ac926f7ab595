//! Closes a month: tests it head by head, and makes its sheet and the books that follow.
#![tactic(auto)]

mod bills;
pub mod case;
mod findings;
mod head;

pub use case::Case;
