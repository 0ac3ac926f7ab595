//! Agreements: what a station is due for a reading.
#![tactic(auto)]

pub mod agreement;
pub mod dues;
pub mod factor;
pub mod fault;
pub mod index;
pub mod limits;
mod price;
pub mod quota;
pub mod two_part;

pub use agreement::Agreement;
pub use dues::Dues;
pub use factor::Factor;
pub use fault::{Cause, Fault, OverLimit};
pub use index::{Index, indexed_dues, layer_above};
pub use quota::Quota;
pub use two_part::TwoPart;
