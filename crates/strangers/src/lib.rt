//! An agreement, a bank and a methodology unlike the house's own, which go in by the traits alone.
#![tactic(auto)]

pub mod fifths;
pub mod retainer;
pub mod reversed;

pub use fifths::{Fifths, head_of_fifth};
pub use retainer::Retainer;
pub use reversed::Reversed;
