//! Methodologies: a market's own rules on its intervals and on allowed supply, and the heads that it bills by.
#![tactic(auto)]

pub mod head;
pub mod layout;
pub mod rules;
pub mod shape;
pub mod three;
pub mod two;

pub use head::Head;
pub use layout::head_of_block;
pub use rules::{FACTOR_LIMIT, Methodology};
pub use shape::Shape;
pub use three::ThreeIntervals;
pub use two::TwoIntervals;
