//! The text in which people write the figures of a reading.
#![tactic(auto)]

mod draft;
pub mod expected_line;
pub mod parse;

pub use expected_line::{ExpectedLine, TextFault};
pub use parse::parse_figures;
