//! Lines, words and figures in the texts that people write, and messages about them.
#![tactic(auto)]

pub mod counted;
pub mod fault;
pub mod figures;
pub mod line;
pub mod lines;
pub mod pieces;

pub use counted::Counted;
pub use fault::LineFault;
pub use figures::{figure, is_figure, number};
pub use line::Words;
pub use lines::Lines;
pub use pieces::{is_word, next_line, next_word, without_comment};
