// The lines that are printed of a book, and what is told to a person beside them.
#![tactic(auto)]

mod advice;
mod line;

pub use advice::Advice;
pub use line::{Line, lines_are_short};
