// The text that the program prints of a book: its replay, line by line.
#![tactic(auto)]

mod bench;
mod calls;
mod heading;
mod octets;
mod opening;
mod replay;
mod text;

pub use bench::Bench;
pub use text::transcript;
