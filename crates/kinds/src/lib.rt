// The signature kinds S3 and S4, which follow the bit rule from tables, and the bench kind C3.
#![tactic(auto)]

mod name;
mod rotated;
mod ruled;
mod tables;

pub use name::{KindName, NoSuchKind};
pub use rotated::C3;
pub use ruled::{S3, S4};
