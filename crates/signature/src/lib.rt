// Signature kinds: the trait with its laws, and what a frame's signature is.
#![tactic(auto)]

mod kind;
mod number;
mod ruled_table;
mod signing;

pub use kind::SignatureKind;
pub use number::{Number, TooLarge};
pub use ruled_table::RuledTable;
pub use signing::{Signing, frames_tell, register_after};
