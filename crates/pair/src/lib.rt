// A host and a device end with a button, and lists of calls on them.
#![tactic(auto)]

mod call;
mod pair;
mod runner;

pub use call::Call;
pub use pair::{Pair, Seen};
pub use runner::run;
