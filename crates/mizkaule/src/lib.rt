// The coupler for C: judging a block, signing, fitting, and replaying a book into the caller's buffer.
#![tactic(auto)]

mod answer;
mod by_kind;
mod calls;
mod giving;
mod replays;

pub use answer::{Answer, Failure, Verdict};
