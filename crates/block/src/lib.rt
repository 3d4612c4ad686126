// The F-parameter block: its check value, its checks, and what starts an end.
#![tactic(auto)]

mod block;
mod par;
mod setup;

pub use block::{CheckedBlock, RawBlock, checks_in_order};
pub use par::par_crc;
pub use setup::{Own, Setup};
