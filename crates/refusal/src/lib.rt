// Why a call is turned down, and where: the one error type of every layer.
#![tactic(auto)]

mod reason;
mod refused;

pub use reason::{Layer, Reason, a_number_tells_its_reason};
pub use refused::Refusal;
