// The host end and the operator's button.
#![tactic(auto)]

mod button;
mod host;

pub use button::{Button, Press};
pub use host::Host;
