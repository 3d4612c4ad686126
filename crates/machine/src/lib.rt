// The coupler as one machine: the outcomes, phases and causes that both ends share, their watch time, and the safety statement.
#![tactic(auto)]

mod judged;
mod outcome;
mod phase;
mod safety;
mod watch;

pub use judged::{DeviceJudged, HostJudged};
pub use outcome::Outcome;
pub use phase::{Cause, DevicePhase, HostPhase};
pub use safety::{refused_changes_nothing, statement_holds};
pub use watch::counted;
