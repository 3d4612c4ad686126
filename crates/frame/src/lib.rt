// Frames in fixed memory, their control and status bits, and what an end writes of them: offers and readings.
#![tactic(auto)]

mod bits;
pub mod control;
mod frame;
mod length;
mod octets;
mod reading;
pub mod status;
mod values;

pub use bits::{flag, has};
pub use frame::Frame;
pub use length::check_length;
pub use octets::{append_at, first, octet_at, write_front};
pub use reading::{hand_out, read_as};
pub use values::Values;
