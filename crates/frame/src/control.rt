// The bits of the control octet, which the host sends.

// The operator is asked for the acknowledging press.
pub const OA_REQ: u8 = 0x02;
// The device is to restart with number 0.
pub const R_CONS_NR: u8 = 0x04;
// The device is to use fail-safe values.
pub const ACTIVATE_FV: u8 = 0x10;
// Turns with each number.
pub const TOGGLE_H: u8 = 0x20;
