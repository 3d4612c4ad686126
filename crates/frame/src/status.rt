// The bits of the status octet, which the device sends.

// The device itself has a fault.
pub const DEVICE_FAULT: u8 = 0x02;
// The device noted a signature that did not fit.
pub const CE_CRC: u8 = 0x04;
// The device noted that its watch time was reached.
pub const WD_TIMEOUT: u8 = 0x08;
// The data are fail-safe values.
pub const FV_ACTIVATED: u8 = 0x10;
// Follows the toggle of the host frame that was taken.
pub const TOGGLE_D: u8 = 0x20;
// The device has restarted with number 0.
pub const CONS_NR_R: u8 = 0x40;
