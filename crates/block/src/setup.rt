// What an end is before it has a block, and what it takes from a checked one.
ghost use Rattle.std.specs.Prelude.{◌≡◌};

use signature::{Number, Signing};

// The end's own address and SIL rank, and the data octets out to the device and in to the host.
#[derive(Clone, Copy, Debug, PartialEq)]
pub struct Own {
    pub address: u16,
    pub rank: u8,
    pub out_len: usize,
    pub in_len: usize,
}

// F_Par_CRC, the watch time in ticks, and the data octets out to the device and in to the host.
#[derive(Clone, Copy, Debug, PartialEq)]
pub struct Setup {
    pub crc: u16,
    pub watch: u16,
    pub out_len: u8,
    pub in_len: u8,
}

impl Setup {
    // What a frame of that number is signed under.
    pub fn signing(self, number: Number) -> Signing
        ensures { result ≡ record { crc = self.crc; number = number } }
    {
        Signing {
            crc: self.crc,
            number,
        }
    }
}
