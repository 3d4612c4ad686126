// A table of 256 registers that follows the bit rule, and the step by it.
ghost use Rattle.std.specs.Prelude.{◌≡◌, ◌+◌, ◌≤◌, true, length};
ghost use Rattle.signature.specs.Rule.{feed_bits};
ghost use Rattle.signature.specs.Table.{computed, every};

// Entry i is what the octet i makes of the register 0, by the bit rule with the polynomial POLY.
// LOW is how many bits stand below a register's highest octet.
pub struct RuledTable<const LOW: u32, const POLY: u32> {
    pub entries: &'static [u32; 256],
    ghost ruled: { every (computed (LOW + 7) POLY 8) 0 entries.now ≡ true },
    ghost narrow: { LOW ≤ 24 },
    ghost full: { length entries.now ≡ 256 },
}

impl<const LOW: u32, const POLY: u32> RuledTable<LOW, POLY> {
    // The register that an octet makes of a register: its highest octet and the octet fed pick the
    // entry.
    pub fn step(&self, register: u32, octet: u8) -> u32
        ensures { result ≡ feed_bits (LOW + 7) POLY register 8 octet }
    {
        let high = ((register >> LOW) & 0xff) as u8;
        ((register & ((1 << LOW) - 1)) << 8) ^ self.entry(high ^ octet)
    }

    fn entry(&self, octet: u8) -> u32
        ensures { result ≡ feed_bits (LOW + 7) POLY 0 8 octet }
    {
        self.entries[octet as usize]
    }
}
