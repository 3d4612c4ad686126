// The lines of the table that state the check value of a parameter block.
ghost use Rattle.std.specs.Prelude.{◌≡◌, ℕ, List, IfOk, MatchOption, ◌≢◌};
ghost use Rattle.block.specs.ParCrc.{par_crc};
ghost use Rattle.vectors.specs.Hex.{hex_text};
ghost use Rattle.vectors.specs.Lines.{spaced};

use crate::table::read_octets;
use block::par_crc;
use std::alloc::{AllocError, Global};

// The octets, the answer that the line states, and the check value that the code gives.
#[derive(Drop)]
pub struct CheckValue {
    pub octets: Vec<u8>,
    pub answer: Vec<u8>,
    pub given: u16,
}

// What comes of a line's fields, after its word; none if they are not those of such a line.
pub fn check_value(heap: Global, fields: &str) -> Result<Option<CheckValue>, AllocError>
    ensures { IfOk result (λ o. MatchOption o ((os answer : List ℕ) → fields.now ≢ spaced (hex_text os) (hex_text answer)) (λ v. (fields.now ≡ spaced (hex_text v.octets.items) (hex_text v.answer.items)) × (v.given ≡ par_crc v.octets.items))) }
{
    let read = read_octets(heap, fields)?;
    Ok(read.map(|(octets, answer)| {
        let given = par_crc(&octets);
        CheckValue {
            octets,
            answer,
            given,
        }
    }))
}
