// The values of an offer, which have the length that is due.
ghost use Rattle.std.specs.Prelude.{◌≡◌, ◌≢◌, ◌≤◌, length, MatchResult};
ghost use Rattle.refusal.specs.declared.reason.Reason.TheVariants.{ValuesLength};
ghost use Rattle.refusal.specs.Refusals.{refusal_at};

use refusal::{Reason, Refusal};

// A length that is due is an octet, so a frame has room for the values.
#[derive(Clone, Copy)]
pub struct Values<'a> {
    octets: &'a [u8],
    ghost few: { length octets.now ≤ 255 },
}

impl<'a> Values<'a> {
    // The octets as values, if they are as many as are due.
    pub fn of(octets: &'a [u8], due: u8) -> Result<Values<'a>, Refusal>
        ensures { MatchResult result (λ values. (length octets.entry.now ≡ due) × (values.octets.now ≡ octets.entry.now)) (λ refusal. (length octets.entry.now ≢ due) × (refusal ≡ refusal_at ValuesLength 0)) }
    {
        if octets.len() != usize::from(due) {
            return Err(Refusal::at(Reason::ValuesLength, 0));
        }
        Ok(Values { octets })
    }

    pub fn as_slice(self) -> &'a [u8]
        ensures octets { result.now ≡ self.entry.octets.now }
        ensures few { length result.now ≤ 255 }
    {
        self.octets
    }
}
