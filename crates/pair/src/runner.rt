// A list of calls run on a blank pair.
ghost use Rattle.std.specs.Prelude.{◌≡◌, IfOk};
ghost use Rattle.pair.specs.Runs.{Runs};

use crate::call::Call;
use crate::pair::Pair;
use block::CheckedBlock;
use machine::Outcome;
use refusal::Refusal;
use signature::SignatureKind;
use std::alloc::{AllocError, Global};

// What each call answers, in order. The two blocks start the ends, and all calls share the buffer. If both ends run
// under one block and one model of signatures, the answers are the machine's, and if the lines allow the calls, the
// whole safety statement holds of them.
pub fn run<H: SignatureKind, D: SignatureKind>(
    heap: Global,
    blocks: (CheckedBlock<H>, CheckedBlock<D>),
    calls: &[Call<'_>],
    buffer: &mut [u8],
) -> Result<Vec<Result<Outcome, Refusal>>, AllocError>
    ensures { IfOk result (λ answers. D.SignatureKind.model ≡ H.SignatureKind.model → blocks.1.setup ≡ blocks.0.setup → Runs H.SignatureKind.model blocks.0.setup calls.now answers.items buffer.old buffer.new) }
{
    let (host, device) = blocks;
    let mut pair = Pair::start(host, device);
    let mut answers = Vec::new(heap);
    for call in calls {
        answers.push(pair.call(*call, buffer))?;
    }
    Ok(answers)
}
