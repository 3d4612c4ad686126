// The calls on blocks and frames, as C sees them: octets pass as a pointer and a length.
ghost use Rattle.std.specs.Prelude.{◌≡◌, length};
ghost use Rattle.machine.specs.Answers.{written};
ghost use Rattle.mizkaule.specs.Answers.{answer_of};
ghost use Rattle.mizkaule.specs.Kinds.{fitted_by, judged_by, signs_by, signs_octets_by};

use crate::answer::{Answer, Verdict};
use crate::by_kind::{fit, judge, put};
use block::Own;
use kinds::{KindName, under};

fn judge_by(kind: u8, octets: &[u8], own: Own) -> Verdict
    ensures { result ≡ judged_by kind octets.now own }
{
    under!(KindName::try_from(kind)?, judge(octets, own))
}

fn put_by(kind: u8, crc: u16, number: u32, octets: &[u8], out: &mut [u8]) -> Verdict
    ensures told { result ≡ signs_by kind number (length out.old) }
    ensures buffer { out.new ≡ written (signs_octets_by kind crc number octets.now (length out.old)) out.old }
{
    under!(KindName::try_from(kind)?, put(crc, number, octets, out))
}

fn fit_by(kind: u8, crc: u16, number: u32, frame: &[u8]) -> Verdict
    ensures { result ≡ fitted_by kind crc number frame.now }
{
    under!(KindName::try_from(kind)?, fit(crc, number, frame))
}

#[unsafe(no_mangle)]
pub extern "C" fn mizkaule_raw_judge_block(
    block: &[u8],
    address: u16,
    rank: u8,
    out_len: usize,
    in_len: usize,
    kind: u8,
) -> Answer
    ensures { result ≡ answer_of (judged_by kind block.now (record { address = address; rank = rank; out_len = out_len; in_len = in_len })) }
{
    let own = Own {
        address,
        rank,
        out_len,
        in_len,
    };
    Answer::from(judge_by(kind, block, own))
}

#[unsafe(no_mangle)]
pub extern "C" fn mizkaule_raw_sign(
    kind: u8,
    crc: u16,
    number: u32,
    octets: &[u8],
    out: &mut [u8],
) -> Answer
    ensures told { result ≡ answer_of (signs_by kind number (length out.old)) }
    ensures buffer { out.new ≡ written (signs_octets_by kind crc number octets.now (length out.old)) out.old }
{
    Answer::from(put_by(kind, crc, number, octets, out))
}

#[unsafe(no_mangle)]
pub extern "C" fn mizkaule_raw_fits(kind: u8, crc: u16, number: u32, frame: &[u8]) -> Answer
    ensures { result ≡ answer_of (fitted_by kind crc number frame.now) }
{
    Answer::from(fit_by(kind, crc, number, frame))
}
