// Lists of calls on a pair.
use super::{checked, said};
use kinds::S3;
use machine::Outcome;
use pair::{Call, run};
use refusal::Refusal;
use std::process::Abort;
use std::test::Fail;

fn same_words(rt: &impl Abort, answers: &[Result<Outcome, Refusal>], words: &[&str]) {
    assert_eq!(rt; answers.len(), words.len());
    for (answer, word) in answers.iter().zip(words) {
        assert_eq!(rt; said(*answer), *word);
    }
}

// A press that waits is handed over once, whether it is taken or refused; a buffer serves all calls.
#[test]
fn a_list_of_calls(rt: HostRuntime) -> Result<(), Fail> {
    let calls = [
        Call::Press,
        Call::Button(0),
        Call::Button(2),
        Call::Button(1),
        Call::Press,
        Call::Press,
        Call::HostOffer {
            values: &[1, 2],
            wish: 0,
        },
        Call::ToDevice(&[0x14]),
        Call::HostRead,
        Call::DeviceRead,
        Call::HostTicks(65_535),
        Call::DeviceTicks(65_535),
        Call::DeviceOffer {
            values: &[3, 4, 5],
            flags: 1,
        },
        Call::ToHost(&[0, 0, 0, 0x50, 0, 0, 0]),
    ];
    let words = [
        "quiet",
        "quiet",
        "refused 12",
        "quiet",
        "refused 14",
        "quiet",
        "fresh",
        "refused 10",
        "fail-safe",
        "fail-safe",
        "quiet",
        "quiet",
        "waiting",
        "ignored",
    ];
    let blocks = (checked::<S3>(0x08)?, checked::<S3>(0x08)?);
    let mut buffer = [7u8; 9];
    let answers = run(rt.alloc(), blocks, &calls, &mut buffer)?;
    same_words(&rt, &answers, &words);
    assert_eq!(rt; &buffer[0..4], [0, 0, 0, 0x12].as_slice());
    assert_eq!(rt; &buffer[7..9], [7, 7].as_slice());
    Ok(())
}
