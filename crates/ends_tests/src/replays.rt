// The sample books, replayed.
use crate::samples::{
    BROKEN_OFF, BROKEN_OFF_TEXT, CALM, CALM_TEXT, PRESSED_EARLY, PRESSED_EARLY_TEXT, S4, S4_TEXT,
    SIGNATURE_FAULT, SIGNATURE_FAULT_TEXT, TIME_FAULT, TIME_FAULT_TEXT, TURNED_DOWN,
    TURNED_DOWN_TEXT,
};
use std::test::Fail;
use transcript::transcript;

#[test]
fn the_samples_replay_as_told(rt: HostRuntime) -> Result<(), Fail> {
    let table: [(&[u8], &str); 7] = [
        (CALM, CALM_TEXT),
        (TIME_FAULT, TIME_FAULT_TEXT),
        (SIGNATURE_FAULT, SIGNATURE_FAULT_TEXT),
        (TURNED_DOWN, TURNED_DOWN_TEXT),
        (PRESSED_EARLY, PRESSED_EARLY_TEXT),
        (BROKEN_OFF, BROKEN_OFF_TEXT),
        (S4, S4_TEXT),
    ];
    for (octets, text) in table {
        let said = transcript(rt.alloc(), octets)?;
        assert_eq!(rt; said.as_str(), text);
    }
    Ok(())
}
