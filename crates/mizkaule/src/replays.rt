// The replay of a book into the caller's buffer.
ghost use Rattle.mizkaule.specs.Replays.{Answered, Replayed};

use crate::answer::{Answer, Verdict};
use crate::giving::give;
use std::alloc::Global;
use transcript::transcript;

fn replay(heap: Global, book: &[u8], text: &mut [u8]) -> Verdict
    ensures { Replayed book.now text.old text.new result }
{
    let printed = transcript(heap, book)?;
    give(printed.as_bytes(), text)
}

#[unsafe(no_mangle)]
pub extern "C" fn mizkaule_raw_replay(heap: Global, book: &[u8], text: &mut [u8]) -> Answer
    ensures { Answered book.now text.old text.new result }
{
    Answer::from(replay(heap, book, text))
}
