// Reads a shift book from standard input, and prints its transcript; what a person should know of it
// goes to standard error, and the program does its work also where that is closed.
#![tactic(auto)]

mod ending;

use ending::ending;
use lines::Advice;
use std::io::{IsTerminal, Read};
use transcript::transcript;

// Twice as many octets as a book may have: whether they are too many is for the library to say.
const ENOUGH: u64 = 131_072;

fn run(rt: &HostRuntime) -> anyhow::Result<()> {
    if rt.stdin().is_terminal() {
        let _ = eprintln!(rt;
            "shiftbook: waiting for a shift book; to read a file: shiftbook < FILE"
        );
    }
    let mut octets = Vec::new(rt.alloc());
    rt.stdin().take(ENOUGH).read_to_end(&mut octets)?;
    let text = transcript(rt.alloc(), &octets)?;
    rt.print(text)?;
    if let Some(advice) = Advice::on(&octets, ending(&octets)) {
        let _ = eprintln!(rt; "shiftbook: {advice}");
    }
    Ok(())
}

fn main(rt: HostRuntime) -> anyhow::Result<()> {
    run(&rt)
}
