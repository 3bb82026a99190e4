// Replays the kept answers for sheets: a line of standard input is a request for `sheet`, and its answer is written.
#![tactic(auto)]

use protocol::replay;
use protocol::words::Words;
use std::io;
use std::io::Write;
use tokenizer::kinds::builtin;

// The answer to one request, if it is readable.
fn answer(out: &mut impl Write, line: &[u8]) -> Option<io::Result<()>> {
    sheet_protocol::answer(out, Words::behind(line, b"sheet")?, &builtin())
}

fn main(rt: HostRuntime) -> io::Result<()> {
    // An array of a fixed size: the project has no heap.
    let mut text = [0u8; 262144];
    replay::whole(&mut rt.reader(), &mut io::writer(&rt), &mut text, answer)
}
