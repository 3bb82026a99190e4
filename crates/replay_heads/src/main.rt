// Replays the kept answers for heads: a line of standard input is a request for `head`, and its answer is written. It lends at most 256 slots.
#![tactic(auto)]

use gfm_table::head;
use protocol::words::Words;
use protocol::{print, replay};
use std::io;
use std::io::Write;
use tokenizer::event::Event;

// The answer to one request, if it is readable.
fn answer(out: &mut impl Write, line: &[u8]) -> Option<io::Result<()>> {
    let mut words = Words::behind(line, b"head")?;
    let offset = words.number()?;
    let code_indented = words.flag()?;
    let lazy = words.flag()?;
    let pierced = words.flag()?;
    let lent = words.number_to(256)?;
    // An array of a fixed size: the project has no heap.
    let mut sheet = [0u8; 4096];
    let n = words.bytes(&mut sheet)?;
    words.end()?;
    let mut raw = [Event::BLANK; 256];
    let slots = &mut raw[..lent];
    let h = head(&sheet[..n], offset, code_indented, lazy, pierced, slots);
    Some(print::answer(out, h.map(<[usize; 3]>::from), slots))
}

fn main(rt: HostRuntime) -> io::Result<()> {
    // An array of a fixed size: the project has no heap.
    let mut text = [0u8; 131072];
    replay::whole(&mut rt.reader(), &mut io::writer(&rt), &mut text, answer)
}
