// Replays the kept answers for the resolver: a line of standard input is a request for `resolve`, and its answer is written. Every line has an end. It takes at most 256 events and lends at most 256 slots.
#![tactic(auto)]

use edit_map::resolve::resolve;
use protocol::words::Words;
use protocol::{print, replay};
use std::io;
use std::io::Write;
use tokenizer::event::Event;

// The answer to one request, if it is readable.
fn answer(out: &mut impl Write, line: &[u8]) -> Option<io::Result<()>> {
    let mut words = Words::behind(line, b"resolve")?;
    let lent = words.number_to(256)?;
    // An array of a fixed size: the project has no heap.
    let mut list = [Event::BLANK; 256];
    let n = words.list(&mut list, |w| w.event())?;
    words.end()?;
    let mut results = [Event::BLANK; 256];
    let slots = &mut results[..lent];
    let r = resolve(&list[..n], slots);
    Some(print::answer(out, r.map(|n| [n]), slots))
}

fn main(rt: HostRuntime) -> io::Result<()> {
    // An array of a fixed size: the project has no heap.
    let mut text = [0u8; 65536];
    replay::parts(&mut rt.reader(), &mut io::writer(&rt), &mut text, answer)
}
