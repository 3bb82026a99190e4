// Replays the kept answers for alignments: a line of standard input is a request for `align`, and its answer is written. Every line has an end. It takes at most 256 events and lends at most 256 slots.
#![tactic(auto)]

ghost use Rattle.std.specs.Prelude.{◌≤◌};

use edit_map::infer::align;
use protocol::words::Words;
use protocol::{print, replay};
use std::io;
use std::io::Write;
use tokenizer::event::Event;

// The answer to a request of which the words for the list are left. It stands apart, since its arrays are made blank where it begins.
#[inline(never)]
fn answer_for_list(
    out: &mut impl Write,
    mut words: Words,
    index: usize,
    lent: usize,
) -> Option<io::Result<()>>
    requires { lent ≤ 256 }
{
    // An array of a fixed size: the project has no heap.
    let mut list = [Event::BLANK; 256];
    let n = words.list(&mut list, |w| w.event())?;
    words.end()?;
    let mut alignments = [0u8; 256];
    let slots = &mut alignments[..lent];
    let a = align(&list[..n], index, slots);
    Some(print::answer(out, a.map(|n| [n]), slots))
}

// The answer to one request, if it is readable.
fn answer(out: &mut impl Write, line: &[u8]) -> Option<io::Result<()>> {
    let mut words = Words::behind(line, b"align")?;
    let index = words.number()?;
    let lent = words.number_to(256)?;
    answer_for_list(out, words, index, lent)
}

fn main(rt: HostRuntime) -> io::Result<()> {
    // An array of a fixed size: the project has no heap.
    let mut text = [0u8; 65536];
    replay::parts(&mut rt.reader(), &mut io::writer(&rt), &mut text, answer)
}
