// Replays the kept answers for rows: a line of standard input is a request for `row`, and its answer is written. It lends at most 256 slots.
#![tactic(auto)]

ghost use Rattle.std.specs.Prelude.{◌≤◌};

use gfm_table::row;
use protocol::words::Words;
use protocol::{print, replay};
use std::io;
use std::io::Write;
use tokenizer::event::Event;

// The answer to a request of which the words for the sheet are left. It stands apart, since its arrays are made blank where it begins.
#[inline(never)]
fn answer_for_sheet(
    out: &mut impl Write,
    mut words: Words,
    offset: usize,
    lazy: bool,
    lent: usize,
) -> Option<io::Result<()>>
    requires { lent ≤ 256 }
{
    // An array of a fixed size: the project has no heap.
    let mut sheet = [0u8; 4096];
    let n = words.bytes(&mut sheet)?;
    words.end()?;
    let mut raw = [Event::BLANK; 256];
    let slots = &mut raw[..lent];
    let r = row(&sheet[..n], offset, lazy, slots);
    Some(print::answer(out, r.map(<[usize; 2]>::from), slots))
}

// The answer to one request, if it is readable.
fn answer(out: &mut impl Write, line: &[u8]) -> Option<io::Result<()>> {
    let mut words = Words::behind(line, b"row")?;
    let offset = words.number()?;
    let lazy = words.flag()?;
    let lent = words.number_to(256)?;
    answer_for_sheet(out, words, offset, lazy, lent)
}

fn main(rt: HostRuntime) -> io::Result<()> {
    // An array of a fixed size: the project has no heap.
    let mut text = [0u8; 131072];
    replay::whole(&mut rt.reader(), &mut io::writer(&rt), &mut text, answer)
}
