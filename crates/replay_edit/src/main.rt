// Replays the kept answers for edits: a line of standard input is a request for `edit`, and its answer is written. Every line has an end. It takes at most 51 edits, 256 events and 256 pool events, and lends at most 256 slots.
#![tactic(auto)]

ghost use Rattle.std.specs.Prelude.{◌≤◌};

use edit_map::edit_map::edit;
use protocol::words::Words;
use protocol::{print, replay};
use std::io;
use std::io::Write;
use tokenizer::event::Event;

// The answer to a request whose lists are read.
fn edited(
    out: &mut impl Write,
    list: &[Event],
    edits: &mut [usize],
    pool: &[Event],
    slots: &mut [Event],
) -> io::Result<()> {
    let e = edit(list, edits, pool, slots);
    print::answer(out, e.map(|n| [n]), slots)?;
    print::numbers(out, edits)
}

// How many slots a request lends, and how many edits and records it brings.
#[derive(Clone, Copy)]
struct Counts {
    lent: usize,
    edits: usize,
    list: usize,
    pool: usize,
}

// The answer to a request of which the words for the lists are left. It stands apart, since its arrays are made blank where it begins.
#[inline(never)]
fn answer_for_lists(
    out: &mut impl Write,
    mut words: Words,
    counts: Counts,
) -> Option<io::Result<()>>
    requires { (counts.lent ≤ 256) × (counts.edits ≤ 51) × (counts.list ≤ 256) × (counts.pool ≤ 256) }
{
    // An array of a fixed size: the project has no heap.
    let (mut edits, mut list, mut pool) = ([0; 255], [Event::BLANK; 256], [Event::BLANK; 256]);
    let mut results = [Event::BLANK; 256];
    let edits = &mut edits[..5 * counts.edits];
    let list = &mut list[..counts.list];
    let pool = &mut pool[..counts.pool];
    words.fill(edits, |w| w.number())?;
    words.fill(list, |w| w.event())?;
    words.fill(pool, |w| w.event())?;
    words.end()?;
    Some(edited(out, list, edits, pool, &mut results[..counts.lent]))
}

// The answer to one request, if it is readable. An edit is five numbers.
fn answer(out: &mut impl Write, line: &[u8]) -> Option<io::Result<()>> {
    let mut words = Words::behind(line, b"edit")?;
    let counts = Counts {
        lent: words.number_to(256)?,
        edits: words.number_to(51)?,
        list: words.number_to(256)?,
        pool: words.number_to(256)?,
    };
    answer_for_lists(out, words, counts)
}

fn main(rt: HostRuntime) -> io::Result<()> {
    // An array of a fixed size: the project has no heap.
    let mut text = [0u8; 65536];
    replay::parts(&mut rt.reader(), &mut io::writer(&rt), &mut text, answer)
}
