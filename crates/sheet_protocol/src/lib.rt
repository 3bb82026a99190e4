// A request for a sheet, answered in the line protocol: its numbers, and its groups of slots.
#![tactic(auto)]

use protocol::print;
use protocol::words::Words;
use sheet::sheet;
use std::io;
use std::io::Write;
use tokenizer::event::Event;

// The answer by a table of kinds, with lent slots.
fn reading(
    out: &mut impl Write,
    text: &[u8],
    kinds: &[u8],
    code_indented: bool,
    raw: &mut [Event],
    results: &mut [Event],
    alignments: &mut [u8],
) -> io::Result<()> {
    let s = sheet(text, kinds, code_indented, raw, results, alignments);
    print::answer(out, s.map(<[usize; 4]>::from), raw)?;
    print::slots(out, results)?;
    print::slots(out, alignments)
}

// The answer to a request of which the words for the sheet are left, if they are readable. At most 1,024 slots of each kind are lent.
pub fn answer(out: &mut impl Write, mut words: Words, kinds: &[u8]) -> Option<io::Result<()>> {
    let code_indented = words.flag()?;
    let n = words.number_to(1024)?;
    let m = words.number_to(1024)?;
    let k = words.number_to(1024)?;
    // An array of a fixed size: the project has no heap.
    let mut text = [0u8; 4096];
    let length = words.bytes(&mut text)?;
    words.end()?;
    let mut raw = [Event::BLANK; 1024];
    let mut results = [Event::BLANK; 1024];
    let mut alignments = [0u8; 1024];
    Some(reading(
        out,
        &text[..length],
        kinds,
        code_indented,
        &mut raw[..n],
        &mut results[..m],
        &mut alignments[..k],
    ))
}
