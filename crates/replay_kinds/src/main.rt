// Replays the kept answers for tables of kinds: a line of standard input is a request for `sheet` with a table, told by its changes to the built-in one, and its answer is
// written.
#![tactic(auto)]

use protocol::replay;
use protocol::words::Words;
use std::io;
use std::io::Write;
use tokenizer::kinds::builtin;

// Each change is a byte and its kind, which its entry in the table gets, if it has one.
fn change(kinds: &mut [u8], changes: &[u8]) -> Option<()> {
    let (pairs, odd) = changes.as_chunks::<2>();
    for [byte, kind] in pairs {
        *kinds.get_mut(*byte as usize)? = *kind;
    }
    odd.is_empty().then_some(())
}

// The answer to one request, if it is readable. The table is the built-in one's first entries, and zeros behind it.
fn answer(out: &mut impl Write, line: &[u8]) -> Option<io::Result<()>> {
    let mut words = Words::behind(line, b"kinds")?;
    let entries = words.number_to(300)?;
    // An array of a fixed size: the project has no heap.
    let mut changes = [0u8; 1024];
    let n = words.bytes(&mut changes)?;
    let mut table = [0u8; 512];
    table[..256].copy_from_slice(&builtin());
    let kinds = &mut table[..entries];
    change(kinds, &changes[..n])?;
    sheet_protocol::answer(out, words, kinds)
}

fn main(rt: HostRuntime) -> io::Result<()> {
    // An array of a fixed size: the project has no heap.
    let mut text = [0u8; 32768];
    replay::whole(&mut rt.reader(), &mut io::writer(&rt), &mut text, answer)
}
