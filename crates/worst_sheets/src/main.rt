// Reads the worst sheets of 65,536 bytes, each with 98,304 raw, 196,608 result and 10,240 alignment slots and with none, and one byte more than a sheet may have.
// A line is the answer's numbers and its last raw and result event, blank ones where there is none, as the harness gives them for the same requests.
#![tactic(auto)]

ghost use Rattle.std.specs.Prelude.{◌<◌, ◌≤◌, length};

use protocol::pattern::repeat;
use protocol::print;
use sheet::calls::SheetCounts;
use sheet::sheet;
use std::io;
use std::io::Write;
use tokenizer::event::Event;
use tokenizer::kinds::builtin;
use tokenizer::slots::at_or_blank;

// The pseudo-random number after one.
fn random(x: u32) -> u32 {
    x.wrapping_mul(1664525).wrapping_add(1013904223)
}

// Pseudo-random bytes of a pattern of eight.
fn scatter(text: &mut [u8], pattern: &[u8; 8]) {
    let mut x: u32 = 1;
    for b in text.iter_mut() {
        x = random(x);
        *b = pattern[(x / 65536 % 8) as usize];
    }
}

// The answer's numbers and the last events, with n raw, m result and k alignment slots. Not inlined, so that the arrays are on the stack once.
#[inline(never)]
fn line(out: &mut impl Write, text: &[u8], n: usize, m: usize, k: usize) -> io::Result<()>
    requires raw { n ≤ 98304 }
    requires results { m ≤ 196608 }
    requires alignments { k ≤ 10240 }
{
    // An array of a fixed size: the project has no heap.
    let mut raw = [Event::BLANK; 98304];
    let mut results = [Event::BLANK; 196608];
    let mut alignments = [0u8; 10240];
    let raw = &mut raw[..n];
    let results = &mut results[..m];
    let alignments = &mut alignments[..k];
    let answer = sheet(text, &builtin(), true, raw, results, alignments);
    let counts = answer.unwrap_or(SheetCounts::NONE);
    print::number(out, answer.map(<[usize; 4]>::from))?;
    print::event(out, at_or_blank(raw, counts.events.saturating_sub(1)))?;
    print::event(out, at_or_blank(results, counts.results.saturating_sub(1)))?;
    writeln!(out)
}

// A sheet with many slots, and with none.
fn lines(out: &mut impl Write, text: &[u8; 65536]) -> io::Result<()> {
    line(out, text, 98304, 196608, 10240)?;
    line(out, text, 0, 0, 0)
}

// A pattern over and over, up to a place, then line ends.
fn over(out: &mut impl Write, to: usize, pattern: &[u8]) -> io::Result<()>
    requires to { to ≤ 65536 }
    requires pattern { 0 < length pattern.now }
{
    // An array of a fixed size: the project has no heap.
    let mut text = [b'\n'; 65536];
    repeat(&mut text[..to], pattern);
    lines(out, &text)
}

// A pattern over and over as the body of a table, up to a place, then line ends.
fn under(out: &mut impl Write, to: usize, pattern: &[u8]) -> io::Result<()>
    requires from { 10 ≤ to }
    requires to { to ≤ 65536 }
    requires pattern { 0 < length pattern.now }
{
    // An array of a fixed size: the project has no heap.
    let mut text = [b'\n'; 65536];
    repeat(&mut text[..10], b"a|b\n:-|-:\n");
    repeat(&mut text[10..to], pattern);
    lines(out, &text)
}

// A table of 10,000 columns.
fn columns(out: &mut impl Write) -> io::Result<()> {
    // An array of a fixed size: the project has no heap.
    let mut text = [b'\n'; 65536];
    repeat(&mut text[..20000], b"a|");
    repeat(&mut text[20001..40001], b"-|");
    lines(out, &text)
}

// Pseudo-random bytes up to a place, then line ends.
fn scattered(out: &mut impl Write, to: usize, pattern: &[u8; 8]) -> io::Result<()>
    requires { to ≤ 65536 }
{
    // An array of a fixed size: the project has no heap.
    let mut text = [b'\n'; 65536];
    scatter(&mut text[..to], pattern);
    lines(out, &text)
}

// A sheet that needs 14,000 raw, 24,000 result and 1,000 alignment slots: one too few of each, and as many as it needs.
fn short_lines(out: &mut impl Write, text: &[u8; 65536]) -> io::Result<()> {
    line(out, text, 14000, 23999, 1000)?;
    line(out, text, 14000, 24000, 999)?;
    line(out, text, 13999, 24000, 1000)?;
    line(out, text, 14000, 24000, 1000)
}

// A thousand tables.
fn lacking(out: &mut impl Write) -> io::Result<()> {
    // An array of a fixed size: the project has no heap.
    let mut text = [b'\n'; 65536];
    repeat(&mut text[..6000], b"a\n:-\n\n");
    short_lines(out, &text)
}

// One byte too many.
fn too_long(out: &mut impl Write) -> io::Result<()> {
    // An array of a fixed size: the project has no heap.
    let text = [b'|'; 65537];
    line(out, &text, 98304, 196608, 10240)
}

// Patterns over and over.
fn all_over(out: &mut impl Write) -> io::Result<()> {
    over(out, 65536, b"|")?;
    over(out, 65536, b"a|")?;
    over(out, 65536, b"a")?;
    over(out, 65536, b"\\")?;
    over(out, 65536, b"\t")?;
    over(out, 65536, b"a\n")?;
    over(out, 65536, b"a\n:-\n\n")?;
    over(out, 42000, b"a\n:-\n\n")
}

// The same as the bodies of tables.
fn all_under(out: &mut impl Write) -> io::Result<()> {
    under(out, 65536, b"|")?;
    under(out, 40000, b"|")?;
    under(out, 65536, b"a")?;
    under(out, 65536, b"\\")?;
    under(out, 65536, b"\t")?;
    under(out, 65536, b"a\n")?;
    under(out, 30000, b"a\n")
}

// The other sheets.
fn others(out: &mut impl Write) -> io::Result<()> {
    columns(out)?;
    scattered(out, 65536, b"|-:a \\\t\n")?;
    scattered(out, 32768, b"|-:a \\\t\n")?;
    scattered(out, 65536, b"|-::-|\n\n")?;
    scattered(out, 32768, b"|-::-|\n\n")?;
    lacking(out)?;
    too_long(out)
}

fn main(rt: HostRuntime) -> io::Result<()> {
    let mut out = io::writer(&rt);
    all_over(&mut out)?;
    all_under(&mut out)?;
    others(&mut out)?;
    out.flush()
}
