// Reads the worst lines of a sheet of 65,536 bytes, made of two bytes in turn: as a head line over `-|`, as a delimiter row under `a|b`,
// and as a body row, each with as many slots as one can need and with none. Then a head of 16,383 columns, and `head` and `row` on 65,537 bytes.
// A line is the answer's numbers and its last event, a blank one where it is refused, as the harness gives them for the same requests.
#![tactic(auto)]

ghost use Rattle.std.specs.Prelude.{◌≤◌};

use gfm_table::{head, row};
use protocol::pattern::repeat;
use protocol::print;
use std::io;
use std::io::Write;
use tokenizer::event::Event;
use tokenizer::slots::at_or_blank;

// As many slots as a line can need.
const MOST: usize = 131080;

// A sheet read as a head: its numbers are written, and its events counted.
fn as_head(out: &mut impl Write, sheet: &[u8], raw: &mut [Event]) -> io::Result<usize> {
    let answer = head(sheet, 0, true, false, false, raw);
    print::number(out, answer.map(<[usize; 3]>::from))?;
    Ok(answer.map_or(0, |c| c.events))
}

// A sheet read as a row, likewise. Two, as `head` and `row` are: a function for both takes an array of any length and passes it on twice, which
// the check of what is lent does not cover.
fn as_row(out: &mut impl Write, sheet: &[u8], raw: &mut [Event]) -> io::Result<usize> {
    let answer = row(sheet, 0, false, raw);
    print::number(out, answer.map(<[usize; 2]>::from))?;
    Ok(answer.map_or(0, |c| c.events))
}

// What a sheet is read as with n slots: its numbers and its last event. Not inlined, so that one array at a time is on the stack.
#[inline(never)]
fn line<W: Write, F: Fn(&mut W, &[u8], &mut [Event]) -> io::Result<usize>>(
    out: &mut W,
    sheet: &[u8],
    n: usize,
    read: F,
) -> io::Result<()>
    requires lent { n ≤ MOST }
    requires callable { F.IsAlwaysCallable read }
{
    // An array of a fixed size: the project has no heap.
    let mut raw = [Event::BLANK; MOST];
    let slots = &mut raw[..n];
    let events = read(out, sheet, slots)?;
    print::event(out, at_or_blank(slots, events.saturating_sub(1)))?;
    writeln!(out)
}

// The same with many slots and with none.
fn lines<W: Write, F: Fn(&mut W, &[u8], &mut [Event]) -> io::Result<usize>>(
    out: &mut W,
    sheet: &[u8],
    read: F,
) -> io::Result<()>
    requires { F.IsAlwaysCallable read }
{
    line(out, sheet, MOST, &read)?;
    line(out, sheet, 0, &read)
}

// Two bytes in turn as a head line.
fn worst_head(out: &mut impl Write, pair: &[u8; 2]) -> io::Result<()> {
    // An array of a fixed size: the project has no heap.
    let mut text = [0u8; 65536];
    let sheet = &mut text[..];
    repeat(&mut sheet[..65533], pair);
    sheet[65533..].copy_from_slice(b"\n-|");
    lines(out, sheet, as_head)
}

// Two bytes in turn as a delimiter row.
fn worst_delimiter(out: &mut impl Write, pair: &[u8; 2]) -> io::Result<()> {
    // An array of a fixed size: the project has no heap.
    let mut text = [0u8; 65536];
    let sheet = &mut text[..];
    sheet[..4].copy_from_slice(b"a|b\n");
    repeat(&mut sheet[4..], pair);
    lines(out, sheet, as_head)
}

// Two bytes in turn as a body row.
fn worst_row(out: &mut impl Write, pair: &[u8; 2]) -> io::Result<()> {
    // An array of a fixed size: the project has no heap.
    let mut sheet = [0u8; 65536];
    repeat(&mut sheet, pair);
    lines(out, &sheet, as_row)
}

// As many columns as fit, in both lines of a head.
fn columns(out: &mut impl Write) -> io::Result<()> {
    // An array of a fixed size: the project has no heap.
    let mut text = [b' '; 65536];
    let sheet = &mut text[..];
    repeat(&mut sheet[..32766], b"a|");
    sheet[32766..32768].copy_from_slice(b"\r\n");
    repeat(&mut sheet[32768..65534], b"-|");
    lines(out, sheet, as_head)
}

// One byte too many.
fn too_long(out: &mut impl Write) -> io::Result<()> {
    // An array of a fixed size: the project has no heap.
    let sheet = [b'|'; 65537];
    line(out, &sheet, MOST, as_head)?;
    line(out, &sheet, MOST, as_row)
}

fn main(rt: HostRuntime) -> io::Result<()> {
    let mut out = io::writer(&rt);
    for pair in [b"||", b"a|", b"aa", b"\\\\", b"a ", b"\t\t", b"-|", b"--"] {
        worst_head(&mut out, pair)?;
        worst_delimiter(&mut out, pair)?;
        worst_row(&mut out, pair)?;
    }
    columns(&mut out)?;
    too_long(&mut out)?;
    out.flush()
}
