// Requests that are answered, a line each.
ghost use Rattle.std.specs.Prelude.{◌≤◌, IfOk, length};

use crate::input::{fill, keep};
use std::io;
use std::io::{Read, Write};

// The answers to the requests of a text; a question mark for a request that is not readable.
pub fn lines<W: Write, F: Fn(&mut W, &[u8]) -> Option<io::Result<()>>>(
    out: &mut W,
    text: &[u8],
    answer: F,
) -> io::Result<()>
    requires { F.IsAlwaysCallable answer }
{
    for line in text.split_inclusive(|b| *b == b'\n') {
        match answer(out, line.strip_suffix(b"\n").unwrap_or(line)) {
            Some(written) => written?,
            None => out.write_all(b"?")?,
        }
        out.write_all(b"\n")?;
    }
    Ok(())
}

// The answers to what is read at once into a lent buffer.
pub fn whole<W: Write, F: Fn(&mut W, &[u8]) -> Option<io::Result<()>>>(
    input: &mut impl Read,
    out: &mut W,
    text: &mut [u8],
    answer: F,
) -> io::Result<()>
    requires { F.IsAlwaysCallable answer }
{
    let n = fill(input, text)?;
    lines(out, &text[..n], answer)?;
    out.flush()
}

// Reads on behind the first n bytes, answers the lines that have an end, and tells how many bytes are kept.
fn part<W: Write, F: Fn(&mut W, &[u8]) -> Option<io::Result<()>>>(
    input: &mut impl Read,
    out: &mut W,
    text: &mut [u8],
    n: usize,
    answer: F,
) -> io::Result<usize>
    requires within { n ≤ length text.old }
    requires callable { F.IsAlwaysCallable answer }
    ensures { IfOk result (λ m. m ≤ length text.new) }
{
    let filled = n + fill(input, &mut text[n..])?;
    let end = text[..filled]
        .iter()
        .rposition(|b| *b == b'\n')
        .map_or(0, |i| i + 1);
    lines(out, &text[..end], answer)?;
    Ok(keep(text, end, filled))
}

// The answers to what is read in at most 64 parts. Every line has an end.
pub fn parts<W: Write, F: Fn(&mut W, &[u8]) -> Option<io::Result<()>>>(
    input: &mut impl Read,
    out: &mut W,
    text: &mut [u8],
    answer: F,
) -> io::Result<()>
    requires { F.IsAlwaysCallable answer }
{
    let mut n = 0;
    for _ in 0..64 {
        n = part(input, out, text, n, &answer)?;
    }
    out.flush()
}
