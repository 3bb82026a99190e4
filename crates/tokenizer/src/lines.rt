// Lines: where they start, where they end, and their numbers.
ghost use Rattle.std.specs.Prelude.{◌≡◌, ◌≤◌, ◌<◌, ◌+◌, length, drop};
ghost use Rattle.tokenizer.specs.Lines.{starts_lf, end_at, line_end, first_start, ends_line, starts_line, line_number};
ghost use Rattle.tokenizer.specs.Places.{first_point};

use crate::event::Point;

// Whether a line feed stands at a place.
pub fn starts_lf(s: &[u8], at: usize) -> bool
    ensures { result ≡ starts_lf (drop at s.now) }
{
    s.get(at) == Some(&b'\n')
}

// The length of the line end that begins at a place: 2 for a carriage return and a line feed.
pub fn end_length(s: &[u8], at: usize) -> u32
    requires { at < length s.now }
    ensures { result ≡ end_at (drop at s.now) }
{
    1 + u32::from(s[at] == b'\r' && starts_lf(s, at + 1))
}

// The length of the line end at a place, none at the sheet's end.
pub fn line_end(s: &[u8], at: usize) -> Option<u32>
    ensures { result ≡ line_end (drop at s.now) }
{
    s.get(at)?;
    Some(end_length(s, at))
}

// The same at a point, whose place is named here once.
pub fn end_at(s: &[u8], p: Point) -> Option<u32>
    ensures { result ≡ line_end (drop p.index s.now) }
{
    line_end(s, p.index as usize)
}

// Whether a line end is complete with the byte b, where the sheet goes on at a place.
pub fn ends_line(s: &[u8], b: u8, at: usize) -> bool
    ensures { result ≡ ends_line b (drop at s.now) }
{
    match b {
        b'\n' => true,
        b'\r' => !starts_lf(s, at),
        _ => false,
    }
}

// Where the first line starts: behind a byte order mark, or at 0.
pub fn first_start(s: &[u8]) -> usize
    ensures { result ≡ first_start s.now }
{
    match s {
        [0xEF, 0xBB, 0xBF, ..] => 3,
        _ => 0,
    }
}

// The first point of a sheet: the start value, moved by a byte order mark.
pub fn first_point(s: &[u8]) -> Point
    ensures { result ≡ first_point s.now }
{
    Point {
        index: first_start(s) as u32,
        ..Point::start()
    }
}

// Whether a line starts at an offset: at the first line's start, or behind a line end.
pub fn starts_line(s: &[u8], at: usize) -> bool
    ensures { result ≡ starts_line s.now at }
{
    if at == first_start(s) {
        return true;
    }
    if at == 0 {
        return false;
    }
    if s.len() < at {
        return false;
    }
    ends_line(s, s[at - 1], at)
}

// The number of the line that an offset lies in.
pub fn line_number(s: &[u8], at: usize) -> u32
    requires { at ≤ length s.now × at ≤ 65536 }
    ensures { result ≡ line_number s.now at }
{
    let mut n = 1;
    for i in 0..at {
        if ends_line(s, s[i], i + 1) {
            n += 1;
        }
    }
    n
}
