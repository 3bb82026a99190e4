// The next head of a sheet, by places.
ghost use Rattle.std.specs.Prelude.{◌≡◌, ◌+◌, ◌≤◌, ◌<◌, length, drop};
ghost use Rattle.tokenizer.specs.Bytes.{kind_in, kind_of};
ghost use Rattle.tokenizer.specs.Points.{start_of};
ghost use Rattle.tokenizer.specs.Lines.{line_body, indent};
ghost use Rattle.gfm_table.specs.Heads.{shallow};
ghost use Rattle.gfm_table.specs.Delimiters.{value_count, positive};
ghost use Rattle.sheet.specs.Walk.{closes};
ghost use Rattle.sheet.specs.From.{AtLine, is_head_line, columns_of, Finds};

use gfm_table::delimiter::permits_at;
use gfm_table::pieces::head_row;
use gfm_table::values::values_row;
use tokenizer::event::LineStart;
use tokenizer::kinds::Kind;
use tokenizer::lines::line_end;
use tokenizer::text::{Sheet, Text};

// A head: where its line starts, where its delimiter row does, and how many columns it has.
#[derive(Clone, Copy)]
pub struct Opening {
    pub head: LineStart,
    pub delimiter: u32,
    pub columns: u32,
}

// Whether an indent of at most 3 bytes, between two places, is at most 3 units wide: no tab is in it.
pub fn is_shallow(s: &[u8], at: usize, e: usize) -> bool
    requires { (e ≡ at + length (indent kind_of (line_body (drop at s.now)))) × (e < at + 4) }
    ensures { result ≡ shallow kind_of (line_body (drop at s.now)) }
{
    !s.get(at..e).is_some_and(|indent| indent.contains(&b'\t'))
}

// Whether the line at a place ends a table: it is blank, or a remark. A byte is a unit or more, so 4 bytes of indent are too many for a remark.
pub fn closes_at<const MOST: usize>(text: &Text<MOST>, at: usize) -> bool
    ensures { result ≡ closes (kind_in text.now.kinds.now) (line_body (drop at text.now.bytes.now)) }
{
    let e = text.space_stop(at);
    if text.kind_at(e) == Kind::End {
        return true;
    }
    text.bytes[e] == b'>' && e - at < 4 && is_shallow(text.bytes, at, e)
}

// Whether the line at a place has n cells and more than a lone divider.
pub fn is_head_line(text: &Sheet, at: usize, n: u32) -> bool
    requires { at ≤ length text.now.bytes.now }
    ensures { result ≡ is_head_line (kind_in text.now.kinds.now) text.now.bytes.now at n }
{
    let r = head_row(text, at);
    1 < r.size_b && n == r.size
}

// The columns of the head whose line and delimiter row start at two places, if they are one, where the row has n values, more than none.
pub fn columns_of(text: &Sheet, at: usize, d: usize, on: bool, n: u32) -> Option<u32>
    requires { (at ≤ length text.now.bytes.now) × (d ≤ length text.now.bytes.now) × (n ≡ value_count (kind_in text.now.kinds.now) (line_body (drop d text.now.bytes.now))) × (n ≡ 0 → ⊥) }
    ensures { result ≡ positive (columns_of (kind_in text.now.kinds.now) text.now.bytes.now on at d) }
{
    (is_head_line(text, at, n)
        && permits_at(text, d, on)
        && permits_at(text, at, on)
        && !closes_at(text, at)).then_some(n)
}

// The same for any two lines. Few are delimiter rows, so that is asked first, and the first byte rules out most.
pub fn columns_at(text: &Sheet, at: usize, d: usize, on: bool) -> Option<u32>
    requires { (at ≤ length text.now.bytes.now) × (d ≤ length text.now.bytes.now) }
    ensures { result ≡ positive (columns_of (kind_in text.now.kinds.now) text.now.bytes.now on at d) }
{
    if matches!(text.kind_at(d), Kind::Other | Kind::End) {
        return None;
    }
    let n = values_row(text, d)?;
    columns_of(text, at, d, on, n)
}

// The first head from a line on: one is tried at each line.
pub fn next_head(text: &Sheet, from: LineStart, on: bool) -> Option<Opening>
    requires { AtLine text.now.bytes.now (start_of from) }
    ensures { Finds (kind_in text.now.kinds.now) text.now.bytes.now on (start_of from) result }
{
    let mut head = from;
    loop {
        let i = head.at as usize;
        let e = text.line_stop(i);
        let d = e + line_end(text.bytes, e)? as usize;
        if let Some(columns) = columns_at(text, i, d, on) {
            return Some(Opening {
                head,
                delimiter: d as u32,
                columns,
            });
        }
        head = head.next(d as u32);
    }
}
