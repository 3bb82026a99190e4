// The values of a delimiter row, counted by the places of its bytes.
ghost use Rattle.std.specs.Prelude.{◌≡◌, ◌≤◌, ◌+◌, length, drop};
ghost use Rattle.tokenizer.specs.Bytes.{kind_in};
ghost use Rattle.tokenizer.specs.Lines.{line_body};
ghost use Rattle.gfm_table.specs.Heads.{marked};
ghost use Rattle.gfm_table.specs.Delimiters.{colon, value_end, rest_count, values_start, value_count, positive};

use tokenizer::kinds::Kind;
use tokenizer::text::{Sheet, Text};

// Whether a colon or a divider occurs from a place to the end of its line.
pub fn marked_from<const MOST: usize>(text: &Text<MOST>, at: usize) -> bool
    ensures { result ≡ marked (kind_in text.now.kinds.now) (line_body (drop at text.now.bytes.now)) }
{
    for i in at..text.bytes.len() {
        match text.kind_at(i) {
            Kind::End => {
                break;
            }
            Kind::Pipe | Kind::Colon => {
                return true;
            }
            _ => {}
        }
    }
    false
}

// Behind a colon, if one stands at a place.
pub fn colon_end<const MOST: usize>(text: &Text<MOST>, at: usize) -> usize
    ensures { result ≡ at + length (colon (kind_in text.now.kinds.now) (line_body (drop at text.now.bytes.now))) }
{
    if text.kind_at(at) == Kind::Colon {
        return at + 1;
    }
    at
}

// The end of the stretch at a place if it is a value.
pub fn value_end<const MOST: usize>(text: &Text<MOST>, at: usize) -> Option<usize>
    ensures { result ≡ value_end (kind_in text.now.kinds.now) at (line_body (drop at text.now.bytes.now)) }
{
    let a = colon_end(text, text.space_stop(at));
    let b = text.run_stop(a, Kind::Hyphen);
    if a == b {
        return None;
    }
    let e = text.space_stop(colon_end(text, b));
    matches!(text.kind_at(e), Kind::End | Kind::Pipe).then_some(e)
}

// The number of stretches from a place on, less an empty last one, if each is a value and there is one. The place goes on by whole stretches.
pub fn values_from(text: &Sheet, at: usize) -> Option<u32>
    requires { at ≤ length text.now.bytes.now }
    ensures { result ≡ positive (rest_count (kind_in text.now.kinds.now) 0 (line_body (drop at text.now.bytes.now))) }
{
    let mut i = at;
    let mut n: u32 = 0;
    while let Some(e) = value_end(text, i) {
        n += 1;
        if text.kind_at(e) != Kind::Pipe {
            return Some(n);
        }
        i = e + 1;
    }
    if n == 0 || text.kind_at(text.space_stop(i)) != Kind::End {
        return None;
    }
    Some(n)
}

// Where the stretches of a row begin: behind a leading divider, or with its line.
pub fn values_start<const MOST: usize>(text: &Text<MOST>, at: usize) -> usize
    ensures { result ≡ values_start (kind_in text.now.kinds.now) at (line_body (drop at text.now.bytes.now)) }
{
    let a = text.space_stop(at);
    if text.kind_at(a) == Kind::Pipe {
        return a + 1;
    }
    at
}

// How many values a row has, from a place to the end of its line, if it is a row of values with a colon or a divider.
pub fn values_row(text: &Sheet, at: usize) -> Option<u32>
    requires { at ≤ length text.now.bytes.now }
    ensures { result ≡ positive (value_count (kind_in text.now.kinds.now) (line_body (drop at text.now.bytes.now))) }
{
    let n = values_from(text, values_start(text, at))?;
    marked_from(text, at).then_some(n)
}
