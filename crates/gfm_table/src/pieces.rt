// The pieces of a line, counted by the places of its bytes.
ghost use Rattle.std.specs.Prelude.{◌≡◌, false, ◌≤◌, ◌+◌, length, drop};
ghost use Rattle.tokenizer.specs.Bytes.{kind_in};
ghost use Rattle.tokenizer.specs.Lines.{line_body};
ghost use Rattle.gfm_table.specs.Rows.{delimiter_pieces};
ghost use Rattle.gfm_table.specs.Machine.{data_run, HeadRead};
ghost use Rattle.gfm_table.specs.Delimiters.{filler_run};

use crate::states::row_escape;
use tokenizer::kinds::Kind;
use tokenizer::text::{Sheet, Text};

// The end of a run of data. The byte behind a backslash may be passed with it, so the place is counted by hand.
pub fn text_end<const MOST: usize>(text: &Text<MOST>, at: usize) -> usize
    ensures { result ≡ at + length (data_run (kind_in text.now.kinds.now) false (line_body (drop at text.now.bytes.now))) }
{
    let mut i = at;
    loop {
        match text.kind_at(i) {
            Kind::Space | Kind::End | Kind::Pipe => {
                return i;
            }
            Kind::Backslash => {
                i = row_escape(text, i + 1);
            }
            _ => {
                i += 1;
            }
        }
    }
}

// A head line: its cells, and its solid pieces, where the first counts double unless it is a divider.
#[derive(Clone, Copy)]
pub struct HeadRow {
    pub size: u32,
    pub size_b: u32,
}

// The head line from a place to its end. A cell begins with a solid piece that follows a divider. The place goes on by whole pieces.
pub fn head_row(text: &Sheet, at: usize) -> HeadRow
    requires { at ≤ length text.now.bytes.now }
    ensures { HeadRead (kind_in text.now.kinds.now) (line_body (drop at text.now.bytes.now)) result }
{
    let mut i = at;
    let mut size: u32 = 0;
    let mut seen = text.kind_at(text.space_stop(at)) != Kind::Pipe;
    let mut size_b = u32::from(seen);
    loop {
        match text.kind_at(i) {
            Kind::Space => {
                i = text.space_stop(i + 1);
            }
            Kind::End => {
                return HeadRow { size, size_b };
            }
            Kind::Pipe => {
                i += 1;
                size += u32::from(seen);
                size_b += 1;
                seen = true;
            }
            _ => {
                i = text_end(text, i);
                size += u32::from(seen);
                size_b += 1;
                seen = false;
            }
        }
    }
}

// The end of a run of bytes that a delimiter row names fillers.
pub fn fillers_end<const MOST: usize>(text: &Text<MOST>, at: usize) -> usize
    ensures { result ≡ at + length (filler_run (kind_in text.now.kinds.now) (line_body (drop at text.now.bytes.now))) }
{
    for i in at..text.bytes.len() {
        match text.kind_at(i) {
            Kind::Space | Kind::End | Kind::Pipe | Kind::Colon => {
                return i;
            }
            _ => {}
        }
    }
    at.max(text.bytes.len())
}

// How many pieces a delimiter row has, from a place to the end of its line. The place goes on by whole pieces.
pub fn marks_from(text: &Sheet, at: usize) -> u32
    requires { at ≤ length text.now.bytes.now }
    ensures { result ≡ length (delimiter_pieces (kind_in text.now.kinds.now) (line_body (drop at text.now.bytes.now))) }
{
    let mut i = at;
    let mut n: u32 = 0;
    loop {
        match text.kind_at(i) {
            Kind::Space => {
                i = text.space_stop(i + 1);
                n += 1;
            }
            Kind::End => {
                return n;
            }
            Kind::Pipe | Kind::Colon => {
                i += 1;
                n += 1;
            }
            _ => {
                i = fillers_end(text, i);
                n += 1;
            }
        }
    }
}
