// The cells of a row by the places of its bytes: where a cell opens, and how far a cell's text goes.
ghost use Rattle.std.specs.Prelude.{◌≡◌, ◌≤◌, ◌<◌, ◌+◌, ◌*◌, length, drop};
ghost use Rattle.tokenizer.specs.Bytes.{kind_in};
ghost use Rattle.tokenizer.specs.Lines.{line_body, indent};
ghost use Rattle.tokenizer.specs.Points.{column_after, column_past};
ghost use Rattle.gfm_table.specs.Places.{Near};
ghost use Rattle.edit_map.specs.Spans.{opens_at, text_next, Reaches, ReachesAs};
ghost use Rattle.edit_map.specs.CellRows.{reach_of};

use gfm_table::pieces::text_end;
use gfm_table::rows;
use gfm_table::rows::Placed;
use tokenizer::event;
use tokenizer::event::Name;
use tokenizer::kinds::Kind;
use tokenizer::text::{Sheet, Text};

// Where a run of bytes ends, and the column there. It counts as slices do, since a place that is asked about may lie behind the sheet. Within
// the sheet a `rows::Stop` is half as wide, and the cells of a row go by that.
#[derive(Clone, Copy)]
pub struct Stop {
    pub at: usize,
    pub column: usize,
}

// Whether a piece that ends at a place opens a cell: a divider between two pieces other than whitespace. Its name is told by its number: a
// `Name` would ask more of callers than before.
pub fn opens<const MOST: usize>(text: &Text<MOST>, seen: bool, name: u8, end: usize) -> bool
    ensures { result ≡ opens_at (kind_in text.now.kinds.now) text.now.bytes.now seen name end }
{
    seen && name == Name::GfmTableCellDivider as u8
        && text.kind_at(text.space_stop(end)) != Kind::End
}

// Whether a text comes next, behind whitespace or without it.
pub fn text_next<const MOST: usize>(text: &Text<MOST>, end: usize) -> bool
    ensures { result ≡ text_next (kind_in text.now.kinds.now) (line_body (drop end text.now.bytes.now)) }
{
    match text.kind_at(text.space_stop(end)) {
        Kind::End | Kind::Pipe => false,
        _ => true,
    }
}

// The column after a byte.
pub fn column_after(column: usize, b: u8) -> usize
    requires { column < 1000000 }
    ensures { result ≡ column_after column b }
{
    event::column_after(column as u32, b) as usize
}

// The end of a run of spaces and tabs, and the column there. No byte stands behind the sheet's end.
pub fn spaces_past(text: &Sheet, at: usize, column: usize) -> Stop
    requires { column ≤ 4 * at + 1 }
    ensures { (result.at ≡ at + length (indent (kind_in text.now.kinds.now) (line_body (drop at text.now.bytes.now)))) × (result.column ≡ column_past column (indent (kind_in text.now.kinds.now) (line_body (drop at text.now.bytes.now)))) }
{
    if text.bytes.len() < at {
        return Stop { at, column };
    }
    let from = rows::Stop {
        at: at as u32,
        column: column as u32,
    };
    let x = rows::spaces_past(text, from);
    Stop {
        at: x.at as usize,
        column: x.column as usize,
    }
}

// Where a cell's text ends that has reached a place of the sheet, and the column there: it goes on as long as a text comes next.
fn span_from(text: &Sheet, from: rows::Stop) -> rows::Stop
    requires { Near text.now.bytes.now from }
    ensures { Reaches (kind_in text.now.kinds.now) text.now.bytes.now from.at from.column (record { at = result.at; column = result.column }) }
{
    let mut x = from;
    loop {
        let t = rows::spaces_past(text, x);
        match text.kind_at(t.at as usize) {
            Kind::End | Kind::Pipe => {
                return x;
            }
            _ => {
                let at = text_end(text, t.at as usize) as u32;
                x = rows::Stop {
                    at,
                    column: t.column + (at - t.at),
                };
            }
        }
    }
}

// The same from any place.
pub fn span(text: &Sheet, from: usize, column: usize) -> Stop
    requires { column ≤ 4 * from + 1 }
    ensures { Reaches (kind_in text.now.kinds.now) text.now.bytes.now from column result }
{
    if text.bytes.len() < from {
        return Stop { at: from, column };
    }
    let start = rows::Stop {
        at: from as u32,
        column: column as u32,
    };
    let x = span_from(text, start);
    Stop {
        at: x.at as usize,
        column: x.column as usize,
    }
}

// Where a piece of a name ends with all that it takes with it, and the column there: a text goes on, another piece does not.
pub fn reach(text: &Sheet, name: u8, end: usize, column: usize) -> Stop
    requires { column ≤ 4 * end + 1 }
    ensures { ReachesAs (kind_in text.now.kinds.now) name text.now.bytes.now end column result }
{
    if name == Name::Data as u8 {
        return span(text, end, column);
    }
    Stop { at: end, column }
}

// A piece, or the whole text that it begins.
#[inline(always)]
pub fn reach_from(text: &Sheet, x: Placed) -> Placed
    requires { Near text.now.bytes.now (record { at = x.end; column = x.column }) }
    ensures { result ≡ reach_of (kind_in text.now.kinds.now) text.now.bytes.now x }
{
    match x.name {
        Name::Data => {
            let stop = span_from(
                text,
                rows::Stop {
                    at: x.end,
                    column: x.column,
                },
            );
            Placed {
                name: x.name,
                end: stop.at,
                column: stop.column,
            }
        }
        _ => x,
    }
}
