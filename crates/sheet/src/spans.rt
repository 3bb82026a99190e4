// A sheet's tables by places: the line where each starts, and where its rows end.
ghost use Rattle.std.specs.Prelude.{◌≡◌};
ghost use Rattle.tokenizer.specs.Bytes.{kind_in};
ghost use Rattle.tokenizer.specs.Points.{start_of};
ghost use Rattle.tokenizer.specs.Places.{lines_from};
ghost use Rattle.sheet.specs.Walk.{heads};
ghost use Rattle.sheet.specs.From.{AtLine};
ghost use Rattle.sheet.specs.Spans.{EndsBody, FirstTable};

use crate::seek::{closes_at, next_head};
use tokenizer::event::LineStart;
use tokenizer::lines::line_end;
use tokenizer::text::Sheet;

// Where the last row of a table ends, and the line where the walk goes on: the blank line or the remark behind it, or an empty one at the sheet's end.
#[derive(Clone, Copy)]
pub struct Tail {
    pub stop: u32,
    pub next: LineStart,
}

// The places of a table, by names of their own, as `FirstTable` has them: its head line, where its delimiter row starts, how many alignments it has, where its last row ends, and the line where the walk goes on.
#[derive(Clone, Copy)]
pub struct Span {
    pub head: LineStart,
    pub delimiter: u32,
    pub cells: u32,
    pub stop: u32,
    pub next: LineStart,
}

// The end of the body rows after a line of a table.
pub fn body_end(text: &Sheet, from: LineStart) -> Tail
    requires { AtLine text.now.bytes.now (start_of from) }
    ensures { EndsBody (kind_in text.now.kinds.now) text.now.bytes.now (start_of from) result }
{
    let mut row = from;
    loop {
        let e = text.line_stop(row.at as usize);
        let stop = e as u32;
        let Some(n) = line_end(text.bytes, e) else {
            return Tail {
                stop,
                next: LineStart {
                    line: row.line,
                    at: stop,
                },
            };
        };
        let next = row.next(stop + n);
        if closes_at(text, next.at as usize) {
            return Tail { stop, next };
        }
        row = next;
    }
}

// The first table from a line on.
pub fn table_from(text: &Sheet, on: bool, from: LineStart) -> Option<Span>
    requires { AtLine text.now.bytes.now (start_of from) }
    ensures { FirstTable (kind_in text.now.kinds.now) text.now.bytes.now on result (heads (kind_in text.now.kinds.now) on (lines_from text.now.bytes.now (start_of from))) }
{
    let opening = next_head(text, from, on)?;
    let row = opening.head.next(opening.delimiter);
    let tail = body_end(text, row);
    Some(Span {
        head: opening.head,
        delimiter: opening.delimiter,
        cells: opening.columns,
        stop: tail.stop,
        next: tail.next,
    })
}
