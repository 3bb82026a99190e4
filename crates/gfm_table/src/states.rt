// The states of a row: between two pieces, in data, after a backslash. Head and body share them. 01 names their form, functions
// of a call cycle over points, and `head` and `row` answer by them. The walk over a sheet counts by places, in `pieces`: heads read by points were
// among what took most of its time (docs/PERFORMANCE.md).
ghost use Rattle.std.specs.Prelude.{◌≡◌, false, ◌<◌, ◌≤◌, ◌+◌, length, drop};
ghost use Rattle.tokenizer.specs.Bytes.{kind_in};
ghost use Rattle.tokenizer.specs.Points.{past};
ghost use Rattle.tokenizer.specs.Lines.{line_body};
ghost use Rattle.tokenizer.specs.Moves.{rest_of, Inside};
ghost use Rattle.gfm_table.specs.Machine.{Counted, AtData, data_run, escaped, counted_as, passed_to, stepped, data_piece, ReadHere, whole, start_at, RowRead};

use crate::pieces::text_end;
use std::ops::ControlFlow;
use tokenizer::event::{Name, Point};
use tokenizer::kinds::Kind;
use tokenizer::moves::over;
use tokenizer::text::{Sheet, Text};

// Where a row is read: the point reached, where the last piece began and its name, how many pieces, and the head's counters. Where the last piece
// began and its name are the definitions' alone: no code reads them.
#[derive(Clone, Copy)]
pub struct Scan {
    pub at: Point,
    pub from: Point,
    pub name: Option<u8>,
    pub count: u32,
    pub size: u32,
    pub size_b: u32,
    pub seen: bool,
}

// After a backslash: a backslash or a pipe is passed over.
pub fn row_escape<const MOST: usize>(text: &Text<MOST>, at: usize) -> usize
    ensures { result ≡ at + length (escaped (kind_in text.now.kinds.now) (line_body (drop at text.now.bytes.now))) }
{
    match text.kind_at(at) {
        Kind::Pipe | Kind::Backslash => at + 1,
        _ => at,
    }
}

// The end of a run of data. No tab lies in it, so a byte is a column.
pub fn data_end(text: &Sheet, p: Point) -> Point
    requires { Inside text.now.bytes.now p }
    ensures { result ≡ past p (data_run (kind_in text.now.kinds.now) false (rest_of text.now.bytes.now p)) }
{
    let index = text_end(text, p.index as usize) as u32;
    let column = p.column + (index - p.index);
    Point::new(p.line, column, index)
}

impl Scan {
    // One more solid piece is counted.
    pub fn counted(self, divider: bool) -> Scan
        requires { (self.size < 1000000) × (self.size_b < 1000000) }
        ensures { result ≡ counted_as divider self }
    {
        Scan {
            size: self.size + u32::from(self.seen),
            size_b: self.size_b + 1,
            seen: divider,
            ..self
        }
    }

    // A piece up to a point is passed, its name told by its number: a `Name` would ask more of callers than before.
    pub fn passed(self, name: u8, to: Point) -> Scan
        requires { self.count < 1000000 }
        ensures { result ≡ passed_to name to self }
    {
        Scan {
            at: to,
            from: self.at,
            name: Some(name),
            count: self.count + 1,
            ..self
        }
    }
}

// Between two pieces: as many more as the budget says, or all that are left. At the row's end it breaks off; where the budget ends first, it can go on.
#[cycle(row_break_row_data)]
pub fn row_break(text: &Sheet, st: Scan, budget: usize) -> ControlFlow<Scan, Scan>
    requires { Counted text.now.bytes.now st }
    ensures { ReadHere (kind_in text.now.kinds.now) text.now.bytes.now st budget result }
{
    if budget == 0 {
        return ControlFlow::Continue(st);
    }
    let at = st.at;
    match text.ahead(at) {
        Kind::Space => {
            let to = text.space_end(at);
            row_break(text, st.passed(Name::SpaceOrTab as u8, to), budget - 1)
        }
        Kind::End => ControlFlow::Break(st),
        Kind::Pipe => {
            let to = over(text.bytes, at);
            row_break(
                text,
                st.counted(true).passed(Name::GfmTableCellDivider as u8, to),
                budget - 1,
            )
        }
        _ => row_data(text, st, budget - 1),
    }
}

// At the first byte of a piece of data.
#[cycle(row_break_row_data)]
pub fn row_data(text: &Sheet, st: Scan, budget: usize) -> ControlFlow<Scan, Scan>
    requires { AtData (kind_in text.now.kinds.now) text.now.bytes.now st }
    ensures { ReadHere (kind_in text.now.kinds.now) text.now.bytes.now (stepped st (data_piece (kind_in text.now.kinds.now) text.now.bytes.now st)) budget result }
{
    let to = data_end(text, st.at);
    row_break(text, st.counted(false).passed(Name::Data as u8, to), budget)
}

// The whole row: the states are resumed until the line ends, 64 pieces at a time, so that calls go at most 128 deep.
pub fn row_end(text: &Sheet, st: Scan) -> Scan
    requires { Counted text.now.bytes.now st }
    ensures { result ≡ whole (kind_in text.now.kinds.now) text.now.bytes.now st }
{
    let mut q = st;
    loop {
        match row_break(text, q, 64) {
            ControlFlow::Continue(t) => {
                q = t;
            }
            ControlFlow::Break(t) => {
                return t;
            }
        }
    }
}

// The state at the start of a row. The first solid byte counts double unless it is a divider.
pub fn row_start(text: &Sheet, p: Point) -> Scan
    requires { Inside text.now.bytes.now p }
    ensures { result ≡ start_at (kind_in text.now.kinds.now) text.now.bytes.now p }
{
    let seen = text.ahead(text.space_end(p)) != Kind::Pipe;
    Scan {
        at: p,
        from: p,
        name: None,
        count: 0,
        size: 0,
        size_b: u32::from(seen),
        seen,
    }
}

// A row from its start to the end of its line.
pub fn row(text: &Sheet, p: Point) -> Scan
    requires { Inside text.now.bytes.now p }
    ensures { RowRead (kind_in text.now.kinds.now) (rest_of text.now.bytes.now p) p result }
{
    row_end(text, row_start(text, p))
}
