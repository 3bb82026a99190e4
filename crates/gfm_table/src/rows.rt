// The pieces of a row by the places of its bytes, one at a time, and their events written to lent slots.
ghost use Rattle.std.specs.Prelude.{◌≡◌, Some, ◌≤◌, ◌<◌, ◌+◌, ◌*◌, length, drop};
ghost use Rattle.tokenizer.specs.Bytes.{kind_in};
ghost use Rattle.tokenizer.specs.Points.{column_past, start_of};
ghost use Rattle.tokenizer.specs.Events.{number, enter, leave};
ghost use Rattle.tokenizer.specs.Lines.{line_body, indent};
ghost use Rattle.tokenizer.specs.Moves.{ahead_of, Inside};
ghost use Rattle.gfm_table.specs.declared.stream.Part.{Part};
ghost use Rattle.gfm_table.specs.declared.stream.Part.TheVariants.{Delimiter, Body};
ghost use Rattle.gfm_table.specs.Stream.{pieces_of};
ghost use Rattle.gfm_table.specs.Places.{point_in, Near, Solid, next_at, row_end, row_wrote};

use crate::pieces::{fillers_end, text_end};
use crate::stream::Part;
use tokenizer::event::{Event, LineStart, Name, Point, column_after};
use tokenizer::kinds::Kind;
use tokenizer::slots::put;
use tokenizer::text::Sheet;

// Where a run of bytes ends, and the column there. That it lies in a sheet is asked by `Near`, since the place alone knows no sheet. `Placed`,
// `Reached` and the records of cells and sheets above have its two fields of their own: with a `Stop` in them each definition would name it.
#[derive(Clone, Copy)]
pub struct Stop {
    pub at: u32,
    pub column: u32,
}

// A piece of a row: its name, where it ends, and the column there.
#[derive(Clone, Copy)]
pub struct Placed {
    pub name: Name,
    pub end: u32,
    pub column: u32,
}

// Where the writing of a row's pieces stands: the place, the column there, and the slot of the next event, which goes on past the slots where
// they are too few.
#[derive(Clone, Copy)]
pub struct Reached {
    pub at: u32,
    pub column: u32,
    pub slot: usize,
}

// The end of a run of spaces and tabs, and the column there: both are told in one pass.
pub fn spaces_past(text: &Sheet, from: Stop) -> Stop
    requires { Near text.now.bytes.now from }
    ensures { (result.at ≡ from.at + length (indent (kind_in text.now.kinds.now) (line_body (drop from.at text.now.bytes.now)))) × (result.column ≡ column_past from.column (indent (kind_in text.now.kinds.now) (line_body (drop from.at text.now.bytes.now)))) }
{
    let mut c = from.column;
    for i in from.at as usize..text.bytes.len() {
        if text.kind_at(i) != Kind::Space {
            return Stop {
                at: i as u32,
                column: c,
            };
        }
        c = column_after(c, text.bytes[i]);
    }
    Stop {
        at: text.bytes.len() as u32,
        column: c,
    }
}

impl Placed {
    // A piece without a tab, up to a place: each byte is one column.
    pub fn flat(name: Name, from: Stop, end: usize) -> Placed
        requires { (from.at ≤ end) × (end ≤ 65536) × (from.column ≤ 1000000) }
        ensures { (result.name ≡ name) × (result.end ≡ end) × (result.column + from.at ≡ from.column + end) }
    {
        let end = end as u32;
        Placed {
            name,
            end,
            column: from.column + (end - from.at),
        }
    }

    // It is entered where the writing stands.
    pub fn entry(self, line: u32, x: Reached) -> Event
        ensures { result ≡ enter (number self.name) (point_in line x.at x.column) }
    {
        self.name.enter(Point::new(line, x.column, x.at))
    }

    // It is left.
    pub fn exit(self, line: u32) -> Event
        ensures { result ≡ leave (number self.name) (point_in line self.end self.column) }
    {
        self.name.exit(Point::new(line, self.column, self.end))
    }
}

// A kind of row: what it is, and the pieces that are no whitespace and no divider.
pub trait RowKind {
    ghost part: { Part };

    // Which line of a table it is.
    fn part() -> Part
        ensures { result ≡ part };

    // The piece at a byte that is no whitespace, no line end and no divider.
    fn solid_piece(text: &Sheet, from: Stop) -> Placed
        requires { Near text.now.bytes.now from × Solid (ahead_of (kind_in text.now.kinds.now) (drop from.at text.now.bytes.now)) }
        ensures { Some result ≡ next_at from.at from.column (pieces_of (kind_in text.now.kinds.now) part (line_body (drop from.at text.now.bytes.now))) };
}

// A head line or a body row: data.
pub struct TextRow;

impl RowKind for TextRow {
    ghost part = { Body };

    fn part() -> Part {
        Part::Body
    }

    fn solid_piece(text: &Sheet, from: Stop) -> Placed {
        Placed::flat(Name::Data, from, text_end(text, from.at as usize))
    }
}

// A delimiter row: markers and fillers.
pub struct DelimiterRow;

impl RowKind for DelimiterRow {
    ghost part = { Delimiter };

    fn part() -> Part {
        Part::Delimiter
    }

    fn solid_piece(text: &Sheet, from: Stop) -> Placed {
        let i = from.at as usize;
        if text.kind_at(i) == Kind::Colon {
            return Placed::flat(Name::GfmTableDelimiterMarker, from, i + 1);
        }
        Placed::flat(Name::GfmTableDelimiterFiller, from, fillers_end(text, i))
    }
}

// The next piece of a row, if one is left.
pub fn next_piece<R: RowKind>(text: &Sheet, from: Stop) -> Option<Placed>
    requires { Near text.now.bytes.now from }
    ensures { result ≡ next_at from.at from.column (pieces_of (kind_in text.now.kinds.now) R.part (line_body (drop from.at text.now.bytes.now))) }
{
    match text.kind_at(from.at as usize) {
        Kind::Space => {
            let stop = spaces_past(text, from);
            Some(Placed {
                name: Name::SpaceOrTab,
                end: stop.at,
                column: stop.column,
            })
        }
        Kind::End => None,
        Kind::Pipe => Some(Placed::flat(Name::GfmTableCellDivider, from, from.at as usize + 1)),
        _ => Some(R::solid_piece(text, from)),
    }
}

impl Reached {
    // Before the first piece of a row.
    pub fn first(start: LineStart, slot: usize) -> Reached
        ensures { result ≡ record { at = start.at; column = 1; slot = slot } }
    {
        Reached {
            at: start.at,
            column: 1,
            slot,
        }
    }

    // The place, and the column there.
    pub fn stop(self) -> Stop
        ensures { result ≡ record { at = self.at; column = self.column } }
    {
        let Reached { at, column, .. } = self;
        Stop { at, column }
    }

    // Behind a piece, whose two events are written.
    pub fn behind(self, p: Placed) -> Reached
        requires { self.slot < 1000000000000 }
        ensures { result ≡ record { at = p.end; column = p.column; slot = self.slot + 2 } }
    {
        Reached {
            at: p.end,
            column: p.column,
            slot: self.slot + 2,
        }
    }
}

// The events of the pieces of a row, from its first byte, into the slots from a place on.
pub fn write_row<R: RowKind>(
    text: &Sheet,
    from: LineStart,
    slots: &mut [Event],
    to: usize,
) -> Reached
    requires { Inside text.now.bytes.now (start_of from) × (to ≤ 4294967296) }
    ensures { (result ≡ row_end (kind_in text.now.kinds.now) text.now.bytes.now R.part (start_of from) to) × (slots.new ≡ row_wrote (kind_in text.now.kinds.now) text.now.bytes.now R.part (start_of from) to slots.old) }
{
    let mut x = Reached::first(from, to);
    while let Some(piece) = next_piece::<R>(text, x.stop()) {
        put(slots, x.slot, piece.entry(from.line, x));
        put(slots, x.slot + 1, piece.exit(from.line));
        x = x.behind(piece);
    }
    x
}
