// The raw events of a head or a row, one at a time. A cursor goes in, an event and the next cursor come out.
ghost use Rattle.std.specs.Prelude.{◌≡◌, length};
ghost use Rattle.tokenizer.specs.Bytes.{kind_in};
ghost use Rattle.tokenizer.specs.Moves.{Inside};
ghost use Rattle.tokenizer.specs.Events.{number};
ghost use Rattle.gfm_table.specs.Stream.{name_of, piece_at, between_of, over_at, ended_of, step_of, gave, Good};
ghost use Rattle.gfm_table.specs.declared.stream.Part.TheVariants.{Head};

use crate::rows::{DelimiterRow, Stop, TextRow, next_piece};
use tokenizer::event::{Event, Name, Point};
use tokenizer::lines::end_at;
use tokenizer::text::{Sheet, Text};

// Which line of a table is read.
#[derive(Clone, Copy, PartialEq, Eq)]
pub enum Part {
    Head,
    Delimiter,
    Body,
}

// A piece of a row: its name and its end. No `Placed`: the definition tells the end by `past`, as a
// point, and would tell the place and the column apart and join them again.
#[derive(Clone, Copy)]
pub struct Pieced {
    pub name: Name,
    pub end: Point,
}

// Where the events of a head or a row have come to. The states are 01's.
#[derive(Clone, Copy)]
pub enum Cursor {
    // Before a head.
    Begin(Point),
    // Before a row.
    Enter(Part, Point),
    // Between two pieces of a row.
    Between(Part, Point),
    // Inside a piece that ends at the point, its name told by its number: a `Name` would ask more of callers than before.
    Entered(Part, u8, Point),
    // At the end of a row. At that of a body row nothing more comes.
    Ended(Part, Point),
    // Inside the line end before a row, which starts at the point.
    Broken(Part, Point),
}

// An event, and the cursor after it.
#[derive(Clone, Copy)]
pub struct Stepped {
    pub event: Event,
    pub next: Cursor,
}

impl Part {
    // The name of a row.
    pub fn row_name(self) -> Name
        ensures { number result ≡ name_of self }
    {
        match self {
            Part::Delimiter => Name::GfmTableDelimiterRow,
            Part::Head | Part::Body => Name::GfmTableRow,
        }
    }
}

// The next piece of a row, if one is left.
pub fn piece_at(text: &Sheet, part: Part, p: Point) -> Option<Pieced>
    requires { Inside text.now.bytes.now p }
    ensures { result ≡ piece_at (kind_in text.now.kinds.now) text.now.bytes.now part p }
{
    let from = Stop {
        at: p.index,
        column: p.column,
    };
    let piece = match part {
        Part::Delimiter => next_piece::<DelimiterRow>(text, from)?,
        Part::Head | Part::Body => next_piece::<TextRow>(text, from)?,
    };
    Some(Pieced {
        name: piece.name,
        end: Point::new(p.line, piece.column, piece.end),
    })
}

// Between two pieces: the next is entered, or the row is left.
pub fn step_between(text: &Sheet, part: Part, p: Point) -> Stepped
    requires { Inside text.now.bytes.now p }
    ensures { result ≡ between_of part p (piece_at (kind_in text.now.kinds.now) text.now.bytes.now part p) }
{
    match piece_at(text, part, p) {
        Some(piece) => Stepped {
            event: piece.name.enter(p),
            next: Cursor::Entered(part, piece.name as u8, piece.end),
        },
        None => Stepped {
            event: part.row_name().exit(p),
            next: Cursor::Ended(part, p),
        },
    }
}

// Nothing more comes. A blank event and no `Option`: slots behind the last event are blank, and each state would wrap what it gives.
pub fn stay(p: Point) -> Stepped
    ensures { result ≡ over_at p }
{
    Stepped {
        event: Event::blank(),
        next: Cursor::Ended(Part::Body, p),
    }
}

// After a head line: the line end before its delimiter row.
pub fn step_break(s: &[u8], p: Point) -> Stepped
    requires { Inside s.now p }
    ensures { result ≡ ended_of s.now Head p }
{
    let Some(n) = end_at(s, p) else {
        return stay(p);
    };
    Stepped {
        event: Name::LineEnding.enter(p),
        next: Cursor::Broken(Part::Delimiter, p.next_line(n)),
    }
}

// After a row.
pub fn step_ended(s: &[u8], part: Part, p: Point) -> Stepped
    requires { Good s.now (Cursor.Ended part p) }
    ensures { result ≡ ended_of s.now part p }
{
    match part {
        Part::Head => step_break(s, p),
        Part::Delimiter => Stepped {
            event: Name::GfmTableHead.exit(p),
            next: Cursor::Ended(Part::Body, p),
        },
        Part::Body => stay(p),
    }
}

// The next event, and the cursor after it: the cursor's states are 01's. At the end blank events come for ever, so that slots behind the last event are blank by themselves.
pub fn step<const MOST: usize>(text: &Text<MOST>, c: Cursor) -> Stepped
    requires { Good text.now.bytes.now c }
    ensures { result ≡ step_of (kind_in text.now.kinds.now) text.now.bytes.now c }
{
    match c {
        Cursor::Begin(p) => Stepped {
            event: Name::GfmTableHead.enter(p),
            next: Cursor::Enter(Part::Head, p),
        },
        Cursor::Enter(part, p) => Stepped {
            event: part.row_name().enter(p),
            next: Cursor::Between(part, p),
        },
        Cursor::Between(part, p) => step_between(&text.short(), part, p),
        Cursor::Entered(part, name, p) => Stepped {
            event: Event::exit(name, p),
            next: Cursor::Between(part, p),
        },
        Cursor::Ended(part, p) => step_ended(text.bytes, part, p),
        Cursor::Broken(part, p) => Stepped {
            event: Name::LineEnding.exit(p),
            next: Cursor::Enter(part, p),
        },
    }
}

// Every slot is filled with what comes from a cursor.
pub fn fill<const MOST: usize>(text: &Text<MOST>, c: Cursor, slots: &mut [Event])
    requires { Good text.now.bytes.now c }
    ensures { slots.new ≡ gave (kind_in text.now.kinds.now) text.now.bytes.now (length slots.old) c }
{
    let mut cursor = c;
    for slot in slots.iter_mut() {
        let r = step(text, cursor);
        *slot = r.event;
        cursor = r.next;
    }
}
