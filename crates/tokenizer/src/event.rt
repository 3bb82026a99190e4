// Points and events, and the names of events.
ghost use Rattle.std.specs.Prelude.{◌≡◌, [], ◌∷◌, ◌<◌, ◌≤◌, ◌+◌};
ghost use Rattle.tokenizer.specs.Points.{start, column_after, past, next_line, start_of};
ghost use Rattle.tokenizer.specs.Lines.{first_start};
ghost use Rattle.tokenizer.specs.Events.{blank_event, number, enter, leave, point_of};

use crate::lines::first_point;
use std::fmt;

// A place in the sheet. Lines and columns count from 1; `vs` counts the units passed inside a tab.
#[repr(C)]
#[derive(Clone, Copy, PartialEq, Eq)]
pub struct Point {
    pub line: u32,
    pub column: u32,
    pub index: u32,
    pub vs: u8,
}

// Where a line starts: its number and its index.
#[derive(Clone, Copy, PartialEq, Eq)]
pub struct LineStart {
    pub line: u32,
    pub at: u32,
}

impl LineStart {
    // The first line of a sheet, behind a byte order mark.
    pub fn first(s: &[u8]) -> LineStart
        ensures { result ≡ record { line = 1; at = first_start s.now } }
    {
        let p = first_point(s);
        LineStart {
            line: p.line,
            at: p.index,
        }
    }

    // The next line, which starts at a place.
    pub fn next(self, at: u32) -> LineStart
        requires { self.line < 1000000 }
        ensures { result ≡ record { line = self.line + 1; at = at } }
    {
        LineStart {
            line: self.line + 1,
            at,
        }
    }

    // The point of a line's start.
    pub fn point(self) -> Point
        ensures { result ≡ start_of self }
    {
        Point {
            line: self.line,
            index: self.at,
            ..Point::START
        }
    }
}

// What an event does, by the numbers of 01.
#[derive(Clone, Copy, PartialEq, Eq)]
pub enum EventKind {
    Blank = 0,
    Enter = 1,
    Exit = 2,
}

// How an event is linked, by the numbers of 01.
#[derive(Clone, Copy, PartialEq, Eq)]
pub enum Link {
    None = 0,
    Text = 1,
}

// A kind, a name, a point and a link. They are numbers, since the record is C's, and a list that is lent may hold any.
#[repr(C)]
#[derive(Clone, Copy, PartialEq, Eq)]
pub struct Event {
    pub kind: u8,
    pub name: u8,
    pub line: u32,
    pub column: u32,
    pub index: u32,
    pub vs: u8,
    pub link: u8,
}

// The names of events, by the numbers of 01.
#[derive(Clone, Copy, PartialEq, Eq)]
pub enum Name {
    SpaceOrTab = 1,
    LineEnding = 2,
    Data = 3,
    GfmTable = 4,
    GfmTableBody = 5,
    GfmTableHead = 6,
    GfmTableRow = 7,
    GfmTableCell = 8,
    GfmTableCellText = 9,
    GfmTableCellDivider = 10,
    GfmTableDelimiterRow = 11,
    GfmTableDelimiterMarker = 12,
    GfmTableDelimiterCell = 13,
    GfmTableDelimiterCellValue = 14,
    GfmTableDelimiterFiller = 15,
}

// The column after a byte: a tab runs to the next stop.
pub fn column_after(c: u32, b: u8) -> u32
    requires { c < 1000000 }
    ensures { result ≡ column_after c b }
{
    if b == b'\t' {
        return (c + (Point::TAB_STOP - 1)) / Point::TAB_STOP * Point::TAB_STOP + 1;
    }
    c + 1
}

impl Point {
    pub const START: Point = Point {
        line: 1,
        column: 1,
        index: 0,
        vs: 0,
    };

    // A tab runs to the next column that is 1 more than a multiple of this.
    pub const TAB_STOP: u32 = 4;

    // The most units that a head may be indented by, where indented code is on.
    pub const INDENT_CAP: usize = 3;

    // The point before a whole byte: no unit of a tab is passed.
    pub fn new(line: u32, column: u32, index: u32) -> Self
        ensures { result ≡ record { line = line; column = column; index = index; vs = 0 } }
    {
        Point {
            line,
            column,
            index,
            vs: 0,
        }
    }

    // The start value: 01 names a constructor beside the constant.
    pub fn start() -> Self
        ensures { result ≡ start }
    {
        Self::START
    }

    // The point after one byte that ends no line.
    pub fn over(self, b: u8) -> Point
        requires { (self.column < 1000000) × (self.index < 1000000) }
        ensures { result ≡ past self (b ∷ []) }
    {
        Point {
            column: column_after(self.column, b),
            index: self.index + 1,
            vs: 0,
            ..self
        }
    }

    // The first point of the next line, after a line end of n bytes.
    pub fn next_line(self, n: u32) -> Point
        requires { (self.line < 1000000) × (self.index < 1000000) × (n ≤ 2) }
        ensures { result ≡ next_line self n }
    {
        Point::new(self.line + 1, 1, self.index + n)
    }
}

impl Event {
    // The record of a slot that holds no event.
    pub const BLANK: Event = Event {
        kind: EventKind::Blank as u8,
        name: 0,
        line: 0,
        column: 0,
        index: 0,
        vs: 0,
        link: Link::None as u8,
    };

    // The same from a function, as `Point::start`.
    pub fn blank() -> Self
        ensures { result ≡ blank_event }
    {
        Self::BLANK
    }

    // A name is entered at a point. It is told by its number, of which it took any before there were names: a `Name` would ask more
    // of callers. `Name::enter` is for the names of 01.
    pub fn enter(name: u8, p: Point) -> Self
        ensures { result ≡ enter name p }
    {
        Event {
            kind: EventKind::Enter as u8,
            name,
            line: p.line,
            column: p.column,
            index: p.index,
            vs: p.vs,
            link: Link::None as u8,
        }
    }

    // A name is left at a point, told by its number as above.
    pub fn exit(name: u8, p: Point) -> Self
        ensures { result ≡ leave name p }
    {
        Event {
            kind: EventKind::Exit as u8,
            ..Self::enter(name, p)
        }
    }
}

impl Name {
    // It is entered at a point.
    pub fn enter(self, p: Point) -> Event
        ensures { result ≡ enter (number self) p }
    {
        Event::enter(self as u8, p)
    }

    // It is left at a point.
    pub fn exit(self, p: Point) -> Event
        ensures { result ≡ leave (number self) p }
    {
        Event::exit(self as u8, p)
    }
}

impl fmt::Display for Event {
    fn fmt<W: fmt::Write>(&self, f: &mut fmt::Formatter<W>) -> fmt::Result {
        write!(
            f,
            "{},{},{},{},{},{},{}",
            self.kind, self.name, self.line, self.column, self.index, self.vs, self.link
        )
    }
}

impl From<Event> for Point {
    ghost from_gives = { λ e p. p ≡ point_of e };

    // Where an event stands.
    fn from(e: Event) -> Point {
        Point {
            line: e.line,
            column: e.column,
            index: e.index,
            vs: e.vs,
        }
    }
}
