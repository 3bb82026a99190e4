// What `head` and `row` answer, before a slot is written.
ghost use Rattle.std.specs.Prelude.{◌≡◌, ◌≤◌, ◌+◌, ◌*◌, [], ◌∷◌, length};
ghost use Rattle.tokenizer.specs.Bytes.{kind_in};
ghost use Rattle.tokenizer.specs.Moves.{rest_of, Inside};
ghost use Rattle.tokenizer.specs.Refusals.{answered};
ghost use Rattle.gfm_table.specs.Rows.{delimiter_pieces};
ghost use Rattle.gfm_table.specs.Calls.{place_refusal, point_at, head_plan, row_plan};

use crate::heads::{Opened, head_at};
use crate::pieces::marks_from;
use crate::states::row;
use crate::stream::{Cursor, Part};
use tokenizer::event::{LineStart, Point};
use tokenizer::lines::{line_number, starts_line};
use tokenizer::refusal::Refusal;
use tokenizer::text::{Sheet, Text, length_asked};

// Of a head that is accepted: the number of its events, the offset where its delimiter row ends, and its cells.
#[derive(Clone, Copy, PartialEq, Eq)]
pub struct HeadCounts {
    pub events: usize,
    pub end: usize,
    pub cells: usize,
}

// Of a row that is accepted: the number of its events and the offset where it ends.
#[derive(Clone, Copy, PartialEq, Eq)]
pub struct RowCounts {
    pub events: usize,
    pub end: usize,
}

impl From<HeadCounts> for [usize; 3] {
    ghost from_gives = { λ c out. out ≡ c.events ∷ c.end ∷ c.cells ∷ [] };

    // Events, end and cells.
    fn from(c: HeadCounts) -> [usize; 3] {
        [c.events, c.end, c.cells]
    }
}

impl From<RowCounts> for [usize; 2] {
    ghost from_gives = { λ c out. out ≡ c.events ∷ c.end ∷ [] };

    // Events and end.
    fn from(c: RowCounts) -> [usize; 2] {
        [c.events, c.end]
    }
}

// What is answered, and where the events come from.
#[derive(Clone, Copy)]
pub struct Plan<A> {
    pub answer: A,
    pub cursor: Cursor,
}

// Questions 1 and 2.
pub fn place_asked(s: &[u8], at: usize) -> Result<(), Refusal>
    ensures { result ≡ answered (place_refusal s.now at) tt }
{
    length_asked(s)?;
    if !starts_line(s, at) {
        return Err(Refusal::NoLineStart);
    }
    Ok(())
}

// The point of a line start.
pub fn point_at(s: &[u8], at: usize) -> Point
    requires { at ≤ length s.now × at ≤ 65536 }
    ensures { result ≡ point_at s.now at }
{
    LineStart {
        line: line_number(s, at),
        at: at as u32,
    }
    .point()
}

// How many events a head has.
pub fn head_events(text: &Sheet, o: Opened) -> usize
    requires { Inside text.now.bytes.now o.delimiter × (o.pieces ≤ 65536) }
    ensures { result ≡ 2 * (o.pieces + length (delimiter_pieces (kind_in text.now.kinds.now) (rest_of text.now.bytes.now o.delimiter))) + 8 }
{
    2 * (o.pieces + marks_from(text, o.delimiter.index as usize)) as usize + 8
}

// Questions 3 to 7 and 9 of a head, at a line start.
fn head_placed(
    text: &Sheet,
    at: usize,
    on: bool,
    stray: bool,
    slots: usize,
) -> Result<Plan<HeadCounts>, Refusal>
    requires { place_refusal text.now.bytes.now at ≡ 0 }
    ensures { result ≡ head_plan (kind_in text.now.kinds.now) text.now.bytes.now at on stray slots }
{
    let p = point_at(text.bytes, at);
    let opened = head_at(text, p, on, stray)?;
    let events = head_events(text, opened);
    if slots < events {
        return Err(Refusal::TooFewRawSlots);
    }
    Ok(Plan {
        answer: HeadCounts {
            events,
            end: opened.end.index as usize,
            cells: opened.cells as usize,
        },
        cursor: Cursor::Begin(p),
    })
}

// Everything about a head but its slots.
pub fn head_plan<const MOST: usize>(
    text: &Text<MOST>,
    at: usize,
    on: bool,
    stray: bool,
    slots: usize,
) -> Result<Plan<HeadCounts>, Refusal>
    ensures { result ≡ head_plan (kind_in text.now.kinds.now) text.now.bytes.now at on stray slots }
{
    place_asked(text.bytes, at)?;
    head_placed(&text.short(), at, on, stray, slots)
}

// Questions 5, 8 and 9 of a row, at a line start.
fn row_placed(text: &Sheet, at: usize, lazy: bool, slots: usize) -> Result<Plan<RowCounts>, Refusal>
    requires { place_refusal text.now.bytes.now at ≡ 0 }
    ensures { result ≡ row_plan (kind_in text.now.kinds.now) text.now.bytes.now at lazy slots }
{
    if lazy {
        return Err(Refusal::LazyOrPierced);
    }
    let p = point_at(text.bytes, at);
    if text.is_blank(p) {
        return Err(Refusal::BlankRow);
    }
    let q = row(text, p);
    let events = 2 * q.count as usize + 2;
    if slots < events {
        return Err(Refusal::TooFewRawSlots);
    }
    Ok(Plan {
        answer: RowCounts {
            events,
            end: q.at.index as usize,
        },
        cursor: Cursor::Enter(Part::Body, p),
    })
}

// Everything about a row but its slots.
pub fn row_plan<const MOST: usize>(
    text: &Text<MOST>,
    at: usize,
    lazy: bool,
    slots: usize,
) -> Result<Plan<RowCounts>, Refusal>
    ensures { result ≡ row_plan (kind_in text.now.kinds.now) text.now.bytes.now at lazy slots }
{
    place_asked(text.bytes, at)?;
    row_placed(&text.short(), at, lazy, slots)
}
