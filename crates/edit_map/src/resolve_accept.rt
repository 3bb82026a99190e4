// Question 10, record by record: whether a list is made of raw tables.
ghost use Rattle.std.specs.Bool.{then_some};
ghost use Rattle.std.specs.Prelude.{◌≡◌, cond, Some};
ghost use Rattle.tokenizer.specs.Events;
ghost use Rattle.gfm_table.specs.declared.stream.Part.TheVariants as Part;
ghost use Rattle.gfm_table.specs.Stream.{name_of};
ghost use Rattle.edit_map.specs.Raw.{enters, leaves, row_piece, delimiter_piece};
ghost use Rattle.edit_map.specs.Accept.{piece_of, at, ending, entry_of, after_row, read_in, read_step, whole, accepted};

use crate::resolve_base::{is_entry, is_exit};
use gfm_table::stream::Part;
use tokenizer::event::{Event, Link, Name};

// How far a list of raw tables is read.
#[derive(Clone, Copy, PartialEq, Eq)]
pub enum Place {
    Start,
    Entry,
    Fresh,
    Within,
    Between,
    HeadLeave,
    Closed,
}

// The place in a table, the row that is read or comes next, and the name of what is to be left next, if anything is.
#[derive(Clone, Copy)]
pub struct Reading {
    pub place: Place,
    pub part: Part,
    // A number, as a record's name is: it is only compared with the next record's, and a
    // `Name` would be looked up by the number first.
    pub due: Option<u8>,
}

// A record that enters the name n, its link a known code. This and the next are two as `is_entry` and `is_exit` are: one is no plainer.
fn enters(n: u8, e: Event) -> bool
    ensures { result ≡ enters n e }
{
    is_entry(n, e) && e.link <= Link::Text as u8
}

// A record that leaves the name n, its link a known code.
fn leaves(n: u8, e: Event) -> bool
    ensures { result ≡ leaves n e }
{
    is_exit(n, e) && e.link <= Link::Text as u8
}

// Whether a row may hold pieces of the name n.
fn row_piece(n: u8) -> bool
    ensures { result ≡ row_piece n }
{
    n == Name::SpaceOrTab as u8 || n == Name::GfmTableCellDivider as u8 || n == Name::Data as u8
}

// Whether a delimiter row may hold pieces of the name n.
fn delimiter_piece(n: u8) -> bool
    ensures { result ≡ delimiter_piece n }
{
    n == Name::SpaceOrTab as u8
        || n == Name::GfmTableCellDivider as u8
        || n == Name::GfmTableDelimiterMarker as u8
        || n == Name::GfmTableDelimiterFiller as u8
}

// Whether a row of this kind may hold pieces of the name n.
fn piece_of(p: Part, n: u8) -> bool
    ensures { result ≡ piece_of p n }
{
    match p {
        Part::Head | Part::Body => row_piece(n),
        Part::Delimiter => delimiter_piece(n),
    }
}

// A place where nothing is to be left.
fn at(place: Place, part: Part) -> Reading
    ensures { result ≡ at place part }
{
    Reading {
        place,
        part,
        due: None,
    }
}

// A line end is entered, before a row.
fn ending(part: Part) -> Reading
    ensures { result ≡ ending part }
{
    Reading {
        place: Place::Entry,
        part,
        due: Some(Name::LineEnding as u8),
    }
}

// A piece is entered.
fn entry_of(part: Part, e: Event) -> Option<Reading>
    ensures { result ≡ entry_of part e }
{
    let n = e.name;
    (piece_of(part, n) && enters(n, e)).then_some(Reading {
        place: Place::Within,
        part,
        due: Some(n),
    })
}

// A row is left.
fn after_row(p: Part) -> Reading
    ensures { result ≡ after_row p }
{
    match p {
        Part::Head => at(Place::Between, Part::Head),
        Part::Delimiter => at(Place::HeadLeave, Part::Delimiter),
        Part::Body => at(Place::Closed, Part::Head),
    }
}

// The row is left, or a piece is entered.
fn within(p: Part, e: Event) -> Option<Reading>
    ensures { result ≡ cond (leaves (name_of p) e) (Some (after_row p)) (entry_of p e) }
{
    if leaves(p.row_name() as u8, e) {
        Some(after_row(p))
    } else {
        entry_of(p, e)
    }
}

// A table is entered.
fn head_entry(e: Event) -> Option<Reading>
    ensures { result ≡ then_some (enters Events.GfmTableHead e) (at Place.Entry Part.Head) }
{
    enters(Name::GfmTableHead as u8, e).then_some(at(Place::Entry, Part::Head))
}

// A body row follows, or another table.
fn closed(e: Event) -> Option<Reading>
    ensures { result ≡ cond (enters Events.LineEnding e) (Some (ending Part.Body)) (then_some (enters Events.GfmTableHead e) (at Place.Entry Part.Head)) }
{
    if enters(Name::LineEnding as u8, e) {
        Some(ending(Part::Body))
    } else {
        head_entry(e)
    }
}

// One record at a place where nothing is to be left: the places are those over which the definition matches.
fn read_in(l: Place, p: Part, e: Event) -> Option<Reading>
    ensures { result ≡ read_in l p e }
{
    match l {
        Place::Start => head_entry(e),
        Place::Entry => enters(p.row_name() as u8, e).then_some(at(Place::Fresh, p)),
        Place::Fresh => entry_of(p, e),
        Place::Within => within(p, e),
        Place::Between => enters(Name::LineEnding as u8, e).then_some(ending(Part::Delimiter)),
        Place::HeadLeave => {
            leaves(Name::GfmTableHead as u8, e).then_some(at(Place::Closed, Part::Head))
        }
        Place::Closed => closed(e),
    }
}

impl Reading {
    // Before the first record.
    pub const START: Reading = Reading {
        place: Place::Start,
        part: Part::Head,
        due: None,
    };

    // One record more; none where no list of raw tables goes on so.
    pub fn step(self, e: Event) -> Option<Self>
        ensures { result ≡ read_step self e }
    {
        match self.due {
            None => read_in(self.place, self.part, e),
            Some(n) => leaves(n, e).then_some(at(self.place, self.part)),
        }
    }

    // Whether the records read so far are raw tables.
    pub fn is_accepted(self) -> bool
        ensures { result ≡ accepted self }
    {
        self.due.is_none() && (self.place == Place::Start || self.place == Place::Closed)
    }
}
