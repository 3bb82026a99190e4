// The cells of a row by the places of its bytes, one step at a time: the next piece, with what it opens and closes.
ghost use Rattle.std.specs.Prelude.{◌≡◌, ◌≤◌, ◌<◌, ◌+◌, ◌*◌, length};
ghost use Rattle.tokenizer.specs.Bytes.{kind_in};
ghost use Rattle.tokenizer.specs.Events.{number};
ghost use Rattle.gfm_table.specs.Places.{Near};
ghost use Rattle.edit_map.specs.CellRows.{cell_of, value_of, step_of, first_within, behind, start_of as starts_at, stop_of as stops_at};

use crate::cell_spans::{opens, reach_from, text_next};
use crate::resolve_base::is_text_name;
use gfm_table::rows::{Reached, RowKind, Stop, next_piece};
use gfm_table::stream::Part;
use tokenizer::event::{LineStart, Name, Point};
use tokenizer::text::Sheet;

// Inside a row's cell: the place, the column there, the next slot, which goes on past the slots where they are too few, whether a piece other than whitespace came, and whether the cell waits for a mark.
#[derive(Clone, Copy)]
pub struct Within {
    pub at: u32,
    pub column: u32,
    pub slot: usize,
    pub seen: bool,
    pub waits: bool,
}

// A step: where it starts, its first slot, its piece, linked or not, whether a cell opens, whether a text or value is entered and left, where it ends, and what holds then.
#[derive(Clone, Copy)]
pub struct Step {
    pub at: u32,
    pub column: u32,
    pub slot: usize,
    pub name: Name,
    pub linked: bool,
    pub opens: bool,
    pub enters: bool,
    pub leaves: bool,
    pub end: u32,
    pub stop: u32,
    pub seen: bool,
    pub waits: bool,
}

// The name of a row's cells.
pub fn cell_name(part: Part) -> Name
    ensures { number result ≡ cell_of part }
{
    match part {
        Part::Delimiter => Name::GfmTableDelimiterCell,
        Part::Head | Part::Body => Name::GfmTableCell,
    }
}

// The name of what encloses a cell's text or value.
pub fn value_name(part: Part) -> Name
    ensures { number result ≡ value_of part }
{
    match part {
        Part::Delimiter => Name::GfmTableDelimiterCellValue,
        Part::Head | Part::Body => Name::GfmTableCellText,
    }
}

// The step over the next piece of a row, if one is left.
pub fn next_step<R: RowKind>(text: &Sheet, w: Within) -> Option<Step>
    requires { Near text.now.bytes.now (record { at = w.at; column = w.column }) }
    ensures { result ≡ step_of (kind_in text.now.kinds.now) text.now.bytes.now R.part w }
{
    let x = next_piece::<R>(text, w.stop())?;
    let opened = opens(text, w.seen, x.name as u8, x.end as usize);
    let y = reach_from(text, x);
    let data = x.name == Name::Data;
    let solid = x.name != Name::SpaceOrTab;
    // By its number, as records are asked: another question for names would be a twin.
    let mark = is_text_name(x.name as u8);
    let delimits = mark & !data;
    let more = delimits && text_next(text, x.end as usize);
    Some(Step {
        at: w.at,
        column: w.column,
        slot: w.slot,
        name: x.name,
        linked: data,
        opens: opened,
        enters: mark & (data | w.waits),
        leaves: mark & !more,
        end: y.end,
        stop: y.column,
        seen: w.seen | solid,
        waits: opened | (w.waits & !mark),
    })
}

impl Within {
    // Before the first step of a row whose first cell is entered in a slot.
    pub fn first(from: LineStart, to: usize) -> Within
        requires { to ≤ 4294967296 }
        ensures { result ≡ first_within from.at to }
    {
        Within {
            at: from.at,
            column: 1,
            slot: to + 1,
            seen: false,
            waits: true,
        }
    }

    // The place, and the column there.
    pub fn stop(self) -> Stop
        ensures { result ≡ record { at = self.at; column = self.column } }
    {
        let Within { at, column, .. } = self;
        Stop { at, column }
    }

    // Where a row ends whose last cell is left in the next slot.
    pub fn reached(self) -> Reached
        requires { self.slot < 1000000000000 }
        ensures { result ≡ record { at = self.at; column = self.column; slot = self.slot + 1 } }
    {
        Reached {
            at: self.at,
            column: self.column,
            slot: self.slot + 1,
        }
    }
}

impl Step {
    // Behind it, with the next slot.
    pub fn behind(self, next: usize) -> Within
        ensures { result ≡ behind next self }
    {
        Within {
            at: self.end,
            column: self.stop,
            slot: next,
            seen: self.seen,
            waits: self.waits,
        }
    }

    // Where it starts, in a line.
    pub fn start(self, line: u32) -> Point
        ensures { result ≡ starts_at line self }
    {
        Point::new(line, self.column, self.at)
    }

    // Where it ends.
    pub fn finish(self, line: u32) -> Point
        ensures { result ≡ stops_at line self }
    {
        Point::new(line, self.stop, self.end)
    }
}
