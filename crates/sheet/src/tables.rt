// The raw events of a sheet's tables, written to slots row by row, by places.
ghost use Rattle.std.specs.Prelude.{◌≡◌, ◌+◌, ◌<◌, length, set};
ghost use Rattle.tokenizer.specs.Bytes.{kind_in};
ghost use Rattle.tokenizer.specs.Points.{start_of};
ghost use Rattle.tokenizer.specs.Events.{number, leave};
ghost use Rattle.tokenizer.specs.Slots.{wrote};
ghost use Rattle.tokenizer.specs.Moves.{Inside, line_at, after};
ghost use Rattle.tokenizer.specs.Places.{end_of};
ghost use Rattle.edit_map.specs.Tables.{raw_table};
ghost use Rattle.sheet.specs.From.{AtLine, here};
ghost use Rattle.sheet.specs.Spans.{last_point, last_stop};
ghost use Rattle.sheet.specs.Placing.{point_at, written_at, AtEnd, Few, break_events, row_events, next_events, heads_events, rows_after, table_at};

use gfm_table::rows::{DelimiterRow, Reached, RowKind, TextRow, write_row};
use tokenizer::event::{Event, LineStart, Name, Point};
use tokenizer::lines::line_end;
use tokenizer::slots::put;
use tokenizer::text::Sheet;

// Where the writing has come to: the line, the place and the column there, and the next slot, which goes on past the slots where they are too
// few.
#[derive(Clone, Copy)]
pub struct Written {
    pub line: u32,
    pub at: u32,
    pub column: u32,
    pub slot: usize,
}

impl Written {
    // Where the writing of a row has come to, by its line.
    pub fn of(line: u32, r: Reached) -> Written
        ensures { result ≡ record { line = line; at = r.at; column = r.column; slot = r.slot } }
    {
        Written {
            line,
            at: r.at,
            column: r.column,
            slot: r.slot,
        }
    }

    // The point that it has come to.
    pub fn point(self) -> Point
        ensures { result ≡ point_at self }
    {
        Point::new(self.line, self.column, self.at)
    }

    // The line that it has come to the start of.
    pub fn start(self) -> LineStart
        ensures { result ≡ record { line = self.line; at = self.at } }
    {
        LineStart {
            line: self.line,
            at: self.at,
        }
    }

    // The same place, with one slot more written.
    pub fn one_more(self) -> Written
        requires { self.slot < 1000000000000 }
        ensures { result ≡ written_at (point_at self) (self.slot + 1) }
    {
        Written {
            slot: self.slot + 1,
            ..self
        }
    }

    // The start of the line behind a line end, whose two events are written.
    pub fn below(self, s: &[u8]) -> Written
        requires { AtEnd s.now self × (self.slot < 1000000000000) }
        ensures { result ≡ written_at (after s.now (point_at self)) (self.slot + 2) }
    {
        let n = line_end(s, self.at as usize).unwrap_or(0);
        Written {
            line: self.line + 1,
            at: self.at + n,
            column: 1,
            slot: self.slot + 2,
        }
    }
}

// The line end behind a row: its two events, and the start of the line behind it.
pub fn write_break(s: &[u8], w: Written, slots: &mut [Event]) -> Written
    requires { AtEnd s.now w × (w.slot < 1000000000000) }
    ensures { (result ≡ written_at (after s.now (point_at w)) (w.slot + 2)) × (slots.new ≡ wrote w.slot (break_events s.now (point_at w)) slots.old) }
{
    let b = w.below(s);
    put(slots, w.slot, Name::LineEnding.enter(w.point()));
    put(slots, w.slot + 1, Name::LineEnding.exit(b.point()));
    b
}

// A name is left where the writing has come to.
pub fn write_exit(name: Name, w: Written, slots: &mut [Event]) -> Written
    requires { w.slot < 1000000000000 }
    ensures { (result ≡ written_at (point_at w) (w.slot + 1)) × (slots.new ≡ set slots.old w.slot (leave (number name) (point_at w))) }
{
    put(slots, w.slot, name.exit(w.point()));
    w.one_more()
}

// A row: its entry, its pieces and its exit.
pub fn raw_row<R: RowKind>(text: &Sheet, from: LineStart, slots: &mut [Event], to: usize) -> Written
    requires { Inside text.now.bytes.now (start_of from) × Few to (row_events (kind_in text.now.kinds.now) text.now.bytes.now R.part (start_of from)) }
    ensures { (result ≡ written_at (end_of (here text.now.bytes.now (start_of from))) (to + length (row_events (kind_in text.now.kinds.now) text.now.bytes.now R.part (start_of from))))
        × (slots.new ≡ wrote to (row_events (kind_in text.now.kinds.now) text.now.bytes.now R.part (start_of from)) slots.old) }
{
    let name = R::part().row_name();
    put(slots, to, name.enter(from.point()));
    let r = write_row::<R>(text, from, slots, to + 1);
    write_exit(name, Written::of(from.line, r), slots)
}

// The line end behind a row, and the row of the next line.
pub fn raw_next<R: RowKind>(text: &Sheet, w: Written, slots: &mut [Event]) -> Written
    requires { AtEnd text.now.bytes.now w × ((line_at text.now.bytes.now (point_at w)).end ≡ 0 → ⊥) × Few w.slot (next_events (kind_in text.now.kinds.now) text.now.bytes.now R.part (point_at w)) }
    ensures { (result ≡ written_at (end_of (here text.now.bytes.now (after text.now.bytes.now (point_at w)))) (w.slot + length (next_events (kind_in text.now.kinds.now) text.now.bytes.now R.part (point_at w))))
        × (slots.new ≡ wrote w.slot (next_events (kind_in text.now.kinds.now) text.now.bytes.now R.part (point_at w)) slots.old) }
{
    let b = write_break(text.bytes, w, slots);
    raw_row::<R>(text, b.start(), slots, b.slot)
}

// A head: its line, the line end, its delimiter row.
pub fn raw_head(text: &Sheet, from: LineStart, slots: &mut [Event], to: usize) -> Written
    requires { AtLine text.now.bytes.now (start_of from) × ((line_at text.now.bytes.now (start_of from)).end ≡ 0 → ⊥) × Few to (heads_events (kind_in text.now.kinds.now) text.now.bytes.now (start_of from)) }
    ensures { (result ≡ written_at (end_of (here text.now.bytes.now (after text.now.bytes.now (start_of from)))) (to + length (heads_events (kind_in text.now.kinds.now) text.now.bytes.now (start_of from))))
        × (slots.new ≡ wrote to (heads_events (kind_in text.now.kinds.now) text.now.bytes.now (start_of from)) slots.old) }
{
    put(slots, to, Name::GfmTableHead.enter(from.point()));
    let h = raw_row::<TextRow>(text, from, slots, to + 1);
    let d = raw_next::<DelimiterRow>(text, h, slots);
    write_exit(Name::GfmTableHead, d, slots)
}

// The body rows behind a line of a table, up to the place where the last one ends.
pub fn raw_body(text: &Sheet, w: Written, stop: u32, slots: &mut [Event]) -> Written
    requires { AtEnd text.now.bytes.now w × (stop ≡ last_stop (kind_in text.now.kinds.now) text.now.bytes.now (point_at w)) × Few w.slot (rows_after (kind_in text.now.kinds.now) text.now.bytes.now (point_at w)) }
    ensures { (result ≡ written_at (last_point (kind_in text.now.kinds.now) text.now.bytes.now (point_at w)) (w.slot + length (rows_after (kind_in text.now.kinds.now) text.now.bytes.now (point_at w))))
        × (slots.new ≡ wrote w.slot (rows_after (kind_in text.now.kinds.now) text.now.bytes.now (point_at w)) slots.old) }
{
    let mut x = w;
    while x.at < stop {
        x = raw_next::<TextRow>(text, x, slots);
    }
    x
}

// A table, from its head line to the end of its last row.
pub fn raw_table(
    text: &Sheet,
    from: LineStart,
    stop: u32,
    slots: &mut [Event],
    to: usize,
) -> Written
    requires { AtLine text.now.bytes.now (start_of from) × ((line_at text.now.bytes.now (start_of from)).end ≡ 0 → ⊥) × (stop ≡ last_stop (kind_in text.now.kinds.now) text.now.bytes.now (after text.now.bytes.now (start_of from))) × Few to (raw_table (table_at (kind_in text.now.kinds.now) text.now.bytes.now (start_of from))) }
    ensures { (result ≡ written_at (last_point (kind_in text.now.kinds.now) text.now.bytes.now (after text.now.bytes.now (start_of from))) (to + length (raw_table (table_at (kind_in text.now.kinds.now) text.now.bytes.now (start_of from)))))
        × (slots.new ≡ wrote to (raw_table (table_at (kind_in text.now.kinds.now) text.now.bytes.now (start_of from))) slots.old) }
{
    let h = raw_head(text, from, slots, to);
    raw_body(text, h, stop, slots)
}
