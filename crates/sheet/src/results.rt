// The result events of a table, written to slots row by row, by places. Its functions are as those of `tables`: one over both would be a trait whose
// ghost part has the events of each part of a table, with a law for each, no plainer.
ghost use Rattle.std.specs.Prelude.{◌≡◌, ◌+◌, length};
ghost use Rattle.tokenizer.specs.Bytes.{kind_in};
ghost use Rattle.tokenizer.specs.Points.{start_of};
ghost use Rattle.tokenizer.specs.Events.{GfmTableHead, leave};
ghost use Rattle.tokenizer.specs.Places.{end_of};
ghost use Rattle.tokenizer.specs.Slots.{wrote};
ghost use Rattle.tokenizer.specs.Moves.{line_at, after, Inside};
ghost use Rattle.edit_map.specs.Tables.{resolved_rows, resolved_body, resolved_table};
ghost use Rattle.sheet.specs.From.{AtLine, here};
ghost use Rattle.sheet.specs.Spans.{last_point, last_stop};
ghost use Rattle.sheet.specs.Placing.{point_at, written_at, AtEnd, Few, table_at};
ghost use Rattle.sheet.specs.Results.{row_result, head_result, body_after};

use crate::tables::{Written, write_break, write_exit};
use edit_map::cell_rows::write_cells;
use gfm_table::rows::{DelimiterRow, RowKind, TextRow};
use tokenizer::event::{Event, LineStart, Name};
use tokenizer::slots::put;
use tokenizer::text::Sheet;

// A row: its entry, its cells and its exit. `raw_row` is another, for pieces: what one over both would promise names both writers.
pub fn result_row<R: RowKind>(
    text: &Sheet,
    from: LineStart,
    slots: &mut [Event],
    to: usize,
) -> Written
    requires { Inside text.now.bytes.now (start_of from) × Few to (row_result (kind_in text.now.kinds.now) text.now.bytes.now R.part (start_of from)) }
    ensures { (result ≡ written_at (end_of (here text.now.bytes.now (start_of from))) (to + length (row_result (kind_in text.now.kinds.now) text.now.bytes.now R.part (start_of from))))
        × (slots.new ≡ wrote to (row_result (kind_in text.now.kinds.now) text.now.bytes.now R.part (start_of from)) slots.old) }
{
    let name = R::part().row_name();
    put(slots, to, name.enter(from.point()));
    let r = write_cells::<R>(text, from, slots, to + 1);
    write_exit(name, Written::of(from.line, r), slots)
}

// A table up to its head's exit.
pub fn result_head(text: &Sheet, from: LineStart, slots: &mut [Event], to: usize) -> Written
    requires { AtLine text.now.bytes.now (start_of from) × ((line_at text.now.bytes.now (start_of from)).end ≡ 0 → ⊥) × Few to (head_result (kind_in text.now.kinds.now) text.now.bytes.now (start_of from)) }
    ensures { (result ≡ written_at (end_of (here text.now.bytes.now (after text.now.bytes.now (start_of from)))) (to + length (head_result (kind_in text.now.kinds.now) text.now.bytes.now (start_of from))))
        × (slots.new ≡ wrote to (head_result (kind_in text.now.kinds.now) text.now.bytes.now (start_of from)) slots.old) }
{
    put(slots, to, Name::GfmTable.enter(from.point()));
    put(slots, to + 1, Name::GfmTableHead.enter(from.point()));
    let h = result_row::<TextRow>(text, from, slots, to + 2);
    let b = write_break(text.bytes, h, slots);
    let d = result_row::<DelimiterRow>(text, b.start(), slots, b.slot);
    write_exit(Name::GfmTableHead, d, slots)
}

// The body rows behind a line of a table, up to the place where the last one ends.
pub fn rows_behind(text: &Sheet, w: Written, stop: u32, slots: &mut [Event]) -> Written
    requires { AtEnd text.now.bytes.now w × (stop ≡ last_stop (kind_in text.now.kinds.now) text.now.bytes.now (point_at w)) × Few w.slot (resolved_rows (body_after (kind_in text.now.kinds.now) text.now.bytes.now (point_at w))) }
    ensures { (result ≡ written_at (last_point (kind_in text.now.kinds.now) text.now.bytes.now (point_at w)) (w.slot + length (resolved_rows (body_after (kind_in text.now.kinds.now) text.now.bytes.now (point_at w)))))
        × (slots.new ≡ wrote w.slot (resolved_rows (body_after (kind_in text.now.kinds.now) text.now.bytes.now (point_at w))) slots.old) }
{
    let mut x = w;
    while x.at < stop {
        let b = write_break(text.bytes, x, slots);
        x = result_row::<TextRow>(text, b.start(), slots, b.slot);
    }
    x
}

// The body of a table behind its head, entered before its first row if there is one, and the table's exit.
pub fn result_body(text: &Sheet, w: Written, stop: u32, slots: &mut [Event]) -> Written
    requires { AtEnd text.now.bytes.now w × (stop ≡ last_stop (kind_in text.now.kinds.now) text.now.bytes.now (point_at w)) × Few w.slot (resolved_body (leave GfmTableHead (point_at w)) (body_after (kind_in text.now.kinds.now) text.now.bytes.now (point_at w))) }
    ensures { (result ≡ written_at (last_point (kind_in text.now.kinds.now) text.now.bytes.now (point_at w)) (w.slot + length (resolved_body (leave GfmTableHead (point_at w)) (body_after (kind_in text.now.kinds.now) text.now.bytes.now (point_at w)))))
        × (slots.new ≡ wrote w.slot (resolved_body (leave GfmTableHead (point_at w)) (body_after (kind_in text.now.kinds.now) text.now.bytes.now (point_at w))) slots.old) }
{
    if stop <= w.at {
        return write_exit(Name::GfmTable, w, slots);
    }
    let b = write_break(text.bytes, w, slots);
    put(slots, b.slot, Name::GfmTableBody.enter(b.point()));
    let first = result_row::<TextRow>(text, b.start(), slots, b.slot + 1);
    let last = rows_behind(text, first, stop, slots);
    let end = write_exit(Name::GfmTableBody, last, slots);
    write_exit(Name::GfmTable, end, slots)
}

// A table, from its entry to its exit.
pub fn result_table(
    text: &Sheet,
    from: LineStart,
    stop: u32,
    slots: &mut [Event],
    to: usize,
) -> Written
    requires { AtLine text.now.bytes.now (start_of from) × ((line_at text.now.bytes.now (start_of from)).end ≡ 0 → ⊥) × (stop ≡ last_stop (kind_in text.now.kinds.now) text.now.bytes.now (after text.now.bytes.now (start_of from))) × Few to (resolved_table (table_at (kind_in text.now.kinds.now) text.now.bytes.now (start_of from))) }
    ensures { (result ≡ written_at (last_point (kind_in text.now.kinds.now) text.now.bytes.now (after text.now.bytes.now (start_of from))) (to + length (resolved_table (table_at (kind_in text.now.kinds.now) text.now.bytes.now (start_of from)))))
        × (slots.new ≡ wrote to (resolved_table (table_at (kind_in text.now.kinds.now) text.now.bytes.now (start_of from))) slots.old) }
{
    let h = result_head(text, from, slots, to);
    result_body(text, h, stop, slots)
}
