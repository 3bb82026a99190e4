// The cells of a row with what stands in them, written to slots.
ghost use Rattle.std.specs.Prelude.{◌≡◌, ◌≤◌, min};
ghost use Rattle.tokenizer.specs.Bytes.{kind_in};
ghost use Rattle.tokenizer.specs.Points.{start_of};
ghost use Rattle.tokenizer.specs.Moves.{Inside};
ghost use Rattle.edit_map.specs.Base.{most};
ghost use Rattle.edit_map.specs.CellRows.{next_of, step_put, cells_end, cells_wrote};

use crate::cell_steps::{Step, Within, cell_name, next_step, value_name};
use gfm_table::rows::{Reached, RowKind};
use gfm_table::stream::Part;
use tokenizer::event::{Event, LineStart, Link, Point};
use tokenizer::slots::{put, put_if};
use tokenizer::text::Sheet;

// The events of a step are written from its slot on; the next slot, or the greatest number where that is more.
pub fn put_step(slots: &mut [Event], part: Part, line: u32, x: Step) -> usize
    ensures { (result ≡ min (next_of x) most) × (slots.new ≡ step_put part line x slots.old) }
{
    // A place behind all slots is as good as any further one, and six more fit.
    let first = x.slot.min(slots.len());
    let start = x.start(line);
    let finish = x.finish(line);
    let link = if x.linked { Link::Text } else { Link::None };
    let cell = cell_name(part);
    let value = value_name(part);
    let entered = put_if(slots, x.opens, first, cell.exit(start));
    let opened = put_if(slots, x.opens, entered, cell.enter(start));
    let begin = put_if(slots, x.enters, opened, value.enter(start));
    put(
        slots,
        begin,
        Event {
            link: link as u8,
            ..x.name.enter(start)
        },
    );
    put(slots, begin + 1, x.name.exit(finish));
    let next = put_if(slots, x.leaves, begin + 2, value.exit(finish));
    x.slot.saturating_add(next - first)
}

// The cells of a row with what stands in them, from its first byte, into the slots from a place on.
pub fn write_cells<R: RowKind>(
    text: &Sheet,
    from: LineStart,
    slots: &mut [Event],
    to: usize,
) -> Reached
    requires { Inside text.now.bytes.now (start_of from) × (to ≤ 4294967296) }
    ensures { (result ≡ cells_end (kind_in text.now.kinds.now) text.now.bytes.now R.part (start_of from) to) × (slots.new ≡ cells_wrote (kind_in text.now.kinds.now) text.now.bytes.now R.part (start_of from) to slots.old) }
{
    let part = R::part();
    put(slots, to, cell_name(part).enter(from.point()));
    let mut w = Within::first(from, to);
    while let Some(x) = next_step::<R>(text, w) {
        let next = put_step(slots, part, from.line, x);
        w = x.behind(next);
    }
    let end = Point::new(from.line, w.column, w.at);
    put(slots, w.slot, cell_name(part).exit(end));
    w.reached()
}
