// The alignments of a table, written to lent slots.
ghost use Rattle.std.specs.Prelude.{◌≡◌, ◌≤◌, ◌<◌, ◌+◌, length, Some};
ghost use Rattle.tokenizer.specs.declared.kinds.Kind.TheVariants.{Space};
ghost use Rattle.tokenizer.specs.Bytes.{kind_in};
ghost use Rattle.sheet.specs.Aligning.{line_from, aligns_from, line_alignments, end_numbers, scanned, filled, filled_if, Marked};

use edit_map::infer_step::Alignment;
use gfm_table::values::values_start;
use tokenizer::kinds::Kind;
use tokenizer::text::Sheet;

// One stretch of a delimiter row: the kinds of its first and last byte that is no whitespace, if there is one, and its end.
#[derive(Clone, Copy)]
pub struct Ends {
    pub first: Option<Kind>,
    pub last: Option<Kind>,
    pub end: usize,
}

// One stretch of a delimiter row: its alignment, if it is not empty, and its end.
#[derive(Clone, Copy)]
pub struct Mark {
    pub align: Option<Alignment>,
    pub end: usize,
}

// The first stretch from a place on, byte by byte: the record with its end is the state that the definition goes on by, so no place is counted
// beside it.
pub fn scan_stretch(text: &Sheet, at: usize) -> Ends
    requires { at ≤ length text.now.bytes.now }
    ensures { (end_numbers result ≡ scanned (kind_in text.now.kinds.now) at (line_from text.now.bytes.now at)) × (result.first ≡ Some Space → ⊥) }
{
    let mut e = Ends {
        first: None,
        last: None,
        end: at,
    };
    loop {
        match text.kind_at(e.end) {
            Kind::End | Kind::Pipe => {
                return e;
            }
            Kind::Space => {}
            k => {
                e.first = e.first.or(Some(k));
                e.last = Some(k);
            }
        }
        e.end += 1;
    }
}

// The first stretch from a place on: what it tells.
pub fn mark_at(text: &Sheet, at: usize) -> Mark
    requires { at ≤ length text.now.bytes.now }
    ensures { Marked (kind_in text.now.kinds.now) (line_from text.now.bytes.now at) at result }
{
    let e = scan_stretch(text, at);
    let last = e.last == Some(Kind::Colon);
    Mark {
        align: e.first.map(|k| Alignment::of(k == Kind::Colon, last)),
        end: e.end,
    }
}

// The alignments of the stretches from a place on, into the first of the slots.
pub fn align_rest(text: &Sheet, at: usize, slots: &mut [u8])
    requires { (at ≤ length text.now.bytes.now) × (length (aligns_from (kind_in text.now.kinds.now) text.now.bytes.now at) ≤ length slots.old) }
    ensures { slots.new ≡ filled 0 (aligns_from (kind_in text.now.kinds.now) text.now.bytes.now at) slots.old }
{
    let mut i = at;
    for slot in slots.iter_mut() {
        let m = mark_at(text, i);
        let last = text.kind_at(m.end) != Kind::Pipe;
        if last && m.align.is_none() {
            return;
        }
        *slot = m.align.unwrap_or(Alignment::None).number();
        if last {
            return;
        }
        i = m.end + 1;
    }
}

// One table's alignments, from its delimiter line, into the first of the slots.
pub fn align_line(text: &Sheet, at: usize, slots: &mut [u8])
    requires { (at ≤ length text.now.bytes.now) × (length (line_alignments (kind_in text.now.kinds.now) text.now.bytes.now at) ≤ length slots.old) }
    ensures { slots.new ≡ filled 0 (line_alignments (kind_in text.now.kinds.now) text.now.bytes.now at) slots.old }
{
    align_rest(text, values_start(text, at), slots);
}

// The same from a slot on, where there are slots enough: the slots that are left are lent on.
pub fn align_from(text: &Sheet, at: usize, cells: usize, slots: &mut [u8], n: usize)
    requires { (at ≤ length text.now.bytes.now) × (cells ≡ length (line_alignments (kind_in text.now.kinds.now) text.now.bytes.now at)) × (n + cells < 1000000000000) }
    ensures { slots.new ≡ filled_if n (line_alignments (kind_in text.now.kinds.now) text.now.bytes.now at) slots.old }
{
    if n + cells <= slots.len() {
        align_line(text, at, &mut slots[n..]);
    }
}
