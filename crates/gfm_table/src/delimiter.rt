// The states of a delimiter row, by points: the port has the crate's, function for function, and `head` answers by them. The walk over a sheet counts
// by places, in `values`: the search for heads by points was among what took most of its time (docs/PERFORMANCE.md).
ghost use Rattle.std.specs.Prelude.{◌≡◌, ◌≤◌, length, drop};
ghost use Rattle.tokenizer.specs.Bytes.{kind_in};
ghost use Rattle.tokenizer.specs.Points.{past};
ghost use Rattle.tokenizer.specs.Lines.{is_empty, line_body};
ghost use Rattle.tokenizer.specs.Moves.{rest_of, Inside};
ghost use Rattle.gfm_table.specs.Heads.{permitted};
ghost use Rattle.gfm_table.specs.Delimiters.{stretch, blank_at, closed_at, hyphens_at, cell_at, rest_at, values_at, delimiter_at, filler_run};

use crate::values::marked_from;
use tokenizer::event::{LineStart, Point};
use tokenizer::kinds::Kind;
use tokenizer::moves::over;
use tokenizer::partial_space_or_tab::space_ends;
use tokenizer::text::{Sheet, Text};

// What stands between two dividers: nothing but whitespace, or a value. The point is the end of the stretch.
#[derive(Clone, Copy)]
pub enum Cell {
    Empty(Point),
    Value(Point),
}

// The values of a delimiter row: how many, and the end of the line.
#[derive(Clone, Copy)]
pub struct Values {
    pub count: u32,
    pub end: Point,
}

// Whether a stretch ends here: at a divider, a line end or the sheet's end.
pub fn stretch_ends<const MOST: usize>(text: &Text<MOST>, p: Point) -> bool
    ensures { result ≡ is_empty (stretch (kind_in text.now.kinds.now) (rest_of text.now.bytes.now p)) }
{
    matches!(text.ahead(p), Kind::End | Kind::Pipe)
}

// After a value: whitespace, and the end of the stretch.
pub fn head_delimiter_cell_after(text: &Sheet, p: Point) -> Option<Cell>
    requires { Inside text.now.bytes.now p }
    ensures { result ≡ blank_at (kind_in text.now.kinds.now) p (rest_of text.now.bytes.now p) }
{
    let e = text.space_end(p);
    stretch_ends(text, e).then_some(Cell::Value(e))
}

// After a value's hyphens: an optional colon.
pub fn head_delimiter_filler(text: &Sheet, p: Point) -> Option<Cell>
    requires { Inside text.now.bytes.now p }
    ensures { result ≡ closed_at (kind_in text.now.kinds.now) p (rest_of text.now.bytes.now p) }
{
    match text.ahead(p) {
        Kind::Colon => head_delimiter_cell_after(text, over(text.bytes, p)),
        _ => head_delimiter_cell_after(text, p),
    }
}

// At a value's hyphens, after an optional colon.
pub fn head_delimiter_left_alignment_after(text: &Sheet, p: Point) -> Option<Cell>
    requires { Inside text.now.bytes.now p }
    ensures { result ≡ hyphens_at (kind_in text.now.kinds.now) p (rest_of text.now.bytes.now p) }
{
    match text.ahead(p) {
        Kind::Hyphen => head_delimiter_filler(text, text.run_end(p, Kind::Hyphen as u8)),
        _ => None,
    }
}

// One stretch of a delimiter row, if it is empty or a value.
pub fn head_delimiter_value_before(text: &Sheet, p: Point) -> Option<Cell>
    requires { Inside text.now.bytes.now p }
    ensures { result ≡ cell_at (kind_in text.now.kinds.now) p (rest_of text.now.bytes.now p) }
{
    let q = text.space_end(p);
    if stretch_ends(text, q) {
        return Some(Cell::Empty(q));
    }
    match text.ahead(q) {
        Kind::Colon => head_delimiter_left_alignment_after(text, over(text.bytes, q)),
        _ => head_delimiter_left_alignment_after(text, q),
    }
}

// The stretches that are left, after n values, if each is a value but for an empty last one.
pub fn head_delimiter_cells(text: &Sheet, p: Point, n: u32) -> Option<Values>
    requires { Inside text.now.bytes.now p × (n ≤ p.index) }
    ensures { result ≡ rest_at (kind_in text.now.kinds.now) n p (rest_of text.now.bytes.now p) }
{
    let mut q = p;
    let mut m = n;
    loop {
        match head_delimiter_value_before(text, q)? {
            Cell::Empty(e) => {
                if text.ahead(e) == Kind::Pipe {
                    return None;
                }
                return Some(Values { count: m, end: e });
            }
            Cell::Value(e) => {
                m += 1;
                if text.ahead(e) != Kind::Pipe {
                    return Some(Values { count: m, end: e });
                }
                q = over(text.bytes, e);
            }
        }
    }
}

// All stretches. A leading divider has nothing before it.
pub fn head_delimiter_before(text: &Sheet, p: Point) -> Option<Values>
    requires { Inside text.now.bytes.now p }
    ensures { result ≡ values_at (kind_in text.now.kinds.now) p (rest_of text.now.bytes.now p) }
{
    let q = text.space_end(p);
    if text.ahead(q) == Kind::Pipe {
        return head_delimiter_cells(text, over(text.bytes, q), 0);
    }
    head_delimiter_cells(text, p, 0)
}

// Whether the indent of the line at a place is permitted. Most lines have none.
pub fn permits_at(text: &Sheet, at: usize, on: bool) -> bool
    requires { at ≤ length text.now.bytes.now }
    ensures { result ≡ permitted (kind_in text.now.kinds.now) on (line_body (drop at text.now.bytes.now)) }
{
    if on && text.kind_at(at) == Kind::Space {
        let start = LineStart {
            line: 1,
            at: at as u32,
        };
        return space_ends(text.bytes, start.point(), Point::INDENT_CAP);
    }
    true
}

// The same at a point, whose place is named here once.
pub fn permits(text: &Sheet, p: Point, on: bool) -> bool
    requires { Inside text.now.bytes.now p × (p.column ≡ 1) }
    ensures { result ≡ permitted (kind_in text.now.kinds.now) on (rest_of text.now.bytes.now p) }
{
    permits_at(text, p.index as usize, on)
}

// The delimiter row, if the line is one: the number of its values and its end.
pub fn head_delimiter_row(text: &Sheet, p: Point, on: bool) -> Option<Values>
    requires { Inside text.now.bytes.now p × (p.column ≡ 1) }
    ensures { result ≡ delimiter_at (kind_in text.now.kinds.now) on p (rest_of text.now.bytes.now p) }
{
    if !permits(text, p, on) || !marked_from(text, p.index as usize) {
        return None;
    }
    head_delimiter_before(text, p).filter(|values| values.count != 0)
}

// As `head_delimiter_row`, but a line whose first byte is no whitespace, divider, hyphen or colon is refused at once: most are such.
pub fn head_delimiter_start(text: &Sheet, p: Point, on: bool) -> Option<Values>
    requires { Inside text.now.bytes.now p × (p.column ≡ 1) }
    ensures { result ≡ delimiter_at (kind_in text.now.kinds.now) on p (rest_of text.now.bytes.now p) }
{
    match text.ahead(p) {
        Kind::Space | Kind::Pipe | Kind::Hyphen | Kind::Colon => head_delimiter_row(text, p, on),
        _ => None,
    }
}

// The end of a run of bytes that a delimiter row names fillers. It goes by points, and not to `fillers_end`: each byte's column is counted on the way.
pub fn filler_end(text: &Sheet, p: Point) -> Point
    requires { Inside text.now.bytes.now p }
    ensures { result ≡ past p (filler_run (kind_in text.now.kinds.now) (rest_of text.now.bytes.now p)) }
{
    let mut q = p;
    loop {
        match text.ahead(q) {
            Kind::Space | Kind::End | Kind::Pipe | Kind::Colon => {
                return q;
            }
            _ => {
                q = over(text.bytes, q);
            }
        }
    }
}
