// What is asked of records, and of names by their numbers.
ghost use Rattle.std.specs.Prelude.{◌≡◌, drop};
ghost use Rattle.edit_map.specs.Align;
ghost use Rattle.edit_map.specs.Base.{is_row_name, is_text_name};

use tokenizer::event::{Event, EventKind, Name};

// Whether a record enters the name n. This and the next are two, since their kind as a parameter would make each use longer, not plainer.
pub fn is_entry(n: u8, e: Event) -> bool
    ensures { result ≡ Align.is_entry n e }
{
    e.kind == EventKind::Enter as u8 && e.name == n
}

// Whether a record leaves the name n.
pub fn is_exit(n: u8, e: Event) -> bool
    ensures { result ≡ Align.is_exit n e }
{
    e.kind == EventKind::Exit as u8 && e.name == n
}

// Whether a name is that of a row.
pub fn is_row_name(n: u8) -> bool
    ensures { result ≡ is_row_name n }
{
    n == Name::GfmTableRow as u8 || n == Name::GfmTableDelimiterRow as u8
}

// Whether a name is that of a cell's text, or of a part of a delimiter value. By its number, which is all that a record of a lent list has.
pub fn is_text_name(n: u8) -> bool
    ensures { result ≡ is_text_name n }
{
    n == Name::Data as u8
        || n == Name::GfmTableDelimiterMarker as u8
        || n == Name::GfmTableDelimiterFiller as u8
}

// The records from a place on, none past the end.
pub fn rest_from(list: &[Event], i: usize) -> &[Event]
    ensures { result.now ≡ drop i list.now }
{
    list.get(i..).unwrap_or(&[])
}
