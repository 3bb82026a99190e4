// Heads by their point: questions 3 to 7.
ghost use Rattle.std.specs.Prelude.{◌≡◌};
ghost use Rattle.tokenizer.specs.Bytes.{kind_in};
ghost use Rattle.tokenizer.specs.Moves.{Inside};
ghost use Rattle.gfm_table.specs.Answers.{head_at};

use crate::delimiter::{head_delimiter_start, permits};
use crate::states::row;
use tokenizer::event::Point;
use tokenizer::lines::end_at;
use tokenizer::refusal::Refusal;
use tokenizer::text::Sheet;

// A head: its cells, the pieces of its line, where its delimiter row starts, and where that ends.
#[derive(Clone, Copy)]
pub struct Opened {
    pub cells: u32,
    pub pieces: u32,
    pub delimiter: Point,
    pub end: Point,
}

// Questions 3 to 7 of a head line and the line after it.
pub fn head_at(text: &Sheet, p: Point, on: bool, stray: bool) -> Result<Opened, Refusal>
    requires { Inside text.now.bytes.now p × (p.column ≡ 1) }
    ensures { result ≡ head_at (kind_in text.now.kinds.now) text.now.bytes.now p on stray }
{
    if !permits(text, p, on) {
        return Err(Refusal::IndentTooWide);
    }
    let r = row(text, p);
    let Some(n) = end_at(text.bytes, r.at) else {
        return Err(Refusal::NoHeadLine);
    };
    if r.size_b <= 1 {
        return Err(Refusal::NoHeadLine);
    }
    if stray {
        return Err(Refusal::LazyOrPierced);
    }
    let delimiter = r.at.next_line(n);
    let Some(values) = head_delimiter_start(text, delimiter, on) else {
        return Err(Refusal::NoDelimiterRow);
    };
    if values.count != r.size {
        return Err(Refusal::ColumnsDiffer);
    }
    Ok(Opened {
        cells: values.count,
        pieces: r.count,
        delimiter,
        end: values.end,
    })
}
