// A sheet's bytes, and the table of kinds that they are read by.
ghost use Rattle.std.specs.Prelude.{◌≡◌, ◌≤◌, length, drop};
ghost use Rattle.tokenizer.specs.Bytes.{kind_number, kind_in, Passes};
ghost use Rattle.tokenizer.specs.Moves.{ahead_of};
ghost use Rattle.tokenizer.specs.Refusals.{answered, length_refusal};

use crate::event::Point;
use crate::kinds::{Kind, kind_in};
use crate::refusal::Refusal;

// The most bytes that a sheet may have (question 1).
pub const MOST_BYTES: usize = 65536;

// A sheet's bytes, at most `MOST`, with a table of kinds that passes.
#[derive(Clone, Copy)]
pub struct Text<'a, const MOST: usize> {
    pub bytes: &'a [u8],
    pub kinds: &'a [u8],
    ghost passes: { Passes kinds.now },
    ghost fits: { length bytes.now ≤ MOST },
}

// A text of any length: no slice has more bytes.
pub type AnyText<'a> = Text<'a, 18446744073709551615>;

// A text that question 1 is answered yes of. A point inside it stays beside it, asked by `Inside`, and is no struct with it: moves make one point
// after another in one sheet, and each would carry the sheet along.
pub type Sheet<'a> = Text<'a, MOST_BYTES>;

// Question 1.
pub fn length_asked(s: &[u8]) -> Result<(), Refusal>
    ensures { result ≡ answered (length_refusal s.now) tt }
{
    if MOST_BYTES < s.len() {
        return Err(Refusal::SheetTooLong);
    }
    Ok(())
}

impl<const MOST: usize> Text<'_, MOST> {
    // The same text, where question 1 is answered yes.
    pub fn short(&self) -> Sheet<'_>
        requires { length self.now.bytes.now ≤ 65536 }
        ensures { (result.bytes.now ≡ self.now.bytes.now) × (result.kinds.now ≡ self.now.kinds.now) }
    {
        Text {
            bytes: self.bytes,
            kinds: self.kinds,
        }
    }

    // The kind of the byte at a place; the end of the sheet counts as a line end.
    pub fn kind_at(&self, at: usize) -> Kind
        ensures { kind_number result ≡ ahead_of (kind_in self.now.kinds.now) (drop at self.now.bytes.now) }
    {
        self.bytes
            .get(at)
            .map_or(Kind::End, |b| kind_in(self.kinds, *b))
    }

    // The same at a point. It names the place of a point once, for all who ask by points.
    pub fn ahead(&self, p: Point) -> Kind
        ensures { kind_number result ≡ ahead_of (kind_in self.now.kinds.now) (drop p.index self.now.bytes.now) }
    {
        self.kind_at(p.index as usize)
    }
}
