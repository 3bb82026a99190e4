// Moves over whole bytes of a line: a tab at once, and runs of one kind.
ghost use Rattle.std.specs.Prelude.{◌≡◌, ◌<◌, ◌+◌, length, drop};
ghost use Rattle.tokenizer.specs.Bytes.{kind_number, kind_in};
ghost use Rattle.tokenizer.specs.Points.{past};
ghost use Rattle.tokenizer.specs.Lines.{line_body, indent, blank};
ghost use Rattle.tokenizer.specs.Moves.{rest_of, over_at, run_of, Inside};

use crate::event::Point;
use crate::kinds::Kind;
use crate::text::{Sheet, Text};

// The point after the byte at a point.
pub fn over(s: &[u8], p: Point) -> Point
    requires { Inside s.now p × (p.index < length s.now) }
    ensures { result ≡ over_at s.now p }
{
    p.over(s[p.index as usize])
}

impl<const MOST: usize> Text<'_, MOST> {
    // Where the bytes of the line end that a place lies in: kind 2 is that of the bytes 10 and 13. With a `for` over the places a line
    // without a table took 9.1 instructions a byte, with this loop 6.1.
    pub fn line_stop(&self, at: usize) -> usize
        ensures { result ≡ at + length (line_body (drop at self.now.bytes.now)) }
    {
        let mut i = at;
        while self.kind_at(i) != Kind::End {
            i += 1;
        }
        i
    }

    // Where a run of bytes of one kind ends, from a place on, with the loop of `line_stop`: by `for` in both the typical sheet took 116 instructions
    // a byte, and 113 so.
    pub fn run_stop(&self, at: usize, k: Kind) -> usize
        requires { kind_number k ≡ 2 → ⊥ }
        ensures { result ≡ at + length (run_of (kind_in self.now.kinds.now) (kind_number k) (line_body (drop at self.now.bytes.now))) }
    {
        let mut i = at;
        while self.kind_at(i) == k {
            i += 1;
        }
        i
    }

    // Where a run of spaces and tabs ends, from a place on.
    pub fn space_stop(&self, at: usize) -> usize
        ensures { result ≡ at + length (indent (kind_in self.now.kinds.now) (line_body (drop at self.now.bytes.now))) }
    {
        self.run_stop(at, Kind::Space)
    }
}

impl Sheet<'_> {
    // The end of a run of bytes of one kind. It goes by points, and not to `run_stop`: each byte's column is counted on the way. The kind is told by
    // its number, of which it took any but 2 before kinds had names: a `Kind` would ask more of callers. No byte has a kind above 6, so such a run
    // is empty.
    pub fn run_end(&self, p: Point, k: u8) -> Point
        requires { Inside self.now.bytes.now p × (k ≡ 2 → ⊥) }
        ensures { result ≡ past p (run_of (kind_in self.now.kinds.now) k (rest_of self.now.bytes.now p)) }
    {
        let mut q = p;
        while self.ahead(q) as u8 == k {
            q = over(self.bytes, q);
        }
        q
    }

    // The end of a run of spaces and tabs, by points as `run_end`.
    pub fn space_end(&self, p: Point) -> Point
        requires { Inside self.now.bytes.now p }
        ensures { result ≡ past p (indent (kind_in self.now.kinds.now) (rest_of self.now.bytes.now p)) }
    {
        self.run_end(p, Kind::Space as u8)
    }

    // Whether the line has nothing but spaces and tabs from a point on.
    pub fn is_blank(&self, p: Point) -> bool
        requires { Inside self.now.bytes.now p }
        ensures { result ≡ blank (kind_in self.now.kinds.now) (rest_of self.now.bytes.now p) }
    {
        self.ahead(self.space_end(p)) == Kind::End
    }
}
