// Runs of spaces and tabs with a least and a greatest number of units, by value and over a feed that is lent.
ghost use Rattle.std.specs.Prelude.{◌≡◌};
ghost use Rattle.tokenizer.specs.Spaces.{is_space_byte, space_ahead, enough, attempt_of, after_attempt, space_ends, Reading};
ghost use Rattle.tokenizer.specs.Feed.{Fed};

use crate::event::Point;
use crate::feed::{Byte, Feed};
use crate::kinds::Kind;

// Whether a byte is a space or a tab.
pub fn is_space(b: Byte) -> bool
    ensures { result ≡ is_space_byte b }
{
    match b {
        Byte::At(x) => Kind::of(x) == Kind::Space,
        Byte::End => false,
    }
}

// Whether one more unit of whitespace is to be passed.
pub fn space_ahead(f: Feed, left: usize) -> bool
    ensures { result ≡ space_ahead f left }
{
    left != 0 && is_space(f.current)
}

// An attempt by value: the feed behind at least `min` and at most `max` units of whitespace, where there are so many. What is left
// of `max` and the feed are asked in one question, `space_ahead`, as the definition goes on by what is left.
pub fn space_or_tab_attempt(s: &[u8], f: Feed, min: usize, max: usize) -> Option<Feed>
    requires { Reading s.now f }
    ensures { result ≡ attempt_of s.now min max f.point }
{
    let mut q = f;
    let mut left = max;
    while space_ahead(q, left) {
        q = q.consume(s);
        left -= 1;
    }
    (min <= max - left).then_some(q)
}

// The same with a feed that is lent: whether there are so many. If so it stands behind them, and else where it stood.
pub fn space_or_tab_min_max(s: &[u8], f: &mut Feed, min: usize, max: usize) -> bool
    requires { Reading s.now f.old }
    ensures { (result ≡ enough s.now min max f.old.point) × (f.new ≡ after_attempt s.now min max f.old) }
{
    match space_or_tab_attempt(s, *f, min, max) {
        Some(behind) => {
            *f = behind;
            true
        }
        None => false,
    }
}

// Whether no whitespace is read behind at most `max` units of it.
pub fn space_ends(s: &[u8], p: Point, max: usize) -> bool
    requires { Fed s.now p }
    ensures { result ≡ space_ends s.now max p }
{
    let mut f = Feed::at(s, p);
    space_or_tab_min_max(s, &mut f, 0, max);
    !is_space(f.current)
}
