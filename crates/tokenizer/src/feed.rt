// The feed: a point and the byte that is read there, moved unit by unit, by value or lent and in place. An attempt is a kept copy of it.
ghost use Rattle.std.specs.Prelude.{◌≡◌, ◌<◌, drop};
ghost use Rattle.tokenizer.specs.Events.{enter, leave};
ghost use Rattle.tokenizer.specs.Feed.{unit_of, current_of, tab_unit, onward, feed_at, inside_end, back, Fed};

use crate::event::{Event, Point};
use crate::lines::{end_length, starts_lf};

// The byte that is read at a point, or the end of the sheet. Not an `Option`: 01 names this form for the current byte.
#[derive(Clone, Copy)]
pub enum Byte {
    At(u8),
    End,
}

// Where the sheet is read: a point, and the byte there.
#[derive(Clone, Copy)]
pub struct Feed {
    pub point: Point,
    pub current: Byte,
}

// What a unit of a byte reads as: a carriage return as a line feed, a tab's units behind its first as spaces.
pub fn unit(b: u8, vs: u8) -> u8
    ensures { result ≡ unit_of vs b }
{
    match b {
        b'\r' => b'\n',
        b'\t' if vs != 0 => b' ',
        _ => b,
    }
}

impl Point {
    // The point after one unit of a tab.
    pub fn tab_unit(self) -> Point
        requires { (self.column < 1000000) × (self.index < 1000000) × (self.vs < 4) }
        ensures { result ≡ tab_unit self }
    {
        if self.column % Self::TAB_STOP == 0 {
            return Point {
                column: self.column + 1,
                index: self.index + 1,
                vs: 0,
                ..self
            };
        }
        Point {
            column: self.column + 1,
            vs: self.vs + 1,
            ..self
        }
    }

    // The point after one unit; at the end of the sheet it stays.
    pub fn onward(self, s: &[u8]) -> Point
        requires { Fed s.now self }
        ensures { result ≡ onward self (drop self.index s.now) }
    {
        let i = self.index as usize;
        if s.len() <= i {
            return self;
        }
        match s[i] {
            b'\t' => self.tab_unit(),
            b'\n' | b'\r' => self.next_line(end_length(s, i)),
            _ => self.over(s[i]),
        }
    }

    // Between the two bytes of a line end, on its carriage return.
    pub fn back(self, s: &[u8]) -> Point
        ensures { result ≡ back s.now self }
    {
        if inside_end(s, self.index as usize) {
            return Point {
                index: self.index - 1,
                ..self
            };
        }
        self
    }
}

// Whether an offset lies between the two bytes of one line end.
pub fn inside_end(s: &[u8], i: usize) -> bool
    ensures { result ≡ inside_end s.now i }
{
    0 < i && starts_lf(s, i) && s[i - 1] == b'\r'
}

// The byte that is read at a point.
pub fn current(s: &[u8], p: Point) -> Byte
    ensures { result ≡ current_of p (drop p.index s.now) }
{
    s.get(p.index as usize)
        .map_or(Byte::End, |b| Byte::At(unit(*b, p.vs)))
}

impl Feed {
    // The feed at a point.
    pub fn at(s: &[u8], p: Point) -> Self
        ensures { result ≡ feed_at s.now p }
    {
        let current = current(s, p);
        Feed { point: p, current }
    }

    // One unit is passed.
    pub fn consume(self, s: &[u8]) -> Feed
        requires { Fed s.now self.point }
        ensures { result ≡ feed_at s.now (onward self.point (drop self.point.index s.now)) }
    {
        let p = self.point;
        Feed::at(s, p.onward(s))
    }

    // One unit is passed, in place: the form that 01 names for a feed that is lent.
    pub fn advance(&mut self, s: &[u8])
        requires { Fed s.now self.old.point }
        ensures { self.new ≡ feed_at s.now (onward self.old.point (drop self.old.point.index s.now)) }
    {
        *self = self.consume(s);
    }

    // A name is entered here, told by its number as at `Event::enter`. No code but callers of the library takes events from a feed. This and the next are two by the tokenizer's own names: one with the kind is
    // no plainer.
    pub fn enter(self, s: &[u8], name: u8) -> Event
        ensures { result ≡ enter name (back s.now self.point) }
    {
        let p = self.point;
        Event::enter(name, p.back(s))
    }

    // A name is left here.
    pub fn exit(self, s: &[u8], name: u8) -> Event
        ensures { result ≡ leave name (back s.now self.point) }
    {
        let p = self.point;
        Event::exit(name, p.back(s))
    }
}
