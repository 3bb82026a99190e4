// The records of the result, one after the other, over edits that rise and fit.
ghost use Rattle.std.specs.Prelude.{◌≡◌, ◌<◌, ◌≤◌, ◌^◌, length, drop};
ghost use Rattle.edit_order.specs.EditSlots.{edits_of};
ghost use Rattle.edit_order.specs.Edits.{removed};
ghost use Rattle.edit_map.specs.EditCursor.{leading};
ghost use Rattle.edit_map.specs.Records.{left_of, Fits, Tells, CanGive, Gives};
ghost use Rattle.std.specs.Iterator.{item_count};

use edit_order::edit_slots;
use edit_order::edit_slots::Edit;
use tokenizer::event::Event;

// Edits of one position, side by side: how many, and what they remove together.
#[derive(Clone, Copy)]
pub struct Group {
    pub size: usize,
    pub removes: usize,
}

// Among the additions that go before, of `size` edits at one position from number `edit` on: those of the first `left` edits are to come, the
// last first. Of the current one `off` records have come. The list goes on at `next`.
#[derive(Clone, Copy)]
pub struct Backward {
    pub edit: usize,
    pub size: usize,
    pub left: usize,
    pub off: usize,
    pub next: usize,
}

// Among the other additions, of which those of `left` edits from number `edit` on are to come, the first first.
#[derive(Clone, Copy)]
pub struct Forward {
    pub edit: usize,
    pub left: usize,
    pub off: usize,
    pub next: usize,
}

// Where the result is taken from next.
#[derive(Clone, Copy)]
pub enum Cursor {
    // Position `at` of the list is next; the edits from number `edit` on are to come.
    Between { at: usize, edit: usize },
    Back(Backward),
    Forth(Forward),
}

// A step of the cursor: a record and the cursor behind it, another cursor, or the end.
#[derive(Clone, Copy)]
pub enum Stepped {
    Gives(Event, Cursor),
    On(Cursor),
    End,
}

// What a result is made of: a list, the edits of it, and the pool of what they add.
#[derive(Clone, Copy)]
pub struct Walk<'a> {
    pub list: &'a [Event],
    pub edits: &'a [usize],
    pub pool: &'a [Event],
}

// The records of a result that are still to come.
#[derive(Clone, Copy)]
pub struct Records<'a> {
    pub walk: Walk<'a>,
    pub cursor: Cursor,
}

// The edits at one position, from edit i on.
fn gather(edits: &[usize], i: usize, at: usize) -> Group
    requires { (i ≤ length (edits_of edits.now)) × (removed (leading at (drop i (edits_of edits.now))) < 2 ^ 64) }
    ensures { (result.size ≡ length (leading at (drop i (edits_of edits.now)))) × (result.removes ≡ removed (leading at (drop i (edits_of edits.now)))) }
{
    let mut g = Group {
        size: 0,
        removes: 0,
    };
    for group in &edit_slots::groups(edits)[i..] {
        let e = Edit::from(*group);
        if e.at != at {
            return g;
        }
        g = Group {
            size: g.size + 1,
            removes: g.removes + e.removes,
        };
    }
    g
}

impl Walk<'_> {
    // A step from position `at` of the list.
    fn between(self, at: usize, edit: usize) -> Stepped
        requires { Fits self (Cursor.Between at edit) }
        ensures { Tells self.entry (Cursor.Between at edit) result }
    {
        if edit < edit_slots::number(self.edits) {
            let e = edit_slots::get(self.edits, edit);
            if e.at < at {
                return Stepped::On(Cursor::Between { at, edit: edit + 1 });
            }
            if e.at == at {
                let g = gather(self.edits, edit, at);
                return Stepped::On(Cursor::Back(Backward {
                    edit,
                    size: g.size,
                    left: g.size,
                    off: 0,
                    next: at + g.removes,
                }));
            }
        }
        if at < self.list.len() {
            return Stepped::Gives(self.list[at], Cursor::Between { at: at + 1, edit });
        }
        Stepped::End
    }

    // A step over the additions that go before.
    fn back(self, b: Backward) -> Stepped
        requires { Fits self (Cursor.Back b) }
        ensures { Tells self.entry (Cursor.Back b) result }
    {
        if b.left == 0 {
            return Stepped::On(Cursor::Forth(Forward {
                edit: b.edit,
                left: b.size,
                off: 0,
                next: b.next,
            }));
        }
        let e = edit_slots::get(self.edits, b.edit + (b.left - 1));
        if e.before != 0 && b.off < e.adds {
            let on = Backward {
                off: b.off + 1,
                ..b
            };
            return Stepped::Gives(self.pool[e.from + b.off], Cursor::Back(on));
        }
        Stepped::On(Cursor::Back(Backward {
            left: b.left - 1,
            off: 0,
            ..b
        }))
    }

    // A step over the other additions.
    fn forth(self, f: Forward) -> Stepped
        requires { Fits self (Cursor.Forth f) }
        ensures { Tells self.entry (Cursor.Forth f) result }
    {
        if f.left == 0 {
            return Stepped::On(Cursor::Between {
                at: f.next,
                edit: f.edit,
            });
        }
        let e = edit_slots::get(self.edits, f.edit);
        if e.before == 0 && f.off < e.adds {
            let on = Forward {
                off: f.off + 1,
                ..f
            };
            return Stepped::Gives(self.pool[e.from + f.off], Cursor::Forth(on));
        }
        Stepped::On(Cursor::Forth(Forward {
            edit: f.edit + 1,
            left: f.left - 1,
            off: 0,
            ..f
        }))
    }

    // One step: a record, or on to the next edit.
    fn step(self, c: Cursor) -> Stepped
        requires { Fits self c }
        ensures { Tells self.entry c result }
    {
        match c {
            Cursor::Between { at, edit } => self.between(at, edit),
            Cursor::Back(b) => self.back(b),
            Cursor::Forth(f) => self.forth(f),
        }
    }
}

impl Iterator for Records<'_> {
    type Item = Event;

    ghost can_next = { CanGive };

    ghost next_gives = { Gives };

    ghost remaining = { λ s. item_count left_of s };

    // The next record, if one is to come.
    fn next(&mut self) -> Option<Event> {
        let walk = self.walk;
        let mut c = self.cursor;
        loop {
            match walk.step(c) {
                Stepped::Gives(e, next) => {
                    self.cursor = next;
                    return Some(e);
                }
                Stepped::On(next) => {
                    c = next;
                }
                Stepped::End => {
                    // Kept too: who asks again does not walk again over edits that add nothing.
                    self.cursor = c;
                    return None;
                }
            }
        }
    }
}
