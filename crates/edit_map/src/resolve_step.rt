// The resolver as a stream of result records.
ghost use Rattle.std.specs.Prelude.{◌≡◌};
ghost use Rattle.edit_map.specs.Cursors.{is_over, moves, cursor_at};

use crate::resolve_turn::{Mode, Phase, Turn};
use gfm_table::stream::Part;
use tokenizer::event::{Event, EventKind};

// Where the stream stands in the list.
#[derive(Clone, Copy)]
pub struct Cursor {
    pub mode: Mode,
    pub at: usize,
}

impl Cursor {
    // Before the first table of a list.
    pub const FRONT: Cursor = Cursor {
        mode: Mode {
            phase: Phase::Out,
            part: Part::Head,
            seen: false,
            waits: false,
            left: 0,
        },
        at: 0,
    };

    // Before the table at a place.
    pub fn at(at: usize) -> Self
        ensures { result ≡ cursor_at at }
    {
        Cursor { at, ..Self::FRONT }
    }

    // Whether the stream is at its end: no table follows.
    pub fn is_over(self, this: Event) -> bool
        ensures { result ≡ is_over self this }
    {
        self.mode.phase == Phase::Out && this.kind == EventKind::Blank as u8
    }

    // After a turn.
    pub fn after(self, t: Turn) -> Self
        ensures { result ≡ moves self t }
    {
        Cursor {
            mode: t.mode,
            at: self.at.saturating_add(t.by),
        }
    }
}
