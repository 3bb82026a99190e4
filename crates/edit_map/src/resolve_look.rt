// The look ahead behind a piece, up to a divider or the row's end.
ghost use Rattle.std.specs.Prelude.{◌≡◌};
ghost use Rattle.edit_map.specs.Base.{plus_of};
ghost use Rattle.edit_map.specs.Cursors.{look_start, look_text, look_on, asks, reads};

use crate::resolve_base::is_text_name;
use crate::resolve_turn::{Mode, Phase};
use std::ops::ControlFlow;
use tokenizer::event::{Event, Name};

// What a look ahead found behind a piece; a brief one ends where something solid is found.
#[derive(Clone, Copy)]
pub struct Look {
    pub count: usize,
    pub ahead: usize,
    pub solid: bool,
    pub brief: bool,
}

impl Look {
    // The start of a look ahead: the exit of the piece at hand is 1 record ahead. At a divider it is brief.
    pub fn start(this: Event) -> Self
        ensures { result ≡ look_start this }
    {
        Look {
            count: 1,
            ahead: 1,
            solid: false,
            brief: this.name == Name::GfmTableCellDivider as u8,
        }
    }

    // It goes on behind a text, or breaks off there if it is brief.
    fn past_text(self) -> ControlFlow<Self, Self>
        ensures { result ≡ look_text self }
    {
        if self.brief {
            ControlFlow::Break(self)
        } else {
            ControlFlow::Continue(self)
        }
    }

    // One more record; it breaks off at what is neither whitespace nor text, and a brief one at a text.
    pub fn further(self, e: Event) -> ControlFlow<Self, Self>
        ensures { result ≡ look_on (plus_of self.count 1) self e }
    {
        let n = self.count.saturating_add(1);
        if e.name == Name::SpaceOrTab as u8 {
            return ControlFlow::Continue(Look { count: n, ..self });
        }
        if is_text_name(e.name) {
            let found = Look {
                count: n,
                ahead: n,
                solid: true,
                ..self
            };
            return found.past_text();
        }
        ControlFlow::Break(Look {
            solid: self.solid || e.name == Name::GfmTableCellDivider as u8,
            ..self
        })
    }
}

impl Mode {
    // Whether the next turn asks for a look ahead.
    pub fn asks(self, this: Event) -> bool
        ensures { result ≡ asks self this }
    {
        self.phase == Phase::Piece
            && this.name != Name::SpaceOrTab as u8
            && (self.seen || this.name != Name::GfmTableCellDivider as u8)
    }

    // Whether the next turn reads the next record.
    pub fn reads_next(self) -> bool
        ensures { result ≡ reads self.phase }
    {
        self.phase == Phase::RowExit || self.phase == Phase::HeadExit
    }
}
